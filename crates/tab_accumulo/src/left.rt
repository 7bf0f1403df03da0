//! How many things are left out.
ghost use Rattle.std.specs.Prelude.{◌≡◌, not, sum_by, int_lt};
ghost use Rattle.tab_history.specs.Settings.{least, takes_timestamps};
ghost use Rattle.tab_accumulo.specs.Counting.{capped, left_out, left_of_user, left_of_table, left_of_record};
ghost use Rattle.tab_accumulo.specs.Counting.{left_settings, one_if};

use crate::authorizations::is_bare_root;
use crate::carried::{is_option_word, is_table_name};
use crate::obstacle::terms_obstacle;
use tab_history::TimeMode;
use tab_image::{Image, ImageTable, ImageUser, Records, TableHead};
use tab_key::RecordRef;

/// How many things of the image `put_shell_lines` leaves out, since they can't be carried over exactly: users and tables whole,
/// authorizations of a user, settings of a table, and records. Each is a comment that begins `# left out`; `u64::MAX` stands for more.
/// It takes no memory.
#[tactic(auto, unfolding(crate::specs::Counting::left_out))]
pub fn left_out(image: &Image) -> u64
    ensures { result ≡ capped (left_out image.now) }
{
    let users = left_of_users(image.users.as_slice());
    users.saturating_add(left_of_tables(image.tables.as_slice()))
}

fn left_of_users(users: &[ImageUser]) -> u64
    ensures { result ≡ capped (sum_by left_of_user users.now) }
{
    let mut left: u64 = 0;
    for user in users {
        left = left.saturating_add(left_of_user(user));
    }
    left
}

fn left_of_user(user: &ImageUser) -> u64
    ensures { result ≡ left_of_user user.now }
{
    if is_bare_root(user) {
        return 0;
    }
    match terms_obstacle(user) {
        None => 0,
        Some(_) => 1,
    }
}

fn left_of_tables(tables: &[ImageTable]) -> u64
    ensures { result ≡ capped (sum_by left_of_table tables.now) }
{
    let mut left: u64 = 0;
    for table in tables {
        left = left.saturating_add(left_of_table(table));
    }
    left
}

fn left_of_table(table: &ImageTable) -> u64
    ensures { result ≡ capped (left_of_table table.now) }
{
    if is_table_name(table.head.name.as_bytes()) {
        left_settings(&table.head).saturating_add(left_of_records(&table.records))
    } else {
        1
    }
}

fn left_settings(head: &TableHead) -> u64
    ensures { result ≡ left_settings head.now }
{
    left_time(head.time) + left_horizon(head.horizon)
}

fn left_time(time: TimeMode) -> u64
    ensures { result ≡ one_if (not (takes_timestamps time)) }
{
    match time {
        TimeMode::Any => 0,
        TimeMode::Server => 1,
    }
}

fn left_horizon(horizon: i64) -> u64
    ensures { result ≡ one_if (int_lt least horizon) }
{
    if i64::MIN < horizon { 1 } else { 0 }
}

fn left_of_records(records: &Records) -> u64
    ensures { result ≡ capped (sum_by left_of_record records.now) }
{
    let mut left: u64 = 0;
    for index in 0..records.len() {
        left = left.saturating_add(left_of_record(&records.get(index)));
    }
    left
}

fn left_of_record(written: &RecordRef<'_>) -> u64
    ensures { result ≡ left_of_record written.now }
{
    if is_option_word(written.label()) {
        0
    } else {
        1
    }
}
