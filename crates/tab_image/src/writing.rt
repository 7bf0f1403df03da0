//! An image, put piece by piece.
//!
//! Whoever writes an image puts its front, the count of users and each user, the count of tables and each table, and the mark of the end,
//! in this order. Of a table these are its name, its settings, the count of its rights and each right, the count of its end rows and each
//! row, the count of its records and each record. All of it is of the second version. No piece takes memory, so what is written needn't be held in one place.
//!
//! Each function fails where the output does, and has put a beginning of its piece then.
#![tactic(auto, using(tab_io::proofs::Putting::putting, crate::proofs::WritingLemmas::failing))]

ghost use Rattle.std.specs.Prelude.{◌≡◌, [], ◌∷◌, ◌++◌};
ghost use Rattle.std.specs.List.{flat_map};
ghost use Rattle.tab_io.specs.Writing.{Puts};
ghost use Rattle.tab_codec.specs.Parts.{kind_byte, time_byte, system_bits, table_bits, constraint_bits};
ghost use Rattle.tab_image.specs.Images.{written_version};
ghost use Rattle.tab_image.specs.Spelling.{u8, u16, u32, u64, i64, field, counted, user_bytes, right_bytes, horizon_bytes, settings_bytes, head_bytes, record_bytes, magic_bytes, front_bytes, end_bytes};

use crate::table::{ImageRight, TableHead};
use crate::version::VERSION;
use tab_codec::{
    constraint_bits, put_field, put_length, put_long, put_number, put_short, put_signed,
    system_bits, table_bits, time_byte,
};
use tab_history::{TimeMode, Versions};
use tab_io::{Output, WriteFault, put_byte};
use tab_key::{ByteString, Name, RecordRef};
use tab_label::AuthSet;
use tab_policy::{SystemPermissions, TablePermissions};
use tab_rules::ConstraintSet;
use tab_text::{PutItem, put_each};

/// Puts the front of an image: six bytes, the version, the clock, and the number that the next accepted write gets.
#[tactic(auto, using(tab_io::proofs::Putting::putting), unfolding(crate::specs::Spelling::front_bytes))]
pub fn put_front<W: Output>(output: &mut W, clock: i64, next: u64) -> Result<(), WriteFault>
    ensures { Puts W.Output output.old output.new (front_bytes written_version clock next) result }
{
    put_magic(output)?;
    put_versioned(output, clock, next)
}

#[tactic(auto, using(tab_io::proofs::Putting::putting), unfolding(crate::specs::Spelling::magic_bytes))]
fn put_magic<W: Output>(output: &mut W) -> Result<(), WriteFault>
    ensures { Puts W.Output output.old output.new magic_bytes result }
{
    output.put(b"TABIMG")
}

fn put_versioned<W: Output>(output: &mut W, clock: i64, next: u64) -> Result<(), WriteFault>
    ensures { Puts W.Output output.old output.new (u16 written_version ++ (i64 clock ++ u64 next)) result }
{
    put_short(output, VERSION)?;
    put_clock(output, clock, next)
}

fn put_clock<W: Output>(output: &mut W, clock: i64, next: u64) -> Result<(), WriteFault>
    ensures { Puts W.Output output.old output.new (i64 clock ++ u64 next) result }
{
    put_signed(output, clock)?;
    put_long(output, next)
}

/// Puts the mark of the end of an image.
#[tactic(auto, using(tab_io::proofs::Putting::putting), unfolding(crate::specs::Spelling::end_bytes))]
pub fn put_end<W: Output>(output: &mut W) -> Result<(), WriteFault>
    ensures { Puts W.Output output.old output.new end_bytes result }
{
    output.put(b"END!")
}

/// Puts a count of users, tables, rights or end rows; it has to be below 2^32.
pub fn put_count<W: Output>(output: &mut W, count: usize) -> Result<(), WriteFault>
    ensures { Puts W.Output output.old output.new (u32 count) result }
{
    put_length(output, count)
}

/// Puts a count of records.
pub fn put_record_count<W: Output>(output: &mut W, count: usize) -> Result<(), WriteFault>
    ensures { Puts W.Output output.old output.new (u64 count) result }
{
    put_long(output, count as u64)
}

/// Puts a user's permissions on a table.
#[tactic(auto, using(tab_io::proofs::Putting::putting), unfolding(crate::specs::Spelling::right_bytes))]
pub fn put_right<W: Output>(
    output: &mut W,
    user: &Name,
    held: TablePermissions,
) -> Result<(), WriteFault>
    ensures { Puts W.Output output.old output.new (right_bytes (record { user = user.now; held = held })) result }
{
    put_field(output, user.as_bytes())?;
    put_byte(output, table_bits(&held))
}

/// Puts how a table keeps its columns: its time mode, its number of versions, its constraints, and its horizon.
#[tactic(auto, using(tab_io::proofs::Putting::putting), unfolding(crate::specs::Spelling::settings_bytes))]
pub fn put_settings<W: Output>(
    output: &mut W,
    time: TimeMode,
    versions: Versions,
    constraints: &ConstraintSet,
    horizon: i64,
) -> Result<(), WriteFault>
    ensures { Puts W.Output output.old output.new (settings_bytes written_version time versions constraints.now horizon) result }
{
    put_byte(output, time_byte(time))?;
    put_shown(output, versions, constraints, horizon)
}

fn put_shown<W: Output>(
    output: &mut W,
    versions: Versions,
    constraints: &ConstraintSet,
    horizon: i64,
) -> Result<(), WriteFault>
    ensures { Puts W.Output output.old output.new (u32 versions ++ (u8 (constraint_bits constraints.now) ++ horizon_bytes written_version horizon)) result }
{
    put_number(output, versions.get())?;
    put_taken(output, constraints, horizon)
}

fn put_taken<W: Output>(
    output: &mut W,
    constraints: &ConstraintSet,
    horizon: i64,
) -> Result<(), WriteFault>
    ensures { Puts W.Output output.old output.new (u8 (constraint_bits constraints.now) ++ horizon_bytes written_version horizon) result }
{
    put_byte(output, constraint_bits(constraints))?;
    put_horizon(output, horizon)
}

#[tactic(auto, using(tab_io::proofs::Putting::putting), unfolding(crate::specs::Spelling::horizon_bytes))]
fn put_horizon<W: Output>(output: &mut W, horizon: i64) -> Result<(), WriteFault>
    ensures { Puts W.Output output.old output.new (horizon_bytes written_version horizon) result }
{
    put_signed(output, horizon)
}

/// Puts a user with his system permissions and his authorizations.
#[tactic(auto, using(tab_io::proofs::Putting::putting), unfolding(crate::specs::Spelling::user_bytes))]
pub fn put_user<W: Output>(
    output: &mut W,
    name: &Name,
    system: SystemPermissions,
    authorizations: &AuthSet,
) -> Result<(), WriteFault>
    ensures { Puts W.Output output.old output.new (user_bytes (record { name = name.now; system = system; authorizations = authorizations.now })) result }
{
    put_field(output, name.as_bytes())?;
    put_held(output, system, authorizations)
}

fn put_held<W: Output>(
    output: &mut W,
    system: SystemPermissions,
    authorizations: &AuthSet,
) -> Result<(), WriteFault>
    ensures { Puts W.Output output.old output.new (u8 (system_bits system) ++ counted field authorizations.now) result }
{
    put_byte(output, system_bits(&system))?;
    put_set(output, authorizations)
}

/// Puts all of a table but its records.
#[tactic(auto, using(tab_io::proofs::Putting::putting), unfolding(crate::specs::Spelling::head_bytes))]
pub fn put_head<W: Output>(output: &mut W, head: &TableHead) -> Result<(), WriteFault>
    ensures { Puts W.Output output.old output.new (head_bytes written_version head.now) result }
{
    put_field(output, head.name.as_bytes())?;
    put_kept(output, head)
}

fn put_kept<W: Output>(output: &mut W, head: &TableHead) -> Result<(), WriteFault>
    ensures { Puts W.Output output.old output.new (settings_bytes written_version head.now.time head.now.versions head.now.constraints head.now.horizon ++ (counted right_bytes head.now.rights ++ counted field head.now.ends)) result }
{
    put_settings(
        output,
        head.time,
        head.versions,
        &head.constraints,
        head.horizon,
    )?;
    put_lists(output, head)
}

fn put_lists<W: Output>(output: &mut W, head: &TableHead) -> Result<(), WriteFault>
    ensures { Puts W.Output output.old output.new (counted right_bytes head.now.rights ++ counted field head.now.ends) result }
{
    put_list(output, head.rights.as_slice(), &Right)?;
    put_list(output, head.ends.as_slice(), &EndRow)
}

/// Puts a record. Each of its five byte strings has to be shorter than 2^32.
#[tactic(auto, using(tab_io::proofs::Putting::putting, crate::proofs::WritingLemmas::failing), unfolding(crate::specs::Spelling::record_bytes))]
pub fn put_record<W: Output>(output: &mut W, record: &RecordRef<'_>) -> Result<(), WriteFault>
    ensures { Puts W.Output output.old output.new (record_bytes record.now) result }
{
    put_field(output, record.row())?;
    put_field(output, record.family())?;
    put_field(output, record.qualifier())?;
    put_field(output, record.label())?;
    put_numbers(output, record)
}

fn put_numbers<W: Output>(output: &mut W, record: &RecordRef<'_>) -> Result<(), WriteFault>
    ensures { Puts W.Output output.old output.new (i64 record.now.key.timestamp ++ (u8 (kind_byte record.now.kind) ++ (u64 record.now.seq ++ (u32 record.now.idx ++ field record.now.value)))) result }
{
    put_timestamp(output, record)?;
    put_byte(output, record.kind().rank())?;
    put_place(output, record)
}

fn put_timestamp<W: Output>(output: &mut W, record: &RecordRef<'_>) -> Result<(), WriteFault>
    ensures { Puts W.Output output.old output.new (i64 record.now.key.timestamp) result }
{
    put_signed(output, record.timestamp())
}

fn put_place<W: Output>(output: &mut W, record: &RecordRef<'_>) -> Result<(), WriteFault>
    ensures { Puts W.Output output.old output.new (u64 record.now.seq ++ (u32 record.now.idx ++ field record.now.value)) result }
{
    put_long(output, record.seq())?;
    put_number(output, record.idx())?;
    put_field(output, record.value())
}

// A user's permissions on a table, as an item of a list.
struct Right;

impl PutItem<ImageRight> for Right {
    ghost use Rattle.tab_image.specs.Spelling.{right_bytes};

    ghost text = { λ _ right. right_bytes right };

    fn put_item<W: Output>(&self, output: &mut W, right: &ImageRight) -> Result<(), WriteFault> {
        put_right(output, &right.user, right.held)
    }
}

// A row at which a tablet ends.
struct EndRow;

impl PutItem<ByteString> for EndRow {
    ghost use Rattle.tab_image.specs.Spelling.{field};

    ghost text = { λ _ row. field row };

    fn put_item<W: Output>(&self, output: &mut W, row: &ByteString) -> Result<(), WriteFault> {
        put_field(output, row.as_bytes())
    }
}

// Puts a list: a count, and its items.
#[tactic(auto, using(tab_io::proofs::Putting::putting))]
pub(crate) fn put_list<T, P: PutItem<T>, W: Output>(
    output: &mut W,
    items: &[T],
    how: &P,
) -> Result<(), WriteFault>
    ensures { Puts W.Output output.old output.new (counted (P.text how.now) items.now) result }
{
    put_count(output, items.len())?;
    put_each(output, items, how)
}

// A byte string of a set.
struct Field;

impl PutItem<Vec<u8>> for Field {
    ghost use Rattle.tab_image.specs.Spelling.{field};

    ghost text = { λ _ bytes. field bytes.items };

    fn put_item<W: Output>(&self, output: &mut W, bytes: &Vec<u8>) -> Result<(), WriteFault> {
        put_field(output, bytes)
    }
}

// Puts a set: a count, and its members, rising.
#[tactic(auto, using(tab_io::proofs::Putting::putting))]
fn put_set<W: Output>(output: &mut W, set: &AuthSet) -> Result<(), WriteFault>
    ensures { Puts W.Output output.old output.new (counted field set.now) result }
{
    put_count(output, set.len())?;
    put_members(output, set)
}

#[tactic(auto, using(tab_io::proofs::Putting::putting, crate::proofs::WritingLemmas::each_field))]
fn put_members<W: Output>(output: &mut W, set: &AuthSet) -> Result<(), WriteFault>
    ensures { Puts W.Output output.old output.new (flat_map field set.now) result }
{
    put_each(output, set.terms(), &Field)
}
