//! The conditions on an image: what else must hold of what was read.
ghost use Rattle.std.specs.Prelude.{◌≡◌, is_ok};
ghost use Rattle.std.specs.List.{list_all, list_any};
ghost use Rattle.tab_key.specs.Order.{record_cmp};
ghost use Rattle.tab_label.specs.Reading.{label_of};
ghost use Rattle.tab_policy.specs.Holders.{has_any};
ghost use Rattle.tab_policy.specs.Permissions.{all_system};
ghost use Rattle.tab_policy.specs.Sets.{system_contains};
ghost use Rattle.tab_history.specs.Checks.{too_many_auths};
ghost use Rattle.tab_image.specs.Images.{is_root, has_user};
ghost use Rattle.tab_image.specs.Conditions.{rises, is_short, is_few, is_sane_user, is_accepted, is_sane_record, has_sane_rights, has_sane_ends, has_sane_horizon, has_sane_records, is_sane_table, is_sane};

use crate::byte_order::{ByBytes, rise};
use crate::image::Image;
use crate::known_users::KnownUsers;
use crate::table::{ImageRight, ImageTable};
use crate::user::ImageUser;
use std::alloc::Global;
use tab_history::TimeMode;
use tab_key::{
    ByteString, MAX_AUTHORIZATION_LEN, MAX_AUTHORIZATIONS, MAX_PART_LEN, MAX_UPDATES, RecordRef,
};
use tab_label::{AuthSet, KnownLabels, judge};
use tab_mem::Records;
use tab_policy::{SystemPermission, SystemPermissions, is_root as is_root_name};

// The most that a count of four bytes tells.
const MAX_COUNT: usize = 4_294_967_295;

impl ByBytes for ImageUser {
    ghost bytes = { λ u. u.name };

    fn bytes(&self) -> &[u8] {
        self.name.as_bytes()
    }
}

impl ByBytes for ImageRight {
    ghost bytes = { λ r. r.user };

    fn bytes(&self) -> &[u8] {
        self.user.as_bytes()
    }
}

impl ByBytes for ImageTable {
    ghost bytes = { λ t. t.head.name };

    fn bytes(&self) -> &[u8] {
        self.head.name.as_bytes()
    }
}

// An end row.
impl ByBytes for ByteString {
    ghost bytes = { λ row. row };

    fn bytes(&self) -> &[u8] {
        self.as_bytes()
    }
}

/// Whether all conditions hold of an image.
pub(crate) fn is_sane(alloc: Global, image: &Image) -> bool
    ensures { result ≡ is_sane image.now }
{
    let users = image.users.as_slice();
    let tables = image.tables.as_slice();
    if !are_few(users) {
        return false;
    }
    let Some(known) = KnownUsers::of(users) else {
        return false;
    };
    if !has_root(users) {
        return false;
    }
    if !are_sane_users(users) {
        return false;
    }
    if !are_few(tables) {
        return false;
    }
    if !rise(tables) {
        return false;
    }
    are_sane_tables(alloc, &known, image.next, tables)
}

// Whether a count of four bytes tells how many there are.
fn are_few<T>(items: &[T]) -> bool
    ensures { result ≡ is_few items.now }
{
    items.len() <= MAX_COUNT
}

// Whether this is root, with all system permissions.
fn is_root(user: &ImageUser) -> bool
    ensures { result ≡ is_root user.now }
{
    is_root_name(&user.name) && has_all(user.system)
}

// Whether these are all system permissions.
fn has_all(system: SystemPermissions) -> bool
    ensures { result ≡ list_all (system_contains system) all_system }
{
    SystemPermission::ALL
        .iter()
        .all(|permission| system.contains(*permission))
}

// Whether root is among the users.
fn has_root(users: &[ImageUser]) -> bool
    ensures { result ≡ list_any is_root users.now }
{
    users.iter().any(|user| is_root(user))
}

// Whether the authorizations are over the limits.
fn are_too_many(authorizations: &AuthSet) -> bool
    ensures { result ≡ too_many_auths authorizations.now }
{
    authorizations.len() > MAX_AUTHORIZATIONS || authorizations.has_longer(MAX_AUTHORIZATION_LEN)
}

// Whether a user's authorizations are within the limits, and he may grant system permissions only where he is root.
fn is_sane_user(user: &ImageUser) -> bool
    ensures { result ≡ is_sane_user user.now }
{
    if are_too_many(&user.authorizations) {
        return false;
    }
    !user.system.contains(SystemPermission::Grant) || is_root_name(&user.name)
}

fn are_sane_users(users: &[ImageUser]) -> bool
    ensures { result ≡ list_all is_sane_user users.now }
{
    users.iter().all(|user| is_sane_user(user))
}

// Whether rights rise by user, their users are there, and each is of some permission.
fn are_sane_rights(users: &KnownUsers<'_>, rights: &[ImageRight]) -> bool
    ensures { result ≡ has_sane_rights users.now rights.now }
{
    rise(rights) && are_known(users, rights) && are_held(rights)
}

fn are_known(users: &KnownUsers<'_>, rights: &[ImageRight]) -> bool
    ensures { result ≡ list_all (λ r. has_user users.now r.user) rights.now }
{
    rights.iter().all(|right| users.has(&right.user))
}

fn are_held(rights: &[ImageRight]) -> bool
    ensures { result ≡ list_all (λ r. has_any r.held) rights.now }
{
    rights.iter().all(|right| is_held(right))
}

// Whether the user has a permission.
fn is_held(right: &ImageRight) -> bool
    ensures { result ≡ has_any right.now.held }
{
    !right.held.is_empty()
}

fn are_sane_tables(alloc: Global, users: &KnownUsers<'_>, next: u64, tables: &[ImageTable]) -> bool
    ensures { result ≡ list_all (is_sane_table users.now next) tables.now }
{
    let nobody = AuthSet::empty(alloc);
    tables
        .iter()
        .all(|table| is_sane_table(&nobody, users, next, table))
}

// Whether a table's rights, end rows, horizon and records are as they have to be.
fn is_sane_table(nobody: &AuthSet, users: &KnownUsers<'_>, next: u64, table: &ImageTable) -> bool
    ensures { result ≡ is_sane_table users.now next table.now }
{
    if !are_sane_rights(users, table.head.rights.as_slice()) {
        return false;
    }
    if !are_sane_ends(table.head.ends.as_slice()) {
        return false;
    }
    if !is_sane_horizon(table.head.time, table.head.horizon) {
        return false;
    }
    are_sane_records(nobody, next, &table.records)
}

// Whether end rows rise, and neither they nor their count are over the limits.
fn are_sane_ends(ends: &[ByteString]) -> bool
    ensures { result ≡ has_sane_ends ends.now }
{
    if !are_few(ends) {
        return false;
    }
    if !rise(ends) {
        return false;
    }
    are_short(ends)
}

fn are_short(rows: &[ByteString]) -> bool
    ensures { result ≡ list_all is_short rows.now }
{
    rows.iter().all(|row| row.len() <= MAX_PART_LEN)
}

// Whether the horizon is the least one, or of a table that takes timestamps.
fn is_sane_horizon(time: TimeMode, horizon: i64) -> bool
    ensures { result ≡ has_sane_horizon time horizon }
{
    match time {
        TimeMode::Any => true,
        TimeMode::Server => horizon == i64::MIN,
    }
}

fn are_sane_records(nobody: &AuthSet, next: u64, records: &Records) -> bool
    ensures { result ≡ has_sane_records next records.now }
{
    records_rise(records) && is_each_sane(nobody, next, records)
}

// Whether each record is below the next.
fn records_rise(records: &Records) -> bool
    ensures { result ≡ rises record_cmp records.now }
{
    for index in 1..records.len() {
        if !records.get(index - 1).cmp(&records.get(index)).is_lt() {
            return false;
        }
    }
    true
}

// Whether each record is as it has to be. No part is too long, since `Records` hold no other ones. A short label is judged once, as long
// as no other one takes its place among those that are known.
fn is_each_sane(nobody: &AuthSet, next: u64, records: &Records) -> bool
    ensures { result ≡ list_all (is_sane_record next) records.now }
{
    let mut known = KnownLabels::none();
    for index in 0..records.len() {
        if !is_accepted(nobody, &mut known, next, &records.get(index)) {
            return false;
        }
    }
    true
}

// Whether a record is of an accepted mutation, and has a label that is one; a marker has no value.
fn is_accepted(nobody: &AuthSet, known: &mut KnownLabels, next: u64, record: &RecordRef<'_>) -> bool
    ensures { result ≡ is_accepted next record.now }
{
    if record.seq() >= next {
        return false;
    }
    if record.idx() as usize >= MAX_UPDATES {
        return false;
    }
    if !record.kind().is_put() && !record.value().is_empty() {
        return false;
    }
    has_label(nobody, known, record)
}

// Whether the record's label is one, whoever may see it.
fn has_label(nobody: &AuthSet, known: &mut KnownLabels, record: &RecordRef<'_>) -> bool
    ensures { result ≡ is_ok (label_of record.now.key.label) }
{
    let Some(word) = record.label_word() else {
        return is_label(nobody, record.label());
    };
    if known.has(word) {
        return true;
    }
    if !is_label(nobody, record.label()) {
        return false;
    }
    known.note(word);
    true
}

// Whether the text is a label, whoever may see it.
#[tactic(auto, using(crate::proofs::SaneLemmas::judges))]
fn is_label(nobody: &AuthSet, text: &[u8]) -> bool
    ensures { result ≡ is_ok (label_of text.now) }
{
    judge(text, nobody).is_ok()
}
