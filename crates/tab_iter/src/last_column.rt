//! One remembered column.
ghost use Rattle.std.specs.Prelude.{◌≡◌, ◌<◌, ◌≤◌, ◌+◌, ◌++◌, ◌∷◌, [], None, Some, IfOk, OnOk, length, take, drop};
ghost use Rattle.tab_key.specs.KeyOf.{key_of};
ghost use Rattle.tab_key.specs.Kept.{same_column};
ghost use Rattle.tab_key.specs.Words.{mark_of};
ghost use Rattle.tab_iter.specs.Columns.{is_of, next_column, next_of, IsColumnOf};
ghost use Rattle.tab_iter.specs.LastColumn.{parts_in, front_in, front_of, AreEnds};
ghost use Rattle.tab_iter.specs.Lists.{latest};

use crate::NoMemory;
use crate::rule::nowhere;
use std::alloc::{AllocError, Global};
use std::marker::Model;
use tab_key::{Key, Piece, RecordRef};

// How many bytes are copied at once of a column that has fewer, where as many lie behind its beginning: a copy of a fixed length
// needs neither a call nor a branch by length.
const STEP: usize = 64;

/// Where the parts of a column end that lie one after another from the beginning of a body.
#[derive(Clone, Copy)]
pub struct ColumnEnds {
    /// Where the row ends.
    pub row: usize,
    /// Where the column family ends.
    pub family: usize,
    /// Where the column qualifier ends.
    pub qualifier: usize,
    /// Where the label ends.
    pub label: usize,
}

/// A column, or none. The columns remembered one after another take the same memory.
pub struct LastColumn {
    // the column's parts, and a zero byte behind its label: with that it is the next column. What else lies behind has no meaning
    body: Vec<u8>,
    ends: Option<ColumnEnds>,
    // the column's mark: a record with another one is of another column
    mark: u64,
}

// Written out, so that a crate above needn't prove anew how the parts are dropped.
impl Drop for LastColumn {
    #[inline(always)]
    fn drop(self) {
        let LastColumn {
            body: _,
            ends: _,
            mark: _,
        } = self;
    }
}

impl Model for LastColumn {
    ghost use Rattle.std.specs.Prelude.{Option};
    ghost use Rattle.tab_key.specs.Records.{Key as Fields};

    ghost Value = { Option Fields };

    ghost use Rattle.tab_iter.specs.LastColumn.{column_in, IsRemembered};

    ghost view = { λ c. column_in c.body.items c.ends };

    ghost invariant = { λ c. IsRemembered c.body.items c.ends c.mark };
}

impl LastColumn {
    /// No column.
    pub fn none(alloc: Global) -> LastColumn
        ensures { result ≡ None }
    {
        LastColumn {
            body: Vec::new(alloc),
            ends: None,
            mark: 0,
        }
    }

    /// Whether the record is of this column.
    #[inline]
    pub fn is_of(&self, next: &RecordRef<'_>) -> bool
        ensures { result ≡ is_of self.now next.now.key }
    {
        match self.ends {
            None => false,
            Some(_) => self.is_of_marked(next, next.column_mark()),
        }
    }

    // Whether the record, whose mark is known, is of this column.
    #[inline]
    fn is_of_marked(&self, next: &RecordRef<'_>, mark: u64) -> bool
        requires { mark ≡ mark_of (front_of next.now.key) }
        ensures { result ≡ is_of self.now next.now.key }
    {
        match &self.ends {
            None => false,
            Some(ends) => {
                if mark != self.mark {
                    return false;
                }
                is_column(front_in(&self.body, ends), ends, next)
            }
        }
    }

    /// A key of the column that comes next after this one, whatever columns there are. Where none is remembered it has no meaning.
    pub fn next(&self) -> Key<'_>
        ensures { key_of result ≡ next_of self.now }
    {
        match &self.ends {
            None => nowhere(),
            Some(ends) => next_at(front_in(&self.body, ends), ends),
        }
    }

    /// Remembers no column.
    pub fn forget(&mut self)
        ensures { self.new ≡ None }
    {
        self.ends = None;
    }

    /// Makes this the column of the record, and answers whether it was. It copies the record's column only where it wasn't.
    #[inline]
    pub fn remember(&mut self, next: &RecordRef<'_>) -> Result<bool, NoMemory>
        ensures same { IfOk result (λ b. b ≡ is_of self.old next.now.key) }
        ensures column { OnOk result (IsColumnOf self.new next.now.key) }
    {
        let mark = next.column_mark();
        if self.is_of_marked(next, mark) {
            return Ok(true);
        }
        match put_column(&mut self.body, next) {
            Ok(ends) => {
                self.ends = Some(ends);
                self.mark = mark;
                Ok(false)
            }
            Err(fault) => {
                self.ends = None;
                Err(fault)
            }
        }
    }
}

// The column that lies at the body's beginning, and the zero byte behind it.
#[inline]
fn front_in<'a>(body: &'a [u8], ends: &ColumnEnds) -> &'a [u8]
    requires { AreEnds (front_in body.now ends.now) ends.now }
    ensures { result.now ≡ front_in body.now ends.now }
{
    &body[..ends.label + 1]
}

// Puts the record's column at the body's beginning, in one piece, and a zero byte behind it.
#[inline]
fn put_column(body: &mut Vec<u8>, next: &RecordRef<'_>) -> Result<ColumnEnds, AllocError>
    ensures placed { IfOk result (λ e. AreEnds (front_in body.new.items e) e) }
    ensures column { IfOk result (λ e. parts_in (front_in body.new.items e) e ≡ record (next.now.key) { timestamp = latest }) }
{
    let key = next.key();
    let column = next.column_piece();
    put_front(body, &column)?;
    let row = key.row.len();
    let family = row + key.family.len();
    Ok(ColumnEnds {
        row,
        family,
        qualifier: family + key.qualifier.len(),
        label: column.len(),
    })
}

// Puts the bytes at the body's beginning, and a zero byte behind them.
#[inline]
fn put_front(body: &mut Vec<u8>, bytes: &Piece<'_>) -> Result<(), AllocError>
    ensures { OnOk result (take (length bytes.now + 1) body.new.items ≡ bytes.now ++ 0 ∷ []) }
{
    let onward = bytes.onward();
    if bytes.len() < STEP && STEP <= onward.len() && STEP <= body.len() {
        put_step(body, onward, bytes.len());
        return Ok(());
    }
    put_apart(body, &onward[..bytes.len()])
}

// Copies one step, of which the first `count` bytes are put, and a zero byte behind them.
#[inline]
fn put_step(body: &mut [u8], bytes: &[u8], count: usize)
    requires count { count < 64 }
    requires bytes { 64 ≤ length bytes.now }
    requires room { 64 ≤ length body.old }
    ensures { take (count + 1) body.new ≡ take count bytes.now ++ 0 ∷ [] }
{
    write_step(body, bytes);
    body[count] = 0;
}

// Puts the first step of the bytes at the beginning.
#[inline]
fn write_step(body: &mut [u8], bytes: &[u8])
    requires bytes { 64 ≤ length bytes.now }
    requires room { 64 ≤ length body.old }
    ensures { body.new ≡ take 64 bytes.now ++ drop 64 body.old }
{
    body[..STEP].copy_from_slice(&first_step(bytes));
}

// The first bytes by themselves: that they lie apart from the body needn't be asked when they are copied on.
#[inline]
fn first_step(bytes: &[u8]) -> [u8; STEP]
    requires { 64 ≤ length bytes.now }
    ensures { result ≡ take 64 bytes.now }
{
    let mut step = [0; STEP];
    step.copy_from_slice(&bytes[..STEP]);
    step
}

// Bytes that aren't put in one step. Behind them there is room for one afterwards.
#[inline(never)]
fn put_apart(body: &mut Vec<u8>, bytes: &[u8]) -> Result<(), AllocError>
    ensures { OnOk result (take (length bytes.now + 1) body.new.items ≡ bytes.now ++ 0 ∷ []) }
{
    body.clear();
    body.reserve(bytes.len().saturating_add(STEP))?;
    body.extend_from_slice(bytes)?;
    body.extend_from_slice(&[0; STEP])?;
    Ok(())
}

// The column that lies there.
fn column_at<'a>(body: &'a [u8], ends: &ColumnEnds) -> Key<'a>
    requires { AreEnds body.now ends.now }
    ensures { key_of result ≡ parts_in body.now ends.now }
{
    Key {
        row: &body[0..ends.row],
        family: &body[ends.row..ends.family],
        qualifier: &body[ends.family..ends.qualifier],
        label: &body[ends.qualifier..ends.label],
        timestamp: i64::MAX,
    }
}

// The column after the one that lies there.
fn next_at<'a>(body: &'a [u8], ends: &ColumnEnds) -> Key<'a>
    requires { AreEnds body.now ends.now }
    ensures { key_of result ≡ next_column (parts_in body.now ends.now) }
{
    Key {
        label: &body[ends.qualifier..],
        timestamp: i64::MAX,
        ..column_at(body, ends)
    }
}

// Whether the record is of the column that lies there.
#[inline(never)]
fn is_column(body: &[u8], ends: &ColumnEnds, next: &RecordRef<'_>) -> bool
    requires { AreEnds body.now ends.now }
    ensures { result ≡ same_column (parts_in body.now ends.now) next.now.key }
{
    let key = next.key();
    if key.row.len() != ends.row {
        return false;
    }
    if key.family.len() != ends.family - ends.row {
        return false;
    }
    if key.qualifier.len() != ends.qualifier - ends.family {
        return false;
    }
    &body[0..ends.label] == next.column()
}
