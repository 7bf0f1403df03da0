//! Lists of records one after another, of which one is read at a time.
ghost use Rattle.std.specs.Prelude.{◌≡◌, ◌+◌, ◌≤◌, ◌<◌, List, [], Bool, true, false, Option, Some, None, is_some, length, drop, OnOk, OnErr, IfOk};
ghost use Rattle.tab_key.specs.KeyOf.{key_of};
ghost use Rattle.tab_key.specs.Records.{Record};
ghost use Rattle.tab_iter.specs.Bags.{flat, IsEnding};
ghost use Rattle.tab_iter.specs.Lists.{first_of, tail, from_key};
ghost use Rattle.tab_version.specs.InTurn.{AreInTurn, AreInTurn-prop, of_current, before, left_in};

use crate::Lists;
use std::alloc::{AllocError, Global};
use std::mem;
use tab_iter::{NoMemory, Source};
use tab_key::{Key, RecordRef};

/// The records of lists that lie one behind the other. It holds a source over one of them alone: an advance makes one over the next
/// list once that is at its end, and a seek goes to the list that the key lies in; a source that it leaves it gives back to the lists.
#[derive(Drop)]
pub struct InTurn<L: Lists<S>, S: Source> {
    alloc: Global,
    lists: L,
    // the source over the list that is read; none before the first record is
    current: Option<S>,
    // the index of the list behind that one
    next: usize,
    // there is no top until a seek succeeds
    unpositioned: bool,
    ghost in_turn: { AreInTurn (L.listed lists) } by { AreInTurn-prop (L.listed lists) },
    ghost over: { of_current S.whole current ≡ before next (L.listed lists) },
    ghost synced: { unpositioned ≡ false → IsEnding (left_in S.rest current next (L.listed lists)) (flat (L.listed lists)) },
    ghost ended: { unpositioned ≡ false → of_current S.rest current ≡ [] → length (L.listed lists) ≤ next },
    ghost lost: { unpositioned ≡ true → of_current S.rest current ≡ [] },
}

impl<L: Lists<S> + Drop, S: Source + Drop> InTurn<L, S> {
    /// The records of these lists, from the first on. The error comes only from want of memory.
    pub fn new(alloc: Global, lists: L) -> Result<InTurn<L, S>, NoMemory>
        requires { AreInTurn (L.listed lists) }
        ensures whole { IfOk result (λ s. ⟦<InTurn<L, S> as Source>⟧.whole s ≡ flat (L.listed lists)) }
        ensures rest { IfOk result (λ s. ⟦<InTurn<L, S> as Source>⟧.rest s ≡ flat (L.listed lists)) }
    {
        let mut lists = lists;
        let mut current = None;
        let mut next = 0;
        go_on(alloc, &mut lists, &mut current, &mut next)?;
        Ok(InTurn {
            alloc,
            lists,
            current,
            next,
            unpositioned: false,
        })
    }

    /// The records of these lists, unpositioned: nothing is read before a seek. It takes no memory.
    pub fn unpositioned(alloc: Global, lists: L) -> InTurn<L, S>
        requires { AreInTurn (L.listed lists) }
        ensures whole { ⟦<InTurn<L, S> as Source>⟧.whole result ≡ flat (L.listed lists) }
        ensures unpositioned { ⟦<InTurn<L, S> as Source>⟧.is_unpositioned result ≡ true }
    {
        InTurn {
            alloc,
            lists,
            current: None,
            next: 0,
            unpositioned: true,
        }
    }

    /// The lists, to which the source that was read last is given back.
    pub fn into_lists(self) -> L {
        let InTurn {
            lists,
            current,
            next,
            ..
        } = self;
        let mut lists = lists;
        if let Some(source) = current {
            lists.leave(next.saturating_sub(1), source);
        }
        lists
    }
}

impl<L: Lists<S>, S: Source + Drop> Source for InTurn<L, S> {
    ghost use Rattle.tab_iter.specs.Positions.{unless};
    ghost use Rattle.tab_iter.specs.SourceLaws.{end_of_ending, unless_ends, unless_empty};

    ghost whole = { λ s. flat (L.listed s.lists) };

    ghost rest = { λ s. unless s.unpositioned (left_in S.rest s.current s.next (L.listed s.lists)) };

    ghost is_unpositioned = { λ s. s.unpositioned };

    ghost whole_rises = { λ s. s.in_turn.rising };

    ghost has_i64_timestamps = { λ s. s.in_turn.timestamps };

    ghost rest_is_suffix = { λ s. unless_ends s.unpositioned (left_in S.rest s.current s.next (L.listed s.lists)) (flat (L.listed s.lists)) (λ e. end_of_ending (left_in S.rest s.current s.next (L.listed s.lists)) (flat (L.listed s.lists)) (s.synced e)) };

    ghost unpositioned_is_empty = { λ s. unless_empty s.unpositioned (left_in S.rest s.current s.next (L.listed s.lists)) };

    #[inline]
    fn top(&self) -> Option<RecordRef<'_>> {
        top_of(&self.current)
    }

    // without a position the source has nothing left, so whether there is one is asked only at a source's end
    #[inline]
    fn advance(&mut self) -> Result<(), NoMemory> {
        if let Err(fault) = advance_in(&mut self.current) {
            self.unpositioned = true;
            return Err(fault);
        }
        if top_of(&self.current).is_some() {
            return Ok(());
        }
        if self.unpositioned {
            return Err(AllocError);
        }
        self.unpositioned = true;
        go_on(
            self.alloc,
            &mut self.lists,
            &mut self.current,
            &mut self.next,
        )?;
        self.unpositioned = false;
        Ok(())
    }

    fn seek(&mut self, key: Key<'_>) -> Result<(), NoMemory> {
        self.unpositioned = true;
        go_to(
            self.alloc,
            &mut self.lists,
            &mut self.current,
            &mut self.next,
            key,
        )?;
        self.unpositioned = false;
        Ok(())
    }
}

// The first record that the source that is read has left.
#[inline]
fn top_of<S: Source>(current: &Option<S>) -> Option<RecordRef<'_>>
    ensures { result ≡ first_of (of_current S.rest current.now) }
{
    match current {
        None => None,
        Some(source) => source.top(),
    }
}

// Drops the first record of the source that is read. After an error it has none left.
#[inline]
fn advance_in<S: Source>(current: &mut Option<S>) -> Result<(), NoMemory>
    ensures whole { of_current S.whole current.new ≡ of_current S.whole current.old }
    ensures rest { OnOk result (of_current S.rest current.new ≡ tail (of_current S.rest current.old)) }
    ensures err { OnErr result (of_current S.rest current.new ≡ []) }
{
    match current {
        None => Ok(()),
        Some(source) => source.advance(),
    }
}

// Goes to the first record of the source that is read whose key isn't before this one. After an error it has none left.
fn seek_in<S: Source>(current: &mut Option<S>, key: Key<'_>) -> Result<(), NoMemory>
    ensures whole { of_current S.whole current.new ≡ of_current S.whole current.old }
    ensures rest { OnOk result (of_current S.rest current.new ≡ from_key (key_of key.entry) (of_current S.whole current.old)) }
    ensures err { OnErr result (of_current S.rest current.new ≡ []) }
{
    match current {
        None => Ok(()),
        Some(source) => source.seek(key),
    }
}

// Goes on from the end of the source that is read: makes one over the next list, if there is one. After an error that one is still read.
#[cold]
#[inline(never)]
fn go_on<L: Lists<S>, S: Source + Drop>(
    alloc: Global,
    lists: &mut L,
    current: &mut Option<S>,
    next: &mut usize,
) -> Result<(), NoMemory>
    requires in_turn { AreInTurn (L.listed lists.old) }
    requires over { of_current S.whole current.old ≡ before next.old (L.listed lists.old) }
    requires at_end { of_current S.rest current.old ≡ [] }
    ensures over { of_current S.whole current.new ≡ before next.new (L.listed lists.old) }
    ensures left { OnOk result (left_in S.rest current.new next.new (L.listed lists.old) ≡ flat (drop next.old (L.listed lists.old))) }
    ensures ended { OnOk result (of_current S.rest current.new ≡ [] → length (L.listed lists.old) ≤ next.new) }
    ensures err { OnErr result (of_current S.rest current.new ≡ []) }
    ensures same { L.listed lists.new ≡ L.listed lists.old }
{
    if *next >= lists.count() {
        return Ok(());
    }
    let source = lists.source_at(alloc, *next)?;
    put(current, source);
    *next += 1;
    Ok(())
}

// Goes to the first record of the lists whose key isn't before this one. After an error the source that is read has no record left.
fn go_to<L: Lists<S>, S: Source + Drop>(
    alloc: Global,
    lists: &mut L,
    current: &mut Option<S>,
    next: &mut usize,
    key: Key<'_>,
) -> Result<(), NoMemory>
    requires in_turn { AreInTurn (L.listed lists.old) }
    requires over { of_current S.whole current.old ≡ before next.old (L.listed lists.old) }
    ensures over { of_current S.whole current.new ≡ before next.new (L.listed lists.old) }
    ensures left { OnOk result (left_in S.rest current.new next.new (L.listed lists.old) ≡ from_key (key_of key.entry) (flat (L.listed lists.old))) }
    ensures ended { OnOk result (of_current S.rest current.new ≡ [] → length (L.listed lists.old) ≤ next.new) }
    ensures err { OnErr result (of_current S.rest current.new ≡ []) }
    ensures same { L.listed lists.new ≡ L.listed lists.old }
{
    if lists.count() == 0 {
        return Ok(());
    }
    let at = lists.find(key);
    read_from(alloc, lists, current, next, at)?;
    seek_in(current, key)?;
    Ok(())
}

// Makes a source over the list with this index, unless it is the one that is read. The one that was read is left first, and after an
// error none is read.
fn read_from<L: Lists<S>, S: Source + Drop>(
    alloc: Global,
    lists: &mut L,
    current: &mut Option<S>,
    next: &mut usize,
    at: usize,
) -> Result<(), NoMemory>
    requires in_turn { AreInTurn (L.listed lists.old) }
    requires over { of_current S.whole current.old ≡ before next.old (L.listed lists.old) }
    requires inside { at < length (L.listed lists.old) }
    requires fits { at < usize.MAX }
    ensures over { of_current S.whole current.new ≡ before next.new (L.listed lists.old) }
    ensures there { OnOk result (next.new ≡ at + 1) }
    ensures err { OnErr result (of_current S.rest current.new ≡ []) }
    ensures same { L.listed lists.new ≡ L.listed lists.old }
{
    if *next == at + 1 {
        return Ok(());
    }
    leave(lists, current, *next);
    *next = 0;
    let source = lists.unpositioned_at(alloc, at)?;
    put(current, source);
    *next = at + 1;
    Ok(())
}

// Gives the source that was read back to the lists, of which it was the one before this index.
fn leave<L: Lists<S>, S: Source + Drop>(lists: &mut L, current: &mut Option<S>, next: usize)
    ensures none { current.new ≡ None }
    ensures same { L.listed lists.new ≡ L.listed lists.old }
{
    if let Some(source) = mem::replace(current, None) {
        lists.leave(next.saturating_sub(1), source);
    }
}

// Puts the source in the place of the one that was read.
fn put<S: Drop>(current: &mut Option<S>, source: S)
    ensures { current.new ≡ Some source }
{
    let _ = mem::replace(current, Some(source));
}
