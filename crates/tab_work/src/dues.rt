//! What is due in a book.
ghost use Rattle.std.specs.Prelude.{◌≡◌, ◌++◌, IfOk, OnOk, Some};
ghost use Rattle.std.specs.Option.{option_to_list};
ghost use Rattle.tab_work.specs.Dues.{AreDue, IsDue, aimed, all_aimed};

use std::alloc::{AllocError, Global};
use std::sync::ledger::Ledger;
use tab_book::{Book, book_is_legal};
use tab_core::{Core, Due};
use tab_key::{ByteString, Name};

/// What is due first in the book's core, with the table and the least row of its tablet.
pub(crate) fn due_in<L: Ledger>(
    alloc: Global,
    book: &Book<L>,
) -> Result<Option<(Due, Name, ByteString)>, AllocError>
    ensures { IfOk result (λ found. IsDue found) }
{
    book_is_legal(book);
    let core = book.core();
    match core.due() {
        Some(due) => with_target(alloc, core, due),
        None => Ok(None),
    }
}

/// What is due first in the book's core, so many works at most, each with the table and the least row of its tablet.
pub(crate) fn due_list_in<L: Ledger>(
    alloc: Global,
    book: &Book<L>,
    max: usize,
) -> Result<Vec<(Due, Name, ByteString)>, AllocError>
    ensures { IfOk result (λ found. AreDue max found.items) }
{
    book_is_legal(book);
    let core = book.core();
    let list = core.due_list(alloc, max)?;
    with_targets(alloc, core, &list)
}

// These with the table and the row, of those tablets that are there.
fn with_targets(
    alloc: Global,
    core: &Core,
    list: &[Due],
) -> Result<Vec<(Due, Name, ByteString)>, AllocError>
    ensures { IfOk result (λ found. found.items ≡ all_aimed core.now.tables list.now) }
{
    let mut found = Vec::with_capacity(alloc, list.len())?;
    for due in list {
        add(&mut found, with_target(alloc, core, *due)?)?;
    }
    Ok(found)
}

// Adds the work, if there is one.
fn add(
    found: &mut Vec<(Due, Name, ByteString)>,
    aimed: Option<(Due, Name, ByteString)>,
) -> Result<(), AllocError>
    ensures { OnOk result (found.new.items ≡ found.old.items ++ option_to_list aimed) }
{
    if let Some(aimed) = aimed {
        found.push(aimed)?;
    }
    Ok(())
}

// The work with its table and row, of a tablet that is there.
fn with_target(
    alloc: Global,
    core: &Core,
    due: Due,
) -> Result<Option<(Due, Name, ByteString)>, AllocError>
    ensures { IfOk result (λ found. found ≡ aimed core.now.tables (Some due)) }
{
    match core.target(alloc, &due)? {
        Some((table, row)) => Ok(Some((due, table, row))),
        None => Ok(None),
    }
}
