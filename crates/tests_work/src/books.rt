//! Shared books in short.
ghost use Rattle.std.specs.Prelude.{◌≡◌, ◌^◌, ◌≤◌};

use std::alloc::Global;
use std::process::Abort;
use std::sync::ledger::{Blank, Ledger};
use tab_book::Book;
use tab_core::Core;
use tab_work::Shared;

/// A shared book over the core, without entries.
pub fn shared_over<L: Ledger, R: Abort>(
    rt: &R,
    alloc: Global,
    core: Core,
    blank: Blank,
) -> Shared<L>
    requires name { blank.name ≡ L.name }
    requires parts { blank.parts ≡ L.parts }
    requires enough { 2 ^ 32 ≤ blank.parts }
{
    match Book::<L>::new(alloc, core, blank) {
        Ok(book) => Shared::new(book),
        Err(_) => panic!(rt; "memory"),
    }
}
