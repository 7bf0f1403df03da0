//! Whether all receipts settle.

use std::slice;
use std::sync::ledger::Ledger;
use tab_book::{Book, Part, Receipt, settle};

/// Whether the receipts have all numbers from 0 on, in order, and each settles in one part or in the book, and nowhere else.
pub fn all_settle<L: Ledger>(book: &Book<L>, parts: &[Part<L>], receipts: &[Receipt<L>]) -> bool {
    for place in 0..receipts.len() {
        let receipt = &receipts[place];
        if receipt.number() != place as u64 || places_of(book, parts, receipt) != 1 {
            return false;
        }
    }
    true
}

// In how many of the parts and the book the receipt settles.
fn places_of<L: Ledger>(book: &Book<L>, parts: &[Part<L>], receipt: &Receipt<L>) -> u64 {
    let alone = slice::from_ref(receipt);
    let mut count = settle(book, alone) as u64;
    for part in parts {
        count = count.saturating_add(part.settle(alone) as u64);
    }
    count
}

/// Whether the receipts have all numbers from 0 on, in order, and all settle in the book behind the first that does.
pub fn last_settle<L: Ledger>(book: &Book<L>, receipts: &[Receipt<L>]) -> bool {
    let mut begun = false;
    for place in 0..receipts.len() {
        let receipt = &receipts[place];
        let here = settle(book, slice::from_ref(receipt));
        if receipt.number() != place as u64 || begun && !here {
            return false;
        }
        begun = here;
    }
    true
}
