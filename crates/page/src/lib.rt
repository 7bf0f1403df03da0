//! What a page calls, as a static library: the lines of a script over a core in memory, with no system below it.
//!
//! | File | What |
//! |---|---|
//! | `running` | lines are answered by `script` of `tab_prog`, as by `tabd script` |
//! | `explaining` | why a line is a line fault, as by `tabd script --explain` |
//! | `no_files` | the files that a page doesn't have |
//! | `filling` | bytes, copied to where the caller has room |
//!
//! `specs/Answering` says it, for `run` and `why`: no contract of what C calls may speak of readers and writers, so the two functions here,
//! which hand on what they are given, have none.
#![tactic(auto)]

mod explaining;
mod filling;
mod no_files;
mod running;

use std::alloc::Global;

/// Answers the lines over a new core, and writes a beginning of the answers to `out`, as much as it has room for. Gives the length of all
/// answers, or the largest number where there was no memory for them; `out` is then as it was.
///
/// A call keeps nothing: what it takes of memory it has given back.
#[unsafe(no_mangle)]
pub extern "C" fn page_run(alloc: Global, lines: &[u8], out: &mut [u8]) -> u64 {
    running::run(alloc, lines, out)
}

/// Writes to `out` why the line with this number is a line fault, as much as it has room for. Gives the length of that text: 0 for what is
/// a line, or the largest number where there was no memory.
#[unsafe(no_mangle)]
pub extern "C" fn page_explain(alloc: Global, number: u64, line: &[u8], out: &mut [u8]) -> u64 {
    explaining::why(alloc, number, line, out)
}
