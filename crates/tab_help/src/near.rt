//! The command that a word is likely meant to be.
use crate::asks::Asks;
use crate::forms::{LINES, parted};
use std::alloc::{AllocError, Global};
use std::str;
use strsim::osa_distance;

// How long a word is at most that is compared: the memory for it grows with the word.
const LONGEST: usize = 32;

// How many letters may be left out, added, changed or turned round.
const SLIPS: usize = 2;

/// The command of these lines that differs from the word by a slip or two, and by less than half of its letters; or by capitals alone.
pub(crate) fn near_command(
    alloc: Global,
    asks: Asks,
    word: &[u8],
) -> Result<Option<&'static str>, AllocError> {
    let Ok(text) = str::from_utf8(word) else {
        return Ok(None);
    };
    if text.len() > LONGEST {
        return Ok(None);
    }
    let mut least = SLIPS + 1;
    let mut near = None;
    for row in LINES.lines() {
        let (command, _) = parted(row);
        if !asks.has(command.as_bytes()) {
            continue;
        }
        let slips = slips_to(alloc, text, command)?;
        if slips < least {
            least = slips;
            near = Some(command);
        }
    }
    Ok(near)
}

// How many slips lead from the word to the command; more than are looked at where they are too many for its length.
fn slips_to(alloc: Global, word: &str, command: &str) -> Result<usize, AllocError> {
    if word.as_bytes().eq_ignore_ascii_case(command.as_bytes()) {
        return Ok(0);
    }
    let slips = osa_distance(alloc, word, command)?;
    Ok(if slips < command.len() / 2 {
        slips
    } else {
        SLIPS + 1
    })
}
