//! What the lines of a script look like, and why one is a line fault.
//!
//! The forms of lines stand in one table of text, with a row for each form: a command and the kinds of the words behind it. It
//! is what `tabd --help` prints. An explanation names the first word of a faulty line that fits none of the forms of its
//! command, and the kinds that fit there. Whether a line is a fault, and whether a word is of a kind, `read_line` of crate
//! `tab_lines` says: the table decides nothing about what is accepted.
//!
//! | File | What |
//! |---|---|
//! | `forms` | the table: the forms of lines and of updates, and the kinds of words |
//! | `asks` | which lines are asked for: a script's, or a shell's |
//! | `listing` | what of the table is for these |
//! | `near` | the command that a word is likely meant to be |
//! | `kinds` | whether a word is of a kind |
//! | `fitting` | the word at which a line stops to fit a form |
//! | `reason` | why a line is a fault |
//! | `wording` | the text of a reason |
//! | `helping` | what is said at a prompt: at the beginning, and to lines that ask for help |
//! | `prompting` | a reader that asks for each line by a prompt, and answers lines that ask for help |
//! | `explaining` | a reader that passes bytes along, and explains each line fault on the way |
//!
//! `specs/Explaining` says when a line is explained.
#![tactic(auto)]

mod asks;
mod explaining;
mod fitting;
pub mod forms;
mod helping;
mod kinds;
mod listing;
mod near;
mod prompting;
mod reason;
mod wording;

pub use asks::Asks;
pub use explaining::{Explaining, Explanation, explain};
pub use listing::{Forms, Kinds};
pub use prompting::{PromptEnd, Prompting};
