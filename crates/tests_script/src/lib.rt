//! Tests of streams, scripts and subcommands, by public calls.
//!
//! A crate of its own, since tests inside a crate have it proved twice. What lines say and what they are answered is tested by the
//! scripts in tests/cases, with the built program.
//!
//! | File | What is tested |
//! |---|---|
//! | `streams` | `tab_io`: faults in the middle of a stream |
//! | `texts` | `tab_text`: digits, plain bytes and the laws |
//! | `scripts` | `tab_shell`: scripts cut anywhere, and what a fault leaves; `tab_lines`: its law |
//! | `programs` | `tab_prog`: a subcommand whose input or output fails |
//! | `running` | helpers: scripts, their inputs and outputs in memory, and how a run ends |
#![tactic(auto)]

#[cfg(test)]
mod programs;
#[cfg(test)]
mod running;
#[cfg(test)]
mod scripts;
#[cfg(test)]
mod streams;
#[cfg(test)]
mod texts;
