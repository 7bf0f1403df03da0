//! Tests of what is kept, by public calls, as far as no line of a script reaches them: what lines show is tested by `tests/cases`,
//! `tests/size.sh` and `tests/images.sh`.
//!
//! A crate of its own, since tests inside a crate have it proved twice.
//!
//! | File | What is tested |
//! |---|---|
//! | `keys` | `tab_key`: the order of names, ranges, the numbers of rows, and what is printed |
//! | `records` | `tab_key`: owned records, and copies of byte strings and lists |
//! | `labels` | `tab_label`: trees and depths, and what is printed |
//! | `policies` | `tab_policy`: a copy, which changes apart from its source, and who is admitted |
#![tactic(auto)]

#[cfg(test)]
mod keys;
#[cfg(test)]
mod labels;
#[cfg(test)]
mod policies;
#[cfg(test)]
mod records;
