//! Tests of the core by its public calls: what is answered to whom.
//!
//! A crate of its own, since tests inside a crate have it proved twice. What single events are answered, and why they are refused,
//! is tested by the scripts in tests/cases, with the built program.
//!
//! | File | What is tested |
//! |---|---|
//! | `bases` | cores that are made of the base of another one |
//! | `due` | lists of the work that is due |
//! | `runs` | runs of steps, and their sessions |
//! | `comparing` | pairs of runs that look alike to one user, and what he is told |
//! | `jobs` | compactions in three parts, in runs and in cores |
//! | `keeping` | what is kept for a user |
//! | `modelling` | random writes, scans, compactions and settings, beside the model |
//! | `settings` | numbers of versions that are lowered, and horizons that are raised |
//! | `steps` | helpers: steps from the lines of a script, and replies as text |
#![tactic(auto)]

#[cfg(test)]
mod bases;
#[cfg(test)]
mod comparing;
#[cfg(test)]
mod due;
#[cfg(test)]
mod jobs;
#[cfg(test)]
mod keeping;
#[cfg(test)]
mod modelling;
#[cfg(test)]
mod runs;
#[cfg(test)]
mod settings;
#[cfg(test)]
mod steps;
