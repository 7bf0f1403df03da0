//! Tests of the engine by its public calls, as far as the program doesn't reach them or reaches them by other sources: what scans show
//! behind writes, splits and compactions is tested by `tests/*.sh`.
//!
//! A crate of its own, since tests inside a crate have it proved twice.
//!
//! | File | What is tested |
//! |---|---|
//! | `layers` | a small table; `system_iterators`: each of them alone; `failing`: each layer and the stack of them, over a source of it that fails once |
//! | `versions` | versions of runs and of a table; `cuts`: over many tablets; `copies`: runs built of these, and copied rows; `sessions`: when a session is done; `ranges`: many of them at once; `caches`: batches with caches of each size |
//! | `tablets` | scans of what was written, beside the model; `bodies`: few runs, however often one is frozen; `parts`: a merge that another one began |
//! | `tables` | tables of no block, one and several, beside the list of their records |
//! | `jobs` | merges of random sources of each kind, beside the model |
//! | `sources` | helpers: sources of what is written, and random ones |
//! | `writing`, `reading` | helpers: runs and versions of what is written, and what a source has left |
#![tactic(auto)]

#[cfg(test)]
mod jobs;
#[cfg(test)]
mod layers;
#[cfg(test)]
mod reading;
#[cfg(test)]
mod sources;
#[cfg(test)]
mod tables;
#[cfg(test)]
mod tablets;
#[cfg(test)]
mod versions;
#[cfg(test)]
mod writing;
