//! Tests of images, and of saving and loading cores, by public calls.
//!
//! A crate of its own, since tests inside a crate have it proved twice. What lines save and load, and what files are no images, is tested
//! by `tests/images.sh`.
//!
//! | File | What is tested |
//! |---|---|
//! | `images` | the images of the tests |
//! | `reading` | images of both versions read and written again: cut at each length, and with each byte changed |
//! | `cores` | cores of images, and their bytes |
//! | `rounds` | cores that are loaded and saved again |
//! | `refusals` | reads and writes that fail |
#![tactic(auto)]

#[cfg(test)]
mod cores;
#[cfg(test)]
mod images;
#[cfg(test)]
mod reading;
#[cfg(test)]
mod refusals;
#[cfg(test)]
mod rounds;
