//! The two streams of the program: where bytes come from, and where they go.
//!
//! A caller speaks to [`Input`] and [`Output`], whose contracts name the bytes: what is still to come, what was
//! written, and what is gathered for the next write. So a function that reads and writes can say which bytes stand
//! in the writer afterwards, also where a read or a write failed on the way.
//!
//! | File | What |
//! |---|---|
//! | `reading`, `writing` | the two traits and their faults |
//! | `block_reader`, `block_writer` | the traits over any reader and writer of std, a block at a time |
//! | `counted` | the calls that a block makes, counted, and made again where they were interrupted |
//! | `pieces` | one byte or number, put |
//! | `position` | where a byte stands first |
//! | `memory` | readers and writers that fail in the middle of a stream, for tests |
//!
//! `specs/Streams` says what one call of a trait does to known bytes; `specs/Writing` has the words for a function over
//! an output: `HasPut`, `HasPutPart`, and `Puts` for both. `proofs/Putting` composes them, and `proofs/Each` for lists.
#![tactic(auto)]

mod reading;
mod writing;

pub use reading::{Input, ReadFault};
pub use writing::{Output, WriteFault};

mod block_reader;
mod block_writer;
mod counted;

pub use block_reader::BlockReader;
pub use block_writer::BlockWriter;

/// The length of a block, in bytes: enough that a system call costs little beside the bytes that it moves.
pub const BLOCK_LENGTH: usize = 65_536;

pub mod memory;
mod pieces;
mod position;

pub use pieces::{put_byte, put_decimal, put_signed_decimal};
pub use position::length_before;
