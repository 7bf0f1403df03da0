//! What the program needs of its system beyond std: images in files, and why a stream, a port or a socket failed.
//!
//! | File | What |
//! |---|---|
//! | `disk` | images in files: one that is saved gets its name once it is whole |
//! | `unfinished_files` | new files beside old ones, and what dead runs have left of them |
//! | `sums` | the checksums of images, in files beside them |
//! | `looking` | what the image in a file says, for who looks into it |
//! | `progress` | how far a long piece of work has come, on standard error |
//! | `noting` | a stream that keeps why it failed |
//! | `first_wait` | a socket whose first bytes are waited for only so long |
//! | `net_fault` | why a port, or a socket file, can't be used |
//!
//! What files and streams of a system do no contract says.
#![tactic(auto)]

mod disk;
mod first_wait;
mod looking;
mod net_fault;
mod noting;
mod progress;
mod sums;
mod unfinished_files;

pub use disk::{NotLoaded, NotSaved, load, may_be_given, save, write_image};
pub use first_wait::FirstWait;
pub use looking::{Looked, look};
pub use net_fault::NetFault;
pub use noting::Noting;
pub use progress::{Progress, ProgressStream};
pub use sums::{Sum, line_of_sum, name_of_sum};
