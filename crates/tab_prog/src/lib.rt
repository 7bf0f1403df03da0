//! What the subcommands of the program do, over any reader and writer.
//!
//! | File | What |
//! |---|---|
//! | `scripting` | `tabd script` |
//! | `shelling`, `asking` | `tabd shell`, and how it asks its server |
//! | `files` | where images are saved to and loaded from |
//! | `filing` | what is done with the files that lines name |
//! | `outcome` | what came of it, and its text |
//!
//! `specs/Programs` says it, for the bytes of the input and the bytes of the output, and `specs/Outcomes` what may come of a file line.
//! What a file holds no contract says: a program hands in the [`Files`] that do the work.
#![tactic(auto)]

mod asking;
mod files;
mod filing;
mod outcome;
mod scripting;
mod shelling;

pub use files::Files;
pub use outcome::{LoadFault, SaveFault};
pub use scripting::{ProgramFault, script, script_on, script_over};
pub use shelling::{ShellFault, shell_run};
pub use tab_lines::FileName;
