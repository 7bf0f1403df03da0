//! The command line of `tabd`: its subcommands and their options, their help, and what a list of words asks for.
//!
//! | File | What |
//! |---|---|
//! | `building` | the command line, built, and the texts of its help |
//! | `looking`, `importing` | the command lines of `inspect` and `export`, and of `import` |
//! | `request` | what the words ask for |
//!
//! Nothing is done here: the program does what a [`Request`] says.
#![tactic(auto)]

mod building;
mod importing;
mod looking;
mod request;

pub use building::LineHelp;
pub use importing::ImportRequest;
pub use looking::{ExportForm, ExportRequest, InspectRequest};
pub use request::{
    Request, ScriptRequest, ServeRequest, ServerAddress, ShellRequest, SyncMode, parse,
};
