//! The folder of a store, which keeps a core from one start of the program to the next.
//!
//! It has an image of the core, whose name is `image.` and a number that rises, with its checksum beside it; and `journal.` and that
//! number, with the lines that a script has read since, or the entries of a server's history. While an image is made in the place of a
//! journal, or was tried to, the next journals stand behind that one. A line or an entry is in the journal, and on the disk, before
//! anything is answered that rests on it. An image is written under a name of its own and synced, with its checksum; it gets its name
//! once its journal is on the disk too; the folder is synced, and only then is removed what was there before. So at each moment the
//! image of the greatest number is whole, and behind it stands all that was answered since; and a file that is lost is missed.
//!
//! | File | What |
//! |---|---|
//! | `folder`, `contents` | the folder: taken up, read, and left with the next image |
//! | `hold`, `rights` | its own handle, its lock, its names on the disk, and who may use it |
//! | `names`, `listing`, `fronts` | the names of the files, which of them are there, and whether they go with one another |
//! | `images`, `sweeping` | images with their checksums, and what goes once there is a newer one |
//! | `loads` | what the loads of a script have given |
//! | `taking_up`, `journal_lines` | the file of a journal, replayed, taken up or made empty, and the lines in it |
//! | `beginning`, `journal` | the next journal, begun, and one that is being written |
//! | `file_device` | its file, as the device of `tab_journal` and `tab_recovery`, of which calls are noted |
//! | `log`, `streams` | the journal of a script's lines, and the streams of a script beside it |
//! | `looking`, `left` | a folder that is looked into, and left as it is |
//! | `fault` | why a folder can't be taken up, and why nothing is kept in it |
//!
//! What files of a system do no contract says. `tests/store.sh` kills the program at each call of the system that changes the folder.
#![tactic(auto)]

mod beginning;
mod contents;
mod fault;
mod file_device;
mod folder;
mod fronts;
mod hold;
mod images;
mod journal;
mod journal_lines;
mod left;
mod listing;
mod loads;
mod log;
mod looking;
mod names;
mod rights;
mod streams;
mod sweeping;
mod taking_up;

pub use beginning::NotBegun;
pub use contents::Contents;
pub use fault::FolderFault;
pub use folder::Folder;
pub use journal::Journal;
pub use journal_lines::JournalLines;
pub use left::Left;
pub use loads::{KeptLoad, LoadedBefore};
pub use log::ScriptLog;
pub use looking::Look;
pub use names::StoreFile;
pub use streams::{Logged, SyncedWriter};
pub use tab_journal::Format;
pub use taking_up::TakenUp;
