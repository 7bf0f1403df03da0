//! The history of a server, in a file.
use crate::escaped::Escaped;
use anyhow::Context;
use std::alloc::{AllocError, Global};
use std::fs;
use std::fs::{File, Metadata, OpenOptions};
use std::io::Error;
use std::os::unix::fs::{FileTypeExt, MetadataExt, OpenOptionsExt};
use std::sync::atomic::{AtomicBool, Ordering};
use std::sync::ledger::Ledger;
use tab_audit::{clock_behind, put_entry};
use tab_book::{Part, RecordedEntry, RecordedReply};
use tab_core::EventReply;
use tab_io::{BlockWriter, Output, WriteFault};
use tab_server::{History, NotTaken};

// Who may read the file that is made: whoever runs the server.
const MODE: u32 = 0o600;

// The rights of others than the owner, in a file's mode.
const OTHERS: u32 = 0o077;

// The rights in a mode, without the file's type.
const RIGHTS: u32 = 0o7777;

// Why a part of the history isn't in its file.
#[derive(Clone, Copy, Debug, PartialEq, Eq, thiserror::Error)]
enum LogFault {
    #[error("no memory")]
    NoMemory,
    #[error("the history can't be written")]
    Write,
}

impl From<AllocError> for LogFault {
    fn from(_lack: AllocError) -> LogFault {
        LogFault::NoMemory
    }
}

impl From<WriteFault> for LogFault {
    fn from(_fault: WriteFault) -> LogFault {
        LogFault::Write
    }
}

// Why the file isn't opened.
#[derive(Clone, Copy, Debug, thiserror::Error)]
enum NotOpened {
    // The name is a pipe's, a socket's or a folder's.
    #[error("it is neither a file nor a device")]
    NoFile,
    // The system refuses it, for this reason.
    #[error("{0}")]
    Refused(Error),
}

impl From<Error> for NotOpened {
    fn from(error: Error) -> NotOpened {
        NotOpened::Refused(error)
    }
}

/// Where the history of a server goes: behind what stands in a file, as the lines of an audit log, or nowhere.
#[derive(Drop)]
pub struct LogFile<'a> {
    rt: &'a HostRuntime,
    name: &'a str,
    file: Option<File>,
    // whether it couldn't be written last time
    has_failed: AtomicBool,
}

impl<'a> LogFile<'a> {
    /// The file of this name, which is made where it isn't there, for its owner alone; or none. A fault names the file. Standard error is
    /// told where others may read it, or it belongs to somebody else.
    pub fn open(rt: &'a HostRuntime, name: Option<&'a str>) -> anyhow::Result<LogFile<'a>> {
        let file = match name {
            Some(name) => Some(opened(rt, name).with_context(|| name)?),
            None => None,
        };
        Ok(LogFile {
            rt,
            name: name.unwrap_or(""),
            file,
            has_failed: AtomicBool::new(false),
        })
    }

    // Tells why a part isn't in the file, unless the one before wasn't either.
    fn tell(&self, fault: LogFault) {
        if !self.has_failed.swap(true, Ordering::SeqCst) {
            let _ = eprintln!(self.rt; "fault: {}: {fault}", Escaped(&self.name));
        }
    }
}

impl History for LogFile<'_> {
    fn take<L: Ledger>(&self, part: &Part<L>) -> Result<(), NotTaken> {
        let Some(file) = &self.file else {
            return Ok(());
        };
        match append(self.rt.alloc(), file, part) {
            Ok(()) => {
                self.has_failed.store(false, Ordering::SeqCst);
                Ok(())
            }
            Err(fault) => {
                self.tell(fault);
                Err(NotTaken)
            }
        }
    }

    fn keeps(&self) -> bool {
        self.file.is_some()
    }
}

// The file of this name, to be appended to. It is looked at first, since to open a pipe waits for who reads it.
fn opened(rt: &HostRuntime, name: &str) -> Result<File, NotOpened> {
    if let Ok(found) = fs::metadata(rt, name) {
        if !may_be_appended_to(&found) {
            return Err(NotOpened::NoFile);
        }
    }
    let file = OpenOptions::new()
        .append(true)
        .create(true)
        .mode(MODE)
        .open(rt, name)?;
    let found = file.metadata()?;
    if found.is_file() {
        tell_rights(rt, name, &found);
    }
    Ok(file)
}

// Whether it is a file, or a device.
fn may_be_appended_to(found: &Metadata) -> bool {
    let kind = found.file_type();
    kind.is_file() || kind.is_char_device() || kind.is_block_device()
}

// Says on standard error whose the file is, where it's another one's, and where others may use it.
fn tell_rights(rt: &HostRuntime, name: &str, found: &Metadata) {
    if found.uid() != libc::geteuid() {
        let _ = eprintln!(rt; "note: {}: it belongs to another user", Escaped(&name));
    }
    let mode = found.mode() & RIGHTS;
    if mode & OTHERS != 0 {
        let _ = eprintln!(rt;
            "note: {}: others may use it (mode {mode:o})",
            Escaped(&name)
        );
    }
}

// Puts the part behind what stands in the file, down to the disk: all of it, or nothing, as far as the system lets what was put be taken
// back.
fn append<L: Ledger>(alloc: Global, file: &File, part: &Part<L>) -> Result<(), LogFault> {
    let Ok(before) = file.metadata() else {
        return Err(LogFault::Write);
    };
    let outcome = write(alloc, file, part);
    if outcome.is_err() {
        let _ = file.set_len(before.len());
    }
    outcome
}

// Writes the part, down to the disk.
fn write<L: Ledger>(alloc: Global, file: &File, part: &Part<L>) -> Result<(), LogFault> {
    let mut output = BlockWriter::new(alloc, file)?;
    put_part(alloc, &mut output, part)?;
    output.flush()?;
    file.sync_all().map_err(|_| LogFault::Write)
}

// Puts the entries of the part, one after the other.
fn put_part<L: Ledger, W: Output>(
    alloc: Global,
    output: &mut W,
    part: &Part<L>,
) -> Result<(), LogFault> {
    let mut clock = part.base().clock();
    for place in 0..part.len() {
        if let Some(entry) = part.entry(place) {
            clock = put_kept(alloc, output, clock, entry)?;
        }
    }
    Ok(())
}

// Puts an entry, and gives the clock behind it.
fn put_kept<W: Output>(
    alloc: Global,
    output: &mut W,
    clock: i64,
    entry: &RecordedEntry,
) -> Result<i64, LogFault> {
    let event = entry.event().to_event(alloc)?;
    let (done, opened) = (EventReply::Done, EventReply::Opened);
    let told = match entry.reply() {
        RecordedReply::Done => &done,
        RecordedReply::Opened => &opened,
        RecordedReply::Other(told) => &**told,
    };
    put_entry(output, clock, &event, told)?;
    Ok(clock_behind(clock, &event, told))
}
