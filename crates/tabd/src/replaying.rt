//! What runs left in the journals of a folder, replayed.
use crate::escaped::Escaped;
use crate::line_replay::replay_lines;
use anyhow::Context;
use std::fmt;
use std::fmt::{Display, Formatter};
use tab_core::Core;
use tab_folder::{Folder, FolderFault, Format, Journal, StoreFile};

/// What was found in the journals behind an image, and replayed.
#[derive(Clone, Copy, Debug, PartialEq, Eq)]
pub struct Found {
    // how many bytes of lines, and how many entries
    lines: u64,
    entries: u64,
    // how many bytes at their ends are no whole batch
    cut: u64,
    // the load that was cut off last
    unfinished: Option<StoreFile>,
}

impl Found {
    fn nothing() -> Found {
        Found {
            lines: 0,
            entries: 0,
            cut: 0,
            unfinished: None,
        }
    }

    /// Whether nothing was replayed.
    pub fn is_empty(&self) -> bool {
        self.lines == 0 && self.entries == 0
    }
}

/// A core that has done all that a folder keeps, and how it came to that.
#[derive(Drop)]
pub struct Replayed {
    /// The core.
    pub core: Core,
    /// The last journal, where it goes on.
    pub journal: Option<Journal>,
    /// What was found.
    pub found: Found,
}

/// Replays what was left in the journals behind the folder's image, of which this is the core. The last one goes on where it keeps
/// events and that is asked. Standard error is told what was found.
pub fn replay_all(
    rt: &HostRuntime,
    folder: &Folder<'_>,
    path: &str,
    core: Core,
    goes_on: bool,
) -> anyhow::Result<Replayed> {
    let mut replayed = Replayed {
        core,
        journal: None,
        found: Found::nothing(),
    };
    let contents = folder.contents().with_context(|| path)?;
    for number in contents.journals() {
        let outcome = match contents.format(number).with_context(|| path)? {
            Format::Lines => with_lines(rt, folder, replayed, number),
            Format::Events => with_entries(folder, replayed, number, goes_on),
        };
        replayed = outcome.with_context(|| path)?;
    }
    tell(rt, path, replayed.found);
    Ok(replayed)
}

// What was replayed, with the lines of one journal more.
fn with_lines(
    rt: &HostRuntime,
    folder: &Folder<'_>,
    replayed: Replayed,
    number: u64,
) -> Result<Replayed, FolderFault> {
    let Replayed { core, found, .. } = replayed;
    let done = replay_lines(rt, folder.contents()?, core, number)?;
    let cut = folder.take_up(number)?;
    Ok(Replayed {
        core: done.core,
        journal: None,
        found: Found {
            lines: found.lines.saturating_add(done.bytes),
            cut: found.cut.saturating_add(cut),
            unfinished: done.unfinished.or(found.unfinished),
            ..found
        },
    })
}

// What was replayed, with the entries of one journal more, which goes on where that is asked and it is the last one.
fn with_entries(
    folder: &Folder<'_>,
    replayed: Replayed,
    number: u64,
    goes_on: bool,
) -> Result<Replayed, FolderFault> {
    let Replayed {
        mut core,
        found,
        ..
    } = replayed;
    let done = folder.replay(number, &mut core, goes_on)?;
    Ok(Replayed {
        core,
        journal: done.journal,
        found: Found {
            entries: found.entries.saturating_add(done.count),
            cut: found.cut.saturating_add(done.cut),
            ..found
        },
    })
}

// Says on standard error what was found, if that is anything.
fn tell(rt: &HostRuntime, path: &str, found: Found) {
    let path = Escaped(&path);
    if let Some(load) = found.unfinished {
        let _ = eprintln!(rt;
            "{path}: a load was cut off, so there is no {load}: neither it nor what was read with it behind it is replayed"
        );
    }
    let _ = match (found.is_empty(), found.cut) {
        (true, 0) => Ok(()),
        (true, cut) => eprintln!(rt; "{path}: {}", CutOff(cut)),
        (false, 0) => eprintln!(rt; "{path}: {found}"),
        (false, cut) => eprintln!(rt; "{path}: {found}, {}", CutOff(cut)),
    };
}

impl Display for Found {
    fn fmt<W: fmt::Write>(&self, f: &mut Formatter<W>) -> fmt::Result {
        let (lines, entries) = (self.lines, self.entries);
        match (lines, entries) {
            (_, 0) => write!(f, "{lines} bytes of lines are replayed"),
            (0, 1) => write!(f, "1 entry is replayed"),
            (0, _) => write!(f, "{entries} entries are replayed"),
            _ => write!(
                f,
                "{lines} bytes of lines and {entries} entries are replayed"
            ),
        }
    }
}

// How many bytes are cut off.
#[derive(Clone, Copy)]
struct CutOff(u64);

impl Display for CutOff {
    fn fmt<W: fmt::Write>(&self, f: &mut Formatter<W>) -> fmt::Result {
        match self.0 {
            1 => write!(f, "1 byte at the end of the journal is cut off"),
            cut => write!(f, "{cut} bytes at the end of the journal are cut off"),
        }
    }
}
