//! The lines of a script in a journal, replayed.
use crate::unheard::Unheard;
use std::alloc::{AllocError, Global};
use std::cell::Cell;
use std::io;
use std::io::{Error, ErrorKind, Read};
use tab_core::Core;
use tab_folder::{Contents, FolderFault, JournalLines, LoadedBefore, StoreFile};
use tab_io::{BlockReader, BlockWriter, Input, Output};
use tab_lines::FileKind;
use tab_shell::{Ended, Script};

/// What came of the lines of a journal.
#[derive(Drop)]
pub struct LinesReplayed {
    /// The core that has done them.
    pub core: Core,
    /// How many bytes they have.
    pub bytes: u64,
    /// The load that was cut off while it was done, so that it and what was read behind it aren't done, if one was.
    pub unfinished: Option<StoreFile>,
}

/// Runs the lines of the journal of this number on this core. Their answers go nowhere, nothing is saved, and a load gives what it
/// gave. After an error some of them aren't done as they were, so nothing may come of that.
pub fn replay_lines(
    rt: &HostRuntime,
    contents: Contents<'_>,
    core: Core,
    number: u64,
) -> Result<LinesReplayed, FolderFault> {
    let journal = contents.lines(number, &core)?;
    let progress = LineProgress::new();
    let mut loads = Loads {
        contents,
        journal: number,
        are_marked: journal.marks_loads(),
        place: 0,
    };
    let lines = WholeLines::new(rt.alloc(), journal, &progress)?;
    let mut input = BlockReader::new(rt.alloc(), lines)?;
    let mut output = BlockWriter::new(rt.alloc(), Unheard::new())?;
    let mut script = Script::new(rt.alloc(), core);
    let unfinished = run(&mut script, &mut loads, &progress, &mut input, &mut output)?;
    if output.flush().is_err() || output.get_ref().has_lacked() {
        return Err(FolderFault::NoMemory);
    }
    Ok(LinesReplayed {
        core: script.into_core(),
        bytes: progress.bytes.get(),
        unfinished,
    })
}

// Runs the lines, up to their end or to a load that was cut off.
fn run<R: Input, W: Output>(
    script: &mut Script,
    loads: &mut Loads<'_>,
    progress: &LineProgress,
    input: &mut R,
    output: &mut W,
) -> Result<Option<StoreFile>, FolderFault> {
    for _ in 0..u64::MAX {
        match script.run(input, output) {
            Ok(Ended::Input) => break,
            Ok(Ended::File(line)) => {
                if line.kind == FileKind::Load
                    && let Some(file) = loads.replay(script, progress.is_at_end.get())?
                {
                    return Ok(Some(file));
                }
            }
            Err(_) => return Err(progress.failure.get().unwrap_or(FolderFault::NoMemory)),
        }
    }
    Ok(None)
}

// The loads of a journal, in their order.
#[derive(Drop)]
struct Loads<'a> {
    contents: Contents<'a>,
    journal: u64,
    // whether something was put behind each that was done
    are_marked: bool,
    // how many came so far
    place: u64,
}

impl Loads<'_> {
    // Gives the script what its next load gave; its file, where the load was cut off. `is_at_end` says whether it stands in the last
    // batch.
    fn replay(
        &mut self,
        script: &mut Script,
        is_at_end: bool,
    ) -> Result<Option<StoreFile>, FolderFault> {
        let file = StoreFile::Loaded(self.journal, self.place);
        self.place = self.place.saturating_add(1);
        match self.contents.loaded(file)? {
            LoadedBefore::Core(core) => script.replace(core),
            LoadedBefore::Failed => {}
            // (older versions keep nothing of a load that failed)
            LoadedBefore::Missing if !self.are_marked => {}
            LoadedBefore::Missing if is_at_end => return Ok(Some(file)),
            LoadedBefore::Missing => return Err(FolderFault::Missing(file)),
        }
        Ok(None)
    }
}

// How far the lines of a journal were read.
#[derive(Drop)]
struct LineProgress {
    // how many bytes
    bytes: Cell<u64>,
    // whether no batch stands behind the one that was read last
    is_at_end: Cell<bool>,
    // why nothing more can be read
    failure: Cell<Option<FolderFault>>,
}

impl LineProgress {
    fn new() -> LineProgress {
        LineProgress {
            bytes: Cell::new(0),
            is_at_end: Cell::new(false),
            failure: Cell::new(None),
        }
    }
}

// The lines of a journal that end there, batch by batch. One batch is read ahead.
#[derive(Drop)]
struct WholeLines<'a> {
    alloc: Global,
    journal: JournalLines,
    progress: &'a LineProgress,
    // what was read, up to where lines of it end, and how much of that was handed on
    text: Vec<u8>,
    whole: usize,
    place: usize,
    // whether a batch is read ahead
    is_ahead: bool,
}

impl<'a> WholeLines<'a> {
    fn new(
        alloc: Global,
        journal: JournalLines,
        progress: &'a LineProgress,
    ) -> Result<WholeLines<'a>, FolderFault> {
        let mut journal = journal;
        let is_ahead = journal.advance()?;
        Ok(WholeLines {
            alloc,
            journal,
            progress,
            text: Vec::new(alloc),
            whole: 0,
            place: 0,
            is_ahead,
        })
    }

    // Reads batches up to one in which a line ends, once all lines before it were handed on.
    fn fill(&mut self) -> Result<(), FolderFault> {
        self.text = copied_behind(self.alloc, self.text.as_slice(), self.whole)?;
        self.whole = 0;
        self.place = 0;
        for _ in 0..u64::MAX {
            if !self.is_ahead {
                break;
            }
            self.text.extend_from_slice(self.journal.body())?;
            self.is_ahead = self.journal.advance()?;
            self.progress.is_at_end.set(!self.is_ahead);
            if let Some(last) = self.text.as_slice().iter().rposition(|byte| *byte == b'\n') {
                self.whole = last.saturating_add(1);
                break;
            }
        }
        Ok(())
    }

    // What is to be handed on.
    fn rest(&self) -> &[u8] {
        self.text
            .as_slice()
            .get(self.place..self.whole)
            .unwrap_or(&[])
    }
}

// A copy of what comes behind the first bytes of the text, so many.
fn copied_behind(alloc: Global, text: &[u8], count: usize) -> Result<Vec<u8>, AllocError> {
    match text.get(count..) {
        Some(rest) => rest.to_vec(alloc),
        None => Ok(Vec::new(alloc)),
    }
}

impl Read for WholeLines<'_> {
    fn read(&mut self, buf: &mut [u8]) -> io::Result<usize> {
        if self.rest().is_empty()
            && let Err(fault) = self.fill()
        {
            self.progress.failure.set(Some(fault));
            return Err(Error::from(ErrorKind::Other));
        }
        let mut rest = self.rest();
        let count = rest.read(buf)?;
        self.place = self.place.saturating_add(count);
        let bytes = self.progress.bytes.get().saturating_add(count as u64);
        self.progress.bytes.set(bytes);
        Ok(count)
    }
}
