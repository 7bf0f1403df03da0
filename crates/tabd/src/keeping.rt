//! A script over a folder, which keeps what it does.
use crate::escaped::Escaped;
use crate::files::Disk;
use std::io::{Read, Write};
use tab_core::Core;
use tab_folder::{Folder, FolderFault, KeptLoad, Logged, ScriptLog};
use tab_io::{BlockReader, BlockWriter};
use tab_prog::{FileName, Files, LoadFault, ProgramFault, SaveFault, script_on};
use tab_shell::Script;

/// A script whose lines go into the journal of a folder before it sees them.
#[derive(Drop)]
pub struct Keeping<'a> {
    path: &'a str,
    folder: &'a Folder<'a>,
    log: &'a ScriptLog,
    script: &'a mut Script,
}

impl<'a> Keeping<'a> {
    /// This script, whose lines go into this journal, the last one of the folder of this path.
    pub fn new(
        path: &'a str,
        folder: &'a Folder<'a>,
        log: &'a ScriptLog,
        script: &'a mut Script,
    ) -> Keeping<'a> {
        Keeping {
            path,
            folder,
            log,
            script,
        }
    }

    /// The journal into which the lines go.
    pub fn log(&self) -> &'a ScriptLog {
        self.log
    }

    /// Answers the lines of the reader on the writer, which is to see the journal on the disk before it hands an answer on.
    pub fn answer<R: Read + Drop, W: Write + Drop>(
        self,
        rt: &HostRuntime,
        reader: R,
        writer: W,
    ) -> Result<(), ProgramFault> {
        let Ok(mut input) = BlockReader::new(rt.alloc(), Logged::new(reader, self.log)) else {
            return Err(ProgramFault::NoMemory);
        };
        let Ok(mut output) = BlockWriter::new(rt.alloc(), writer) else {
            return Err(ProgramFault::NoMemory);
        };
        let mut files = KeptFiles {
            rt,
            path: self.path,
            folder: self.folder,
            log: self.log,
            disk: Disk::new(rt),
            loads: 0,
        };
        Ok(script_on(self.script, &mut files, &mut input, &mut output)?)
    }
}

// The files that the lines of such a script name. What came of a load is kept in the folder, since the file may be another one when the
// line is replayed.
#[derive(Drop)]
struct KeptFiles<'a> {
    rt: &'a HostRuntime,
    path: &'a str,
    folder: &'a Folder<'a>,
    log: &'a ScriptLog,
    disk: Disk<'a>,
    // how many loads came so far
    loads: u64,
}

impl KeptFiles<'_> {
    // Keeps what came of the load at this place, and marks it in the journal. Where it isn't known what a start finds, nothing more is
    // answered.
    fn keep(
        &self,
        place: u64,
        outcome: Result<Core, LoadFault>,
    ) -> Result<Result<Core, LoadFault>, FolderFault> {
        let outcome = match outcome {
            Ok(core) => match self.folder.keep_loaded(place, &core)? {
                KeptLoad::Core => Ok(core),
                KeptLoad::Failed(fault) => Err(self.unkept(fault)),
            },
            Err(fault) => {
                self.folder.keep_failed(place)?;
                Err(fault)
            }
        };
        self.log.mark_load()?;
        Ok(outcome)
    }

    // What a line is told of a load whose core can't be kept; standard error has why.
    fn unkept(&self, fault: FolderFault) -> LoadFault {
        let _ = eprintln!(self.rt; "fault: {}: {fault}", Escaped(&self.path));
        match fault {
            FolderFault::NoMemory => LoadFault::NoMemory,
            _ => LoadFault::Io,
        }
    }
}

impl Files for KeptFiles<'_> {
    ghost saves = { λ _ _ _ _ _. Unit {0} };

    ghost loads = { λ _ _ _ _. Unit {0} };

    fn save(&mut self, name: &FileName, core: &Core) -> Result<(), SaveFault> {
        self.disk.save(name, core)
    }

    fn load(&mut self, name: &FileName) -> Result<Core, LoadFault> {
        let place = self.loads;
        self.loads = place.saturating_add(1);
        let outcome = self.disk.load(name);
        match self.keep(place, outcome) {
            Ok(outcome) => outcome,
            Err(fault) => {
                self.log.fail(fault);
                Err(LoadFault::Io)
            }
        }
    }
}
