//! The journal of the lines of a script.
use crate::FolderFault;
use crate::journal::Journal;
use std::cell::RefCell;
use std::io::{Error, ErrorKind};

/// The journal of the lines of a script, which are put as they are read.
#[derive(Drop)]
pub struct ScriptLog {
    journal: RefCell<Journal>,
}

impl ScriptLog {
    /// Lines go into this journal.
    pub fn new(journal: Journal) -> ScriptLog {
        ScriptLog {
            journal: RefCell::new(journal),
        }
    }

    /// Why it couldn't be written, once it couldn't.
    pub fn failure(&self) -> Option<FolderFault> {
        match self.journal.try_borrow() {
            Ok(journal) => journal.failure(),
            Err(_) => None,
        }
    }

    /// Notes that something beside it has failed, so that no more is put, and nothing more is answered.
    pub fn fail(&self, fault: FolderFault) {
        if let Ok(mut journal) = self.journal.try_borrow_mut() {
            journal.fail(fault);
        }
    }

    /// Puts an empty batch behind a load that was done: so what stands at the end of the journal tells of one that wasn't.
    pub fn mark_load(&self) -> Result<(), FolderFault> {
        self.put(b"")
    }

    /// Puts these bytes as one batch. They needn't be on the disk yet. After an error nothing more is put.
    pub(crate) fn put(&self, body: &[u8]) -> Result<(), FolderFault> {
        match self.journal.try_borrow_mut() {
            Ok(mut journal) => put_in(&mut journal, body),
            Err(_) => Err(in_use()),
        }
    }

    /// Sees that all that was put is on the disk. After an error nothing more is put.
    pub(crate) fn settle(&self) -> Result<(), FolderFault> {
        match self.journal.try_borrow_mut() {
            Ok(mut journal) => journal.sync(),
            Err(_) => Err(in_use()),
        }
    }
}

// Puts these bytes as one batch. Whatever fails, nothing more is put: a line that isn't kept isn't done either.
fn put_in(journal: &mut Journal, body: &[u8]) -> Result<(), FolderFault> {
    match journal.put(body) {
        Ok(()) => Ok(()),
        Err(fault) => {
            journal.fail(fault);
            Err(fault)
        }
    }
}

// What never comes: a script reads or writes, and its journal is used by nobody else then.
fn in_use() -> FolderFault {
    FolderFault::Refused(Error::from(ErrorKind::ResourceBusy))
}
