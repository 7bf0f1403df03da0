//! What a server keeps in a folder.
use crate::counts::DiskCounts;
use crate::escaped::Escaped;
use crate::opening::{Opened, open_folder};
use anyhow::Context;
use std::fs::File;
use std::process::ExitCode;
use std::sync::atomic::{AtomicBool, AtomicU64, Ordering};
use std::sync::{Mutex, Wait};
use std::time::{Duration, Instant};
use tab_command::{ServeRequest, SyncMode};
use tab_core::Core;
use tab_folder::{Folder, FolderFault, Format, Journal, NotBegun};
use tab_server::{NotKept, Store};

/// Where a server keeps what it did: in a folder, in an image and the journals behind it.
#[derive(Drop)]
pub struct FolderStore<'a> {
    rt: &'a HostRuntime,
    path: &'a str,
    mode: SyncMode,
    // how many bytes a journal has at least before an image is made in its place, and the last image has
    least: u64,
    image: AtomicU64,
    // whether an image is owed, and whether standard error was told that none was made when one was asked for
    is_owed: AtomicBool,
    is_put_off: AtomicBool,
    // no other process takes it up until this ends
    folder: Mutex<Folder<'a>>,
    // another handle of the journal's file, by which the disk is asked while more is put. It is locked before the journal
    beside: Mutex<Option<File>>,
    journal: Mutex<Journal>,
    // whether nothing more is kept
    has_failed: AtomicBool,
    counts: DiskCounts,
}

impl<'a> FolderStore<'a> {
    /// Takes up the folder of this path, with the core that it keeps; or, where it keeps none yet, with the one of the image that is
    /// asked for, or a new one. What earlier runs left in its journals is replayed; an image in their place is owed then.
    pub fn take_up(
        rt: &'a HostRuntime,
        path: &'a str,
        serve: ServeRequest<'_>,
    ) -> anyhow::Result<(Core, FolderStore<'a>)> {
        let opened = open_folder(rt, path, serve.image, Format::Events)?;
        FolderStore::over(rt, path, serve, opened).with_context(|| path)
    }

    // What is kept goes into the last journal of this folder.
    fn over(
        rt: &'a HostRuntime,
        path: &'a str,
        serve: ServeRequest<'_>,
        opened: Opened<'a>,
    ) -> Result<(Core, FolderStore<'a>), FolderFault> {
        let Opened {
            folder,
            core,
            is_replayed,
            mut journal,
        } = opened;
        let image = folder.contents()?.image_length()?;
        let beside = journal.take_beside();
        let counts = DiskCounts::new();
        counts.set_journal(journal.length());
        let store = FolderStore {
            rt,
            path,
            mode: serve.sync,
            least: serve.checkpoint,
            image: AtomicU64::new(image),
            is_owed: AtomicBool::new(is_replayed),
            is_put_off: AtomicBool::new(false),
            folder: Mutex::new(folder),
            beside: Mutex::new(beside),
            journal: Mutex::new(journal),
            has_failed: AtomicBool::new(false),
            counts,
        };
        Ok((core, store))
    }

    /// The status of the server: failure where something couldn't be kept, of which standard error was told.
    pub fn status(&self) -> ExitCode {
        if self.has_failed.load(Ordering::SeqCst) {
            ExitCode::FAILURE
        } else {
            ExitCode::SUCCESS
        }
    }

    /// What it has asked of the disk, in counts.
    pub fn counts(&self) -> &DiskCounts {
        &self.counts
    }

    // Puts the entries into the journal, and sees them on the disk if they are to be there at once.
    fn put<R: Wait>(&self, rt: &R, entries: &[u8]) -> Result<(), NotKept> {
        let mut journal = self.journal.lock(rt);
        match journal.put(entries) {
            Ok(()) => {}
            Err(FolderFault::NoMemory) => return Err(NotKept::Later),
            Err(fault) => return Err(self.failed(fault)),
        }
        self.counts.set_journal(journal.length());
        match self.mode {
            SyncMode::Always => self.sync_journal(&mut *journal),
            SyncMode::Interval => Ok(()),
        }
    }

    // Sees on the disk what was put, and counts that.
    fn sync_journal(&self, journal: &mut Journal) -> Result<(), NotKept> {
        if journal.is_settled() {
            return Ok(());
        }
        let begun = Instant::now(self.rt);
        match journal.sync() {
            Ok(()) => {
                self.counts.add_sync(self.since(begun.ok()));
                Ok(())
            }
            Err(fault) => Err(self.failed(fault)),
        }
    }

    // Sees on the disk what was put. The disk is asked beside the journal first, so that nobody who puts waits for that, and then for what
    // came since.
    fn settle<R: Wait>(&self, rt: &R) -> Result<(), NotKept> {
        let beside = self.beside.lock(rt);
        if self.journal.lock(rt).is_settled() {
            return Ok(());
        }
        let begun = Instant::now(self.rt);
        let outcome = match &*beside {
            Some(file) => file.sync_data(),
            None => Ok(()),
        };
        let mut journal = self.journal.lock(rt);
        match outcome {
            Ok(()) => self.counts.add_sync(self.since(begun.ok())),
            Err(error) => journal.fail(FolderFault::from(error)),
        }
        self.sync_journal(&mut *journal)
    }

    // How long it is since then; nothing where the clock doesn't tell.
    fn since(&self, begun: Option<Instant>) -> Duration {
        match begun {
            Some(begun) => begun.elapsed(self.rt).unwrap_or(Duration::ZERO),
            None => Duration::ZERO,
        }
    }

    // Begins the next journal, once the one before is on the disk. Where nothing is in the last one yet, and its image isn't made, none
    // is needed.
    fn begin_next<R: Wait>(&self, rt: &R, core: &Core) -> Result<(), NotKept> {
        let mut folder = self.folder.lock(rt);
        if folder.lacks_image() && self.journal.lock(rt).is_empty() {
            return Ok(());
        }
        self.settle(rt)?;
        match folder.begin_next(core, Format::Events) {
            Ok(journal) => self.go_on(rt, journal),
            Err(NotBegun::Later(fault)) => return Err(self.put_off(fault)),
            Err(NotBegun::Failed(fault)) => return Err(self.failed(fault)),
        }
        self.is_owed.store(true, Ordering::SeqCst);
        Ok(())
    }

    // What is kept goes into this journal from now on.
    fn go_on<R: Wait>(&self, rt: &R, journal: Journal) {
        let mut journal = journal;
        self.counts.set_journal(journal.length());
        let mut beside = self.beside.lock(rt);
        *beside = journal.take_beside();
        *self.journal.lock(rt) = journal;
    }

    // Leaves the image that the last journal stands behind.
    fn keep_next<R: Wait>(&self, rt: &R, core: &Core) -> Result<(), FolderFault> {
        let mut folder = self.folder.lock(rt);
        folder.keep_image(core)?;
        self.is_owed.store(false, Ordering::SeqCst);
        self.is_put_off.store(false, Ordering::SeqCst);
        self.image
            .store(folder.contents()?.image_length()?, Ordering::SeqCst);
        self.counts.add_image();
        Ok(())
    }

    // No image is made now, for this reason, of which standard error is told once until one is.
    fn put_off(&self, fault: FolderFault) -> NotKept {
        if !self.is_put_off.swap(true, Ordering::SeqCst) {
            let _ = eprintln!(self.rt;
                "note: {}: no image is made now, and it is tried again: {fault}",
                Escaped(&self.path)
            );
        }
        NotKept::Later
    }

    // Nothing more is kept, for this reason. Standard error is told of the first one.
    fn failed(&self, fault: FolderFault) -> NotKept {
        if !self.has_failed.swap(true, Ordering::SeqCst) {
            let _ = eprintln!(self.rt; "fault: {}: {fault}", Escaped(&self.path));
        }
        NotKept::Failed
    }
}

impl Store for FolderStore<'_> {
    fn keeps(&self) -> bool {
        true
    }

    fn wants_sync(&self) -> bool {
        self.mode == SyncMode::Interval
    }

    fn keep<R: Wait>(&self, rt: &R, entries: &[u8]) -> Result<(), NotKept> {
        self.put(rt, entries)
    }

    fn sync<R: Wait>(&self, rt: &R) -> Result<(), NotKept> {
        match self.mode {
            // Who keeps has asked the disk already. The system tells a failure once, so nobody else does.
            SyncMode::Always => Ok(()),
            SyncMode::Interval => self.settle(rt),
        }
    }

    fn wants_image<R: Wait>(&self, rt: &R) -> bool {
        let length = self.journal.lock(rt).length();
        self.is_owed.load(Ordering::SeqCst)
            || length > self.least.max(self.image.load(Ordering::SeqCst))
    }

    fn begin<R: Wait>(&self, rt: &R, core: &Core) -> Result<(), NotKept> {
        self.begin_next(rt, core)
    }

    fn keep_image<R: Wait>(&self, rt: &R, core: &Core) -> Result<(), NotKept> {
        match self.keep_next(rt, core) {
            Ok(()) => Ok(()),
            Err(fault) => Err(self.put_off(fault)),
        }
    }
}
