//! What a server tells of itself, in a file.
use crate::counts::DiskCounts;
use crate::escaped::Escaped;
use crate::status::status_word;
use std::fmt::{Display, Formatter};
use std::fs::{OpenOptions, Permissions};
use std::io::{Error, ErrorKind, Write};
use std::os::unix::fs::{OpenOptionsExt, PermissionsExt};
use std::sync::atomic::{AtomicBool, Ordering};
use std::{fmt, fs};
use tab_host::may_be_given;
use tab_prog::ProgramFault;
use tab_server::Figures;

// Who may read the file: everybody, since whoever collects it runs as another user.
const MODE: u32 = 0o644;

// Why the file isn't written. What has its name keeps it.
#[derive(Clone, Copy, Debug, thiserror::Error)]
enum NotWritten {
    // The name is a folder's, a pipe's or a device's.
    #[error("what has this name is no file")]
    NoFile,
    // The system refuses it, for this reason.
    #[error("{0}")]
    Refused(Error),
}

impl From<Error> for NotWritten {
    fn from(error: Error) -> NotWritten {
        NotWritten::Refused(error)
    }
}

/// A file that is written anew each time, and gets its name once it is whole.
#[derive(Drop)]
pub struct MetricsFile<'a> {
    rt: &'a HostRuntime,
    name: &'a str,
    part: String,
    // of the folder that is kept, if one is
    counts: Option<&'a DiskCounts>,
    // whether it couldn't be written last time
    has_failed: AtomicBool,
}

impl<'a> MetricsFile<'a> {
    /// The file of this name, which isn't written yet. It has these counts too, if there are any. It takes memory for the name.
    pub fn new(
        rt: &'a HostRuntime,
        name: &'a str,
        counts: Option<&'a DiskCounts>,
    ) -> Result<MetricsFile<'a>, ProgramFault> {
        let part = format!(in rt.alloc(); "{name}.part").map_err(|_| ProgramFault::NoMemory)?;
        Ok(MetricsFile {
            rt,
            name,
            part,
            counts,
            has_failed: AtomicBool::new(false),
        })
    }

    /// Writes the file. Where it can't be, the last one stays, and standard error tells why, unless it couldn't be the last time either.
    pub fn write(&self, figures: &Figures<'_>) {
        match self.replace(figures) {
            Ok(()) => self.has_failed.store(false, Ordering::SeqCst),
            Err(fault) => self.tell(fault),
        }
    }

    // Tells why it can't be written, unless it was told last time.
    fn tell(&self, fault: NotWritten) {
        if !self.has_failed.swap(true, Ordering::SeqCst) {
            let _ = eprintln!(self.rt;
                "fault: {}: the metrics can't be written: {fault}",
                Escaped(&self.name)
            );
        }
    }

    // Writes a new file, and gives it the name of the old one.
    fn replace(&self, figures: &Figures<'_>) -> Result<(), NotWritten> {
        if !may_be_given(self.rt, self.name) {
            return Err(NotWritten::NoFile);
        }
        let resident = Resident(resident_bytes(self.rt));
        let counts = Counted(self.counts);
        let text = format!(in self.rt.alloc(); "{figures}{counts}{resident}");
        let text = text.map_err(|_| Error::from(ErrorKind::OutOfMemory))?;
        let outcome = self.put(text.as_bytes());
        if outcome.is_err() {
            let _ = fs::remove_file(self.rt, self.part.as_str());
        }
        outcome
    }

    // Writes these bytes to a new file, and gives it the name. What has its name before that is what a dead run has left.
    fn put(&self, bytes: &[u8]) -> Result<(), NotWritten> {
        let part = self.part.as_str();
        let _ = fs::remove_file(self.rt, part);
        let mut file = OpenOptions::new()
            .write(true)
            .create_new(true)
            .mode(MODE)
            .open(self.rt, part)?;
        file.set_permissions(Permissions::from_mode(MODE))?;
        file.write_all(bytes)?;
        Ok(fs::rename(self.rt, part, self.name)?)
    }
}

// The counts of a folder, as metrics, if one is kept.
#[derive(Clone, Copy)]
struct Counted<'a>(Option<&'a DiskCounts>);

impl Display for Counted<'_> {
    fn fmt<W: fmt::Write>(&self, f: &mut Formatter<W>) -> fmt::Result {
        match self.0 {
            Some(counts) => write!(f, "{counts}"),
            None => Ok(()),
        }
    }
}

// How many bytes of memory the program has, if the system tells; as a metric.
#[derive(Clone, Copy)]
struct Resident(Option<u64>);

impl Display for Resident {
    fn fmt<W: fmt::Write>(&self, f: &mut Formatter<W>) -> fmt::Result {
        let Some(bytes) = self.0 else {
            return Ok(());
        };
        writeln!(
            f,
            "# HELP tabd_resident_memory_bytes Memory that the program has."
        )?;
        writeln!(f, "# TYPE tabd_resident_memory_bytes gauge")?;
        writeln!(f, "tabd_resident_memory_bytes {bytes}")
    }
}

// How many bytes of memory the program has; none where the system doesn't tell.
fn resident_bytes(rt: &HostRuntime) -> Option<u64> {
    let kilobytes = status_word(rt, "VmRSS:")?;
    kilobytes.as_str().parse::<u64>().ok()?.checked_mul(1024)
}
