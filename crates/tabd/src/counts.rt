//! What a server's folder is asked for, in counts.
use std::fmt;
use std::fmt::{Display, Formatter};
use std::sync::atomic::{AtomicU64, Ordering};
use std::time::Duration;

// How many microseconds a second has.
const SECOND: u64 = 1_000_000;

/// What a server has asked of the disk since it began, for the folder that it keeps. It is shown as metrics, in the text form of
/// Prometheus.
///
/// Any thread may count at any time. A count goes by no other one, and none is shown at the same moment as another.
#[derive(Drop)]
pub struct DiskCounts {
    syncs: AtomicU64,
    microseconds: AtomicU64,
    journal: AtomicU64,
    images: AtomicU64,
}

impl DiskCounts {
    /// Nothing was asked of the disk, and there is no journal.
    pub fn new() -> DiskCounts {
        DiskCounts {
            syncs: AtomicU64::new(0),
            microseconds: AtomicU64::new(0),
            journal: AtomicU64::new(0),
            images: AtomicU64::new(0),
        }
    }

    /// A sync of the journal took so long.
    pub fn add_sync(&self, took: Duration) {
        let microseconds = u64::try_from(took.as_micros()).unwrap_or(u64::MAX);
        let _ = self.syncs.fetch_add(1, Ordering::Relaxed);
        let _ = self.microseconds.fetch_add(microseconds, Ordering::Relaxed);
    }

    /// The journal has so many bytes now.
    pub fn set_journal(&self, bytes: u64) {
        self.journal.store(bytes, Ordering::Relaxed);
    }

    /// An image was made.
    pub fn add_image(&self) {
        let _ = self.images.fetch_add(1, Ordering::Relaxed);
    }
}

impl Display for DiskCounts {
    fn fmt<W: fmt::Write>(&self, f: &mut Formatter<W>) -> fmt::Result {
        let journal = self.journal.load(Ordering::Relaxed);
        let syncs = self.syncs.load(Ordering::Relaxed);
        let took = self.microseconds.load(Ordering::Relaxed);
        let (seconds, rest) = (took / SECOND, took % SECOND);
        let images = self.images.load(Ordering::Relaxed);
        describe(
            f,
            "journal_bytes",
            "gauge",
            "Bytes of the journal that is written now.",
        )?;
        writeln!(f, "tabd_journal_bytes {journal}")?;
        describe(f, "journal_syncs_total", "counter", "Syncs of the journal.")?;
        writeln!(f, "tabd_journal_syncs_total {syncs}")?;
        describe(
            f,
            "journal_sync_seconds_total",
            "counter",
            "Time that syncs of the journal took.",
        )?;
        writeln!(f, "tabd_journal_sync_seconds_total {seconds}.{rest:06}")?;
        describe(
            f,
            "images_total",
            "counter",
            "Images that were made in the place of a journal.",
        )?;
        writeln!(f, "tabd_images_total {images}")
    }
}

// What stands before a metric's sample: its help and its type.
fn describe<W: fmt::Write>(
    f: &mut Formatter<W>,
    name: &str,
    kind: &str,
    help: &str,
) -> fmt::Result {
    writeln!(f, "# HELP tabd_{name} {help}")?;
    writeln!(f, "# TYPE tabd_{name} {kind}")
}
