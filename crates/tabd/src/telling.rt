//! What a server tells beside its answers.
use crate::counts::DiskCounts;
use crate::history::LogFile;
use crate::metrics::MetricsFile;
use std::sync::ledger::Ledger;
use tab_book::Part;
use tab_prog::ProgramFault;
use tab_server::{Connection, Figures, History, NotTaken, Note};

/// Where its history goes, what it tells of itself, the connections that have ended, a line each on standard error, and what it has to say
/// at once, likewise.
#[derive(Drop)]
pub struct Telling<'a> {
    rt: &'a HostRuntime,
    history: LogFile<'a>,
    metrics: Option<MetricsFile<'a>>,
    is_logged: bool,
}

impl<'a> Telling<'a> {
    /// The history goes there, what it tells of itself to the file of this name, if one is named, with these counts of the folder that is
    /// kept, if one is, and whether connections are told.
    pub fn new(
        rt: &'a HostRuntime,
        history: LogFile<'a>,
        metrics: Option<&'a str>,
        counts: Option<&'a DiskCounts>,
        is_logged: bool,
    ) -> Result<Telling<'a>, ProgramFault> {
        let metrics = match metrics {
            Some(name) => Some(MetricsFile::new(rt, name, counts)?),
            None => None,
        };
        Ok(Telling {
            rt,
            history,
            metrics,
            is_logged,
        })
    }
}

impl History for Telling<'_> {
    fn take<L: Ledger>(&self, part: &Part<L>) -> Result<(), NotTaken> {
        self.history.take(part)
    }

    fn keeps(&self) -> bool {
        self.history.keeps()
    }

    fn wants_figures(&self) -> bool {
        self.metrics.is_some()
    }

    fn report(&self, figures: &Figures<'_>) {
        if let Some(metrics) = &self.metrics {
            metrics.write(figures);
        }
    }

    fn end(&self, connection: &Connection) {
        if self.is_logged {
            let _ = eprintln!(self.rt; "{connection}");
        }
    }

    fn note(&self, note: Note) {
        let _ = eprintln!(self.rt; "note: {note}");
    }
}
