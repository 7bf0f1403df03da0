//! What a server tells of itself.

use crate::counters::Counters;
use crate::refused::REFUSAL_NAMES;
use crate::tally::Tallied;
use std::fmt;
use std::fmt::{Display, Formatter};
use std::time::Duration;
use tab_work::Holdings;

/// What a server tells of itself at one moment. It is shown in the text form of Prometheus, each metric with its help and its type.
///
/// The counts of connections, frames, refusals and cells are those of the moment at which they are shown: of all that was told, none of
/// what is still to be told. What the store holds is that of one moment under its lock.
#[derive(Clone, Copy)]
pub struct Figures<'a> {
    pub(crate) counters: &'a Counters,
    pub(crate) waiting: u64,
    pub(crate) holdings: Holdings,
    pub(crate) uptime: Duration,
}

impl Display for Figures<'_> {
    fn fmt<W: fmt::Write>(&self, f: &mut Formatter<W>) -> fmt::Result {
        self.show_connections(f)?;
        self.show_refusals(f)?;
        self.show_cells(f)?;
        self.show_store(f)
    }
}

impl Figures<'_> {
    // Connections, and the frames that they sent.
    fn show_connections<W: fmt::Write>(&self, f: &mut Formatter<W>) -> fmt::Result {
        let (uptime, workers) = (self.uptime.as_secs(), self.counters.workers() as u64);
        let begun = self.counters.sum(Tallied::Begun);
        let now = begun.saturating_sub(self.counters.sum(Tallied::Ended));
        let frames = self.counters.sum(Tallied::Frames);
        let uptime = gauge("uptime_seconds", "For how long the server runs.", uptime);
        let workers = gauge("workers", "Connections served at once.", workers);
        let now = gauge("connections", "Connections that are served now.", now);
        let waiting = gauge(
            "connections_waiting",
            "Connections that wait for a worker now.",
            self.waiting,
        );
        let begun = counter("connections_total", "Connections served so far.", begun);
        let frames = counter("frames_total", "Frames that were read.", frames);
        write!(f, "{uptime}{workers}{now}{waiting}{begun}{frames}")
    }

    // Refusals, those of each name.
    fn show_refusals<W: fmt::Write>(&self, f: &mut Formatter<W>) -> fmt::Result {
        writeln!(
            f,
            "# HELP tabd_refusals_total Refusals that were told, by name."
        )?;
        writeln!(f, "# TYPE tabd_refusals_total counter")?;
        self.show_each(f, REFUSAL_NAMES.as_slice())
    }

    // Refusals of each of these names.
    fn show_each<W: fmt::Write>(&self, f: &mut Formatter<W>, names: &[&str]) -> fmt::Result {
        for (place, name) in names.iter().enumerate() {
            let count = self.counters.refused(place);
            writeln!(f, "tabd_refusals_total{{refusal=\"{name}\"}} {count}")?;
        }
        Ok(())
    }

    // Cells that were written and told.
    fn show_cells<W: fmt::Write>(&self, f: &mut Formatter<W>) -> fmt::Result {
        let written = self.counters.sum(Tallied::CellsWritten);
        let read = self.counters.sum(Tallied::CellsRead);
        let written = counter(
            "cells_written_total",
            "Updates that were accepted.",
            written,
        );
        let read = counter("cells_read_total", "Cells that were told.", read);
        write!(f, "{written}{read}")
    }

    // What was done to the store, and what it holds.
    fn show_store<W: fmt::Write>(&self, f: &mut Formatter<W>) -> fmt::Result {
        let (held, counts) = (self.holdings, self.holdings.counts);
        let installs = self.counters.installs();
        let events = counter(
            "events_total",
            "Events, those of the server itself too.",
            held.events,
        );
        let merges = counter("compactions_total", "Merges that were installed.", installs);
        let entries = gauge(
            "history_entries",
            "Entries of the history in memory.",
            held.entries,
        );
        let tables = gauge("tables", "Tables.", held.tables);
        let tablets = gauge("tablets", "Tablets of all tables.", counts.tablets);
        let sources = gauge("sources", "Runs and sorted tables.", counts.sources);
        let records = gauge("records", "Records, hidden ones too.", counts.records);
        write!(
            f,
            "{events}{merges}{entries}{tables}{tablets}{sources}{records}"
        )
    }
}

// A metric without labels, with its help and its type.
#[derive(Clone, Copy)]
struct Metric<'a> {
    kind: &'a str,
    name: &'a str,
    help: &'a str,
    value: u64,
}

impl Display for Metric<'_> {
    fn fmt<W: fmt::Write>(&self, f: &mut Formatter<W>) -> fmt::Result {
        writeln!(f, "# HELP tabd_{} {}", self.name, self.help)?;
        writeln!(f, "# TYPE tabd_{} {}", self.name, self.kind)?;
        writeln!(f, "tabd_{} {}", self.name, self.value)
    }
}

// A metric that only grows.
fn counter<'a>(name: &'a str, help: &'a str, value: u64) -> Metric<'a> {
    let kind = "counter";
    Metric {
        kind,
        name,
        help,
        value,
    }
}

// A metric that doesn't.
fn gauge<'a>(name: &'a str, help: &'a str, value: u64) -> Metric<'a> {
    let kind = "gauge";
    Metric {
        kind,
        name,
        help,
        value,
    }
}
