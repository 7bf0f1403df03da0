//! The command lines of `inspect` and `export`.
use clap::{Arg, ArgAction, ArgMatches, Command, Error};
use std::alloc::Global;

/// What `tabd inspect` is asked for.
#[derive(Clone, Copy)]
pub struct InspectRequest<'a> {
    /// The file of the image, or the folder.
    pub path: &'a str,
    /// Whether standard error has how far it has come.
    pub progress: bool,
}

/// What an image is exported as.
#[derive(Clone, Copy, Debug, PartialEq, Eq)]
pub enum ExportForm {
    /// Lines of a script.
    Script,
    /// Lines of Accumulo's shell.
    Accumulo,
    /// CSV.
    Csv,
}

/// What `tabd export` is asked for.
#[derive(Clone, Copy)]
pub struct ExportRequest<'a> {
    /// The file of the image, or the folder.
    pub path: &'a str,
    /// What is written.
    pub form: ExportForm,
    /// Whether standard error has how far it has come.
    pub progress: bool,
}

pub(crate) fn inspect_request<'a>(inspect: &ArgMatches<'a>) -> InspectRequest<'a> {
    InspectRequest {
        path: inspect.get_str("path").unwrap_or(""),
        progress: inspect.get_flag("progress"),
    }
}

pub(crate) fn export_request<'a>(export: &ArgMatches<'a>) -> ExportRequest<'a> {
    ExportRequest {
        path: export.get_str("path").unwrap_or(""),
        form: form_in(export),
        progress: export.get_flag("progress"),
    }
}

// What it is exported as.
fn form_in(export: &ArgMatches<'_>) -> ExportForm {
    if export.get_flag("csv") {
        ExportForm::Csv
    } else if export.get_flag("accumulo") {
        ExportForm::Accumulo
    } else {
        ExportForm::Script
    }
}

/// The command line of `inspect`.
pub(crate) fn inspect_command<'a>(alloc: Global) -> Result<Command<'a>, Error> {
    let inspect = Command::new(alloc, "inspect")
        .about("Shows what an image, or the folder of a store, holds: one fact a line")
        .arg(path(alloc))?
        .arg(progress(alloc))?;
    Ok(inspect)
}

/// The command line of `export`.
pub(crate) fn export_command<'a>(alloc: Global) -> Result<Command<'a>, Error> {
    let accumulo = Arg::new(alloc, "accumulo")
        .long("accumulo")
        .action(ArgAction::SetTrue)
        .help("Writes lines of Apache Accumulo's shell");
    let csv = Arg::new(alloc, "csv")
        .long("csv")
        .action(ArgAction::SetTrue)
        .help("Writes CSV: a line for each record that is stored")
        .conflicts_with("accumulo")?;
    let export = Command::new(alloc, "export")
        .about("Writes an image, or the folder of a store, as lines of a script that make it again")
        .arg(path(alloc))?
        .arg(accumulo)?
        .arg(csv)?
        .arg(progress(alloc))?;
    Ok(export)
}

// The image.
fn path<'a>(alloc: Global) -> Arg<'a> {
    Arg::new(alloc, "path")
        .value_name("FILE|FOLDER")
        .action(ArgAction::Set)
        .required(true)
        .help("The image, or the folder of a store that no process has")
}

// Whether it is told how far the work has come.
pub(crate) fn progress<'a>(alloc: Global) -> Arg<'a> {
    Arg::new(alloc, "progress")
        .long("progress")
        .action(ArgAction::SetTrue)
        .help("Says on standard error once a second how far it has come")
}
