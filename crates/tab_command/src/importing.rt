//! The command line of `import`.
use crate::looking::progress;
use clap::{Arg, ArgAction, ArgMatches, Command, Error};
use std::alloc::Global;

/// What `tabd import` is asked for.
#[derive(Clone, Copy)]
pub struct ImportRequest<'a> {
    /// The file of the CSV, or `-` for standard input.
    pub path: &'a str,
    /// The table, where no column names it.
    pub table: Option<&'a str>,
    /// Whether lines are only looked at.
    pub check: bool,
    /// Whether standard error has how far it has come.
    pub progress: bool,
}

pub(crate) fn import_request<'a>(import: &ArgMatches<'a>) -> ImportRequest<'a> {
    ImportRequest {
        path: import.get_str("path").unwrap_or(""),
        table: import.get_str("table"),
        check: import.get_flag("check"),
        progress: import.get_flag("progress"),
    }
}

/// The command line of `import`.
pub(crate) fn import_command<'a>(alloc: Global) -> Result<Command<'a>, Error> {
    let path = Arg::new(alloc, "path")
        .value_name("FILE")
        .action(ArgAction::Set)
        .required(true)
        .help("The CSV, whose first line names its columns, or - for standard input");
    let table = Arg::new(alloc, "table")
        .long("table")
        .value_name("T")
        .action(ArgAction::Set)
        .allow_hyphen_values(true)
        .help("The table, where no column names it");
    let check = Arg::new(alloc, "check")
        .long("check")
        .action(ArgAction::SetTrue)
        .help("Writes no lines, and only says what is wrong with the CSV");
    let import = Command::new(alloc, "import")
        .about("Writes CSV as lines of a script that write its cells")
        .arg(path)?
        .arg(table)?
        .arg(check)?
        .arg(progress(alloc))?;
    Ok(import)
}
