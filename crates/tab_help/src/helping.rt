//! What is said at a prompt: at the beginning, and to lines that ask for help.
use crate::asks::Asks;
use crate::forms::{DEEDS, KINDS, LINES, UPDATES, behind, parted, row_of};
use crate::listing::has_kind;
use tab_io::{Output, WriteFault, length_before};
use tab_lines::Words;

// What is said at the beginning.
const SCRIPT_BEGINS: &[u8] =
    b"tabd: a sorted store in memory. What it holds is gone at the end, unless you save it.\n";

const KEPT_BEGINS: &[u8] =
    b"tabd: a sorted store, kept in a folder. What was answered is there at the next start.\n";

const SHELL_BEGINS: &[u8] =
    b"tabd: lines for a server. What they write is gone when it ends, unless it keeps it in a folder.\n";

const WAYS: &[u8] = b"help lists the lines, help LINE tells what one does, quit ends.\n";

// The lines of a prompt itself, and what each does.
const OWN_LINES: &str = "  help [LINE]
  quit";

const OWN_DEEDS: &str = "  help  Lists the lines, or tells what one does. So does ?.
  quit  Ends. So does exit.";

/// Says what this is, and how to get help and out.
pub(crate) fn put_beginning<W: Output>(output: &mut W, asks: Asks) -> Result<(), WriteFault> {
    output.put(match asks {
        Asks::Script => SCRIPT_BEGINS,
        Asks::KeptScript => KEPT_BEGINS,
        Asks::Shell => SHELL_BEGINS,
    })?;
    output.put(WAYS)
}

/// Puts the forms of the line that the second word names, or of all.
pub(crate) fn put_help<W: Output>(
    output: &mut W,
    asks: Asks,
    line: &[u8],
) -> Result<(), WriteFault> {
    let text = line.split_at(length_before(b'\n', line)).0;
    let mut words = Words::of(text);
    let _ = words.next();
    match words.next() {
        Some(command) => put_line(output, asks, command)?,
        None => put_all(output, asks)?,
    }
    output.flush()
}

// Puts the forms of all lines.
fn put_all<W: Output>(output: &mut W, asks: Asks) -> Result<(), WriteFault> {
    for row in LINES.lines() {
        let (command, _) = parted(row);
        if asks.has(command.as_bytes()) {
            put_row(output, row)?;
        }
    }
    put_row(output, OWN_LINES)
}

// Puts what one line does, and its forms: one of a script or a shell, or of the prompt itself.
fn put_line<W: Output>(output: &mut W, asks: Asks, command: &[u8]) -> Result<(), WriteFault> {
    if asks.has(command) && row_of(LINES, command).is_some() {
        return put_forms(output, command);
    }
    let own = match command {
        b"exit" => b"quit",
        b"?" => b"help",
        _ => command,
    };
    if row_of(OWN_LINES, own).is_none() {
        return output.put(if asks.has(command) {
            b"  there is no such line: help lists them\n"
        } else {
            b"  this line is a script's alone: help lists a shell's\n"
        });
    }
    put_deed(output, OWN_DEEDS, own)?;
    put_rows(output, OWN_LINES, own)
}

// Puts what one line does, its forms, and what their words are.
fn put_forms<W: Output>(output: &mut W, command: &[u8]) -> Result<(), WriteFault> {
    put_deed(output, DEEDS, command)?;
    put_rows(output, LINES, command)?;
    if command == b"mutate".as_slice() {
        put_row(output, UPDATES)?;
    }
    for row in KINDS.lines() {
        let (kind, _) = parted(row);
        if is_named(command, kind) {
            put_row(output, row)?;
        }
    }
    Ok(())
}

// Puts what the line does, as the table says it.
fn put_deed<W: Output>(output: &mut W, deeds: &str, command: &[u8]) -> Result<(), WriteFault> {
    let deed = row_of(deeds, command).unwrap_or("");
    output.put(deed.trim_start().as_bytes())?;
    output.put(b"\n")
}

// Puts the rows of the table that begin with the command.
fn put_rows<W: Output>(output: &mut W, table: &str, command: &[u8]) -> Result<(), WriteFault> {
    for row in table.lines() {
        if behind(row, command).is_some() {
            put_row(output, row)?;
        }
    }
    Ok(())
}

// Whether a form of the line has a word of this kind.
fn is_named(command: &[u8], kind: &str) -> bool {
    for row in LINES.lines() {
        if let Some(rest) = behind(row, command)
            && has_kind(rest, kind)
        {
            return true;
        }
    }
    command == b"mutate".as_slice() && UPDATES.lines().any(|row| has_kind(row, kind))
}

fn put_row<W: Output>(output: &mut W, row: &str) -> Result<(), WriteFault> {
    output.put(row.as_bytes())?;
    output.put(b"\n")
}
