//! `tabd inspect` and `tabd export`.
use crate::replayed_image::replayed_image;
use anyhow::Context;
use std::fs;
use std::io::{IsTerminal, Write};
use tab_accumulo::{left_out, put_shell_lines};
use tab_csv::write_csv;
use tab_export::{put_script, server_records};
use tab_folder::{FolderFault, Format, Left, Look};
use tab_host::{Looked, Noting, Progress, ProgressStream, look};
use tab_image::Image;
use tab_inspect::put_facts;
use tab_io::{BlockWriter, Output};
use tab_prog::ProgramFault;

/// What an image is written as.
#[derive(Clone, Copy, Debug, PartialEq, Eq)]
pub enum Form {
    /// Facts, one a line.
    Facts,
    /// Lines of a script that make it again.
    Script,
    /// Lines of Accumulo's shell.
    Accumulo,
    /// CSV.
    Csv,
}

// What an image says, which file it stands in, and of a folder what stands in the journals behind it, which the image has done then.
#[derive(Drop)]
struct Seen {
    looked: Looked,
    name: String,
    left: Option<Vec<Left>>,
}

/// Writes the image in this file, or what this folder keeps, to standard output, and tells how many things of it the lines leave out.
/// `asked` says whether standard error has how far it has come. A fault names the file or the folder, and tells why.
pub fn run_look(rt: &HostRuntime, path: &str, form: Form, asked: bool) -> anyhow::Result<u64> {
    let reading = Progress::new(rt, asked);
    let outcome = seen_at(rt, path, &reading);
    reading.end();
    let seen = outcome.with_context(|| path)?;
    let mut stream = Noting::new(rt.stdout());
    let writing = Progress::new(rt, asked && !rt.stdout().is_terminal());
    let outcome = write(
        rt,
        ProgressStream::new(&mut stream, &writing, "writing", 0),
        &seen,
        form,
    );
    writing.end();
    match (outcome, stream.failure()) {
        (Ok(()), _) => Ok(omitted(&seen.looked.image, form)),
        (Err(ProgramFault::Write), Some(reason)) => {
            Err(anyhow::Error::from(reason).context(ProgramFault::Write))
        }
        (Err(fault), _) => Err(fault.into()),
    }
}

// How many things of the image can't be written in this form.
fn omitted(image: &Image, form: Form) -> u64 {
    match form {
        Form::Facts | Form::Script | Form::Csv => 0,
        Form::Accumulo => left_out(image),
    }
}

// The image in the file of this name, or of what the folder keeps.
fn seen_at(rt: &HostRuntime, path: &str, progress: &Progress<'_>) -> anyhow::Result<Seen> {
    if is_folder(rt, path) {
        return seen_in(rt, path, progress);
    }
    let looked = look(rt, path, progress)?;
    let name = format!(in rt.alloc(); "{path}").map_err(|_| ProgramFault::NoMemory)?;
    Ok(Seen {
        looked,
        name,
        left: None,
    })
}

fn is_folder(rt: &HostRuntime, path: &str) -> bool {
    match fs::metadata(rt, path) {
        Ok(holder) => holder.is_dir(),
        Err(_) => false,
    }
}

// The image of what the folder keeps, with what its journals hold replayed.
fn seen_in(rt: &HostRuntime, path: &str, progress: &Progress<'_>) -> anyhow::Result<Seen> {
    let folder = Look::open(rt, path)?;
    let name = folder.contents().image()?;
    let looked = folder.read(progress)?;
    let left = left_in(rt, &folder, (looked.image.next, looked.image.clock))?;
    let looked = if left.as_slice().iter().any(|left| left.bytes > 0) {
        replayed(rt, &folder, looked)?
    } else {
        looked
    };
    Ok(Seen {
        looked,
        name,
        left: Some(left),
    })
}

// The image with what the folder's journals hold replayed.
fn replayed(rt: &HostRuntime, folder: &Look<'_>, looked: Looked) -> Result<Looked, FolderFault> {
    let (version, bytes) = (looked.version, looked.bytes);
    drop(looked);
    Ok(Looked {
        image: replayed_image(rt, folder.contents())?,
        version,
        bytes,
    })
}

// What the folder's journals keep, of those that keep something. The first one goes on from an image of which `base` has the number of
// the next mutation and the clock.
fn left_in(
    rt: &HostRuntime,
    folder: &Look<'_>,
    base: (u64, i64),
) -> Result<Vec<Left>, FolderFault> {
    let mut all = Vec::new(rt.alloc());
    let mut base = Some(base);
    for number in folder.contents().journals() {
        let left = folder.left(number, base.take())?;
        if left.bytes > 0 || left.cut > 0 {
            all.push(left)?;
        }
    }
    Ok(all)
}

// Writes what was seen.
fn write<W: Write + Drop>(
    rt: &HostRuntime,
    writer: W,
    seen: &Seen,
    form: Form,
) -> Result<(), ProgramFault> {
    let image = &seen.looked.image;
    if form == Form::Csv {
        return write_csv(writer, image)
            .map(|_| ())
            .map_err(|_| ProgramFault::Write);
    }
    let Ok(mut output) = BlockWriter::new(rt.alloc(), writer) else {
        return Err(ProgramFault::NoMemory);
    };
    match form {
        Form::Facts => put_seen(rt, &mut output, seen)?,
        Form::Script => put_lines(rt, &mut output, image)?,
        Form::Accumulo => put_shell_lines(&mut output, image).map_err(|_| ProgramFault::Write)?,
        Form::Csv => {}
    }
    output.flush().map_err(|_| ProgramFault::Write)
}

// What is to be said of the file, and what its image says.
fn put_seen<W: Output>(rt: &HostRuntime, output: &mut W, seen: &Seen) -> Result<(), ProgramFault> {
    put_file(rt, output, seen)?;
    put_facts(output, &seen.looked.image).map_err(|_| ProgramFault::Write)
}

fn put_file<W: Output>(rt: &HostRuntime, output: &mut W, seen: &Seen) -> Result<(), ProgramFault> {
    let (name, looked) = (seen.name.as_str(), &seen.looked);
    let (version, bytes) = (looked.version, looked.bytes);
    let head = format!(in rt.alloc(); "file {name}\nversion {version}\nbytes {bytes}\n").map_err(
        |_| ProgramFault::NoMemory,
    )?;
    put_text(output, head.as_str())?;
    match &seen.left {
        Some(left) => put_journals(rt, output, left.as_slice()),
        None => Ok(()),
    }
}

// What journals keep beyond an image, a line each.
fn put_journals<W: Output>(
    rt: &HostRuntime,
    output: &mut W,
    left: &[Left],
) -> Result<(), ProgramFault> {
    if left.is_empty() {
        return put_text(output, "journal lines 0 bytes 0 cut 0\n");
    }
    for journal in left {
        let (bytes, lines, cut) = (journal.bytes, journal.lines, journal.cut);
        let line = match journal.format {
            Format::Events => format!(in rt.alloc(); "journal events bytes {bytes} cut {cut}\n"),
            Format::Lines => format!(in rt.alloc();
                "journal lines {lines} bytes {bytes} cut {cut}\n"
            ),
        };
        put_text(output, line.map_err(|_| ProgramFault::NoMemory)?.as_str())?;
    }
    Ok(())
}

fn put_text<W: Output>(output: &mut W, text: &str) -> Result<(), ProgramFault> {
    output.put(text.as_bytes()).map_err(|_| ProgramFault::Write)
}

// The lines of a script that make the image again.
fn put_lines<W: Output>(
    rt: &HostRuntime,
    output: &mut W,
    image: &Image,
) -> Result<(), ProgramFault> {
    let Ok(order) = server_records(rt.alloc(), image.tables.as_slice()) else {
        return Err(ProgramFault::NoMemory);
    };
    put_script(output, image, order.as_slice()).map_err(|_| ProgramFault::Write)
}
