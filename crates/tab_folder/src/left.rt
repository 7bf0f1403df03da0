//! What a run that didn't end left in a journal, for who looks into a folder.
use crate::FolderFault;
use crate::file_device::FileDevice;
use crate::journal_lines::JournalLines;
use crate::listing::Chain;
use crate::names::StoreFile;
use crate::taking_up::{begun, check_end, read_out};
use std::fs::File;
use tab_journal::Format;

/// What a run that didn't end left in a journal.
#[derive(Clone, Copy, Debug, PartialEq, Eq)]
pub struct Left {
    /// What the journal keeps.
    pub format: Format,
    /// How many bytes of lines, or of entries, it keeps.
    pub bytes: u64,
    /// How many lines.
    pub lines: u64,
    /// How many bytes stand at its end that are no whole batch.
    pub cut: u64,
}

/// What is left in the journal of this number, which goes on from a core of which `base` has the number of the next mutation and the
/// clock, if that is known.
pub(crate) fn left_in(
    rt: &HostRuntime,
    folder: &str,
    chain: Chain,
    number: u64,
    base: Option<(u64, i64)>,
) -> Result<Left, FolderFault> {
    let place = chain.place(number, base);
    let name = StoreFile::Journal(number).path(rt.alloc(), folder)?;
    let mut device = FileDevice::found(File::open(rt, name.as_str())?);
    let reader = begun(rt.alloc(), &mut device, place)?;
    let format = reader.header().format;
    let lines = JournalLines::new(device, reader);
    let left = kept_by(lines, format)?;
    let mut again = FileDevice::found(File::open(rt, name.as_str())?);
    let mut reader = begun(rt.alloc(), &mut again, place)?;
    let end = read_out(&mut again, &mut reader)?;
    check_end(place, &end)?;
    Ok(Left {
        cut: end.left,
        ..left
    })
}

// What the batches of a journal of this format keep. Of lines the last one counts only where it ends.
fn kept_by(batches: JournalLines, format: Format) -> Result<Left, FolderFault> {
    let mut batches = batches;
    let (mut bytes, mut whole, mut lines) = (0u64, 0u64, 0u64);
    for _ in 0..u64::MAX {
        if !batches.advance()? {
            break;
        }
        let body = batches.body();
        if let Some(last) = body.iter().rposition(|byte| *byte == b'\n') {
            whole = bytes.saturating_add(last as u64).saturating_add(1);
            lines = lines.saturating_add(body.iter().filter(|byte| **byte == b'\n').count() as u64);
        }
        bytes = bytes.saturating_add(body.len() as u64);
    }
    Ok(Left {
        format,
        bytes: match format {
            Format::Lines => whole,
            Format::Events => bytes,
        },
        lines,
        cut: 0,
    })
}
