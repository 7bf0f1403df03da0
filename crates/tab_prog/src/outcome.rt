//! What came of a file line, and its text.
#![tactic(auto, using(tab_io::proofs::Putting::putting))]

ghost use Rattle.tab_io.specs.Writing.{Puts};
ghost use Rattle.tab_prog.specs.Outcomes.{save_fault_text, load_fault_text};

use tab_io::{Output, WriteFault};
use tab_text::{Word, put_line};

/// Why no image was saved. What the file's name had before, it has still.
#[derive(Clone, Copy, Debug, PartialEq, Eq, thiserror::Error)]
pub enum SaveFault {
    /// The file can't be written.
    #[error("the image can't be written")]
    Io,
    /// There was no memory.
    #[error("there is no memory for the image")]
    NoMemory,
}

/// Why no image was loaded.
#[derive(Clone, Copy, Debug, PartialEq, Eq, thiserror::Error)]
pub enum LoadFault {
    /// The file can't be read.
    #[error("the image can't be read")]
    Io,
    /// There was no memory.
    #[error("there is no memory for the image")]
    NoMemory,
    /// The file holds an image of a version that isn't known.
    #[error("the image has the unknown version {0}")]
    Version(u16),
    /// The file holds no image.
    #[error("this is no image")]
    Bad,
}

/// Writes why no image was saved.
pub fn put_save_fault<W: Output>(output: &mut W, fault: SaveFault) -> Result<(), WriteFault>
    ensures { Puts W.Output output.old output.new (save_fault_text fault) result }
{
    match fault {
        SaveFault::Io => output.put(b"fault save io\n"),
        SaveFault::NoMemory => output.put(b"fault save memory\n"),
    }
}

/// Writes why no image was loaded.
pub fn put_load_fault<W: Output>(output: &mut W, fault: LoadFault) -> Result<(), WriteFault>
    ensures { Puts W.Output output.old output.new (load_fault_text fault) result }
{
    match fault {
        LoadFault::Io => output.put(b"fault load io\n"),
        LoadFault::NoMemory => output.put(b"fault load memory\n"),
        LoadFault::Version(version) => put_version(output, version),
        LoadFault::Bad => output.put(b"fault load bad\n"),
    }
}

// Writes that the image has this version.
fn put_version<W: Output>(output: &mut W, version: u16) -> Result<(), WriteFault>
    ensures { Puts W.Output output.old output.new (load_fault_text (LoadFault.Version version)) result }
{
    put_line(
        output,
        &[
            Word::Text(b"fault"),
            Word::Text(b"load"),
            Word::Text(b"version"),
            Word::Number(version as u64),
        ],
    )
}
