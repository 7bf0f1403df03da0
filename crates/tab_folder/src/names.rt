//! The names of the files in a folder.
use std::alloc::{AllocError, Global};
use std::fmt;
use std::fmt::{Display, Formatter};

// What stands behind the name of an image that isn't whole yet, and behind that of a checksum.
const PART: &str = ".part";

const SUM: &str = ".sha256";

/// A file of a folder that keeps something, by its numbers. Its text is its name.
#[derive(Clone, Copy, Debug, PartialEq, Eq)]
pub enum StoreFile {
    /// The image of this number.
    Image(u64),
    /// The journal that follows on the image of this number.
    Journal(u64),
    /// What a `load` has given, by the number of its journal and its place among the loads of that one.
    Loaded(u64, u64),
}

impl StoreFile {
    /// The number of the image that it is, or goes with.
    pub(crate) fn number(self) -> u64 {
        match self {
            StoreFile::Image(number) | StoreFile::Journal(number) | StoreFile::Loaded(number, _) =>
                { number }
        }
    }

    /// Its path in this folder.
    pub(crate) fn path(self, alloc: Global, folder: &str) -> Result<String, AllocError> {
        format!(in alloc; "{folder}/{self}")
    }

    /// The path that it has there until it is whole.
    pub(crate) fn part(self, alloc: Global, folder: &str) -> Result<String, AllocError> {
        format!(in alloc; "{folder}/{self}{PART}")
    }
}

impl Display for StoreFile {
    fn fmt<W: fmt::Write>(&self, f: &mut Formatter<W>) -> fmt::Result {
        match self {
            StoreFile::Image(number) => write!(f, "image.{number}"),
            StoreFile::Journal(number) => write!(f, "journal.{number}"),
            StoreFile::Loaded(number, place) => write!(f, "loaded.{number}.{place}"),
        }
    }
}

/// What a file of a folder is, by its name.
#[derive(Clone, Copy, Debug, PartialEq, Eq)]
pub(crate) enum FileKind {
    /// This one, whole.
    Whole(StoreFile),
    /// The checksum of this one.
    Sum(StoreFile),
    /// A part of this one.
    Part(StoreFile),
    /// Something else.
    Other,
}

/// What the file of this name is.
pub(crate) fn kind_of(name: &str) -> FileKind {
    let kind = if let Some(whole) = name.strip_suffix(PART) {
        file_of(whole).map(FileKind::Part)
    } else if let Some(whole) = name.strip_suffix(SUM) {
        file_of(whole).map(FileKind::Sum)
    } else {
        file_of(name).map(FileKind::Whole)
    };
    kind.unwrap_or(FileKind::Other)
}

// The file of this name.
fn file_of(name: &str) -> Option<StoreFile> {
    if let Some(digits) = name.strip_prefix("image.") {
        return Some(StoreFile::Image(number_of(digits)?));
    }
    if let Some(digits) = name.strip_prefix("journal.") {
        return Some(StoreFile::Journal(number_of(digits)?));
    }
    let (number, place) = name.strip_prefix("loaded.")?.split_once('.')?;
    Some(StoreFile::Loaded(number_of(number)?, number_of(place)?))
}

// The number of these decimal digits, of which none is a zero before others.
fn number_of(digits: &str) -> Option<u64> {
    let padded = digits.len() > 1 && digits.starts_with('0');
    if padded || !digits.as_bytes().iter().all(|byte| byte.is_ascii_digit()) {
        return None;
    }
    digits.parse::<u64>().ok()
}
