//! What a new image takes the place of, removed.
use crate::names::{FileKind, kind_of};
use std::fs;

/// Removes the images before the one of this number with what goes with them, and all parts. What can't be removed now is removed
/// another time.
pub(crate) fn sweep(rt: &HostRuntime, folder: &str, number: u64) {
    let Ok(entries) = fs::read_dir(rt, folder) else {
        return;
    };
    for entry in entries {
        let Ok(entry) = entry else {
            return;
        };
        if is_past(kind_of(entry.file_name()), number) {
            let _ = fs::remove_file(rt, entry.path());
        }
    }
}

// Whether a file of this kind is of no use once there is an image of this number.
fn is_past(kind: FileKind, number: u64) -> bool {
    match kind {
        FileKind::Whole(file) | FileKind::Sum(file) => file.number() < number,
        FileKind::Part(_) => true,
        FileKind::Other => false,
    }
}
