//! Where a server keeps what it did.

use std::alloc::AllocError;
use std::sync::Wait;
use tab_core::Core;

/// Why something isn't kept.
#[derive(Clone, Copy, PartialEq, Eq, Debug)]
pub enum NotKept {
    /// Not now: memory, descriptors or room lacked. Nothing of this call is kept, what was kept before stands, and it may be asked for
    /// again.
    Later,
    /// The journal can't be written, or the disk couldn't be asked for it: nothing more is kept.
    Failed,
}

impl From<AllocError> for NotKept {
    fn from(_lack: AllocError) -> NotKept {
        NotKept::Later
    }
}

/// Where a server keeps what it did, so that it outlives a crash: an image of a core, and the entries of the history that came since.
/// Whoever answers [`NotKept`] has said why on standard error: of `Failed` always, of `Later` where an image isn't made, once until one
/// is. After `Failed` no reply is told any more, and nothing more is kept.
pub trait Store {
    /// Whether it keeps anything. Where it doesn't, nothing else is asked of it, and no reply waits.
    fn keeps(&self) -> bool;

    /// Whether [`Store::sync`] is to be asked for about once a second. By default it is.
    fn wants_sync(&self) -> bool {
        true
    }

    /// Keeps these entries of the server's history, as [`tab_journal::Gathered`] writes them, behind all that were kept before. Once it
    /// has returned replies are told that rest on them. Of this call and [`Store::begin`] one is made at a time.
    fn keep<R: Wait>(&self, rt: &R, entries: &[u8]) -> Result<(), NotKept>;

    /// Sees that what was kept before this call is on the disk. It's asked for about once a second, beside other calls, and at the end. It
    /// doesn't answer `Later`.
    fn sync<R: Wait>(&self, rt: &R) -> Result<(), NotKept>;

    /// Whether an image is to be made in the place of the entries that were kept since the last one.
    fn wants_image<R: Wait>(&self, rt: &R) -> bool;

    /// Lets the entries that are kept from now on stand behind an image of this core, which [`Store::keep_image`] will keep. Up to then
    /// the last image and the entries behind it stand for it: all that it holds was kept. Where it answers `Later` they go on where they
    /// were.
    fn begin<R: Wait>(&self, rt: &R, core: &Core) -> Result<(), NotKept>;

    /// Keeps an image of the core, beside other calls. Where it answers `Later` the last image and all entries behind it stand, an image
    /// is still wanted, and both calls are made again, with what the core is then.
    fn keep_image<R: Wait>(&self, rt: &R, core: &Core) -> Result<(), NotKept>;
}

/// It keeps nothing.
#[derive(Clone, Copy)]
pub struct NoStore;

impl Store for NoStore {
    fn keeps(&self) -> bool {
        false
    }

    fn keep<R: Wait>(&self, _rt: &R, _entries: &[u8]) -> Result<(), NotKept> {
        Ok(())
    }

    fn sync<R: Wait>(&self, _rt: &R) -> Result<(), NotKept> {
        Ok(())
    }

    fn wants_image<R: Wait>(&self, _rt: &R) -> bool {
        false
    }

    fn begin<R: Wait>(&self, _rt: &R, _core: &Core) -> Result<(), NotKept> {
        Ok(())
    }

    fn keep_image<R: Wait>(&self, _rt: &R, _core: &Core) -> Result<(), NotKept> {
        Ok(())
    }
}
