//! A device in memory that has bytes from the beginning.
ghost use Rattle.std.specs.Prelude.{◌≡◌, [], true, length};
ghost use Rattle.tab_recovery.specs.CallLogs.{calls_in};
ghost use Rattle.tab_recovery.specs.Calls.{seen_behind, is_usable_behind, is_read_behind, faults_behind, MayLeave, LeftSince};
ghost use Rattle.tab_recovery.specs.Past.{counts_now, only_now};

use crate::call_log::CallLog;
use crate::file_call::Asked;
use crate::recoverable::Recoverable;
use std::alloc::Global;
use std::io::{Error, ErrorKind};
use tab_journal::{Device, DeviceError, Source};

/// A device in memory that a crash left with some bytes.
#[derive(Drop)]
pub struct LeftDevice {
    alloc: Global,
    // how many more calls go well
    good: usize,
    calls: CallLog,
    // the bytes that were read or put, and behind them those that aren't read yet
    seen: Vec<u8>,
    unread: Vec<u8>,
    ghost same: { seen.items ≡ seen_behind (calls_in calls) },
}

impl LeftDevice {
    ghost use Rattle.tab_recovery.specs.LeftFiles.{calls_of, bytes_of};

    /// A device that was left with these bytes, of which so many calls go well and all others fail.
    pub fn new(alloc: Global, good: usize, bytes: Vec<u8>) -> LeftDevice
        ensures found { bytes_of result ≡ [] }
        ensures usable { is_usable_behind (calls_of result) ≡ true }
    {
        LeftDevice {
            alloc,
            good,
            calls: CallLog::new().and(Asked::Found, true, b""),
            seen: Vec::new(alloc),
            unread: bytes,
        }
    }

    /// The bytes that were read or put.
    pub fn seen(&self) -> &[u8]
        ensures { result.now ≡ bytes_of self.now }
    {
        self.seen.as_slice()
    }

    /// Those that aren't read yet.
    pub fn unread(&self) -> &[u8] {
        self.unread.as_slice()
    }
}

impl Device for LeftDevice {
    ghost seen = { λ d. d.seen.items };

    ghost may_leave = { λ d. MayLeave (calls_in d.calls) };

    ghost moment = { λ d. length (calls_in d.calls) };

    ghost left_since = { λ d. LeftSince (calls_in d.calls) };

    ghost faults = { λ d. faults_behind (calls_in d.calls) };

    ghost is_usable = { λ d. is_usable_behind (calls_in d.calls) };

    ghost counts_now = { λ d. counts_now (calls_in d.calls) };

    ghost only_now = { λ d. only_now (calls_in d.calls) };

    fn append(&mut self, bytes: &[u8]) -> Result<(), DeviceError> {
        if self.good == 0 {
            self.calls = self.calls.and(Asked::Append, false, bytes);
            return Err(DeviceError::Failed(Error::from(ErrorKind::Other)));
        }
        self.seen.extend_from_slice(bytes)?;
        self.calls = self.calls.and(Asked::Append, true, bytes);
        self.good -= 1;
        Ok(())
    }

    fn sync(&mut self) -> Result<(), DeviceError> {
        if self.good == 0 {
            self.calls = self.calls.and(Asked::Sync, false, b"");
            return Err(DeviceError::Failed(Error::from(ErrorKind::Other)));
        }
        self.calls = self.calls.and(Asked::Sync, true, b"");
        self.good -= 1;
        Ok(())
    }
}

impl Source for LeftDevice {
    ghost is_read = { λ d. is_read_behind (calls_in d.calls) };

    fn read(&mut self, most: usize, into: &mut Vec<u8>) -> Result<(), DeviceError> {
        let asked = Asked::Read(most);
        if self.good == 0 {
            self.calls = self.calls.and(asked, false, b"");
            return Err(DeviceError::Failed(Error::from(ErrorKind::Other)));
        }
        let (more, rest) = self.unread.split_at(most.min(self.unread.len()));
        let left = rest.to_vec(self.alloc)?;
        let mut seen = self.seen.to_vec(self.alloc)?;
        seen.extend_from_slice(more)?;
        into.extend_from_slice(more)?;
        self.calls = self.calls.and(asked, true, more);
        self.seen = seen;
        self.unread = left;
        self.good -= 1;
        Ok(())
    }
}

impl Recoverable for LeftDevice {
    fn cut(&mut self, count: usize) -> Result<(), DeviceError> {
        let asked = Asked::Cut(count);
        if self.good == 0 {
            self.calls = self.calls.and(asked, false, b"");
            return Err(DeviceError::Failed(Error::from(ErrorKind::Other)));
        }
        self.calls = self.calls.and(asked, true, b"");
        self.seen.truncate(count);
        self.unread.clear();
        self.good -= 1;
        Ok(())
    }
}
