//! A device in memory.
ghost use Rattle.std.specs.Prelude.{◌≡◌, [], true, length};
ghost use Rattle.tab_journal.specs.Device.{Only};
ghost use Rattle.tab_journal.specs.Calls.{state_behind, MayLeave, LeftSince};
ghost use Rattle.tab_journal.specs.Past.{counts_now, only_now};
ghost use Rattle.tab_journal.specs.Memory.{history};

use crate::device::{Device, DeviceError};
use crate::memory::{MemoryCall, push_call};
use std::alloc::Global;
use std::io::{Error, ErrorKind};

/// A device in memory, which keeps each call. What a crash may leave of it is all that one may leave of a device.
#[derive(Drop)]
pub struct MemoryDevice {
    alloc: Global,
    // how many more calls go well
    good: usize,
    calls: Vec<MemoryCall>,
    bytes: Vec<u8>,
    ghost same: { bytes.items ≡ (state_behind (history calls.items)).seen },
}

impl MemoryDevice {
    ghost use Rattle.tab_journal.specs.Memories.{calls_of, bytes_of};

    /// An empty device, of which so many calls go well and all others fail.
    pub fn new(alloc: Global, good: usize) -> MemoryDevice
        ensures empty { bytes_of result ≡ [] }
        ensures settled { Only [] (MayLeave (state_behind (calls_of result))) }
        ensures usable { (state_behind (calls_of result)).is_usable ≡ true }
    {
        MemoryDevice {
            alloc,
            good,
            calls: Vec::new(alloc),
            bytes: Vec::new(alloc),
        }
    }

    /// The bytes that were put.
    pub fn bytes(&self) -> &[u8]
        ensures { result.now ≡ bytes_of self.now }
    {
        self.bytes.as_slice()
    }
}

impl Device for MemoryDevice {
    ghost seen = { λ d. d.bytes.items };

    ghost may_leave = { λ d. MayLeave (state_behind (history d.calls.items)) };

    ghost moment = { λ d. length (history d.calls.items) };

    ghost left_since = { λ d. LeftSince (history d.calls.items) };

    ghost faults = { λ d. (state_behind (history d.calls.items)).faults };

    ghost is_usable = { λ d. (state_behind (history d.calls.items)).is_usable };

    ghost counts_now = { λ d. counts_now (history d.calls.items) };

    ghost only_now = { λ d. only_now (history d.calls.items) };

    fn append(&mut self, bytes: &[u8]) -> Result<(), DeviceError> {
        let kept = bytes.to_vec(self.alloc)?;
        if self.good == 0 {
            push_call(&mut self.calls, false, false, kept)?;
            return Err(DeviceError::Failed(Error::from(ErrorKind::Other)));
        }
        let mut next = self.bytes.to_vec(self.alloc)?;
        next.extend_from_slice(bytes)?;
        push_call(&mut self.calls, false, true, kept)?;
        self.bytes = next;
        self.good -= 1;
        Ok(())
    }

    fn sync(&mut self) -> Result<(), DeviceError> {
        if self.good == 0 {
            push_call(&mut self.calls, true, false, Vec::new(self.alloc))?;
            return Err(DeviceError::Failed(Error::from(ErrorKind::Other)));
        }
        push_call(&mut self.calls, true, true, Vec::new(self.alloc))?;
        self.good -= 1;
        Ok(())
    }
}
