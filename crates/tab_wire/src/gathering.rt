//! Bytes that are gathered in memory before they are sent or kept.
ghost use Rattle.std.specs.Prelude.{◌≡◌, [], false, Some, take, IfOk};

use std::alloc::{AllocError, Global};
use tab_io::{Output, WriteFault};

/// An output in memory that is used again. It fails where memory lacks, and from then on until it is cleared.
#[derive(Drop)]
pub struct Gathering {
    bytes: Vec<u8>,
    lost: bool,
}

impl Gathering {
    /// Without bytes, and without memory yet.
    pub fn new(alloc: Global) -> Gathering
        ensures { result.bytes.items ≡ [] }
    {
        Gathering {
            bytes: Vec::new(alloc),
            lost: false,
        }
    }

    /// Without bytes, with memory for so many.
    pub fn with_room(alloc: Global, room: usize) -> Result<Gathering, AllocError>
        ensures { IfOk result (λ gathered. gathered.bytes.items ≡ []) }
    {
        Ok(Gathering {
            bytes: Vec::with_capacity(alloc, room)?,
            lost: false,
        })
    }

    /// Forgets the bytes, and keeps their memory.
    pub fn clear(&mut self)
        ensures bytes { self.new.bytes.items ≡ [] }
        ensures lost { self.new.lost ≡ false }
    {
        self.bytes.clear();
        self.lost = false;
    }

    /// Forgets all but this many bytes from the front, where there are more. It can be put to again after a fault.
    pub fn cut(&mut self, count: usize)
        ensures bytes { self.new.bytes.items ≡ take count self.old.bytes.items }
        ensures lost { self.new.lost ≡ false }
    {
        self.bytes.truncate(count);
        self.lost = false;
    }

    /// The bytes, in memory of their own.
    pub fn into_bytes(self) -> Vec<u8>
        ensures { result.items ≡ self.bytes.items }
    {
        let Gathering { bytes, lost: _ } = self;
        bytes
    }

    /// The bytes.
    pub fn bytes(&self) -> &[u8]
        ensures { result.now ≡ self.now.bytes.items }
    {
        &self.bytes
    }
}

#[tactic(auto, using(crate::proofs::Gathered::gathers_all))]
impl Output for Gathering {
    ghost use Rattle.std.specs.Prelude.{[], Some, cond};

    ghost contents = { λ gathered. Some gathered.bytes.items };

    ghost held = { λ _. [] };

    ghost faults = { λ _. 0 };

    ghost budget = { λ gathered. cond gathered.lost 0 1 };

    fn put(&mut self, bytes: &[u8]) -> Result<(), WriteFault> {
        if self.lost {
            return Err(WriteFault);
        }
        match self.bytes.extend_from_slice(bytes) {
            Ok(()) => Ok(()),
            Err(_) => {
                self.lost = true;
                Err(WriteFault)
            }
        }
    }

    fn put_front(&mut self, lead: &[u8], bytes: &[u8], count: usize) -> Result<(), WriteFault> {
        self.put(lead)?;
        self.put(&bytes[..count])
    }

    fn flush(&mut self) -> Result<(), WriteFault> {
        Ok(())
    }
}
