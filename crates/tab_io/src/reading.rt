//! Where bytes come from.
ghost use Rattle.std.specs.Prelude.{◌≡◌, ℕ, List, [], Option, ◌≤◌, length, take, drop, OnErr};
ghost use Rattle.std.specs.Io.KnownBytes.{Consumes};
ghost use Rattle.tab_io.specs.Streams.{BeginsWith, Fills, SpendsOrFails};

use thiserror::Error;

/// The reader failed, or it was read 2^64 - 1 times.
#[derive(Clone, Copy, Debug, PartialEq, Eq, Error)]
#[error("the input can't be read")]
pub struct ReadFault;

/// A reader whose next bytes can be looked at before they are taken.
///
/// The front is what is here without a read. A caller looks at it with [`front`](Input::front), takes what it has
/// understood with [`consume`](Input::consume), and asks for more with [`fill`](Input::fill) once the front is empty.
/// Only `fill` touches the system, so it alone can fail, and it is the place before which a writer is flushed.
pub trait Input {
    // All the bytes that are still to come, where they are known, the front among them.
    ghost remaining: { Self → Option (List ℕ) };

    // The bytes that are here without a read.
    ghost front: { Self → List ℕ };

    // How many reads failed.
    ghost faults: { Self → ℕ };

    // How many more reads may be made: the measure of a loop that reads.
    ghost budget: { Self → ℕ };

    /// The bytes that are here. Nothing is read and nothing changes.
    fn front(&self) -> &[u8]
        ensures value { result.now ≡ front self.now }
        ensures known { BeginsWith (remaining self.now) (front self.now) };

    /// Drops the first `count` bytes of the front.
    fn consume(&mut self, count: usize)
        requires { count ≤ length (front self.old) }
        ensures front { front self.new ≡ drop count (front self.old) }
        ensures bytes { Consumes (remaining self.old) (remaining self.new) (take count (front self.old)) }
        ensures calls { (faults self.new ≡ faults self.old) × (budget self.new ≡ budget self.old) };

    /// Reads the next front. `Ok(true)`: the front has bytes. `Ok(false)`: the input has ended.
    ///
    /// It fails only where a read failed, or once 2^64 - 1 reads were made. After an error the front is empty, and
    /// nothing that was to come is lost.
    fn fill(&mut self) -> Result<bool, ReadFault>
        requires { front self.old ≡ [] }
        ensures bytes { Fills (remaining self.old) (remaining self.new) (front self.new) result }
        ensures faults { SpendsOrFails result (faults self.old) (faults self.new) (budget self.old) (budget self.new) }
        ensures err { OnErr result (front self.new ≡ []) };
}
