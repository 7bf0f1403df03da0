//! Where bytes go.
ghost use Rattle.std.specs.Prelude.{ℕ, ◌≤◌, ◌++◌, List, length, take, Option};
ghost use Rattle.tab_io.specs.Streams.{Accepts, Drains, FailsByFault};

use thiserror::Error;

/// The writer failed, or it was written 2^64 - 1 times.
#[derive(Clone, Copy, Debug, PartialEq, Eq, Error)]
#[error("the output can't be written")]
pub struct WriteFault;

/// A writer that gathers bytes, and writes them when it is full or told to.
///
/// Bytes stand in the writer in the order in which they were put. After `Ok` of a [`flush`](Output::flush) all that
/// was put stands there. After an error a beginning of what was put stands there.
pub trait Output {
    // The bytes that reached the writer, where they are known.
    ghost contents: { Self → Option (List ℕ) };

    // The bytes that are gathered, and wait for a write.
    ghost held: { Self → List ℕ };

    // How many writes failed.
    ghost faults: { Self → ℕ };

    // How many more writes may be made.
    ghost budget: { Self → ℕ };

    /// Adds the bytes behind those that are gathered. Some of all these may be written, from the front.
    ///
    /// It fails only where a write failed, or once 2^64 - 1 writes were made. After an error nothing that was
    /// gathered is lost, and of `bytes` a beginning, which may be empty or all, is written or gathered.
    fn put(&mut self, bytes: &[u8]) -> Result<(), WriteFault>
        ensures bytes { Accepts (contents self.old) (held self.old) (contents self.new) (held self.new) bytes.now result }
        ensures faults { FailsByFault result (faults self.old) (faults self.new) (budget self.new) };

    /// Adds `lead` and the first `count` of the bytes as [`put`](Output::put) does.
    ///
    /// The bytes behind these may be read, and never reach the writer. It is for pieces of a few bytes that lie in a longer
    /// text, which can then be copied in one step of a fixed length, and for what stands before such a piece, its length mostly.
    fn put_front(&mut self, lead: &[u8], bytes: &[u8], count: usize) -> Result<(), WriteFault>
        requires { count ≤ length bytes.now }
        ensures bytes { Accepts (contents self.old) (held self.old) (contents self.new) (held self.new) (lead.now ++ take count bytes.now) result }
        ensures faults { FailsByFault result (faults self.old) (faults self.new) (budget self.new) };

    /// Writes all that is gathered.
    ///
    /// It fails only where a write failed, or once 2^64 - 1 writes were made. After an error a beginning of what was
    /// gathered is written, and the rest is gathered still.
    fn flush(&mut self) -> Result<(), WriteFault>
        ensures bytes { Drains (contents self.old) (held self.old) (contents self.new) (held self.new) result }
        ensures faults { FailsByFault result (faults self.old) (faults self.new) (budget self.new) };
}
