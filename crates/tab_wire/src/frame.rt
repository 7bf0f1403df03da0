//! Taking one frame after another from a stream.
ghost use Rattle.std.specs.Prelude.{◌≡◌, ◌<◌, ◌≤◌, ◌++◌, ℕ, List, Option, [], false, cond, IfOk, OnErr, IfSome, length};
ghost use Rattle.tab_io.specs.Streams.{FailsByFault};
ghost use Rattle.tab_wire.specs.Taking.{TakesHead, Holds, Took, Gathered, TookPiece, TakesPiece, TakesPart, TakesFewer, TakesFewerOfFrame, Costs, CostsNoLess, frame_in};
ghost use Rattle.tab_wire.specs.Stream.{body_at};

use crate::Reason;
use crate::head::{Head, has_more, take_head};
use std::alloc::Global;
use tab_io::{Input, ReadFault};

/// The most bytes in a frame.
pub const MAX_FRAME: u32 = 8_388_608;

/// What one call takes of a stream.
#[derive(Clone, Copy)]
pub enum Taken {
    /// Nothing: the input has ended between two frames.
    End,
    /// A frame, whose bytes the buffer has.
    Frame,
    /// What is no frame, for this reason: the connection ends.
    Broken(Reason),
    /// A frame for which memory lacked. It was read to its end and dropped.
    NoMemory,
}

/// The bytes of one frame, in memory that is used again for the next one.
///
/// It grows as bytes come, so a length that is merely claimed takes no memory.
#[derive(Drop)]
pub struct FrameBuffer {
    bytes: Vec<u8>,
    // memory for the frame lacked
    lost: bool,
}

impl FrameBuffer {
    /// Without bytes, and without memory yet.
    pub fn new(alloc: Global) -> FrameBuffer
        ensures { frame_in result ≡ [] }
    {
        FrameBuffer {
            bytes: Vec::new(alloc),
            lost: false,
        }
    }

    /// The bytes of the frame that was taken last.
    pub fn bytes(&self) -> &[u8]
        ensures { result.now ≡ frame_in self.now }
    {
        &self.bytes
    }

    /// Takes the next frame, or what is no frame. Behind a frame the rest of the stream is left; behind what is no frame nothing is
    /// said of it. After an error a beginning of a frame may be lost, and no whole one is: nothing more can be taken.
    pub fn take<R: Input>(&mut self, input: &mut R) -> Result<Taken, ReadFault>
        ensures bytes { IfOk result (λ taken. IfSome (R.remaining input.old) (λ ahead. TakesPiece ahead taken (frame_in self.new) (R.remaining input.new))) }
        ensures err { OnErr result (TakesPart (R.remaining input.old) (R.remaining input.new)) }
        ensures faults { FailsByFault result (R.faults input.old) (R.faults input.new) (R.budget input.new) }
        ensures costs { IfOk result (λ _. Costs R.Input input.old input.new) }
    {
        let head = take_head(input)?;
        self.take_behind(input, head)
    }

    // Takes what stands behind this.
    fn take_behind<R: Input>(&mut self, input: &mut R, head: Head) -> Result<Taken, ReadFault>
        ensures bytes { (all : Option (List ℕ)) → TakesHead all head (R.remaining input.old) → IfOk result (λ taken. IfSome all (λ ahead. TakesPiece ahead taken (frame_in self.new) (R.remaining input.new))) }
        ensures err { (all : Option (List ℕ)) → TakesHead all head (R.remaining input.old) → OnErr result (TakesPart all (R.remaining input.new)) }
        ensures faults { FailsByFault result (R.faults input.old) (R.faults input.new) (R.budget input.new) }
        ensures costs { IfOk result (λ _. CostsNoLess R.Input input.old input.new) }
    {
        match head {
            Head::End => Ok(Taken::End),
            Head::Cut => Ok(Taken::Broken(Reason::Cut)),
            Head::Length(count) => self.take_body(input, count),
        }
    }

    // Takes the bytes behind a length.
    fn take_body<R: Input>(&mut self, input: &mut R, count: u32) -> Result<Taken, ReadFault>
        ensures bytes { IfOk result (λ taken. IfSome (R.remaining input.old) (λ more. TookPiece (body_at count more) taken (frame_in self.new) (R.remaining input.new))) }
        ensures err { OnErr result (TakesFewerOfFrame count (R.remaining input.old) (R.remaining input.new)) }
        ensures faults { FailsByFault result (R.faults input.old) (R.faults input.new) (R.budget input.new) }
        ensures costs { IfOk result (λ _. CostsNoLess R.Input input.old input.new) }
    {
        if count == 0 {
            return Ok(Taken::Broken(Reason::Empty));
        }
        if count > MAX_FRAME {
            return Ok(Taken::Broken(Reason::TooLong));
        }
        self.clear();
        if !self.gather(input, count)? {
            return Ok(Taken::Broken(Reason::Cut));
        }
        Ok(self.gathered())
    }

    // Whether memory was there for what was gathered.
    fn gathered(&self) -> Taken
        ensures { result ≡ cond self.now.lost Taken.NoMemory Taken.Frame }
    {
        if self.lost {
            Taken::NoMemory
        } else {
            Taken::Frame
        }
    }

    // Forgets the frame, and keeps its memory for the next one.
    fn clear(&mut self)
        ensures bytes { Holds self.new [] }
        ensures lost { self.new.lost ≡ false }
    {
        self.bytes.clear();
        self.lost = false;
    }

    // Adds bytes. Where memory lacks, the frame is lost.
    fn add(&mut self, part: &[u8])
        ensures { (gone : List ℕ) → Holds self.old gone → Holds self.new (gone ++ part.now) }
    {
        if self.lost {
            return;
        }
        if self.bytes.extend_from_slice(part).is_err() {
            self.bytes.clear();
            self.lost = true;
        }
    }

    // Takes what is here, and no more than so many bytes; tells how many.
    fn add_front<R: Input>(&mut self, input: &mut R, most: u32) -> u32
        requires some { 0 < most }
        requires here { 0 < length (R.front input.old) }
        ensures some { 0 < result }
        ensures most { result ≤ most }
        ensures bytes { (bytes : List ℕ) × (length bytes ≡ result) × Took (R.remaining input.old) (R.remaining input.new) self.old self.new bytes }
        ensures calls { (R.faults input.new ≡ R.faults input.old) × (R.budget input.new ≡ R.budget input.old) }
        ensures taken { length (R.front input.new) < length (R.front input.old) }
    {
        let front = input.front();
        let count = front.len().min(most as usize);
        self.add(front.split_at(count).0);
        input.consume(count);
        count as u32
    }

    // Takes so many bytes. Whether they were there.
    fn gather<R: Input>(&mut self, input: &mut R, count: u32) -> Result<bool, ReadFault>
        ensures bytes { IfOk result (λ whole. Gathered (R.remaining input.old) (R.remaining input.new) self.old self.new count whole) }
        ensures err { OnErr result (TakesFewer count (R.remaining input.old) (R.remaining input.new)) }
        ensures faults { FailsByFault result (R.faults input.old) (R.faults input.new) (R.budget input.new) }
        ensures costs { IfOk result (λ _. CostsNoLess R.Input input.old input.new) }
    {
        let mut need = count;
        while need > 0 {
            match has_more(input) {
                Ok(true) => {}
                Ok(false) => return Ok(false),
                Err(fault) => return Err(fault),
            }
            need -= self.add_front(input, need);
        }
        Ok(true)
    }
}
