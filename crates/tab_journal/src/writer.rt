//! A journal that is being written.
ghost use Rattle.std.specs.Prelude.{◌≡◌, ◌≤◌, ◌++◌, ◌∷◌, [], ℕ, List, true, false, length, Some, IfOk, IfErr, OnOk, IsErrOf, MatchResult};
ghost use Rattle.tab_journal.specs.Device.{Only, LeavesOnly};
ghost use Rattle.tab_journal.specs.Crashes.{HasFirst, IsAsBefore};
ghost use Rattle.tab_journal.specs.Journals.{sum_of, header_summed, batch_summed, Header as TheFront, Batch};
ghost use Rattle.tab_journal.specs.Reasons.{HasReason};
ghost use Rattle.tab_journal.specs.Reading.{Journal, journal_of};
ghost use Rattle.tab_journal.specs.Readers.{Ends};
ghost use Rattle.tab_journal.specs.Said.{header_in};
ghost use Rattle.tab_journal.specs.Spelling.{header_bytes, batch_bytes};
ghost use Rattle.tab_journal.specs.Writing.{KeepFirst, IsSomeJournal};
ghost use Rattle.tab_journal.specs.declared.write_error.WriteError.TheVariants.{Stopped};

use crate::batch::batch_head;
use crate::beginning::put_header;
use crate::device::Device;
use crate::header::Header;
use crate::journal_end::JournalEnd;
use crate::putting::put_three;
use crate::seal::Seal;
use crate::sums::batch_sum;
use crate::write_error::WriteError;
use std::alloc::Global;

// The most bytes in a batch.
const MOST: usize = 0xffff_ffff;

// How many bytes a header has, and a sum.
const FRONT: u64 = 48;

const SUM: u64 = 8;

/// A journal that is being written into a device: batch after batch, each behind the sum of the one before.
///
/// A contract sees the device, and the writer's place in it. Whatever a crash leaves has all that was on the disk, up to the writer's `settled`.
/// Once the device has failed nothing more is put: what stands there isn't known then.
#[derive(Drop)]
pub struct Writer<D: Device> {
    alloc: Global,
    device: D,
    seal: Seal,
    // the sum that the next batch has before it
    sum: u64,
    // how many bytes are written, and how many of them are on the disk
    written: u64,
    settled: u64,
    has_failed: bool,
    ghost usable: { has_failed ≡ false → D.Device.is_usable device ≡ true },
    ghost counted: { has_failed ≡ false → written ≡ length (D.Device.seen device) },
    ghost ordered: { settled ≤ written },
    ghost kept: { has_failed ≡ false → KeepFirst settled (D.Device.seen device) (D.Device.may_leave device) },
    ghost journal: { has_failed ≡ false → ∥ IsSomeJournal (D.Device.seen device) seal sum settled ∥₁ },
}

impl<D: Device> Writer<D> {
    ghost use Rattle.tab_journal.specs.Writers.{device_of, place_of, Writes, Refuses, Withholds};

    /// Begins a journal with this header in an empty file, and sees it on the disk. Memory is taken for the header's text. An error hands the device
    /// back.
    pub fn begin(alloc: Global, device: D, header: Header) -> Result<Writer<D>, (WriteError, D)>
        requires empty { D.seen device ≡ [] }
        requires settled { Only [] (D.may_leave device) }
        requires usable { D.is_usable device ≡ true }
        requires right { header.sum ≡ sum_of (header_summed header.format header.generation header.next header.clock header.seal) }
        ensures begun { IfOk result (λ w. D.seen (device_of w) ≡ header_bytes (header_in header)) }
        ensures durable { IfOk result (λ w. Only (D.seen (device_of w)) (D.may_leave (device_of w))) }
        ensures place { IfOk result (λ w. place_of w ≡ record { seal = header.seal; sum = header.sum; written = 48; settled = 48; has_failed = false }) }
        ensures none { IfOk result (λ w. Writes D.seen w (header_in header) [] 0) }
        ensures any_moment { MatchResult result
            (λ w. LeavesOnly D.moment D.left_since device (device_of w) (λ c. length c ≤ 48))
            (λ e. LeavesOnly D.moment D.left_since device e.1 (λ c. length c ≤ 48)) }
        ensures failed { IfErr result (λ e. HasReason (D.faults device) (D.faults e.1) e.0) }
    {
        let mut device = device;
        match put_header(alloc, &mut device, header) {
            Ok(()) => Ok(Writer {
                alloc,
                device,
                seal: header.seal,
                sum: header.sum,
                written: FRONT,
                settled: FRONT,
                has_failed: false,
            }),
            Err(error) => Err((error, device)),
        }
    }

    /// Goes on in a journal that was read from this device to its end, of which nothing else is left there, and which is on the disk. `Err`: what it
    /// says of the disk can't be so, which nothing that was written by a writer does; the device is handed back.
    pub fn resume(alloc: Global, device: D, end: &JournalEnd) -> Result<Writer<D>, D>
        requires read { Ends (D.seen device) end.now }
        requires whole { end.now.left ≡ 0 }
        requires durable { Only (D.seen device) (D.may_leave device) }
        requires usable { D.is_usable device ≡ true }
        ensures device { IfOk result (λ w. device_of w ≡ device) }
        ensures place { IfOk result (λ w. place_of w ≡ record { seal = end.now.header.seal; sum = end.now.sum; written = end.now.length; settled = end.now.length; has_failed = false }) }
        // what it has written is what was read, all of it on the disk
        ensures batches { (j : Journal) → journal_of (D.seen device) ≡ Some j → IfOk result (λ w. Writes D.seen w j.header j.batches (length j.batches)) }
        ensures refused { IfErr result (λ d. (d ≡ device) × (end.now.is_timely ≡ false)) }
    {
        if !end.is_timely {
            return Err(device);
        }
        Ok(Writer {
            alloc,
            device,
            seal: end.header.seal,
            sum: end.sum,
            written: end.length,
            settled: end.length,
            has_failed: false,
        })
    }

    /// How many bytes the journal has.
    pub fn written(&self) -> u64
        ensures { result ≡ (place_of self.now).written }
    {
        self.written
    }

    /// How many of them are known to be on the disk.
    pub fn settled(&self) -> u64
        ensures { result ≡ (place_of self.now).settled }
    {
        self.settled
    }

    /// Whether a call of the device has failed. Nothing is put any more then.
    pub fn has_failed(&self) -> bool
        ensures { result ≡ (place_of self.now).has_failed }
    {
        self.has_failed
    }

    /// The device.
    pub fn device(&self) -> &D
        ensures { result.now ≡ device_of self.now }
    {
        &self.device
    }

    /// Puts these bytes as one batch. They needn't be on the disk yet. They aren't copied: memory is taken for what stands before them, at most 20
    /// bytes.
    ///
    /// # Errors
    ///
    /// `NoMemory`, `TooLong`, `Full`: nothing is put, and nothing has changed, so that the next call may go well. `Device`: the device failed, and
    /// nothing more is put; `Stopped` from then on.
    pub fn put(&mut self, body: &[u8]) -> Result<(), WriteError>
        ensures written { OnOk result (D.seen (device_of self.new) ≡ D.seen (device_of self.old) ++ batch_bytes (place_of self.old).seal (place_of self.old).sum (place_of self.old).settled body.now) }
        ensures place { OnOk result (place_of self.new ≡ record (place_of self.old) {
          sum = sum_of (batch_summed (place_of self.old).seal.salt (place_of self.old).sum (place_of self.old).settled body.now);
          written = length (D.seen (device_of self.new));
        }) }
        // one batch more stands there
        ensures batch { (header : TheFront) (bs : List Batch) (k : ℕ) → Writes D.seen self.old header bs k
            → OnOk result (Writes D.seen self.new header (bs ++ record { settled = (place_of self.old).settled; body = body.now; sum = (place_of self.new).sum } ∷ []) k) }
        // A crash at any moment of the call leaves what was on the disk, and changes nothing of what was written before.
        ensures any_moment { (place_of self.old).has_failed ≡ false → LeavesOnly D.moment D.left_since (device_of self.old) (device_of self.new)
            (λ c. HasFirst (place_of self.old).settled (D.seen (device_of self.old)) c × IsAsBefore (place_of self.old).written (D.may_leave (device_of self.old)) c) }
        ensures stopped { (place_of self.old).has_failed ≡ true → IsErrOf result Stopped }
        ensures refused { IfErr result (Refuses D.faults self.old self.new body.now) }
    {
        if self.has_failed {
            return Err(WriteError::Stopped);
        }
        if body.len() > MOST {
            return Err(WriteError::TooLong);
        }
        let length = body.len() as u32;
        let head = batch_head(self.alloc, self.seal, self.settled, length)?;
        let beside = head.len() as u64 + SUM;
        let Some(written) = self.written.checked_add(beside + body.len() as u64) else {
            return Err(WriteError::Full);
        };
        let sum = batch_sum(self.seal.salt, self.sum, self.settled, body);
        self.has_failed = true;
        put_three(&mut self.device, head.as_slice(), body, &sum.to_be_bytes())?;
        self.has_failed = false;
        self.sum = sum;
        self.written = written;
        Ok(())
    }

    /// Sees that all that was put is on the disk. The device is asked only where something isn't known to be.
    pub fn sync(&mut self) -> Result<(), WriteError>
        ensures durable { OnOk result (Only (D.seen (device_of self.new)) (D.may_leave (device_of self.new))) }
        ensures same { OnOk result (D.seen (device_of self.new) ≡ D.seen (device_of self.old)) }
        ensures place { OnOk result (place_of self.new ≡ record (place_of self.old) { settled = (place_of self.old).written }) }
        ensures batches { (header : TheFront) (bs : List Batch) (k : ℕ) → Writes D.seen self.old header bs k → OnOk result (Writes D.seen self.new header bs (length bs)) }
        // A crash at any moment of the call leaves what one might have left before it.
        ensures any_moment { LeavesOnly D.moment D.left_since (device_of self.old) (device_of self.new) (D.may_leave (device_of self.old)) }
        ensures stopped { (place_of self.old).has_failed ≡ true → IsErrOf result Stopped }
        ensures withheld { IfErr result (Withholds D.faults self.old self.new) }
    {
        if self.has_failed {
            return Err(WriteError::Stopped);
        }
        if self.settled == self.written {
            return Ok(());
        }
        self.has_failed = true;
        self.device.sync()?;
        self.has_failed = false;
        self.settled = self.written;
        Ok(())
    }
}
