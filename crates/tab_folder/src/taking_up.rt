//! The files of journals that runs left: read, taken up, or made empty.
ghost use Rattle.std.specs.Prelude.{◌≡◌, [], true, OnOk, IfOk};
ghost use Rattle.tab_journal.specs.Device.{Only};
ghost use Rattle.tab_journal.specs.Readers.{HasRead, Ends};
ghost use Rattle.tab_recovery.specs.Calls.{seen_behind, is_usable_behind, MayLeave};
ghost use Rattle.tab_folder.specs.Files.{calls_of};

use crate::FolderFault;
use crate::file_device::FileDevice;
use crate::hold::FILE_MODE;
use crate::journal::Journal;
use crate::journal_lines::unread;
use std::alloc::Global;
use std::fs::{File, OpenOptions};
use std::io::ErrorKind;
use std::os::unix::fs::OpenOptionsExt;
use tab_core::Core;
use tab_journal::{Device, Header, JournalEnd, JournalReader, Opened, Writer};
use tab_recovery::{LeftFault, ReplayFault, TakeUpFault, clear, replay_left, take_up};

/// Which journal it is that a run left, and what it goes on from.
#[derive(Clone, Copy, Debug)]
pub(crate) struct Place {
    /// Its number.
    pub(crate) number: u64,
    /// Whether it is the one of the image, and whether none stands behind it.
    pub(crate) is_first: bool,
    pub(crate) is_last: bool,
    /// The number of the next mutation, and the clock, of the core that it goes on from, where that is known.
    pub(crate) base: Option<(u64, i64)>,
}

/// What became of a journal that was taken up.
#[derive(Drop)]
pub struct TakenUp {
    /// How many entries were replayed.
    pub count: u64,
    /// How many bytes stood at its end that are no whole batch, and are cut off.
    pub cut: u64,
    /// The journal itself, where it goes on.
    pub journal: Option<Journal>,
}

/// Replays the entries of the journal in this file on the core that it goes on from, and takes it up: what stands at the end of the
/// last one that is no whole batch is cut off, down to the disk; another one that is cut is refused, and so is one that is damaged. It
/// goes on where that is asked. After an error nothing has changed but the core.
pub(crate) fn replayed(
    alloc: Global,
    file: File,
    place: Place,
    core: &mut Core,
    goes_on: bool,
) -> Result<TakenUp, FolderFault> {
    let mut device = FileDevice::found(file);
    let mut reader = begun(alloc, &mut device, place)?;
    match replay_left(alloc, core, &mut device, &mut reader) {
        Ok((count, end)) => {
            let (cut, journal) = ended(alloc, place, device, &end, goes_on)?;
            Ok(TakenUp {
                count,
                cut,
                journal,
            })
        }
        Err(fault) => Err(not_replayed(place, fault)),
    }
}

/// Replays the entries of the journal in this file on the core that it goes on from, and tells how many there were. The file stays as it
/// is. One that is damaged, or cut though it isn't the last one, is refused.
pub(crate) fn replayed_as_it_is(
    alloc: Global,
    file: File,
    place: Place,
    core: &mut Core,
) -> Result<u64, FolderFault> {
    let mut device = FileDevice::found(file);
    let mut reader = begun(alloc, &mut device, place)?;
    match replay_left(alloc, core, &mut device, &mut reader) {
        Ok((count, end)) => {
            check_end(place, &end)?;
            Ok(count)
        }
        Err(fault) => Err(not_replayed(place, fault)),
    }
}

// Why the entries of a journal aren't replayed.
fn not_replayed(place: Place, fault: LeftFault) -> FolderFault {
    match fault {
        LeftFault::Replay(ReplayFault::NoMemory) => FolderFault::NoMemory,
        LeftFault::Replay(fault) => FolderFault::Unfit(place.number, fault),
        LeftFault::Read(error) => unread(error),
    }
}

/// Takes up the journal in this file, as [`replayed`] does. Tells how many bytes were cut off.
pub(crate) fn taken_up(alloc: Global, file: File, place: Place) -> Result<u64, FolderFault> {
    let mut device = FileDevice::found(file);
    let mut reader = begun(alloc, &mut device, place)?;
    let end = read_out(&mut device, &mut reader)?;
    let (cut, _journal) = ended(alloc, place, device, &end, false)?;
    Ok(cut)
}

/// Reads to the end of the journal in this device, of which the header was read, and tells where that is.
pub(crate) fn read_out(
    device: &mut FileDevice,
    reader: &mut JournalReader,
) -> Result<JournalEnd, FolderFault>
    requires usable { is_usable_behind (calls_of device.old) ≡ true }
    requires begun { HasRead (seen_behind (calls_of device.old)) reader.old [] }
    ensures end { IfOk result (λ end. Ends (seen_behind (calls_of device.new)) end) }
    ensures usable { OnOk result (is_usable_behind (calls_of device.new) ≡ true) }
{
    'batches: loop {
        match reader.advance(device) {
            Ok(true) => {}
            Ok(false) => break 'batches,
            Err(error) => return Err(unread(error)),
        }
    }
    Ok(reader.ended())
}

/// Reads the header of the journal in this device, of which nothing was read.
pub(crate) fn begun(
    alloc: Global,
    device: &mut FileDevice,
    place: Place,
) -> Result<JournalReader, FolderFault>
    requires usable { is_usable_behind (calls_of device.old) ≡ true }
    requires unread { seen_behind (calls_of device.old) ≡ [] }
    ensures begun { IfOk result (λ reader. HasRead (seen_behind (calls_of device.new)) reader []) }
    ensures usable { OnOk result (is_usable_behind (calls_of device.new) ≡ true) }
{
    match JournalReader::open(alloc, device) {
        Ok(Opened::Journal(reader)) => checked(reader, place),
        Ok(Opened::Cut(_count)) => Err(FolderFault::Torn(place.number)),
        Ok(Opened::Damaged) => Err(FolderFault::Damaged(place.number, 0)),
        Err(error) => Err(unread(error)),
    }
}

// The reader of a journal, if that goes on from what is before it.
fn checked(reader: JournalReader, place: Place) -> Result<JournalReader, FolderFault>
    ensures { IfOk result (λ same. same ≡ reader) }
{
    if follows_on(reader.header(), place) {
        Ok(reader)
    } else {
        Err(FolderFault::Strange(place.number))
    }
}

// Whether a journal was begun on the core that is before it. An image may be of a later moment than its journal, in which nothing was
// kept by then; and what stands in the journals before moves the clock no further than it was then.
fn follows_on(header: &Header, place: Place) -> bool {
    let is_behind = match place.base {
        Some((next, clock)) if place.is_first => header.next == next && header.clock <= clock,
        Some((next, clock)) => header.next == next && header.clock >= clock,
        None => true,
    };
    header.generation == place.number && is_behind
}

// Takes up the journal that was read from this device to this end. Tells how many bytes were cut off; and gives the same journal, where
// it goes on.
fn ended(
    alloc: Global,
    place: Place,
    device: FileDevice,
    end: &JournalEnd,
    goes_on: bool,
) -> Result<(u64, Option<Journal>), FolderFault>
    requires usable { is_usable_behind (calls_of device) ≡ true }
    requires read { Ends (seen_behind (calls_of device)) end.now }
{
    check_end(place, end)?;
    let mut device = device;
    device.sync()?;
    let made = match take_up(&mut device, end) {
        Ok(made) => made,
        Err(fault) => return Err(not_taken(place, fault)),
    };
    if !goes_on {
        return Ok((end.left, None));
    }
    let journal = gone_on(alloc, place, device, &made)?;
    Ok((end.left, Some(journal)))
}

/// Sees that a journal isn't damaged, and that it is whole where a later one was begun.
pub(crate) fn check_end(place: Place, end: &JournalEnd) -> Result<(), FolderFault> {
    if end.is_damaged {
        return Err(FolderFault::Damaged(place.number, end.length));
    }
    if !place.is_last && end.left > 0 {
        return Err(FolderFault::Torn(place.number));
    }
    Ok(())
}

// The journal that was read from this device to this end, all of which is on the disk, as one that is being written.
fn gone_on(
    alloc: Global,
    place: Place,
    device: FileDevice,
    end: &JournalEnd,
) -> Result<Journal, FolderFault>
    requires read { Ends (seen_behind (calls_of device)) end.now }
    requires whole { end.now.left ≡ 0 }
    requires durable { Only (seen_behind (calls_of device)) (MayLeave (calls_of device)) }
    requires usable { is_usable_behind (calls_of device) ≡ true }
{
    let beside = device.beside()?;
    match Writer::resume(alloc, device, end) {
        Ok(writer) => Ok(Journal::over(writer, beside)),
        // (a batch of it says that more was on the disk than stood before it)
        Err(_device) => Err(FolderFault::Damaged(place.number, end.length)),
    }
}

// Why a journal isn't taken up.
fn not_taken(place: Place, fault: TakeUpFault) -> FolderFault {
    match fault {
        TakeUpFault::Damaged(at) => FolderFault::Damaged(place.number, at),
        TakeUpFault::Device(error) => FolderFault::from(error),
    }
}

/// The file of this name as an empty device: a new file, for its owner alone, or one in which nothing is that counts.
pub(crate) fn emptied(rt: &HostRuntime, name: &str) -> Result<FileDevice, FolderFault>
    ensures empty { IfOk result (λ d. seen_behind (calls_of d) ≡ []) }
    ensures settled { IfOk result (λ d. Only [] (MayLeave (calls_of d))) }
    ensures usable { IfOk result (λ d. is_usable_behind (calls_of d) ≡ true) }
{
    match opened(rt, name)? {
        Some(file) => made_empty(FileDevice::found(file)),
        None => Ok(FileDevice::new(created(rt, name)?)),
    }
}

// The device, once it is empty.
fn made_empty(device: FileDevice) -> Result<FileDevice, FolderFault>
    requires { is_usable_behind (calls_of device) ≡ true }
    ensures empty { IfOk result (λ d. seen_behind (calls_of d) ≡ []) }
    ensures settled { IfOk result (λ d. Only [] (MayLeave (calls_of d))) }
    ensures usable { IfOk result (λ d. is_usable_behind (calls_of d) ≡ true) }
{
    let mut device = device;
    match clear(&mut device) {
        Ok(()) => Ok(device),
        Err(error) => Err(FolderFault::from(error)),
    }
}

/// The file of this name, to be read and changed. `None`: there is none.
pub(crate) fn opened(rt: &HostRuntime, name: &str) -> Result<Option<File>, FolderFault> {
    match OpenOptions::new().read(true).write(true).open(rt, name) {
        Ok(file) => Ok(Some(file)),
        Err(error) if error.kind() == ErrorKind::NotFound => Ok(None),
        Err(error) => Err(FolderFault::from(error)),
    }
}

// A new file of this name, for its owner alone.
fn created(rt: &HostRuntime, name: &str) -> Result<File, FolderFault> {
    let mut options = OpenOptions::new();
    options.write(true).create_new(true).mode(FILE_MODE);
    Ok(options.open(rt, name)?)
}
