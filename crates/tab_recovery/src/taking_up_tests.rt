//! Tests of journals that are read, taken up and gone on in.
ghost use Rattle.std.specs.Prelude.{◌≡◌, [], true};
ghost use Rattle.tab_journal.specs.Readers.{HasRead};
ghost use Rattle.tab_recovery.specs.Calls.{is_usable_behind};
ghost use Rattle.tab_recovery.specs.LeftFiles.{calls_of, bytes_of};

use crate::{LeftDevice, TakeUpFault, clear, take_up, text_left};
use std::alloc::Global;
use std::process::Abort;
use tab_journal::{
    Device, Format, Header, JournalEnd, JournalReader, MemoryDevice, Opened, Writer,
};

// How many bytes a batch of the long journal keeps: more than are read at once.
const LONG: usize = 70_000;

// The bytes of a journal that keeps these, a batch each, each of which was on the disk before the next one.
fn journal_of(rt: &impl Abort, alloc: Global, bodies: &[&[u8]]) -> Vec<u8> {
    let header = Header::new(Format::Lines, 1, 2, 3, 4);
    let mut writer = match Writer::begin(alloc, MemoryDevice::new(alloc, 99), header) {
        Ok(writer) => writer,
        Err(_) => panic!(rt; "no journal is begun"),
    };
    for body in bodies {
        writer.put(body).expect(rt, "put");
        writer.sync().expect(rt, "sync");
    }
    writer.device().bytes().to_vec(alloc).expect(rt, "memory")
}

// The first so many of these bytes.
fn first_of(rt: &impl Abort, alloc: Global, bytes: &[u8], count: usize) -> Vec<u8> {
    let mut front = bytes.to_vec(alloc).expect(rt, "memory");
    front.truncate(count);
    front
}

// A device that was left with these bytes, of which so many calls go well.
fn left(rt: &impl Abort, alloc: Global, good: usize, bytes: &[u8]) -> LeftDevice
    ensures found { bytes_of result ≡ [] }
    ensures usable { is_usable_behind (calls_of result) ≡ true }
{
    LeftDevice::new(alloc, good, bytes.to_vec(alloc).expect(rt, "memory"))
}

// The journal that is read from this device, of which the header is there.
fn opened(rt: &impl Abort, alloc: Global, device: &mut LeftDevice) -> JournalReader
    requires found { bytes_of device.old ≡ [] }
    requires usable { is_usable_behind (calls_of device.old) ≡ true }
    ensures begun { HasRead (bytes_of device.new) result [] }
    ensures usable { is_usable_behind (calls_of device.new) ≡ true }
{
    match JournalReader::open(alloc, device) {
        Ok(Opened::Journal(reader)) => reader,
        _ => panic!(rt; "there is no header"),
    }
}

// The text that is read from a device that was left with these bytes, and where it ends.
fn read(rt: &impl Abort, alloc: Global, bytes: &[u8]) -> (Vec<u8>, JournalEnd) {
    let mut device = left(rt, alloc, 99, bytes);
    let mut reader = opened(rt, alloc, &mut device);
    text_left(alloc, &mut device, &mut reader).expect(rt, "read")
}

#[test]
fn batches_beyond_a_block_are_read(rt: HostRuntime) {
    let mut body = Vec::new(rt.alloc());
    body.resize(LONG, b'a').expect(&rt, "memory");
    let whole = journal_of(&rt, rt.alloc(), &[body.as_slice(), b"b\n", body.as_slice()]);
    let (text, end) = read(&rt, rt.alloc(), whole.as_slice());
    assert!(&rt; text.len() == 2 * LONG + 2 && end.length == whole.len() as u64);
    assert!(&rt; end.left == 0 && end.is_timely && !end.is_damaged);
}

// Whether a journal with these bytes is taken up, with this text and length.
fn is_taken_up(rt: &impl Abort, alloc: Global, bytes: &[u8], text: &[u8], count: usize) -> bool {
    let mut device = left(rt, alloc, 99, bytes);
    let mut reader = opened(rt, alloc, &mut device);
    let (read, end) = text_left(alloc, &mut device, &mut reader).expect(rt, "read");
    device.sync().expect(rt, "sync");
    let end = take_up(&mut device, &end).expect(rt, "taken up");
    read.as_slice() == text && end.left == 0 && device.seen().len() == count
}

#[test]
fn an_end_of_each_length_is_cut_off(rt: HostRuntime) {
    let whole = journal_of(&rt, rt.alloc(), &[b"one\n", b"two\n"]);
    let longer = journal_of(&rt, rt.alloc(), &[b"one\n", b"two\n", b"three\n"]);
    for count in whole.len()..longer.len() {
        let torn = first_of(&rt, rt.alloc(), longer.as_slice(), count);
        let is_cut = is_taken_up(&rt, rt.alloc(), torn.as_slice(), b"one\ntwo\n", whole.len());
        assert!(&rt; is_cut);
    }
}

// These bytes, with this one turned.
fn turned(rt: &impl Abort, alloc: Global, bytes: &[u8], place: usize) -> Vec<u8> {
    let mut turned = bytes.to_vec(alloc).expect(rt, "memory");
    match turned.get_mut(place) {
        Some(byte) => *byte ^= 1,
        None => panic!(rt; "there is no such byte"),
    }
    turned
}

// What is wrong before the last batch is damage. The sum before that one is what tells it, so what is wrong there isn't told from a cut.
#[test]
fn a_turned_byte_before_the_last_batch_is_damage(rt: HostRuntime) {
    let bytes = journal_of(&rt, rt.alloc(), &[b"one\n", b"two\n", b"three\n"]);
    let told = bytes.len().saturating_sub(42);
    for place in 48..bytes.len() {
        let turned = turned(&rt, rt.alloc(), bytes.as_slice(), place);
        let (_, end) = read(&rt, rt.alloc(), turned.as_slice());
        assert!(&rt; end.is_damaged == (place < told));
    }
}

#[test]
fn what_is_damaged_stays(rt: HostRuntime) {
    let whole = journal_of(&rt, rt.alloc(), &[b"one\n", b"two\n", b"three\n"]);
    let bytes = turned(&rt, rt.alloc(), whole.as_slice(), 60);
    let mut device = left(&rt, rt.alloc(), 99, bytes.as_slice());
    let mut reader = opened(&rt, rt.alloc(), &mut device);
    let (_, end) = text_left(rt.alloc(), &mut device, &mut reader).expect(&rt, "read");
    device.sync().expect(&rt, "sync");
    assert!(&rt; matches!(take_up(&mut device, &end), Err(TakeUpFault::Damaged(48))));
    assert!(&rt; device.seen() == bytes.as_slice());
}

// The bytes of a journal without tags, as it was written once: a batch, and another one that was put when the first was on the disk.
fn plain(rt: &impl Abort, alloc: Global) -> Vec<u8> {
    let mut bytes = Vec::new(alloc);
    for part in [
        b"TABJRN\x00\x01\x00\x00\x00\x00\x00\x00\x00\x01".as_slice(),
        b"\x00\x00\x00\x00\x00\x00\x00\x02\x00\x00\x00\x00\x00\x00\x00\x03".as_slice(),
        b"\x00\x00\x00\x00\x00\x00\x00\x04O\xcf}!p\xbc\xd3\xff".as_slice(),
        b"\x00\x00\x00\x00\x00\x00\x000\x00\x00\x00\x04one\nWac\x18\xd7\xe6\xcb&".as_slice(),
        b"\x00\x00\x00\x00\x00\x00\x00H\x00\x00\x00\x04two\n\x9b\x9b\x9e\x1a\xe2\xa3+A".as_slice(),
    ] {
        bytes.extend_from_slice(part).expect(rt, "memory");
    }
    bytes
}

#[test]
fn a_journal_without_tags_is_read_and_gone_on_in(rt: HostRuntime) {
    let whole = plain(&rt, rt.alloc());
    assert!(&rt; is_gone_on_in(&rt, rt.alloc(), whole.as_slice(), b"one\ntwo\n", 24));
    let turned = turned(&rt, rt.alloc(), whole.as_slice(), 60);
    assert!(&rt; read(&rt, rt.alloc(), turned.as_slice()).1.is_damaged);
}

// Whether these bytes are a journal of this text, and one batch more of four bytes takes so many in it and is read again.
fn is_gone_on_in(rt: &impl Abort, alloc: Global, bytes: &[u8], text: &[u8], count: usize) -> bool {
    let mut device = left(rt, alloc, 99, bytes);
    let mut reader = opened(rt, alloc, &mut device);
    let (read_first, end) = text_left(alloc, &mut device, &mut reader).expect(rt, "read");
    device.sync().expect(rt, "sync");
    if end.left != 0 {
        panic!(rt; "something is left behind it");
    }
    let mut writer = match Writer::resume(alloc, device, &end) {
        Ok(writer) => writer,
        Err(_) => panic!(rt; "it isn't gone on in"),
    };
    writer.put(b"new\n").expect(rt, "put");
    let after = writer.device().seen();
    let (read_again, end) = read(rt, alloc, after);
    read_first.as_slice() == text
        && read_again.len() == text.len() + 4
        && end.left == 0
        && after.len() == bytes.len().saturating_add(count)
}

#[test]
fn a_journal_is_gone_on_in(rt: HostRuntime) {
    let whole = journal_of(&rt, rt.alloc(), &[b"one\n"]);
    assert!(&rt; is_gone_on_in(&rt, rt.alloc(), whole.as_slice(), b"one\n", 32));
}

// Whether a journal is begun in a device in which these bytes were left, with a header alone.
fn is_begun(rt: &impl Abort, alloc: Global, bytes: &[u8]) -> bool {
    let mut device = left(rt, alloc, 99, bytes);
    let outcome = JournalReader::open(alloc, &mut device);
    if !matches!(outcome, Ok(Opened::Cut(count)) if count == bytes.len())
        || clear(&mut device).is_err()
    {
        return false;
    }
    match Writer::begin(alloc, device, Header::new(Format::Events, 1, 2, 3, 4)) {
        Ok(writer) => writer.device().seen().len() == 48,
        Err(_) => false,
    }
}

#[test]
fn a_header_that_is_cut_is_made_anew(rt: HostRuntime) {
    let whole = journal_of(&rt, rt.alloc(), &[b"one\n"]);
    for count in 0..48 {
        let torn = first_of(&rt, rt.alloc(), whole.as_slice(), count);
        assert!(&rt; is_begun(&rt, rt.alloc(), torn.as_slice()));
    }
}
