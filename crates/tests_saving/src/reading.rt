//! Images read, and saved again.
use crate::images::{
    FIRST_ONE_PUT, FIRST_SMALLEST, FIRST_TWO_TABLES, HORIZON_OF_S, HORIZON_OF_T, ONE_PUT, SMALLEST,
    TWO_TABLES,
};
use crate::rounds::becomes;
use std::alloc::Global;
use std::process::Abort;
use tab_image::{Image, LoadFault, read_image};
use tab_io::BlockReader;
use tab_io::memory::PieceReader;

// What these bytes are read as, where the input gives so many at a time.
fn read(rt: &impl Abort, alloc: Global, bytes: &[u8], piece: usize) -> Result<Image, LoadFault> {
    let mut input = BlockReader::new(alloc, PieceReader::new(bytes, piece)).expect(rt, "memory");
    read_image(alloc, &mut input)
}

// Why no image was read.
fn fault_of(rt: &impl Abort, alloc: Global, bytes: &[u8], piece: usize) -> Option<LoadFault> {
    read(rt, alloc, bytes, piece).err()
}

#[test]
fn an_image_that_is_cut_is_none(rt: HostRuntime) {
    let alloc = rt.alloc();
    for bytes in [
        SMALLEST,
        ONE_PUT,
        TWO_TABLES,
        FIRST_SMALLEST,
        FIRST_ONE_PUT,
        FIRST_TWO_TABLES,
    ] {
        for length in 0..bytes.len() {
            assert!(rt; fault_of(&rt, alloc, &bytes[..length], 5) == Some(LoadFault::Bad));
        }
    }
}

// The image with this byte at this place, or behind all others.
fn changed(rt: &impl Abort, alloc: Global, bytes: &[u8], place: usize, byte: u8) -> Vec<u8> {
    let mut other = Vec::from_slice(alloc, bytes).expect(rt, "memory");
    if place < other.len() {
        other[place] = byte;
    } else {
        other.push(byte).expect(rt, "memory");
    }
    other
}

// What is told of bytes: `i` for an image whose core is saved so again, `o` for one whose isn't, as in the first version, `v` for a version,
// `-` for none of these.
fn told(rt: &impl Abort, alloc: Global, bytes: &[u8]) -> u8 {
    match read(rt, alloc, bytes, 1000) {
        Ok(_) => {
            if becomes(rt, alloc, bytes, bytes, 1000) {
                b'i'
            } else {
                b'o'
            }
        }
        Err(LoadFault::Version(_)) => b'v',
        Err(_) => b'-',
    }
}

// What is told where each byte in turn is one more.
fn told_of_each(rt: &impl Abort, alloc: Global, bytes: &[u8]) -> Vec<u8> {
    let mut all = Vec::new(alloc);
    for place in 0..bytes.len() {
        let other = changed(rt, alloc, bytes, place, bytes[place].wrapping_add(1));
        all.push(told(rt, alloc, &other)).expect(rt, "memory");
    }
    all
}

#[test]
fn one_byte_of_the_smallest_image_is_changed(rt: HostRuntime) {
    let alloc = rt.alloc();
    let all = told_of_each(&rt, alloc, SMALLEST);
    assert!(rt; all.as_slice() == b"------vviiiiiiiiiiiiiiii-------------------------".as_slice());
}

#[test]
fn one_byte_of_a_table_is_changed(rt: HostRuntime) {
    let alloc = rt.alloc();
    let all = told_of_each(&rt, alloc, ONE_PUT);
    let front = all.get(..49).expect(&rt, "all before the table's name");
    assert!(rt; front == b"------vviiiiiiiiiiiiiiii-------------------------".as_slice());
    let middle = all.get(49..93).expect(&rt, "up to the row");
    assert!(rt; middle == b"ii--iiiiiiiiiii-----------------------------".as_slice());
    let behind = all.get(93..).expect(&rt, "the record, and the mark");
    assert!(rt; behind == b"i----i----i----iiiiiiii-----------ii----i----".as_slice());
}

#[test]
fn one_byte_of_the_first_version_is_changed(rt: HostRuntime) {
    let alloc = rt.alloc();
    let all = told_of_each(&rt, alloc, FIRST_SMALLEST);
    assert!(rt; all.as_slice() == b"------vioooooooooooooooo-------------------------".as_slice());
    let all = told_of_each(&rt, alloc, FIRST_ONE_PUT);
    let front = all.get(..49).expect(&rt, "all before the table's name");
    assert!(rt; front == b"------v-oooooooooooooooo-------------------------".as_slice());
    let middle = all.get(49..85).expect(&rt, "up to the row");
    assert!(rt; middle == b"oo--ooo-----------------------------".as_slice());
    let behind = all.get(85..).expect(&rt, "the record, and the mark");
    assert!(rt; behind == b"o----o----o----oooooooo-----------oo----o----".as_slice());
}

// What is told where each of the eight bytes from this place on is one more.
fn told_from(rt: &impl Abort, alloc: Global, bytes: &[u8], place: usize) -> Vec<u8> {
    let all = told_of_each(rt, alloc, bytes);
    let eight = all
        .get(place..)
        .and_then(|rest| rest.get(..8))
        .expect(rt, "eight bytes");
    Vec::from_slice(alloc, eight).expect(rt, "memory")
}

#[test]
fn a_table_that_gives_timestamps_has_no_horizon(rt: HostRuntime) {
    let alloc = rt.alloc();
    let of_s = told_from(&rt, alloc, TWO_TABLES, HORIZON_OF_S);
    assert!(rt; of_s.as_slice() == b"--------".as_slice());
    let of_t = told_from(&rt, alloc, TWO_TABLES, HORIZON_OF_T);
    assert!(rt; of_t.as_slice() == b"iiiiiiii".as_slice());
}

#[test]
fn the_first_version_is_written_as_the_second(rt: HostRuntime) {
    let alloc = rt.alloc();
    assert!(rt; becomes(&rt, alloc, FIRST_SMALLEST, SMALLEST, 7));
    assert!(rt; becomes(&rt, alloc, FIRST_ONE_PUT, ONE_PUT, 7));
    let without = changed(&rt, alloc, TWO_TABLES, HORIZON_OF_T, 0x80);
    let without = changed(&rt, alloc, &without, HORIZON_OF_T + 7, 0);
    assert!(rt; becomes(&rt, alloc, FIRST_TWO_TABLES, &without, 7));
}

#[test]
fn a_version_has_its_own_tables(rt: HostRuntime) {
    let alloc = rt.alloc();
    for bytes in [ONE_PUT, TWO_TABLES] {
        let first = changed(&rt, alloc, bytes, 7, 1);
        assert!(rt; fault_of(&rt, alloc, &first, 1000) == Some(LoadFault::Bad));
        let third = changed(&rt, alloc, bytes, 7, 3);
        assert!(rt; fault_of(&rt, alloc, &third, 1000) == Some(LoadFault::Version(3)));
    }
    for bytes in [FIRST_ONE_PUT, FIRST_TWO_TABLES] {
        let second = changed(&rt, alloc, bytes, 7, 2);
        assert!(rt; fault_of(&rt, alloc, &second, 1000) == Some(LoadFault::Bad));
    }
}

// Whether each byte behind the version, where it is this one, gives an image whose core is saved so again, or none.
fn each_place_is_right(rt: &impl Abort, alloc: Global, bytes: &[u8], value: u8) -> bool {
    for place in 8..bytes.len() {
        let other = changed(rt, alloc, bytes, place, value);
        match told(rt, alloc, &other) {
            b'i' | b'-' => {}
            _ => return false,
        }
    }
    true
}

#[test]
fn whatever_is_read_is_written_so(rt: HostRuntime) {
    let alloc = rt.alloc();
    assert!(rt; each_place_is_right(&rt, alloc, ONE_PUT, 0));
    assert!(rt; each_place_is_right(&rt, alloc, ONE_PUT, 255));
}
