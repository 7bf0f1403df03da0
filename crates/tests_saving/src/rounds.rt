//! Cores that are loaded and saved again.
use crate::cores::{loaded, saved};
use crate::images::{FIRST_ONE_PUT, FIRST_SMALLEST, ONE_PUT, SMALLEST, TWO_TABLES};
use std::alloc::Global;
use std::process::Abort;

// Whether the bytes are loaded, and the core is saved as these ones.
pub fn becomes(rt: &impl Abort, alloc: Global, from: &[u8], to: &[u8], piece: usize) -> bool {
    match loaded(rt, alloc, from, piece) {
        Ok(core) => saved(rt, alloc, &core).as_slice() == to,
        Err(_) => false,
    }
}

// Whether the bytes are loaded, and the core is saved as the same bytes.
fn goes_round(rt: &impl Abort, alloc: Global, bytes: &[u8], piece: usize) -> bool {
    becomes(rt, alloc, bytes, bytes, piece)
}

#[test]
fn a_full_core_goes_round(rt: HostRuntime) {
    assert!(rt; goes_round(&rt, rt.alloc(), SMALLEST, 1));
    for piece in [1, 7, 1000] {
        assert!(rt; goes_round(&rt, rt.alloc(), TWO_TABLES, piece));
    }
}

#[test]
fn a_core_of_the_first_version_is_saved_in_the_second(rt: HostRuntime) {
    assert!(rt; becomes(&rt, rt.alloc(), FIRST_SMALLEST, SMALLEST, 1));
    for piece in [1, 7, 1000] {
        assert!(rt; becomes(&rt, rt.alloc(), FIRST_ONE_PUT, ONE_PUT, piece));
    }
}

#[test]
fn clock_and_numbers_go_on(rt: HostRuntime) {
    let core = loaded(&rt, rt.alloc(), TWO_TABLES, 1000).expect(&rt, "an image");
    assert!(rt; core.clock() == -2);
    assert!(rt; core.next() == 3);
}
