//! Each system iterator that reads one source, alone over the table.
ghost use Rattle.std.specs.Prelude.{◌≡◌};

use super::{reads, records_of, source_of};
use std::alloc::Global;
use std::process::Abort;
use tab_iter::{ListSource, Source, deleting, fetching, versioning, visible};
use tab_testing::{auths_of, family};

fn table(rt: &impl Abort, alloc: Global) -> ListSource
    ensures { ⟦<ListSource as Source>⟧.rest result ≡ ⟦<ListSource as Source>⟧.whole result }
{
    let records = records_of(alloc, 1, 0).expect(rt, "memory");
    source_of(rt, records)
}

#[test]
fn reads_what_is_left(rt: HostRuntime) {
    let alloc = rt.alloc();
    let mut left = deleting(alloc, table(&rt, alloc), false).expect(&rt, "memory");
    reads(&rt, alloc, &mut left, &[7, 10, 9, 3, 11, 12, 14, 16, 17]);
}

#[test]
fn reads_what_is_left_and_markers(rt: HostRuntime) {
    let alloc = rt.alloc();
    let mut left = deleting(alloc, table(&rt, alloc), true).expect(&rt, "memory");
    reads(
        &rt,
        alloc,
        &mut left,
        &[7, 6, 10, 9, 3, 11, 12, 14, 13, 16, 17],
    );
}

#[test]
fn reads_named_columns(rt: HostRuntime) {
    let alloc = rt.alloc();
    let columns = [family(alloc, b"g").expect(&rt, "memory")];
    let mut fetched = fetching(alloc, table(&rt, alloc), &columns).expect(&rt, "memory");
    reads(&rt, alloc, &mut fetched, &[14, 13, 15, 16]);
}

#[test]
fn reads_what_is_visible(rt: HostRuntime) {
    let alloc = rt.alloc();
    let auths = auths_of(alloc, &[b"A"]).expect(&rt, "memory");
    let mut seen = visible(alloc, table(&rt, alloc), &auths).expect(&rt, "memory");
    reads(
        &rt,
        alloc,
        &mut seen,
        &[7, 6, 8, 5, 4, 10, 9, 3, 12, 14, 13, 15, 16],
    );
}

#[test]
fn reads_newest_versions(rt: HostRuntime) {
    let alloc = rt.alloc();
    let mut newest = versioning(alloc, table(&rt, alloc), 2).expect(&rt, "memory");
    reads(
        &rt,
        alloc,
        &mut newest,
        &[7, 6, 8, 10, 9, 11, 12, 14, 13, 15, 16, 17],
    );
}
