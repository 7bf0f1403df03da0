//! Settings of a table that change.

use crate::steps::expect_told;

// To set the present number again is no fault, and what was opened before shows as many versions as then, behind a compaction too.
const LOWERED: &[u8] =
    b"createtable t versions=2\ninsert t r f q \\e 1 1\ninsert t r f q \\e 2 2\nopen t \\0\n\
versions t 1\nversions t 1\nversions t 2\nopen t \\0\nnext 1 9\ncompact t full\nstatus t\nnext 0 9";

#[test]
fn lowered_versions_leave_a_session_its_own(rt: HostRuntime) {
    let told = b"ok ok ok opened ok ok raised opened @2=2, ok 1 @2=2,@1=1, ";
    expect_told(&rt, rt.alloc(), LOWERED, told)
}

// A marker at the horizon stays, and one below it goes.
const RAISED: &[u8] =
    b"createtable t\ndelete t r f q \\e 5\nhorizon t 5\ncompact t full\nstatus t\n\
horizon t 6\ncompact t full\nstatus t\ninsert t r f q \\e v 6\ninsert t r f q \\e w 5\n\
horizon t 6\nhorizon t 5\nopen t \\0\nnext 0 9";

#[test]
fn a_full_compaction_drops_a_marker_below_the_horizon(rt: HostRuntime) {
    let told = b"ok ok ok ok 1 ok ok 0 ok below ok lowered opened @6=v, ";
    expect_told(&rt, rt.alloc(), RAISED, told)
}

#[test]
fn a_table_that_gives_the_timestamps_has_no_horizon(rt: HostRuntime) {
    expect_told(
        &rt,
        rt.alloc(),
        b"createtable t time=server\nhorizon t 5",
        b"ok servertime ",
    )
}
