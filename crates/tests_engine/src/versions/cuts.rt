//! Random clips cut by random rows into many tablets, and read beside the model.
ghost use Rattle.std.specs.Prelude.{◌≡◌, ◌++◌, map, IfOk};
ghost use Rattle.std.specs.Ordering.{is_le, is_lt};
ghost use Rattle.tab_key.specs.Bytes.{bytes_cmp};
ghost use Rattle.tab_key.specs.Sorted.{IsDistinct, sorted};
ghost use Rattle.tab_iter.specs.Bags.{flat};
ghost use Rattle.tab_iter.specs.Lists.{IsRising};
ghost use Rattle.tab_version.specs.InTurn.{in_order};
ghost use Rattle.tab_version.specs.Sources.{records_of, clipped};

use super::{compare, last_tabled};
use crate::reading::expect_raw;
use crate::writing::{Writer, add, fill};
use std::alloc::{AllocError, Global};
use std::process::Abort;
use tab_key::{Bound, Bounds, ByteString};
use tab_testing::{Random, Update, sort};
use tab_version::{Clip, Clips, Version};

const ROWS: [&[u8]; 24] = [
    b"a", b"b", b"c", b"d", b"e", b"f", b"g", b"h", b"i", b"j", b"k", b"l", b"m", b"n", b"o", b"p",
    b"q", b"r", b"s", b"t", b"u", b"v", b"w", b"x",
];

// The clips, cut to the rows up to this one.
fn rows_upto(alloc: Global, clips: &Clips, row: &[u8]) -> Result<Clips, AllocError>
    ensures { IfOk result (λ c. c ≡ clipped (λ r. is_le (bytes_cmp r row.now)) clips.now) }
{
    let end = ByteString::from_slice(alloc, row)?;
    let bounds = Bounds {
        low: Bound::Unbounded,
        high: Bound::Inclusive(end),
    };
    let part = clips.in_rows(alloc, &bounds)?;
    Ok(part)
}

// The clips, cut to the rows behind this one.
fn rows_behind(alloc: Global, clips: &Clips, row: &[u8]) -> Result<Clips, AllocError>
    ensures { IfOk result (λ c. c ≡ clipped (λ r. is_lt (bytes_cmp row.now r)) clips.now) }
{
    let end = ByteString::from_slice(alloc, row)?;
    let bounds = Bounds {
        low: Bound::Exclusive(end),
        high: Bound::Unbounded,
    };
    let part = clips.in_rows(alloc, &bounds)?;
    Ok(part)
}

// The clips' rows up to this one as a tablet more; the rows behind it are left.
fn cut_at(
    alloc: Global,
    tablets: &mut Vec<Clips>,
    clips: &Clips,
    row: &[u8],
) -> Result<Clips, AllocError>
    requires { IsDistinct (records_of clips.now) }
    ensures distinct { IfOk result (λ left. IsDistinct (records_of left)) }
    ensures order { IfOk result (λ left. flat (in_order tablets.new.items) ++ sorted (records_of left) ≡ flat (in_order tablets.old.items) ++ sorted (records_of clips.now)) }
{
    let low = rows_upto(alloc, clips, row)?;
    let left = rows_behind(alloc, clips, row)?;
    tablets.push(low)?;
    Ok(left)
}

// The clips as tablets, the first of which end at these rows.
fn cut(alloc: Global, clips: Clips, rows: &[&[u8]]) -> Result<Vec<Clips>, AllocError>
    requires { IsDistinct (records_of clips) }
    ensures { IfOk result (λ v. IsRising (flat (map (λ t. sorted (records_of t)) v.items))) }
{
    let mut tablets = Vec::new(alloc);
    let mut left = clips;
    for row in rows {
        left = cut_at(alloc, &mut tablets, &left, row)?;
    }
    tablets.push(left)?;
    Ok(tablets)
}

// At least 20 rows, some of them more than once, which leaves tablets without a row.
fn random_ends(alloc: Global, random: &mut Random) -> Result<Vec<&'static [u8]>, AllocError> {
    let mut ends = Vec::new(alloc);
    for row in ROWS {
        for _ in 0..1 + random.below(3) {
            ends.push(row)?;
        }
    }
    Ok(ends)
}

// A clip of so many random mutations, numbered from here on, which are added to the table.
fn random_clip(
    rt: &impl Abort,
    alloc: Global,
    random: &mut Random,
    first: u8,
    table: &mut Vec<Update>,
) -> Clip {
    let mut writer = Writer::new(alloc);
    fill(rt, alloc, random, &mut writer, &ROWS, first, 24, table);
    Clip::whole(writer.freeze(rt, alloc))
}

/// Three clips, the last one of a table, cut into tablets.
pub fn random_version(
    rt: &impl Abort,
    alloc: Global,
    random: &mut Random,
    table: &mut Vec<Update>,
) -> Version {
    let mut clips = Vec::new(alloc);
    let first = random_clip(rt, alloc, random, 0, table);
    add(rt, alloc, &mut clips, first, 0, 24).expect(rt, "memory");
    let second = random_clip(rt, alloc, random, 24, table);
    add(rt, alloc, &mut clips, second, 24, 48).expect(rt, "memory");
    let third = random_clip(rt, alloc, random, 48, table);
    add(rt, alloc, &mut clips, third, 48, 72).expect(rt, "memory");
    let all = last_tabled(alloc, clips).expect(rt, "memory");
    let ends = random_ends(alloc, random).expect(rt, "memory");
    let tablets = cut(alloc, all, &ends).expect(rt, "memory");
    Version::of(tablets)
}

/// A table of 200 random mutations, cut into three tablets.
pub fn tabled_version(rt: &impl Abort, alloc: Global) -> Version {
    let mut table = Vec::new(alloc);
    let mut writer = Writer::new(alloc);
    let mut random = Random::new(37);
    fill(
        rt,
        alloc,
        &mut random,
        &mut writer,
        &ROWS,
        0,
        200,
        &mut table,
    );
    let clip = Clip::whole(writer.freeze(rt, alloc));
    let mut clips = Vec::new(alloc);
    add(rt, alloc, &mut clips, clip, 0, 200).expect(rt, "memory");
    let all = last_tabled(alloc, clips).expect(rt, "memory");
    let tablets = cut(alloc, all, &[b"b", b"q"]).expect(rt, "memory");
    Version::of(tablets)
}

/// Tablets without a record.
pub fn bare_version(rt: &impl Abort, alloc: Global) -> Version {
    let none = Clips::of(Vec::new(alloc), Vec::new(alloc));
    let tablets = cut(alloc, none, &ROWS).expect(rt, "memory");
    assert!(rt; tablets.len() == ROWS.len() + 1);
    Version::of(tablets)
}

#[test]
fn reads_many_tablets(rt: HostRuntime) {
    let alloc = rt.alloc();
    let mut random = Random::new(29);
    let mut shown = 0usize;
    for _ in 0..40 {
        let mut table = Vec::new(alloc);
        let version = random_version(&rt, alloc, &mut random, &mut table);
        assert!(rt; !version.is_empty());
        sort(&mut table);
        expect_raw(&rt, alloc, &version, &table);
        for _ in 0..8 {
            let count = compare(&rt, alloc, &mut random, &ROWS, &version, &table);
            shown = shown.saturating_add(count);
        }
    }
    assert!(rt; shown > 2000, "{shown} records were shown");
}

#[test]
fn tablets_without_a_record_are_an_empty_version(rt: HostRuntime) {
    let alloc = rt.alloc();
    let version = bare_version(&rt, alloc);
    assert!(rt; version.is_empty());
    expect_raw(&rt, alloc, &version, &[])
}
