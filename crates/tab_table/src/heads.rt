//! The head of a record that is written into a body.
ghost use Rattle.std.specs.Prelude.{◌≡◌, ◌<◌, ◌≤◌, ◌+◌, ◌^◌, ◌++◌, IsTrue, length, take};
ghost use Rattle.std.specs.List.{slice_range};
ghost use Rattle.tab_key.specs.Encoding.{four_bytes};

use crate::sharing::Counts;
use crate::writing::{ROOM, write_all, write_longer};

/// How many bytes a record has before its parts.
pub(crate) const HEAD_LEN: usize = 41;

/// How many of them tell the lengths of the parts.
pub(crate) const LENS_LEN: usize = 16;

/// How many bytes an entry has before the parts: four counts, and a head.
pub(crate) const ENTRY_HEAD: usize = LENS_LEN + HEAD_LEN;

/// What stands in a head behind the lengths of the parts: the length of the value and the numbers.
pub(crate) const REST_LEN: usize = HEAD_LEN - LENS_LEN;

/// Where the four parts begin that lie one behind the other.
#[derive(Clone, Copy)]
pub(crate) struct Places {
    pub(crate) row: usize,
    pub(crate) family: usize,
    pub(crate) qualifier: usize,
    pub(crate) label: usize,
}

impl Places {
    /// Those of parts of these lengths, the row's being here.
    #[inline(always)]
    pub(crate) fn from_row(row: usize, lens: Counts) -> Places
        requires { row + lens.row + lens.family + lens.qualifier ≤ usize.MAX }
        ensures row { result.row ≡ row }
        ensures family { result.family ≡ row + lens.row }
        ensures qualifier { result.qualifier ≡ row + lens.row + lens.family }
        ensures label { result.label ≡ row + lens.row + lens.family + lens.qualifier }
    {
        let family = row + lens.row;
        let qualifier = family + lens.family;
        Places {
            row,
            family,
            qualifier,
            label: qualifier + lens.qualifier,
        }
    }
}

// A number in four bytes.
#[inline(always)]
#[tactic(auto, unfolding(tab_key::specs::Encoding::four_bytes))]
fn bytes_of(number: usize) -> [u8; 4]
    requires { number < 2 ^ 32 }
    ensures { result ≡ four_bytes number }
{
    (number as u32).to_be_bytes()
}

/// Writes the four lengths over the bytes from a place on.
#[inline]
pub(crate) fn write_lens(out: &mut [u8], place: usize, lens: Counts)
    requires row { lens.row < 2 ^ 32 }
    requires family { lens.family < 2 ^ 32 }
    requires qualifier { lens.qualifier < 2 ^ 32 }
    requires label { lens.label < 2 ^ 32 }
    requires room { place + 16 ≤ length out.old }
    ensures bytes { take (place + 16) out.new ≡ take place out.old ++ (four_bytes lens.row ++ four_bytes lens.family ++ four_bytes lens.qualifier ++ four_bytes lens.label) }
    ensures length { length out.new ≡ length out.old }
{
    write_all(out, place, &bytes_of(lens.row));
    write_all(out, place + 4, &bytes_of(lens.family));
    write_all(out, place + 8, &bytes_of(lens.qualifier));
    write_all(out, place + 12, &bytes_of(lens.label));
}

/// Writes the head of a record of these lengths over the bytes from a place on; what is no length of a part is as in another head. Where 48
/// bytes are said to lie from that one's beginning on, up to 7 bytes behind the head are written over too.
#[inline(always)]
pub(crate) fn write_head(
    out: &mut [u8],
    place: usize,
    lens: Counts,
    others: &[u8],
    head: usize,
    is_ahead: bool,
)
    requires row { lens.row < 2 ^ 32 }
    requires family { lens.family < 2 ^ 32 }
    requires qualifier { lens.qualifier < 2 ^ 32 }
    requires label { lens.label < 2 ^ 32 }
    requires head { head + 41 ≤ length others.now }
    requires ahead { IsTrue is_ahead → head + 48 ≤ length others.now }
    requires room { place + 41 + ROOM ≤ length out.old }
    ensures bytes { take (place + 41) out.new ≡ take place out.old ++ ((four_bytes lens.row ++ four_bytes lens.family ++ four_bytes lens.qualifier ++ four_bytes lens.label) ++ slice_range others.now (head + 16) (head + 41)) }
    ensures length { length out.new ≡ length out.old }
{
    write_lens(out, place, lens);
    let rest = head + LENS_LEN;
    write_longer(out, place + LENS_LEN, others, rest, REST_LEN, is_ahead);
}
