//! Bytes that move to an earlier place in their body.
ghost use Rattle.std.specs.Prelude.{◌≡◌, ◌+◌, ◌-◌, ◌≤◌, ◌++◌, length, take, drop};
ghost use Rattle.std.specs.List.{slice_range};

/// Copies the bytes from one place up to another, that one excluded, to an earlier place. The bytes there are lost.
pub(crate) fn move_piece(body: &mut [u8], place: usize, end: usize, to: usize)
    requires order { place ≤ end }
    requires inside { end ≤ length body.old }
    requires earlier { to ≤ place }
    ensures moved { take (to + (end - place)) body.new ≡ take to body.old ++ slice_range body.old place end }
    ensures behind { drop end body.new ≡ drop end body.old }
    ensures length { length body.new ≡ length body.old }
{
    let size = end - place;
    let gap = place - to;
    if size > gap {
        body.copy_within(place..end, to);
        return;
    }
    move_apart(body, place, end, to);
}

// `move_piece` in one copy, where the two places don't overlap.
fn move_apart(body: &mut [u8], place: usize, end: usize, to: usize)
    requires order { place ≤ end }
    requires inside { end ≤ length body.old }
    requires earlier { to + (end - place) ≤ place }
    ensures moved { take (to + (end - place)) body.new ≡ take to body.old ++ slice_range body.old place end }
    ensures behind { drop end body.new ≡ drop end body.old }
    ensures length { length body.new ≡ length body.old }
{
    let size = end - place;
    let (front, back) = body.split_at_mut(place);
    front[to..to + size].copy_from_slice(&back[..size]);
}
