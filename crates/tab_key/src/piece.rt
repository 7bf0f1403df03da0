//! A byte string that lies in a longer one.
ghost use Rattle.std.specs.Prelude.{◌≡◌, ◌≤◌, length, take};
ghost use Rattle.std.specs.List.{slice_range};

use std::marker::Model;

/// A byte string that is lent out of a longer one, of which what lies behind it may be read too. A contract sees the byte string alone.
///
/// So a few bytes are copied in one step of a fixed length, where that many lie ahead.
#[derive(Drop)]
pub struct Piece<'a> {
    // The byte string, and all that lies behind it.
    onward: &'a [u8],
    // How many of these bytes are its own.
    len: usize,
}

impl<'a> Model for Piece<'a> {
    ghost use Rattle.std.specs.Prelude.{ℕ, ◌≤◌, List, length, take};

    ghost Value = { List ℕ };

    ghost view = { λ p. take p.len p.onward.now };

    ghost invariant = { λ p. p.len ≤ length p.onward.now };
}

impl<'a> Piece<'a> {
    /// The bytes between two places of the body.
    #[inline]
    pub(crate) fn between(body: &'a [u8], start: usize, end: usize) -> Piece<'a>
        requires order { start ≤ end }
        requires within { end ≤ length body.now }
        ensures { result ≡ slice_range body.now start end }
    {
        Piece {
            onward: &body[start..],
            len: end - start,
        }
    }

    /// How many bytes there are.
    #[inline]
    pub fn len(&self) -> usize
        ensures { result ≡ length self.now }
    {
        self.len
    }

    /// The bytes, and behind them what else the longer byte string has.
    #[inline]
    pub fn onward(&self) -> &'a [u8]
        ensures front { take (length self.now) result.now ≡ self.now }
        ensures long { length self.now ≤ length result.now }
    {
        self.onward
    }

    /// The bytes alone.
    #[inline]
    pub fn as_slice(&self) -> &'a [u8]
        ensures { result.now ≡ self.now }
    {
        &self.onward[..self.len]
    }
}
