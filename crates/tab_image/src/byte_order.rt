//! Lists that rise strictly by unsigned bytes.
ghost use Rattle.std.specs.Prelude.{◌≡◌, map};
ghost use Rattle.tab_key.specs.Bytes.{bytes_cmp};
ghost use Rattle.tab_image.specs.Conditions.{rises};

/// What stands in a list by its bytes.
pub(crate) trait ByBytes {
    ghost use Rattle.std.specs.Prelude.{ℕ, List};

    // The bytes.
    ghost bytes: { Self → List ℕ };

    /// The bytes.
    fn bytes(&self) -> &[u8]
        ensures { result.now ≡ bytes self.now };
}

impl ByBytes for Vec<u8> {
    ghost bytes = { λ v. v.items };

    fn bytes(&self) -> &[u8] {
        self.as_slice()
    }
}

/// Whether each is below the next.
pub(crate) fn rise<T: ByBytes>(list: &[T]) -> bool
    ensures { result ≡ rises bytes_cmp (map T.bytes list.now) }
{
    list.is_sorted_by(|one, next| one.bytes().cmp(next.bytes()).is_lt())
}
