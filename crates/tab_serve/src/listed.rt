//! Moments out of a list.
ghost use Rattle.std.specs.Prelude.{◌≡◌, ◌≤◌, vec_len};

/// The moments of a list, in order. The last one is repeated once they are used up; an empty list gives 0.
#[derive(Drop)]
pub struct ListedMoments {
    pub(crate) moments: Vec<i64>,
    pub(crate) at: usize,
    ghost within: { at ≤ vec_len moments },
}

impl ListedMoments {
    /// The moments of the list, from its first on.
    pub fn new(moments: Vec<i64>) -> ListedMoments
        ensures moments { result.moments.items ≡ moments.items }
        ensures first { result.at ≡ 0 }
    {
        ListedMoments { moments, at: 0 }
    }
}
