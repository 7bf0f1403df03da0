//! The first of several that is sought.
ghost use Rattle.std.specs.Prelude.{◌≡◌, ◌<◌, ◌&&◌, ◌==◌, length, option_map, is_some, unwrap_or, IfSome};
ghost use Rattle.std.specs.List.{remove, slice_index_or};
ghost use Rattle.tab_version.specs.Sources.{same_lists, same_contents, same_table, without};

use crate::{Clip, ClipOf, TableClip};

/// Something that seeks its like among several.
pub(crate) trait Sought<T> {
    ghost use Rattle.std.specs.Prelude.{Bool};

    ghost passes: { Self → T → Bool };

    /// Whether this one passes.
    fn passes(&self, one: &T) -> bool
        ensures { result ≡ passes self.now one.now };
}

/// A run seeks one of equal contents.
impl Sought<Clip> for Clip {
    ghost passes = { λ x y. same_contents x y };

    fn passes(&self, one: &Clip) -> bool {
        ClipOf::same_contents(self, one)
    }
}

/// A table seeks one of equal contents.
impl Sought<TableClip> for TableClip {
    ghost passes = { λ x y. same_table x y };

    fn passes(&self, one: &TableClip) -> bool {
        self.same_contents(one)
    }
}

/// A table that seeks one of equal contents and of equal size.
#[derive(Clone, Copy)]
pub(crate) struct WithSize<'a> {
    pub(crate) table: &'a TableClip,
}

impl<'a> Sought<TableClip> for WithSize<'a> {
    ghost passes = { λ x y. same_table x.table.now y && x.table.now.size == y.size };

    fn passes(&self, one: &TableClip) -> bool {
        if self.table.size() != one.size() {
            return false;
        }
        self.table.same_contents(one)
    }
}

// Whether the one at an index passes.
fn passes_at<T, S: Sought<T>>(several: &[T], index: usize, sought: &S) -> bool
    requires { index < length several.now }
    ensures { (u : _) → result ≡ S.passes sought.now (slice_index_or several.now index u) }
{
    sought.passes(&several[index])
}

// The index of the first that passes.
fn first_of<T, S: Sought<T>>(several: &[T], sought: &S) -> Option<usize>
    ensures inside { IfSome result (λ index. index < length several.now) }
    ensures first { without (S.passes sought.now) several.now ≡ option_map (λ index. remove several.now index) result }
{
    for index in 0..several.len() {
        if passes_at(several, index, sought) {
            return Some(index);
        }
    }
    None
}

// Takes out and drops the one at an index.
fn drop_at<T: Drop>(several: &mut Vec<T>, index: usize)
    requires { index < length several.old.items }
    ensures { several.new.items ≡ remove several.old.items index }
{
    let _ = several.remove(index);
}

/// Takes out the first that passes, and says whether there was one. Where there was none, nothing is changed.
pub(crate) fn take_first<T: Drop, S: Sought<T>>(several: &mut Vec<T>, sought: &S) -> bool
    ensures found { result ≡ is_some (without (S.passes sought.now) several.old.items) }
    ensures left { several.new.items ≡ unwrap_or (without (S.passes sought.now) several.old.items) several.old.items }
{
    match first_of(several.as_slice(), sought) {
        Some(index) => {
            drop_at(several, index);
            true
        }
        None => false,
    }
}

// Whether the members at an index pair up.
fn pair_at<T: Sought<T>>(several: &[T], others: &[T], index: usize) -> bool
    requires here { index < length several.now }
    requires there { index < length others.now }
    ensures { (u : _) → result ≡ T.passes (slice_index_or several.now index u) (slice_index_or others.now index u) }
{
    several[index].passes(&others[index])
}

/// Whether the members of two slices pair up in order, each with one that passes.
pub(crate) fn pair_up<T: Sought<T>>(several: &[T], others: &[T]) -> bool
    ensures { result ≡ same_lists T.passes several.now others.now }
{
    let count = several.len();
    if others.len() != count {
        return false;
    }
    for index in 0..count {
        if !pair_at(several, others, index) {
            return false;
        }
    }
    true
}
