//! A mutation whose shape was accepted, lent.
ghost use Rattle.std.specs.Prelude.{◌≡◌, ◌<◌, None, length};
ghost use Rattle.std.specs.List.{slice_index_or};
ghost use Rattle.tab_mutation.specs.Shape.{shape_error};

use crate::{Mutation, UpdateRef};
use std::marker::Model;

/// A mutation whose shape was accepted: it has updates, at most 1,000, and no part of over 1,048,576 bytes.
///
/// `Mutation::shaped` lends it, and nothing else makes one: who takes it needn't ask again. It borrows the mutation and copies nothing.
#[derive(Drop)]
pub struct Shaped<'a> {
    mutation: &'a Mutation,
}

impl<'a> Model for Shaped<'a> {
    ghost use Rattle.tab_mutation.specs.Mutations.{Mutation as Fields};

    ghost Value = { Fields };

    ghost view = { λ s. s.mutation.now };

    ghost use Rattle.std.specs.Prelude.{◌≡◌, None};
    ghost use Rattle.tab_mutation.specs.Shape.{shape_error};

    ghost invariant = { λ s. shape_error s.mutation.now ≡ None };
}

impl<'a> Shaped<'a> {
    /// The mutation, whose shape was accepted.
    pub(crate) fn of(mutation: &'a Mutation) -> Shaped<'a>
        requires { shape_error mutation.now ≡ None }
        ensures { result ≡ mutation.now }
    {
        Shaped { mutation }
    }

    /// The row.
    pub fn row(&self) -> &[u8]
        ensures { result.now ≡ self.now.row }
    {
        self.mutation.row()
    }

    /// What each keeps: nothing is wrong with its shape. Nothing is done, and it is known afterwards.
    pub fn keeps(&self)
        ensures { shape_error self.now ≡ None }
    {
        let _mutation = self.mutation;
    }

    /// How many updates there are.
    pub fn len(&self) -> usize
        ensures { result ≡ length self.now.updates }
    {
        self.mutation.len()
    }

    /// The update at an index, counted from 0.
    pub fn update(&self, index: usize) -> UpdateRef<'_>
        requires { index < length self.now.updates }
        ensures { result ≡ slice_index_or self.now.updates index result }
    {
        self.mutation.update(index)
    }
}
