//! A row and the updates for it.
ghost use Rattle.std.specs.Prelude.{◌≡◌, ◌<◌, ◌==◌, [], IfOk, OnOk, OnErr, None, length};
ghost use Rattle.std.specs.List.{AllByRecursion, slice_index_or};
ghost use Rattle.std.specs.Result.{result_err};
ghost use Rattle.tab_mutation.specs.Mutations.{IsBare, with_update, put_update, delete_update};
ghost use Rattle.tab_mutation.specs.Shape.{first_found, long_name, long_value, shape_error};

use crate::shape_error::is_too_long;
use crate::update_span::{UpdateSpan, append};
use crate::{ShapeError, Shaped, UpdateRef, Updates};
use smallvec::SmallVec;
use std::alloc::{AllocError, Global};
use std::marker::Model;
use tab_key::{Kind, LimitedPart, MAX_UPDATES};

// Behind the row there is room for so many bytes: most mutations of one cell ask for memory once for all of their bytes.
const FIRST_ROOM: usize = 64;

/// A row and the puts and deletes that are to be applied to it together.
///
/// All bytes lie in one buffer: the row, and then of each update its family, qualifier, label and
/// value. Of two updates of one column the later added is the newer.
pub struct Mutation {
    body: Vec<u8>,
    row_end: usize,
    // one lies in the mutation itself: most that are sent one by one have no more
    spans: SmallVec<UpdateSpan, 1>,
}

// Written out, so that a crate above needn't prove anew how the parts are dropped.
impl Drop for Mutation {
    #[inline(always)]
    fn drop(self) {
        let Mutation {
            body: _,
            row_end: _,
            spans: _,
        } = self;
    }
}

impl Model for Mutation {
    ghost use Rattle.tab_mutation.specs.Mutations.{Mutation as Fields};

    ghost Value = { Fields };

    ghost use Rattle.tab_mutation.specs.MutationFields.{mutation_in, IsMutation};

    ghost view = { mutation_in };

    ghost invariant = { IsMutation };
}

impl Mutation {
    /// A mutation of this row with no updates. It takes memory for a copy of the row, and for the bytes of a short update behind it.
    pub fn new(alloc: Global, row: &[u8]) -> Result<Mutation, AllocError>
        ensures { IfOk result (λ m. m ≡ record { row = row.now; updates = [] }) }
    {
        let mut body = Vec::with_capacity(alloc, row.len().saturating_add(FIRST_ROOM))?;
        body.extend_from_slice(row)?;
        Ok(Mutation {
            body,
            row_end: row.len(),
            spans: SmallVec::new(alloc),
        })
    }

    // Adds an update at the end. After an error the body may have more bytes, which are no update's.
    fn add(
        &mut self,
        kind: Kind,
        family: &[u8],
        qualifier: &[u8],
        label: &[u8],
        timestamp: Option<i64>,
        value: &[u8],
    ) -> Result<(), AllocError>
        requires bare { kind ≡ Kind.Delete → value.now ≡ [] }
        ensures ok { OnOk result (self.new ≡ with_update self.old (record {
          kind = kind;
          family = family.now;
          qualifier = qualifier.now;
          label = label.now;
          timestamp = timestamp;
          value = value.now;
        })) }
        ensures err { OnErr result (self.new ≡ self.old) }
    {
        self.spans.reserve(1)?;
        let span = append(
            &mut self.body,
            kind,
            family,
            qualifier,
            label,
            timestamp,
            value,
        )?;
        self.spans.push_reserved(span);
        Ok(())
    }

    /// Adds a put at the end, with a timestamp or, for `None`, with the one that the server gives.
    ///
    /// # Errors
    ///
    /// There is no memory. The mutation is then unchanged.
    pub fn put(
        &mut self,
        family: &[u8],
        qualifier: &[u8],
        label: &[u8],
        timestamp: Option<i64>,
        value: &[u8],
    ) -> Result<(), AllocError>
        ensures ok { OnOk result (self.new ≡ with_update self.old (put_update family.now qualifier.now label.now timestamp value.now)) }
        ensures err { OnErr result (self.new ≡ self.old) }
    {
        self.add(Kind::Put, family, qualifier, label, timestamp, value)
    }

    /// Adds a delete marker at the end, with a timestamp or, for `None`, with the one that the
    /// server gives.
    ///
    /// # Errors
    ///
    /// There is no memory. The mutation is then unchanged.
    pub fn delete(
        &mut self,
        family: &[u8],
        qualifier: &[u8],
        label: &[u8],
        timestamp: Option<i64>,
    ) -> Result<(), AllocError>
        ensures ok { OnOk result (self.new ≡ with_update self.old (delete_update family.now qualifier.now label.now timestamp)) }
        ensures err { OnErr result (self.new ≡ self.old) }
    {
        self.add(Kind::Delete, family, qualifier, label, timestamp, &[])
    }

    /// What each mutation keeps: its delete markers have no value. Nothing is done, and it is known afterwards.
    pub fn keeps(&self)
        ensures { AllByRecursion IsBare self.now.updates }
    {
        let _row_end = self.row_end;
    }

    /// The row.
    pub fn row(&self) -> &[u8]
        ensures { result.now ≡ self.now.row }
    {
        &self.body[..self.row_end]
    }

    /// How many updates there are. A mutation holds as many as there is memory for; with over 1,000 its shape is refused.
    pub fn len(&self) -> usize
        ensures { result ≡ length self.now.updates }
    {
        self.spans.len()
    }

    /// Whether there are no updates.
    pub fn is_empty(&self) -> bool
        ensures { result ≡ (length self.now.updates == 0) }
    {
        self.spans.is_empty()
    }

    /// The update at an index, counted from 0.
    pub fn update(&self, index: usize) -> UpdateRef<'_>
        requires { index < length self.now.updates }
        ensures { result ≡ slice_index_or self.now.updates index result }
    {
        UpdateRef::at(self.body.as_slice(), &self.spans[index])
    }

    /// The updates, in the order in which they were added.
    pub fn updates(&self) -> Updates<'_>
        ensures { result ≡ self.now.updates }
    {
        Updates::at(self.body.as_slice(), self.spans.as_slice())
    }

    // The first family, qualifier or label that is too long, update by update.
    fn long_name(&self) -> Option<ShapeError>
        ensures { result ≡ first_found long_name 0 self.now.updates }
    {
        for index in 0..self.len() {
            if let Some(found) = self.update(index).long_name() {
                return Some(found);
            }
        }
        None
    }

    // The first value that is too long.
    fn long_value(&self) -> Option<ShapeError>
        ensures { result ≡ first_found long_value 0 self.now.updates }
    {
        for index in 0..self.len() {
            if let Some(found) = self.update(index).long_value() {
                return Some(found);
            }
        }
        None
    }

    /// What keeps the mutation from being accepted for its shape, if anything does.
    ///
    /// Looked at in this order: no update; over 1,000 updates; then over 1,048,576 bytes in the row,
    /// in each update's family, qualifier and label in turn, and after all of these in the values.
    #[tactic(auto, unfolding(crate::specs::Shape::shape_error))]
    pub fn shape(&self) -> Option<ShapeError>
        ensures { result ≡ shape_error self.now }
    {
        if self.is_empty() {
            return Some(ShapeError::Empty);
        }
        if self.len() > MAX_UPDATES {
            return Some(ShapeError::TooLarge(LimitedPart::Updates));
        }
        if is_too_long(self.row()) {
            return Some(ShapeError::TooLarge(LimitedPart::Row));
        }
        match self.long_name() {
            Some(found) => Some(found),
            None => self.long_value(),
        }
    }

    /// The mutation, lent as one whose shape was accepted.
    ///
    /// # Errors
    ///
    /// What `shape` says of it, if it says anything.
    pub fn shaped(&self) -> Result<Shaped<'_>, ShapeError>
        ensures ok { IfOk result (λ s. s ≡ self.now) }
        ensures err { result_err result ≡ shape_error self.now }
    {
        match self.shape() {
            Some(error) => Err(error),
            None => Ok(Shaped::of(self)),
        }
    }
}

impl Clone for Mutation {
    ghost is_clone = { λ source copy. copy ≡ source };

    fn clone(&self) -> Result<Mutation, AllocError> {
        Ok(Mutation {
            body: self.body.clone()?,
            row_end: self.row_end,
            spans: self.spans.clone()?,
        })
    }
}
