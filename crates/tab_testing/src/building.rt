//! Authorizations, columns and mutations from literals.

use crate::update::Update;
use std::alloc::{AllocError, Global};
use tab_key::{ByteString, Column};
use tab_label::AuthSet;
use tab_mutation::Mutation;

/// The set of these authorizations.
pub fn auths_of(alloc: Global, terms: &[&[u8]]) -> Result<AuthSet, AllocError> {
    let mut members = Vec::new(alloc);
    for term in terms {
        members.push(Vec::from_slice(alloc, term)?)?;
    }
    Ok(AuthSet::new(members))
}

/// The columns of a family.
pub fn family(alloc: Global, family: &[u8]) -> Result<Column, AllocError> {
    Ok(Column::Family(ByteString::from_slice(alloc, family)?))
}

/// One column.
pub fn qualified(alloc: Global, family: &[u8], qualifier: &[u8]) -> Result<Column, AllocError> {
    let family = ByteString::from_slice(alloc, family)?;
    let qualifier = ByteString::from_slice(alloc, qualifier)?;
    Ok(Column::Qualified(family, qualifier))
}

fn add(mutation: &mut Mutation, update: &Update) -> Result<(), AllocError> {
    let Update {
        family,
        qualifier,
        label,
        ..
    } = *update;
    let timestamp = if update.is_clocked {
        None
    } else {
        Some(update.timestamp)
    };
    if update.is_put {
        mutation.put(family, qualifier, label, timestamp, &update.value())
    } else {
        mutation.delete(family, qualifier, label, timestamp)
    }
}

/// The mutation of the row with these updates.
pub fn mutation_of(alloc: Global, row: &[u8], updates: &[Update]) -> Result<Mutation, AllocError> {
    let mut mutation = Mutation::new(alloc, row)?;
    for update in updates {
        add(&mut mutation, update)?;
    }
    Ok(mutation)
}
