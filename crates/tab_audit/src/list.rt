//! Lists of parts between commas.
#![tactic(auto, using(tab_io::proofs::Putting::putting))]

ghost use Rattle.std.specs.Prelude.{◌++◌, ◌∷◌};
ghost use Rattle.std.specs.List.{flat_map};
ghost use Rattle.tab_io.specs.Writing.{Puts};
ghost use Rattle.tab_rules.specs.Constraints.{constraint_name};
ghost use Rattle.tab_audit.specs.Words.{part_word, column_word, list_word};
ghost use Rattle.tab_audit.specs.Lists.{later_constraint};

use crate::part::put_part;
use tab_io::{Output, WriteFault, put_byte};
use tab_key::{Column, Items};
use tab_label::AuthSet;
use tab_rules::{Constraint, ConstraintSet};
use tab_text::{PutItem, put_each};

/// Puts the authorizations of the set as a list.
pub fn put_terms<W: Output>(output: &mut W, auths: &AuthSet) -> Result<(), WriteFault>
    ensures { Puts W.Output output.old output.new (list_word part_word auths.now) result }
{
    put_list(output, auths.terms(), &Term)
}

/// Puts the columns as a list.
pub fn put_columns<W: Output>(output: &mut W, columns: &Items<Column>) -> Result<(), WriteFault>
    ensures { Puts W.Output output.old output.new (list_word column_word columns.now) result }
{
    put_list(output, columns.as_slice(), &ListedColumn)
}

/// Puts the constraints of the set as a list.
pub fn put_constraints<W: Output>(output: &mut W, set: &ConstraintSet) -> Result<(), WriteFault>
    ensures { Puts W.Output output.old output.new (list_word constraint_name set.now) result }
{
    set.keeps();
    if set.contains(Constraint::KeySize) {
        let later = [
            Constraint::Alphanumeric,
            Constraint::Numeric,
            Constraint::Visibility,
        ];
        return put_held(output, set, Constraint::KeySize, &later);
    }
    if set.contains(Constraint::Alphanumeric) {
        let later = [Constraint::Numeric, Constraint::Visibility];
        return put_held(output, set, Constraint::Alphanumeric, &later);
    }
    if set.contains(Constraint::Numeric) {
        return put_held(output, set, Constraint::Numeric, &[Constraint::Visibility]);
    }
    if set.contains(Constraint::Visibility) {
        return put_held(output, set, Constraint::Visibility, &[]);
    }
    output.put(b"\\0")
}

// Puts the first constraint, and those of the later ones that are members.
fn put_held<W: Output>(
    output: &mut W,
    set: &ConstraintSet,
    first: Constraint,
    later: &[Constraint],
) -> Result<(), WriteFault>
    ensures { Puts W.Output output.old output.new (constraint_name first ++ flat_map (later_constraint set.now) later.now) result }
{
    output.put(first.name().as_bytes())?;
    put_each(output, later, &LaterConstraint { set })
}

// A constraint's name behind a comma, where it is a member.
#[derive(Clone, Copy)]
struct LaterConstraint<'a> {
    set: &'a ConstraintSet,
}

impl<'a> PutItem<Constraint> for LaterConstraint<'a> {
    ghost use Rattle.tab_audit.specs.Lists.{later_constraint};

    ghost text = { λ later constraint. later_constraint later.set.now constraint };

    fn put_item<W: Output>(
        &self,
        output: &mut W,
        constraint: &Constraint,
    ) -> Result<(), WriteFault> {
        if self.set.contains(*constraint) {
            put_name(output, *constraint)
        } else {
            output.put(b"")
        }
    }
}

fn put_name<W: Output>(output: &mut W, constraint: Constraint) -> Result<(), WriteFault>
    ensures { Puts W.Output output.old output.new (44 ∷ constraint_name constraint) result }
{
    put_byte(output, b',')?;
    output.put(constraint.name().as_bytes())
}

// Puts the members, between commas, or what stands for none.
fn put_list<T, P: PutItem<T>, W: Output>(
    output: &mut W,
    members: &[T],
    how: &P,
) -> Result<(), WriteFault>
    ensures { Puts W.Output output.old output.new (list_word (P.text how.now) members.now) result }
{
    if members.is_empty() {
        return output.put(b"\\0");
    }
    put_members(output, &members[0], members.split_at(1).1, how)
}

fn put_members<T, P: PutItem<T>, W: Output>(
    output: &mut W,
    first: &T,
    later: &[T],
    how: &P,
) -> Result<(), WriteFault>
    ensures { Puts W.Output output.old output.new (P.text how.now first.now ++ flat_map (λ x. 44 ∷ P.text how.now x) later.now) result }
{
    how.put_item(output, first)?;
    put_later(output, later, how)
}

fn put_later<T, P: PutItem<T>, W: Output>(
    output: &mut W,
    later: &[T],
    how: &P,
) -> Result<(), WriteFault>
    ensures { Puts W.Output output.old output.new (flat_map (λ x. 44 ∷ P.text how.now x) later.now) result }
{
    for member in later {
        match put_after_comma(output, member, how) {
            Ok(()) => {}
            Err(fault) => return Err(fault),
        }
    }
    Ok(())
}

fn put_after_comma<T, P: PutItem<T>, W: Output>(
    output: &mut W,
    member: &T,
    how: &P,
) -> Result<(), WriteFault>
    ensures { Puts W.Output output.old output.new (44 ∷ P.text how.now member.now) result }
{
    put_byte(output, b',')?;
    how.put_item(output, member)
}

// An authorization.
struct Term;

impl PutItem<Vec<u8>> for Term {
    ghost use Rattle.tab_audit.specs.Words.{part_word};

    ghost text = { λ _ term. part_word term.items };

    fn put_item<W: Output>(&self, output: &mut W, term: &Vec<u8>) -> Result<(), WriteFault> {
        put_part(output, term.as_slice())
    }
}

// A column.
struct ListedColumn;

impl PutItem<Column> for ListedColumn {
    ghost use Rattle.tab_audit.specs.Words.{column_word};

    ghost text = { λ _ column. column_word column };

    fn put_item<W: Output>(&self, output: &mut W, column: &Column) -> Result<(), WriteFault> {
        match column {
            Column::Family(family) => put_part(output, family.as_bytes()),
            Column::Qualified(family, qualifier) => {
                put_qualified(output, family.as_bytes(), qualifier.as_bytes())
            }
        }
    }
}

fn put_qualified<W: Output>(
    output: &mut W,
    family: &[u8],
    qualifier: &[u8],
) -> Result<(), WriteFault>
    ensures { Puts W.Output output.old output.new (part_word family.now ++ 58 ∷ part_word qualifier.now) result }
{
    put_part(output, family)?;
    put_after_colon(output, qualifier)
}

fn put_after_colon<W: Output>(output: &mut W, qualifier: &[u8]) -> Result<(), WriteFault>
    ensures { Puts W.Output output.old output.new (58 ∷ part_word qualifier.now) result }
{
    put_byte(output, b':')?;
    put_part(output, qualifier)
}
