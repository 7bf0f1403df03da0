//! The constraints of a table.
#![tactic(auto, using(tab_io::proofs::Putting::putting))]

ghost use Rattle.std.specs.Prelude.{◌≡◌, [], ◌∷◌, None, codes};
ghost use Rattle.std.specs.List.{flat_map};
ghost use Rattle.tab_io.specs.Writing.{Puts};
ghost use Rattle.tab_accumulo.specs.Carried.{in_table};
ghost use Rattle.tab_accumulo.specs.Lines.{told, class_name, constraint_text, all_constraints};

use crate::carried::is_table_name;
use crate::obstacle::in_table;
use crate::telling::put_told;
use crate::word::ShellWord;
use tab_image::TableHead;
use tab_io::{Output, WriteFault};
use tab_key::Name;
use tab_rules::Constraint;
use tab_text::{PutItem, put_each};

/// Puts the constraints of the table.
pub(crate) fn put_each_constraint<W: Output>(
    output: &mut W,
    head: &TableHead,
) -> Result<(), WriteFault>
    ensures { Puts W.Output output.old output.new (flat_map (constraint_text head.now) all_constraints) result }
{
    let all = [
        Constraint::KeySize,
        Constraint::Alphanumeric,
        Constraint::Numeric,
        Constraint::Visibility,
    ];
    put_each(output, &all, &Constrained { head })
}

// A constraint that the table may have.
#[derive(Clone, Copy)]
struct Constrained<'a> {
    head: &'a TableHead,
}

impl<'a> PutItem<Constraint> for Constrained<'a> {
    ghost use Rattle.tab_accumulo.specs.Lines.{constraint_text};

    ghost text = { λ constrained constraint. constraint_text constrained.head.now constraint };

    fn put_item<W: Output>(
        &self,
        output: &mut W,
        constraint: &Constraint,
    ) -> Result<(), WriteFault> {
        if self.head.constraints.contains(*constraint) {
            put_constraint(
                output,
                is_table_name(self.head.name.as_bytes()),
                *constraint,
            )
        } else {
            output.put(b"")
        }
    }
}

fn put_constraint<W: Output>(
    output: &mut W,
    is_made: bool,
    constraint: Constraint,
) -> Result<(), WriteFault>
    ensures { Puts W.Output output.old output.new
        (told (in_table is_made None) (codes "constraint" ∷ codes "-a" ∷ class_name constraint ∷ [])) result }
{
    put_told(
        output,
        in_table(is_made, None),
        b"constraint",
        &[
            ShellWord::Text(b"-a"),
            ShellWord::Text(class_name(constraint)),
        ],
    )
}

// The class that does what the constraint does.
fn class_name(constraint: Constraint) -> &'static [u8]
    ensures { result.now ≡ class_name constraint }
{
    match constraint {
        Constraint::KeySize =>
            b"org.apache.accumulo.core.data.constraints.DefaultKeySizeConstraint",
        Constraint::Alphanumeric =>
            b"org.apache.accumulo.examples.constraints.AlphaNumKeyConstraint",
        Constraint::Numeric => b"org.apache.accumulo.examples.constraints.NumericValueConstraint",
        Constraint::Visibility => b"org.apache.accumulo.core.data.constraints.VisibilityConstraint",
    }
}
