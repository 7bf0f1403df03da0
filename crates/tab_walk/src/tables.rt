//! The parts of a table.
#![tactic(auto, using(tab_io::proofs::Putting::putting))]

ghost use Rattle.std.specs.List.{flat_map};
ghost use Rattle.tab_io.specs.Writing.{Puts};
ghost use Rattle.tab_walk.specs.Walks.{horizon_text, table_part, table_text};

use crate::rights::{ToldRights, put_rights, put_unheld};
use crate::visitor::Visitor;
use tab_image::{ImageTable, TableHead};
use tab_io::{Output, WriteFault};
use tab_key::{ByteString, Name};
use tab_text::{PutItem, put_each};

/// A part of what an image says of a table.
#[derive(Clone, Copy, Debug, PartialEq, Eq)]
pub enum TablePart {
    /// Its name, and how it was made.
    Created,
    /// Its constraints.
    Constrained,
    /// Its horizon, if it is above the least one.
    Bounded,
    /// The rows behind which it is split.
    Split,
    /// Its records.
    Filled,
    /// All permissions on it that root lacks, who made it and holds none.
    Unheld,
    /// The permissions on it of those that hold one.
    Held(ToldRights),
}

/// Puts these parts of each of the tables. It takes no memory, and fails where the output does; then it has put a beginning of the text.
pub fn put_tables<V: Visitor, W: Output>(
    output: &mut W,
    tables: &[ImageTable],
    parts: &[TablePart],
    visitor: &V,
) -> Result<(), WriteFault>
    ensures { Puts W.Output output.old output.new (flat_map (table_text (V.texts visitor.now) parts.now) tables.now) result }
{
    put_each(output, tables, &Tables { parts, visitor })
}

// These parts of each table.
#[derive(Drop)]
struct Tables<'a, V> {
    parts: &'a [TablePart],
    visitor: &'a V,
}

impl<'a, V: Visitor> PutItem<ImageTable> for Tables<'a, V> {
    ghost use Rattle.tab_walk.specs.Walks.{table_text};

    ghost text = { λ tables table. table_text (V.texts tables.visitor.now) tables.parts.now table };

    fn put_item<W: Output>(&self, output: &mut W, table: &ImageTable) -> Result<(), WriteFault> {
        put_table(output, table, self.parts, self.visitor)
    }
}

fn put_table<V: Visitor, W: Output>(
    output: &mut W,
    table: &ImageTable,
    parts: &[TablePart],
    visitor: &V,
) -> Result<(), WriteFault>
    ensures { Puts W.Output output.old output.new (table_text (V.texts visitor.now) parts.now table.now) result }
{
    put_each(output, parts, &OneTable { table, visitor })
}

// One table.
#[derive(Drop)]
struct OneTable<'a, V> {
    table: &'a ImageTable,
    visitor: &'a V,
}

impl<'a, V: Visitor> PutItem<TablePart> for OneTable<'a, V> {
    ghost use Rattle.tab_walk.specs.Walks.{table_part};

    ghost text = { λ one part. table_part (V.texts one.visitor.now) one.table.now part };

    fn put_item<W: Output>(&self, output: &mut W, part: &TablePart) -> Result<(), WriteFault> {
        put_part(output, *part, self.table, self.visitor)
    }
}

fn put_part<V: Visitor, W: Output>(
    output: &mut W,
    part: TablePart,
    table: &ImageTable,
    visitor: &V,
) -> Result<(), WriteFault>
    ensures { Puts W.Output output.old output.new (table_part (V.texts visitor.now) table.now part) result }
{
    match part {
        TablePart::Created => visitor.put_table(output, &table.head),
        TablePart::Constrained => visitor.put_constraints(output, &table.head),
        TablePart::Bounded => put_horizon(output, &table.head, visitor),
        TablePart::Split => put_splits(output, &table.head, visitor),
        TablePart::Filled => visitor.put_records(output, table),
        TablePart::Unheld => put_unheld(output, &table.head, visitor),
        TablePart::Held(told) => put_rights(output, &table.head, told, visitor),
    }
}

fn put_horizon<V: Visitor, W: Output>(
    output: &mut W,
    head: &TableHead,
    visitor: &V,
) -> Result<(), WriteFault>
    ensures { Puts W.Output output.old output.new (horizon_text (V.texts visitor.now) head.now) result }
{
    if i64::MIN < head.horizon {
        visitor.put_horizon(output, &head.name, head.horizon)
    } else {
        output.put(b"")
    }
}

fn put_splits<V: Visitor, W: Output>(
    output: &mut W,
    head: &TableHead,
    visitor: &V,
) -> Result<(), WriteFault>
    ensures { Puts W.Output output.old output.new (flat_map ((V.texts visitor.now).split head.now.name) head.now.ends) result }
{
    put_each(
        output,
        head.ends.as_slice(),
        &Splits {
            table: &head.name,
            visitor,
        },
    )
}

// The splits of a table.
#[derive(Drop)]
struct Splits<'a, V> {
    table: &'a Name,
    visitor: &'a V,
}

impl<'a, V: Visitor> PutItem<ByteString> for Splits<'a, V> {
    ghost text = { λ splits row. (V.texts splits.visitor.now).split splits.table.now row };

    fn put_item<W: Output>(&self, output: &mut W, row: &ByteString) -> Result<(), WriteFault> {
        self.visitor.put_split(output, self.table, row.as_bytes())
    }
}
