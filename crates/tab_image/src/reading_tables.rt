//! Tables, read from an input.
#![tactic(auto, using(crate::proofs::Streams::reading))]

ghost use Rattle.std.specs.Prelude.{◌≡◌};
ghost use Rattle.tab_image.specs.Reading.{ends_at, head_at, horizon_at, rights_at};
ghost use Rattle.tab_image.specs.Streams.{Reads, HasRead, Stops};

use crate::fields::{
    read_constraints, read_held, read_horizon, read_name, read_part, read_time, read_versions,
};
use crate::lists::{ReadPart, read_list};
use crate::record_reading::read_records;
use crate::table::{ImageRight, ImageTable, TableHead};
use crate::unread::Unread;
use std::alloc::Global;
use tab_io::Input;
use tab_key::{ByteString, Items};

// A user's permissions on a table, as a part of a list.
struct Right;

impl ReadPart<ImageRight> for Right {
    ghost use Rattle.tab_image.specs.Reading.{right_at};

    ghost reads = { λ _. right_at };

    #[tactic(auto, using(crate::proofs::Streams::reading), unfolding(crate::specs::Reading::right_at))]
    fn read<R: Input>(&self, alloc: Global, input: &mut R) -> Result<ImageRight, Unread> {
        let user = read_name(alloc, input)?;
        let held = read_held(input)?;
        Ok(ImageRight { user, held })
    }
}

// A row at which a tablet ends, as a part of a list.
struct EndRow;

impl ReadPart<ByteString> for EndRow {
    ghost use Rattle.tab_image.specs.Reading.{part_at};

    ghost reads = { λ _. part_at };

    #[tactic(auto, using(crate::proofs::Streams::reading, crate::proofs::FieldLemmas::part_alone))]
    fn read<R: Input>(&self, alloc: Global, input: &mut R) -> Result<ByteString, Unread> {
        let mut text = Vec::new(alloc);
        read_part(input, &mut text)?;
        Ok(ByteString::from_vec(text))
    }
}

/// A table with its records in an image of a version, as a part of a list.
#[derive(Clone, Copy)]
pub(crate) struct Table {
    /// The version.
    pub version: u16,
}

impl ReadPart<ImageTable> for Table {
    ghost use Rattle.tab_image.specs.Reading.{table_at};

    ghost reads = { λ how. table_at how.version };

    #[tactic(auto, using(crate::proofs::Streams::reading), unfolding(crate::specs::Reading::table_at))]
    fn read<R: Input>(&self, alloc: Global, input: &mut R) -> Result<ImageTable, Unread> {
        let head = read_head(alloc, input, self.version)?;
        let records = read_records(alloc, input)?;
        Ok(ImageTable { head, records })
    }
}

// Takes all of a table but its records.
#[tactic(auto, using(crate::proofs::Streams::reading), unfolding(crate::specs::Reading::head_at))]
fn read_head<R: Input>(alloc: Global, input: &mut R, version: u16) -> Result<TableHead, Unread>
    ensures { Reads R.Input input.old input.new (head_at version) result }
{
    let name = read_name(alloc, input)?;
    let time = read_time(input)?;
    let versions = read_versions(input)?;
    let constraints = read_constraints(alloc, input)?;
    let horizon = read_horizon(input, version)?;
    let rights = read_rights(alloc, input)?;
    let ends = read_ends(alloc, input)?;
    Ok(TableHead {
        name,
        time,
        versions,
        constraints,
        horizon,
        rights,
        ends,
    })
}

// Takes who may what on a table.
#[tactic(auto, using(crate::proofs::Streams::reading), unfolding(crate::specs::Reading::rights_at))]
fn read_rights<R: Input>(alloc: Global, input: &mut R) -> Result<Items<ImageRight>, Unread>
    ensures { Reads R.Input input.old input.new rights_at result }
{
    read_list(alloc, input, &Right)
}

// Takes the rows at which a table's tablets end.
#[tactic(auto, using(crate::proofs::Streams::reading), unfolding(crate::specs::Reading::ends_at))]
fn read_ends<R: Input>(alloc: Global, input: &mut R) -> Result<Items<ByteString>, Unread>
    ensures { Reads R.Input input.old input.new ends_at result }
{
    read_list(alloc, input, &EndRow)
}
