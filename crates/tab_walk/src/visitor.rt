//! A text for each thing that an image says.
ghost use Rattle.tab_io.specs.Writing.{Puts};
ghost use Rattle.tab_walk.specs.Texts.{Texts};

use tab_image::{ImageTable, ImageUser, TableHead};
use tab_io::{Output, WriteFault};
use tab_key::Name;
use tab_policy::{SystemPermission, TablePermission};

/// How the things that an image says are put. Each call fails where the output does, and has put a beginning of the text then.
pub trait Visitor {
    // The texts.
    ghost texts: { Self → Texts };

    /// A user of this name.
    fn put_user<W: Output>(&self, output: &mut W, name: &Name) -> Result<(), WriteFault>
        ensures { Puts W.Output output.old output.new ((texts self.now).user name.now) result };

    /// The user's authorizations.
    fn put_authorizations<W: Output>(
        &self,
        output: &mut W,
        user: &ImageUser,
    ) -> Result<(), WriteFault>
        ensures { Puts W.Output output.old output.new ((texts self.now).authorizations user.now.name user.now.authorizations) result };

    /// A system permission that the user of this name holds.
    fn put_system<W: Output>(
        &self,
        output: &mut W,
        name: &Name,
        permission: &SystemPermission,
    ) -> Result<(), WriteFault>
        ensures { Puts W.Output output.old output.new ((texts self.now).system name.now permission.now) result };

    /// A table.
    fn put_table<W: Output>(&self, output: &mut W, head: &TableHead) -> Result<(), WriteFault>
        ensures { Puts W.Output output.old output.new ((texts self.now).table head.now) result };

    /// The table's constraints.
    fn put_constraints<W: Output>(&self, output: &mut W, head: &TableHead) -> Result<(), WriteFault>
        ensures { Puts W.Output output.old output.new ((texts self.now).constraints head.now) result };

    /// The horizon of the table of this name, above the least one.
    fn put_horizon<W: Output>(
        &self,
        output: &mut W,
        table: &Name,
        horizon: i64,
    ) -> Result<(), WriteFault>
        ensures { Puts W.Output output.old output.new ((texts self.now).horizon table.now horizon) result };

    /// A row behind which the table of this name is split.
    fn put_split<'a, W: Output>(
        &self,
        output: &mut W,
        table: &'a Name,
        row: &'a [u8],
    ) -> Result<(), WriteFault>
        ensures { Puts W.Output output.old output.new ((texts self.now).split table.now row.now) result };

    /// A permission on the table of this name, and whether the user of that name holds it.
    fn put_right<'a, W: Output>(
        &self,
        output: &mut W,
        table: &'a Name,
        user: &'a [u8],
        permission: &TablePermission,
        is_held: bool,
    ) -> Result<(), WriteFault>
        ensures { Puts W.Output output.old output.new ((texts self.now).right table.now user.now permission.now is_held) result };

    /// The table's records.
    fn put_records<W: Output>(&self, output: &mut W, table: &ImageTable) -> Result<(), WriteFault>
        ensures { Puts W.Output output.old output.new ((texts self.now).records table.now) result };
}
