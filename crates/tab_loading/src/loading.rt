//! A core, loaded from an image.
ghost use Rattle.std.specs.Prelude.{◌≡◌, IfOk};
ghost use Rattle.tab_image.specs.Images.{IsSane};
ghost use Rattle.tab_saving.specs.ImageOf.{IsImageOf};
ghost use Rattle.tab_loading.specs.Loading.{AreLaid, CountsOn, LoadsCore};

use crate::rights::put_tables;
use crate::tables::tables_of;
use crate::users::policy_of;
use std::alloc::{AllocError, Global};
use tab_core::Core;
use tab_image::{Image, LoadFault, read_image};
use tab_io::Input;

/// Reads an image, which ends where the input does, and makes the core that it says.
///
/// The whole image is read before any of it is made into the core. What it says is moved there: records stay where they were read until
/// their table is made, one table after the other. After an error some of the input may have been read.
pub fn load<R: Input>(alloc: Global, input: &mut R) -> Result<Core, LoadFault>
    ensures { LoadsCore R.Input input.old input.new result }
{
    let image = read_image(alloc, input)?;
    match core_of(alloc, image) {
        Ok(core) => Ok(core),
        Err(AllocError) => Err(LoadFault::NoMemory),
    }
}

// The core that the image says.
fn core_of(alloc: Global, image: Image) -> Result<Core, AllocError>
    requires { IsSane image }
    ensures of { IfOk result (λ core. IsImageOf core image) }
    ensures laid { IfOk result (λ core. AreLaid core.tables image.tables) }
    ensures counts { IfOk result (λ core. CountsOn core image.tables) }
{
    let Image {
        clock,
        next,
        users,
        tables,
    } = image;
    let mut policy = policy_of(alloc, users.into_vec())?;
    put_tables(&mut policy, tables.as_slice())?;
    let (tables, number) = tables_of(alloc, tables.into_vec())?;
    Ok(Core::restored(clock, next, policy, tables, number))
}
