//! A whole image, read from an input.
#![tactic(auto, using(crate::proofs::Streams::reading))]

ghost use Rattle.std.specs.Prelude.{◌≡◌, IfOk, true};
ghost use Rattle.tab_image.specs.Conditions.{is_sane};
ghost use Rattle.tab_image.specs.Loading.{magic_at, version_at, end_at, alone_at, sane_at, Loads};
ghost use Rattle.tab_image.specs.Reading.{body_at, is_known, mark_at, users_at, tables_at};
ghost use Rattle.tab_image.specs.Streams.{Reads, HasRead, Stops};

use crate::fault::LoadFault;
use crate::image::Image;
use crate::lists::read_list;
use crate::reading_tables::Table;
use crate::reading_users::User;
use crate::sanity::is_sane;
use crate::table::ImageTable;
use crate::taking::{is_ahead, read_four, read_i64, read_text, read_u16, read_u64};
use crate::unread::Unread;
use crate::user::ImageUser;
use crate::version::is_known;
use std::alloc::Global;
use tab_io::Input;
use tab_key::Items;

/// Reads an image of either version, which ends where the input does. In the first version each table has the least horizon.
///
/// It answers an image exactly where the bytes are one, and tells a version exactly where they begin as an image and the version isn't
/// known. What is read is held once, and memory is taken for bytes that came alone. After an error some of the input may have been read.
pub fn read_image<R: Input>(alloc: Global, input: &mut R) -> Result<Image, LoadFault>
    ensures { Loads R.Input input.old input.new result }
{
    let version = read_version(alloc, input)?;
    if !is_known(version) {
        return Err(LoadFault::Version(version));
    }
    let image = read_sane(alloc, input, version)?;
    Ok(image)
}

// Takes the six bytes and the version.
#[tactic(auto, using(crate::proofs::Streams::reading), unfolding(crate::specs::Loading::version_at))]
fn read_version<R: Input>(alloc: Global, input: &mut R) -> Result<u16, Unread>
    ensures { Reads R.Input input.old input.new version_at result }
{
    read_magic(alloc, input)?;
    read_u16(input)
}

#[tactic(auto, using(crate::proofs::FieldLemmas::text_read, crate::proofs::LoadLemmas::magics))]
fn read_magic<R: Input>(alloc: Global, input: &mut R) -> Result<(), Unread>
    ensures { Reads R.Input input.old input.new magic_at result }
{
    let mut text = Vec::new(alloc);
    read_text(input, &mut text, 6)?;
    if text.as_slice() != b"TABIMG".as_slice() {
        return Err(Unread::Bad);
    }
    Ok(())
}

// Takes all that stands behind the version, of which all conditions hold.
#[tactic(auto, using(crate::proofs::Streams::reading, crate::proofs::LoadLemmas::sane), unfolding(crate::specs::Loading::sane_at))]
fn read_sane<R: Input>(alloc: Global, input: &mut R, version: u16) -> Result<Image, Unread>
    ensures read { Reads R.Input input.old input.new (sane_at version) result }
    ensures sane { IfOk result (λ image. is_sane image ≡ true) }
{
    let image = read_alone(alloc, input, version)?;
    if !is_sane(alloc, &image) {
        return Err(Unread::Bad);
    }
    Ok(image)
}

// Takes all that stands behind the version, and the end.
#[tactic(auto, using(crate::proofs::Streams::reading), unfolding(crate::specs::Loading::alone_at))]
fn read_alone<R: Input>(alloc: Global, input: &mut R, version: u16) -> Result<Image, Unread>
    ensures { Reads R.Input input.old input.new (alone_at version) result }
{
    let image = read_body(alloc, input, version)?;
    read_end(input)?;
    Ok(image)
}

// Takes what stands behind the version.
#[tactic(auto, using(crate::proofs::Streams::reading), unfolding(crate::specs::Reading::body_at))]
fn read_body<R: Input>(alloc: Global, input: &mut R, version: u16) -> Result<Image, Unread>
    ensures { Reads R.Input input.old input.new (body_at version) result }
{
    let clock = read_i64(input)?;
    let next = read_u64(input)?;
    let users = read_users(alloc, input)?;
    let tables = read_tables(alloc, input, version)?;
    read_mark(input)?;
    Ok(Image {
        clock,
        next,
        users,
        tables,
    })
}

#[tactic(auto, using(crate::proofs::Streams::reading), unfolding(crate::specs::Reading::users_at))]
fn read_users<R: Input>(alloc: Global, input: &mut R) -> Result<Items<ImageUser>, Unread>
    ensures { Reads R.Input input.old input.new users_at result }
{
    read_list(alloc, input, &User)
}

#[tactic(auto, using(crate::proofs::Streams::reading), unfolding(crate::specs::Reading::tables_at))]
fn read_tables<R: Input>(
    alloc: Global,
    input: &mut R,
    version: u16,
) -> Result<Items<ImageTable>, Unread>
    ensures { Reads R.Input input.old input.new (tables_at version) result }
{
    read_list(alloc, input, &Table { version })
}

// Takes the mark of the end.
#[tactic(auto, using(crate::proofs::LoadLemmas::marks))]
fn read_mark<R: Input>(input: &mut R) -> Result<(), Unread>
    ensures { Reads R.Input input.old input.new mark_at result }
{
    let four = read_four(input)?;
    if four.as_slice() != b"END!".as_slice() {
        return Err(Unread::Bad);
    }
    Ok(())
}

// Finds the end of the input.
#[tactic(auto, using(crate::proofs::Streams::reading, crate::proofs::LoadLemmas::ends))]
fn read_end<R: Input>(input: &mut R) -> Result<(), Unread>
    ensures { Reads R.Input input.old input.new end_at result }
{
    if is_ahead(input)? {
        return Err(Unread::Bad);
    }
    Ok(())
}
