//! Saving a core as an image.
//!
//! | File | What |
//! |---|---|
//! | `saving` | `save`, which writes the image of a core |
//! | `users`, `tables`, `heads`, `records` | its parts, written as they come: no copy is made of the core |
//! | `fault` | why an image wasn't saved |
//! | `laws` | the laws of the definitions, each the contract of a function that does nothing |
//!
//! In `specs`, `ImageOf` says which image is the image of what a core holds, `OneImage` that cores of one image answer all that follows
//! alike and which one a core has, and `Existence` where it has one; `Saves` and `Saving` say what writing parts of an image does, and the
//! whole, and `Typed` what is known of a core's parts by their types.
//!
//! In `proofs`, `Granted` and `HolderRights` read lists of users and rights, `OneList` has two rising lists that say the same be one,
//! `UserNames` has each list of all users be the set of their names, and `OneImage` has cores of one image read alike. `Sane` and
//! `Fitting` show that what is written of a core is an image; `Texts` and `Listings` put texts one after another, `Gathered` gathers what
//! holds of each item, and `Saved` has the whole.
#![tactic(auto)]

mod fault;
mod heads;
mod laws;
mod records;
mod saving;
mod tables;
mod users;

pub use fault::SaveFault;
pub use laws::{cores_have_images, cores_of_one_image, images_are_this, one_image_each};
pub use saving::save;
