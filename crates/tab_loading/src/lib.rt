//! Loading a core from an image.
//!
//! | File | What |
//! |---|---|
//! | `loading` | `load`, which reads an image and makes the core that it says |
//! | `users` | a policy, made of the users of an image |
//! | `rights` | the tables of an image, put into a policy with the rights on them |
//! | `tables` | tables, made of heads and records |
//!
//! In `specs`, `Policies` says what is read of a policy once users and rights of an image are put into it, `Tables` which tables an image
//! says, and `Loading` what loading does.
//!
//! In `proofs`, `Found` finds things by names that rise; `Granting`, `PuttingUsers` and `PuttingRights` read a policy after each of the
//! changes, and `Policies` after all of them; `Restoring` has restored tablets be sound, and `Numbers` have numbers of their own, `Placing`
//! reads tables that are put one by one, and `Loaded` puts all of it together.
#![tactic(auto)]

mod loading;
mod rights;
mod tables;
mod users;

pub use loading::load;
pub use tab_image::LoadFault;
