//! Users, authorizations and permissions: who may do what. (Accumulo user manual: security, permissions.)
//!
//! A `Policy` holds the users with their system permissions and authorizations, and the tables with the rights that users have on
//! them. It decides actions, and changes as users and tables come and go and as rights are granted and revoked. A copy changes apart.
//!
//! | File | What |
//! |---|---|
//! | `permission` | the permissions, their order and their names |
//! | `sets` | sets of permissions |
//! | `action` | what a user may ask for |
//! | `decision` | what a decision says, and what it found |
//! | `needs` | which permissions admit which action |
//! | `account`, `rights` | what is kept of a user, and of a table |
//! | `holder` | who holds what on a table |
//! | `lives` | the lives of users |
//! | `name_key` | names as the keys of maps |
//! | `entries` | maps by name, and by life |
//! | `policy` | the users and tables, and what may be done |
//!
//! Every definition that the contracts cite stands in `specs`: `Actions` is the table of permissions, `Decisions` the order of the
//! checks, `State` what a policy holds and how it is read, `Holders` the lists of users and of those who hold something on a table.
#![tactic(auto)]

mod account;
mod action;
mod decision;
mod entries;
mod holder;
mod lives;
mod name_key;
mod needs;
mod permission;
mod policy;
mod rights;
mod sets;

pub use account::is_root;
pub use action::{Action, ServerAction, TableAction};
pub use decision::{Caller, Decision, Denial};
pub use holder::Holder;
pub use name_key::NameKey;
pub use permission::{Permission, SystemPermission, TablePermission};
pub use policy::Policy;
pub use sets::{SystemPermissions, TablePermissions};
