//! What keeps a line from going over.
ghost use Rattle.std.specs.Prelude.{◌≡◌, cond};
ghost use Rattle.std.specs.List.{list_all};
ghost use Rattle.tab_accumulo.specs.Carried.{is_term_word, name_obstacle, user_obstacle, terms_obstacle, table_obstacle};
ghost use Rattle.tab_accumulo.specs.Carried.{in_table, label_obstacle, lead};

use crate::carried::{is_option_word, is_term_word, is_user_name};
use tab_image::ImageUser;
use tab_label::AuthSet;
use tab_policy::is_root;

/// What keeps a line from going over.
#[derive(Clone, Copy, Debug, PartialEq, Eq)]
pub(crate) enum Obstacle {
    /// No user there can have this name, or the shell takes it for an option.
    UserName,
    /// The cluster's root isn't the image's: that one has authorizations of its own.
    Root,
    /// The shell would read other authorizations.
    Terms,
    /// No table there can have this name, or it would be in a namespace.
    TableName,
    /// Nothing there stands for the setting.
    Setting,
    /// The shell would read another label.
    Label,
    /// The user or the table that it is about is left out.
    Within,
}

impl Obstacle {
    /// What a comment says of it, before the line that is left out.
    pub(crate) fn lead(self) -> &'static [u8]
        ensures { result.now ≡ lead self }
    {
        match self {
            Obstacle::UserName => b"# left out, no user can have this name: ",
            Obstacle::Root => b"# left out, root is somebody else there: ",
            Obstacle::Terms => b"# left out, other authorizations would be set: ",
            Obstacle::TableName => b"# left out, no table can have this name: ",
            Obstacle::Setting => b"# left out, there is no such setting: ",
            Obstacle::Label => b"# left out, its label would be another: ",
            Obstacle::Within => b"# ",
        }
    }
}

/// Of the line that makes a user of this name.
pub(crate) fn name_obstacle(name: &[u8]) -> Option<Obstacle>
    ensures { result ≡ name_obstacle name.now }
{
    if is_user_name(name) {
        None
    } else {
        Some(Obstacle::UserName)
    }
}

/// Of another line about the user of this name.
pub(crate) fn user_obstacle(name: &[u8]) -> Option<Obstacle>
    ensures { result ≡ user_obstacle name.now }
{
    if is_user_name(name) {
        None
    } else {
        Some(Obstacle::Within)
    }
}

/// Of the line that gives a user their authorizations.
pub(crate) fn terms_obstacle(user: &ImageUser) -> Option<Obstacle>
    ensures { result ≡ terms_obstacle user.now.name user.now.authorizations }
{
    if is_root(&user.name) {
        return Some(Obstacle::Root);
    }
    if !is_user_name(user.name.as_bytes()) {
        return Some(Obstacle::Within);
    }
    if are_carried(&user.authorizations) {
        None
    } else {
        Some(Obstacle::Terms)
    }
}

/// Of the line that makes a table.
pub(crate) fn table_obstacle(is_made: bool) -> Option<Obstacle>
    ensures { result ≡ table_obstacle is_made }
{
    if is_made {
        None
    } else {
        Some(Obstacle::TableName)
    }
}

/// Of a line that goes to a table, and would be kept from it by this.
pub(crate) fn in_table(is_made: bool, other: Option<Obstacle>) -> Option<Obstacle>
    ensures { result ≡ in_table is_made other }
{
    if is_made {
        other
    } else {
        Some(Obstacle::Within)
    }
}

/// Of the line of a record with this label.
pub(crate) fn label_obstacle(label: &[u8]) -> Option<Obstacle>
    ensures { result ≡ label_obstacle label.now }
{
    if is_option_word(label) {
        None
    } else {
        Some(Obstacle::Label)
    }
}

// Whether all of the authorizations go over.
fn are_carried(authorizations: &AuthSet) -> bool
    ensures { result ≡ list_all is_term_word authorizations.now }
{
    all_carried(authorizations.terms())
}

fn all_carried(terms: &[Vec<u8>]) -> bool
    ensures { result ≡ list_all (λ v. is_term_word v.items) terms.now }
{
    terms.iter().all(|term| is_term_word(term.as_slice()))
}
