//! The authorizations of a user.
#![tactic(auto, using(tab_io::proofs::Putting::putting))]

ghost use Rattle.std.specs.Prelude.{◌≡◌, ◌==◌, ◌&&◌, [], ◌∷◌, length, bytes_eq, codes};
ghost use Rattle.tab_io.specs.Writing.{Puts};
ghost use Rattle.tab_policy.specs.Roots.{root};
ghost use Rattle.tab_accumulo.specs.Words.{listed, term_bytes};
ghost use Rattle.tab_accumulo.specs.Carried.{terms_obstacle};
ghost use Rattle.tab_accumulo.specs.Lines.{told, terms_text};

use crate::obstacle::terms_obstacle;
use crate::telling::put_told;
use crate::word::ShellWord;
use tab_image::ImageUser;
use tab_io::{Output, WriteFault};
use tab_policy::is_root;

/// Puts the line that gives the user their authorizations: a comment where the shell would read others, and of root's, since they would take
/// the place of those that the cluster's root has.
pub(crate) fn put_authorized<W: Output>(output: &mut W, user: &ImageUser) -> Result<(), WriteFault>
    ensures { Puts W.Output output.old output.new (terms_text user.now.name user.now.authorizations) result }
{
    if is_bare_root(user) {
        output.put(b"")
    } else {
        put_set(output, user)
    }
}

/// Whether this is root, and has none.
pub(crate) fn is_bare_root(user: &ImageUser) -> bool
    ensures { result ≡ (bytes_eq user.now.name root && (length user.now.authorizations == 0)) }
{
    is_root(&user.name) && user.authorizations.is_empty()
}

fn put_set<W: Output>(output: &mut W, user: &ImageUser) -> Result<(), WriteFault>
    ensures { Puts W.Output output.old output.new
        (told (terms_obstacle user.now.name user.now.authorizations)
        (codes "setauths" ∷ codes "-u" ∷ user.now.name ∷ listed term_bytes user.now.authorizations ∷ [])) result }
{
    put_told(
        output,
        terms_obstacle(user),
        b"setauths",
        &[
            ShellWord::Text(b"-u"),
            ShellWord::Text(user.name.as_bytes()),
            ShellWord::Authorizations(&user.authorizations),
        ],
    )
}
