//! The labels of a mutation.
ghost use Rattle.std.specs.Prelude.{◌≡◌, ◌<◌, ◌^◌, length};
ghost use Rattle.tab_label.specs.Reading.{label_of};
ghost use Rattle.tab_history.specs.Checks.{malformed_at, malformed};

use tab_history::Refusal;
use tab_label::{AuthSet, KnownLabels, judge};
use tab_mutation::{Shaped, UpdateRef};

/// The first update whose label is malformed. It takes no memory, and judges a short label that is known no more.
#[tactic(auto, unfolding(tab_history::specs::Checks::malformed), using(tab_mutation::proofs::Shapes::shaped_few))]
pub(crate) fn malformed(
    mutation: &Shaped<'_>,
    auths: &AuthSet,
    known: &mut KnownLabels,
) -> Option<Refusal>
    ensures { result ≡ malformed mutation.now }
{
    mutation.keeps();
    for index in 0..mutation.len() {
        let update = mutation.update(index);
        if let Some(refusal) = unknown_malformed_at(&update, index as u32, auths, known) {
            return Some(refusal);
        }
    }
    None
}

// The refusal of an update whose label is malformed. A label that is known isn't, and one that is found not to be is known afterwards.
fn unknown_malformed_at(
    update: &UpdateRef<'_>,
    place: u32,
    auths: &AuthSet,
    known: &mut KnownLabels,
) -> Option<Refusal>
    requires { length update.now.label < 2 ^ 32 }
    ensures { result ≡ malformed_at place (label_of update.now.label) }
{
    let Some(word) = update.label_word() else {
        return malformed_at(update, place, auths);
    };
    if known.has(word) {
        return None;
    }
    let refusal = malformed_at(update, place, auths);
    if refusal.is_none() {
        known.note(word);
    }
    refusal
}

// The refusal of an update whose label is malformed.
fn malformed_at(update: &UpdateRef<'_>, place: u32, auths: &AuthSet) -> Option<Refusal>
    requires { length update.now.label < 2 ^ 32 }
    ensures { result ≡ malformed_at place (label_of update.now.label) }
{
    match judge(update.label(), auths) {
        Ok(_) => None,
        Err(offset) => Some(Refusal::MalformedVisibility(place, offset as u32)),
    }
}
