//! The users of a core, written.
#![tactic(auto, using(tab_io::proofs::Putting::putting))]

ghost use Rattle.std.specs.Prelude.{◌≡◌, true, OnOk};
ghost use Rattle.std.specs.List.{AllByRecursion, flat_map};
ghost use Rattle.tab_io.specs.Writing.{Puts};
ghost use Rattle.tab_key.specs.Names.{IsName};
ghost use Rattle.tab_label.specs.Sets.{IsRising};
ghost use Rattle.tab_image.specs.Spelling.{counted, user_bytes};
ghost use Rattle.tab_policy.specs.Holders.{AreUsers};
ghost use Rattle.tab_policy.specs.State.{user_exists};
ghost use Rattle.tab_saving.specs.ImageOf.{user_of};
ghost use Rattle.tab_saving.specs.Saves.{RootHasAll};
ghost use Rattle.tab_saving.specs.Typed.{IsTypedUser};

use tab_image::{put_count, put_user};
use tab_io::{Output, WriteFault};
use tab_key::Name;
use tab_label::AuthSet;
use tab_policy::Policy;

/// Puts a count of users, and each of them.
pub(crate) fn put_users<W: Output>(
    output: &mut W,
    policy: &Policy,
    names: &[Name],
) -> Result<(), WriteFault>
    requires root { RootHasAll policy.now }
    requires users { AreUsers policy.now names.now }
    ensures put { Puts W.Output output.old output.new (counted (λ n. user_bytes (user_of policy.now n)) names.now) result }
    ensures typed { OnOk result (AllByRecursion (IsTypedUser policy.now) names.now) }
{
    put_count(output, names.len())?;
    put_each_user(output, policy, names)
}

fn put_each_user<W: Output>(
    output: &mut W,
    policy: &Policy,
    names: &[Name],
) -> Result<(), WriteFault>
    requires root { RootHasAll policy.now }
    requires users { AreUsers policy.now names.now }
    ensures put { Puts W.Output output.old output.new (flat_map (λ n. user_bytes (user_of policy.now n)) names.now) result }
    ensures typed { OnOk result (AllByRecursion (IsTypedUser policy.now) names.now) }
{
    for name in names {
        match put_named(output, policy, name) {
            Ok(()) => {}
            Err(fault) => return Err(fault),
        }
    }
    Ok(())
}

// Puts the user of this name.
fn put_named<W: Output>(output: &mut W, policy: &Policy, name: &Name) -> Result<(), WriteFault>
    requires root { RootHasAll policy.now }
    requires user { user_exists policy.now name.now ≡ true }
    ensures put { Puts W.Output output.old output.new (user_bytes (user_of policy.now name.now)) result }
    ensures typed { IsTypedUser policy.now name.now }
{
    let system = policy.system_of(name).unwrap();
    let authorizations = policy.auths_of(name).unwrap();
    keep_types(name, authorizations);
    put_user(output, name, system, authorizations)
}

// The name is one, and the authorizations are a set: nothing is done, and it is known afterwards.
fn keep_types(name: &Name, authorizations: &AuthSet)
    ensures name { IsName name.now }
    ensures set { IsRising authorizations.now }
{
    let _bytes = name.as_bytes();
    let _members = authorizations.terms();
}
