//! How many versions a new table shows, as settings of its iterator.
#![tactic(auto, using(tab_io::proofs::Putting::putting))]

ghost use Rattle.std.specs.Prelude.{◌≡◌, ◌++◌, decimal};
ghost use Rattle.tab_io.specs.Writing.{Puts};
ghost use Rattle.tab_accumulo.specs.Words.{version_key, versions_word};

use tab_io::{Output, WriteFault, put_decimal};
use tab_text::{PutItem, put_each};

/// Where versions beyond the number are left out.
#[derive(Clone, Copy, Debug, PartialEq, Eq)]
pub(crate) enum Scope {
    /// In scans.
    Scan,
    /// In minor compactions.
    Minor,
    /// In major compactions.
    Major,
}

/// Puts the settings by which a table shows this many versions, and keeps as many in each kind of a compaction, as one word.
pub(crate) fn put_versions<W: Output>(output: &mut W, number: u64) -> Result<(), WriteFault>
    ensures { Puts W.Output output.old output.new (versions_word number) result }
{
    let scopes = [Scope::Scan, Scope::Minor, Scope::Major];
    put_each(output, &scopes, &Shown { number })
}

// As many in each scope.
#[derive(Clone, Copy)]
struct Shown {
    number: u64,
}

impl PutItem<Scope> for Shown {
    ghost use Rattle.std.specs.Prelude.{◌++◌, decimal};
    ghost use Rattle.tab_accumulo.specs.Words.{version_key};

    ghost text = { λ shown scope. version_key scope ++ decimal shown.number };

    fn put_item<W: Output>(&self, output: &mut W, scope: &Scope) -> Result<(), WriteFault> {
        put_setting(output, *scope, self.number)
    }
}

fn put_setting<W: Output>(output: &mut W, scope: Scope, number: u64) -> Result<(), WriteFault>
    ensures { Puts W.Output output.old output.new (version_key scope ++ decimal number) result }
{
    output.put(version_key(scope))?;
    put_decimal(output, number)
}

// The name of the setting, and an equals sign; behind the first one a comma before it.
fn version_key(scope: Scope) -> &'static [u8]
    ensures { result.now ≡ version_key scope }
{
    match scope {
        Scope::Scan => b"table.iterator.scan.vers.opt.maxVersions=",
        Scope::Minor => b",table.iterator.minc.vers.opt.maxVersions=",
        Scope::Major => b",table.iterator.majc.vers.opt.maxVersions=",
    }
}
