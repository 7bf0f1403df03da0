//! Scans opened.
ghost use Rattle.std.specs.Prelude.{◌≡◌, ℕ, ℤ, true, is_some};
ghost use Rattle.tab_store.specs.ByRow.{LieApart};
ghost use Rattle.tab_history.specs.Answers.{told_of};
ghost use Rattle.tab_store.specs.Tables.{table_at, tablets_of};
ghost use Rattle.tab_core.specs.Spending.{OpensOn, left_of};
ghost use Rattle.tab_core.specs.Stepping.{ActsOnTables};

use crate::Session;
use crate::checking::scan_refusal;
use crate::reply::Answer;
use std::alloc::Global;
use std::mem;
use tab_history::{Act, Refusal, Reply, Scan};
use tab_key::Items;
use tab_label::AuthSet;
use tab_store::{Table, Tables};

/// A session on a scan's answer, for a caller with these authorizations. It takes the scan's columns and authorizations, unless the scan is
/// refused.
pub fn open(alloc: Global, tables: &mut Tables, authorizations: &AuthSet, scan: &mut Scan) -> Answer
    requires there { is_some (table_at tables.old scan.old.table) ≡ true }
    requires apart { LieApart (tablets_of (table_at tables.old scan.old.table)) }
    ensures acts { (now : ℤ) (next : ℕ) → ActsOnTables authorizations.now now (Act.Open scan.old) tables.old next result tables.new next }
    ensures left { Act.Open scan.new ≡ left_of (Act.Open scan.old) (told_of result) }
{
    if let Some(refusal) = scan_refusal(alloc, authorizations, scan) {
        return Reply::Refused(refusal);
    }
    match tables.get_mut(&scan.table) {
        Some(table) => session_on(alloc, table, scan),
        None => Reply::Refused(Refusal::NoTable(scan.table)),
    }
}

// A session on what the scan shows of the table, whose tablets are frozen. The session takes the scan's columns and authorizations. Where
// memory lacks, table and scan are as they were.
fn session_on(alloc: Global, table: &mut Table, scan: &mut Scan) -> Answer
    requires { LieApart table.old.tablets }
    ensures { OpensOn table.old scan.old result table.new scan.new }
{
    let versions = table.versions().get();
    let Ok(version) = table.open(alloc, &scan.bounds) else {
        return Reply::Refused(Refusal::NoMemory);
    };
    let columns = mem::replace(&mut scan.columns, Items::new(alloc));
    let authorizations = mem::replace(&mut scan.authorizations, AuthSet::empty(alloc));
    Reply::Opened(Session::new(alloc, version, columns, authorizations, versions))
}
