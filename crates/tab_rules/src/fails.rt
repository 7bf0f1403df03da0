//! Whether one update fails one test.
ghost use Rattle.std.specs.Prelude.{◌≡◌, ◌+◌, nat_lt, length};
ghost use Rattle.tab_rules.specs.Verdict.{fails};

use crate::Constraint;
use crate::syntax::{is_all_alphanumeric, is_numeral};
use crate::violation::Test;
use tab_key::MAX_PART_LEN;
use tab_label::{AuthSet, is_visible};
use tab_mutation::UpdateRef;

/// Whether the update of this row fails the test, for a writer who holds these authorizations.
pub fn fails(auths: &AuthSet, row: &[u8], test: Test, update: &UpdateRef<'_>) -> bool
    ensures { result ≡ fails auths.now row.now test.constraint test.code update.now }
{
    match test.constraint {
        Constraint::KeySize => has_long_key(row, update),
        Constraint::Alphanumeric => !is_all_alphanumeric(match test.code {
            1 => row,
            2 => update.family(),
            _ => update.qualifier(),
        }),
        Constraint::Numeric => update.kind().is_put() && !is_numeral(update.value()),
        Constraint::Visibility => !is_visible(update.label(), auths),
    }
}

// Whether row, family, qualifier and label have together more than 1,048,576 bytes.
fn has_long_key(row: &[u8], update: &UpdateRef<'_>) -> bool
    ensures { result ≡ nat_lt MAX_PART_LEN (length row.now + length update.now.family
        + length update.now.qualifier + length update.now.label) }
{
    row.len()
        .saturating_add(update.family().len())
        .saturating_add(update.qualifier().len())
        .saturating_add(update.label().len())
        > MAX_PART_LEN
}
