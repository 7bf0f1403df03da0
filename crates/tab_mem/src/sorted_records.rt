//! What a freeze keeps until it has its place in a table.
ghost use Rattle.std.specs.Prelude.{◌≡◌, ◌<◌, ◌*◌, ◌^◌, ◌++◌, [], IfOk, IfSome, OnOk, length};
ghost use Rattle.tab_iter.specs.Lists.{IsRising};

use crate::Run;
use crate::records::Records;
use crate::sorting::item::Item;
use std::alloc::AllocError;
use std::marker::Model;
use std::sync::Arc;

/// What a freeze kept: the run that it made, shared, or what it had sorted when memory lacked. A contract sees its records.
#[derive(Drop)]
pub(crate) struct SortedRecords {
    form: Form,
}

#[derive(Drop)]
enum Form {
    Nothing,
    Sorted(Box<Records>),
    Made(Arc<Run>),
}

impl Model for SortedRecords {
    ghost use Rattle.std.specs.Prelude.{List};
    ghost use Rattle.tab_key.specs.Records.{Record as Fields};
    ghost use Rattle.tab_mem.specs.Layouts.{kept_in};

    ghost Value = { List Fields };

    ghost view = { λ k. kept_in k.form };
}

impl SortedRecords {
    /// Nothing.
    pub(crate) fn nothing() -> SortedRecords
        ensures { result ≡ [] }
    {
        SortedRecords {
            form: Form::Nothing,
        }
    }

    /// What was sorted.
    pub(crate) fn sorted(records: Box<Records>) -> SortedRecords
        ensures { result ≡ records.value }
    {
        SortedRecords {
            form: Form::Sorted(records),
        }
    }

    /// The run that was made.
    pub(crate) fn made(run: Arc<Run>) -> SortedRecords
        ensures { result ≡ run.value }
    {
        SortedRecords {
            form: Form::Made(run),
        }
    }

    /// How many records there are.
    pub(crate) fn len(&self) -> usize
        ensures len { result ≡ length self.now }
        ensures few { 41 * result < 2 ^ 63 }
    {
        match &self.form {
            Form::Nothing => 0,
            Form::Sorted(records) => records.len(),
            Form::Made(run) => run.len(),
        }
    }

    /// A share of the run, if one was made.
    ///
    /// `AllocError` says that it couldn't be shared once more.
    pub(crate) fn share(&self) -> Result<Option<Arc<Run>>, AllocError>
        ensures { IfOk result (λ o. IfSome o (λ r. (r.value ≡ self.now) × IsRising self.now)) }
    {
        match &self.form {
            Form::Made(run) => share_of(run),
            _ => Ok(None),
        }
    }

    /// Puts the records, lent, behind others. After an error, which only want of memory gives, some may stand there.
    pub(crate) fn lend_to<'a>(&'a self, items: &mut Vec<Item<'a>>) -> Result<(), AllocError>
        ensures { OnOk result (items.new.items ≡ items.old.items ++ self.now) }
    {
        match &self.form {
            Form::Nothing => Ok(()),
            Form::Sorted(records) => records.lend_to(items),
            Form::Made(run) => run.lend_to(items),
        }
    }
}

// A share of this one.
fn share_of(run: &Arc<Run>) -> Result<Option<Arc<Run>>, AllocError>
    ensures { IfOk result (λ o. IfSome o (λ r. (r.value ≡ run.now.value) × IsRising run.now.value)) }
{
    let _count = run.len();
    let share = run.clone()?;
    Ok(Some(share))
}
