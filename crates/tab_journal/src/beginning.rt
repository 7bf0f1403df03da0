//! The header of a journal, put into a device.
ghost use Rattle.std.specs.Prelude.{◌≡◌, ◌≤◌, [], true, length, OnOk, IfErr};
ghost use Rattle.tab_journal.specs.Device.{Only, LeavesOnly};
ghost use Rattle.tab_journal.specs.Reasons.{HasReason};
ghost use Rattle.tab_journal.specs.Said.{header_in};
ghost use Rattle.tab_journal.specs.Spelling.{header_bytes};

use crate::device::Device;
use crate::header::{Header, header_text};
use crate::write_error::WriteError;
use std::alloc::Global;

/// Puts the text of this header into an empty device, and sees it on the disk.
pub fn put_header<D: Device>(
    alloc: Global,
    device: &mut D,
    header: Header,
) -> Result<(), WriteError>
    requires empty { D.seen device.old ≡ [] }
    requires settled { Only [] (D.may_leave device.old) }
    requires usable { D.is_usable device.old ≡ true }
    ensures written { OnOk result (D.seen device.new ≡ header_bytes (header_in header)) }
    ensures durable { OnOk result (Only (D.seen device.new) (D.may_leave device.new)) }
    ensures usable { OnOk result (D.is_usable device.new ≡ true) }
    ensures any_moment { LeavesOnly D.moment D.left_since device.old device.new (λ c. length c ≤ 48) }
    ensures failed { IfErr result (HasReason (D.faults device.old) (D.faults device.new)) }
{
    let text = header_text(alloc, header)?;
    device.append(text.as_slice())?;
    device.sync()?;
    Ok(())
}
