//! Records, the last one first.
ghost use Rattle.std.specs.Prelude.{ℕ, List, reverse};
ghost use Rattle.std.specs.List.{flat_map};
ghost use Rattle.tab_io.specs.Writing.{Puts};
ghost use Rattle.tab_key.specs.Records.{Record};

use tab_image::Records;
use tab_io::{Output, WriteFault};
use tab_key::RecordRef;

/// How a record is put.
pub trait PutRecord {
    // The text of a record.
    ghost text: { Self → Record → List ℕ };

    /// Puts the text of the record. It fails where the output does, and has put a beginning of the text then.
    fn put_record<W: Output>(
        &self,
        output: &mut W,
        record: &RecordRef<'_>,
    ) -> Result<(), WriteFault>
        ensures { Puts W.Output output.old output.new (text self.now record.now) result };
}

/// Puts the texts of the records, the last one first, straight from where they lie. It fails where the output does, and has put a
/// beginning of them then.
pub fn put_last_first<P: PutRecord, W: Output>(
    output: &mut W,
    records: &Records,
    how: &P,
) -> Result<(), WriteFault>
    ensures { Puts W.Output output.old output.new (flat_map (P.text how.now) (reverse records.now)) result }
{
    let count = records.len();
    for index in 0..count {
        match how.put_record(output, &records.get(count - 1 - index)) {
            Ok(()) => {}
            Err(fault) => return Err(fault),
        }
    }
    Ok(())
}
