//! Many items, put one after another.
ghost use Rattle.std.specs.Prelude.{ℕ, List};
ghost use Rattle.std.specs.List.{flat_map};
ghost use Rattle.tab_io.specs.Writing.{Puts};

use tab_io::{Output, WriteFault};

/// How an item is put. A value of the type says what the text depends on beside the item.
pub trait PutItem<T> {
    // The text of an item.
    ghost text: { Self → T → List ℕ };

    /// Puts the text of the item. It fails where the output does, and has put a beginning of the text then.
    fn put_item<W: Output>(&self, output: &mut W, item: &T) -> Result<(), WriteFault>
        ensures { Puts W.Output output.old output.new (text self.now item.now) result };
}

/// Puts the texts of the items, one after another. It fails where the output does, and has put a beginning of them then.
pub fn put_each<T, P: PutItem<T>, W: Output>(
    output: &mut W,
    items: &[T],
    how: &P,
) -> Result<(), WriteFault>
    ensures { Puts W.Output output.old output.new (flat_map (P.text how.now) items.now) result }
{
    for item in items {
        match how.put_item(output, item) {
            Ok(()) => {}
            Err(fault) => return Err(fault),
        }
    }
    Ok(())
}
