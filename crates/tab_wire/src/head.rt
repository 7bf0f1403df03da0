//! What stands before the bytes of a frame: its length.
ghost use Rattle.std.specs.Prelude.{IfOk, OnErr};
ghost use Rattle.std.specs.Io.KnownBytes.{Keeps};
ghost use Rattle.tab_io.specs.Streams.{Fills, FailsByFault};
ghost use Rattle.tab_wire.specs.Taking.{TakesByte, TakesHead, TakesFewer, Costs, Looked};

use tab_io::{Input, ReadFault};

/// What stands before the bytes of a frame.
#[derive(Clone, Copy)]
pub enum Head {
    /// Nothing: the input has ended.
    End,
    /// A part of a length: the input has ended in it.
    Cut,
    /// The length.
    Length(u32),
}

/// Reads where no byte is here. Whether there are bytes then.
pub fn has_more<R: Input>(input: &mut R) -> Result<bool, ReadFault>
    ensures bytes { Fills (R.remaining input.old) (R.remaining input.new) (R.front input.new) result }
    ensures faults { FailsByFault result (R.faults input.old) (R.faults input.new) (R.budget input.new) }
    ensures costs { IfOk result (λ more. Looked R.Input input.old input.new more) }
{
    if !input.front().is_empty() {
        return Ok(true);
    }
    input.fill()
}

// Takes one byte, if there is one.
fn next_byte<R: Input>(input: &mut R) -> Result<Option<u8>, ReadFault>
    ensures bytes { IfOk result (λ byte. TakesByte (R.remaining input.old) byte (R.remaining input.new)) }
    ensures err { OnErr result (Keeps (R.remaining input.old) (R.remaining input.new)) }
    ensures faults { FailsByFault result (R.faults input.old) (R.faults input.new) (R.budget input.new) }
    ensures costs { IfOk result (λ _. Costs R.Input input.old input.new) }
{
    if !has_more(input)? {
        return Ok(None);
    }
    let byte = input.front()[0];
    input.consume(1);
    Ok(Some(byte))
}

/// Takes a length. After an error a part of it may be lost.
pub fn take_head<R: Input>(input: &mut R) -> Result<Head, ReadFault>
    ensures bytes { IfOk result (λ head. TakesHead (R.remaining input.old) head (R.remaining input.new)) }
    ensures err { OnErr result (TakesFewer 4 (R.remaining input.old) (R.remaining input.new)) }
    ensures faults { FailsByFault result (R.faults input.old) (R.faults input.new) (R.budget input.new) }
    ensures costs { IfOk result (λ _. Costs R.Input input.old input.new) }
{
    let Some(first) = next_byte(input)? else {
        return Ok(Head::End);
    };
    let Some(second) = next_byte(input)? else {
        return Ok(Head::Cut);
    };
    let Some(third) = next_byte(input)? else {
        return Ok(Head::Cut);
    };
    let Some(fourth) = next_byte(input)? else {
        return Ok(Head::Cut);
    };
    Ok(Head::Length(u32::from_be_bytes([first, second, third, fourth])))
}
