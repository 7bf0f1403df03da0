//! What of an entry is to be kept.
ghost use Rattle.std.specs.Prelude.{◌≡◌};
ghost use Rattle.tab_lasting.specs.Lasting.{leaves_trace};
ghost use Rattle.tab_journal.specs.Bodies.{begins_lasting};

use tab_event_record::EventRecord;

/// Whether the event leaves something that outlives a crash, where it is done.
#[tactic(auto, using(crate::proofs::Bodies::lasting_begins))]
pub fn leaves_trace(event: &EventRecord) -> bool
    ensures { result ≡ leaves_trace event.now.act }
{
    begins_lasting(event.body())
}

// Whether the body begins as that of an act that leaves something.
fn begins_lasting(body: &[u8]) -> bool
    ensures { result ≡ begins_lasting body.now }
{
    match body {
        [] => false,
        [opcode, ..] => {
            2 <= *opcode && *opcode <= 10 || *opcode == 17 || *opcode == 21 || *opcode == 22
        }
    }
}
