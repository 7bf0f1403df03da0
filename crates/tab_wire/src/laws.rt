//! What holds of frames: laws, each the contract of a function that does nothing.
ghost use Rattle.tab_codec.specs.Codes.{Codes};
ghost use Rattle.tab_wire.specs.FrameParts.{FitsMutation, mutation_bytes};
ghost use Rattle.tab_wire.specs.FrameReading.{mutation_at};
ghost use Rattle.tab_wire.specs.Forms.{RequestsAreForms, RequestsInTurn, ReasonsAreFirst};
ghost use Rattle.tab_wire.specs.Stream.{StreamsSplitOnce};
ghost use Rattle.tab_wire.specs.TalkLaws.{TalksStayLegal};
ghost use Rattle.tab_wire.specs.TellLaws.{RefusalsAreTold};

/// Reading the bytes of a frame gives exactly what the forms of requests say.
#[tactic(auto, using(crate::proofs::RequestLaw::requests_are_forms))]
pub fn requests_are_forms()
    ensures { RequestsAreForms }
{}

/// A mutation has one spelling, no two have the same one, and it is read of that, whole, and of nothing else.
#[tactic(auto, using(crate::proofs::WriteLaw::mutations_are_coded))]
pub fn mutations_are_coded()
    ensures { Codes mutation_at mutation_bytes FitsMutation }
{}

/// What a frame asks is one of the forms, asked in its turn: Hello first, and only then.
#[tactic(auto, using(crate::proofs::ReasonLaw::requests_in_turn))]
pub fn requests_in_turn()
    ensures { RequestsInTurn }
{}

/// What asks nothing is refused by the first reason that there is: an unknown opcode, then the order, then the fields.
#[tactic(auto, using(crate::proofs::ReasonLaw::reasons_are_first))]
pub fn reasons_are_first()
    ensures { ReasonsAreFirst }
{}

/// A stream of bytes is split into frames in one way, and that is the one computed.
#[tactic(auto, using(crate::proofs::StreamLaw::streams_split_once))]
pub fn streams_split_once()
    ensures { StreamsSplitOnce }
{}

/// A whole connection whose events are answered as histories say makes a legal history, in which its sessions are those that it knows.
#[tactic(auto, using(crate::proofs::WholeTalks::talks_stay))]
pub fn talks_stay_legal()
    ensures { TalksStayLegal }
{}

/// A refusal is read of the frame that is written of it, and of no other one, and so is why a frame asked nothing.
#[tactic(auto, using(crate::proofs::TellLaw::refusals_are_told))]
pub fn refusals_are_told()
    ensures { RefusalsAreTold }
{}
