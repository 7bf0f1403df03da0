//! The act of a record's body.
ghost use Rattle.std.specs.Prelude.{◌≡◌, IfOk, ◌∷◌, Some, zero, suc};
ghost use Rattle.tab_text.specs.Gives.{Gives};
ghost use Rattle.tab_codec.specs.Gives.{bytes_left};
ghost use Rattle.tab_codec.specs.Reading.{whole, tagged, picked, u8_at};
ghost use Rattle.tab_wire.specs.Requests.{request_in};
ghost use Rattle.tab_event_record.specs.Records.{kind_of, split_at, begin_at, given_by, install_at, own_by, act_of, act_in};

use std::alloc::{AllocError, Global};
use tab_cells::Compaction;
use tab_codec::{Fields, a_byte, a_byte_string, a_long_number, a_name};
use tab_history::{Act, Given};
use tab_text::ParseError;
use tab_wire::{Request, Stop, read_request};

/// The act of a body; `None`: it is none.
#[tactic(auto, unfolding(crate::specs::Records::act_in))]
pub fn read_act(alloc: Global, body: &[u8]) -> Result<Option<Act>, AllocError>
    ensures { IfOk result (λ act. act ≡ act_in body.now) }
{
    match body {
        [] => Ok(None),
        [0, own @ ..] => read_own(alloc, own),
        _ => read_asked(alloc, body),
    }
}

/// The act that the body of a frame asks; `None`: it asks none.
pub fn read_asked(alloc: Global, body: &[u8]) -> Result<Option<Act>, AllocError>
    ensures { IfOk result (λ act. act ≡ act_of (request_in body.now)) }
{
    match read_request(alloc, true, body) {
        Ok(request) => Ok(asked_act(request)),
        Err(Stop::Bad(_)) => Ok(None),
        Err(Stop::NoMemory) => Err(AllocError),
    }
}

// The act of a request.
fn asked_act(request: Request) -> Option<Act>
    ensures { result ≡ act_of (Some request) }
{
    match request {
        Request::Act(act) => Some(act),
        _ => None,
    }
}

// The act that no frame asks.
fn read_own(alloc: Global, own: &[u8]) -> Result<Option<Act>, AllocError>
    ensures { IfOk result (λ act. act ≡ whole (tagged own_by own.now)) }
{
    let mut fields = Fields::of(own);
    match an_own_act(alloc, &mut fields) {
        Ok(act) => Ok(if_nothing_left(act, &fields)),
        Err(ParseError::Malformed) => Ok(None),
        Err(ParseError::NoMemory) => Err(AllocError),
    }
}

fn if_nothing_left(act: Act, fields: &Fields<'_>) -> Option<Act>
    ensures { result ≡ whole (Some (act, bytes_left fields.now)) }
{
    if fields.left() == 0 { Some(act) } else { None }
}

fn an_own_act(alloc: Global, fields: &mut Fields) -> Result<Act, ParseError>
    ensures { Gives (λ x. (x, bytes_left fields.new)) result (tagged own_by (bytes_left fields.old)) }
{
    let mark = a_byte(fields)?;
    if mark == 1 {
        a_split(alloc, fields)
    } else if mark == 2 {
        Ok(Act::Save)
    } else if mark == 3 {
        Ok(Act::Load)
    } else if mark == 4 {
        a_begin(alloc, fields)
    } else if mark == 5 {
        an_install(fields)
    } else {
        Err(ParseError::Malformed)
    }
}

#[tactic(auto, unfolding(crate::specs::Records::split_at))]
fn a_split(alloc: Global, fields: &mut Fields) -> Result<Act, ParseError>
    ensures { Gives (λ x. (x, bytes_left fields.new)) result (split_at (bytes_left fields.old)) }
{
    let table = a_name(fields)?;
    let row = a_byte_string(alloc, fields)?;
    let limit = a_long_number(fields)?;
    Ok(Act::SplitBySize(table, row, limit))
}

#[tactic(auto, unfolding(crate::specs::Records::begin_at))]
fn a_begin(alloc: Global, fields: &mut Fields) -> Result<Act, ParseError>
    ensures { Gives (λ x. (x, bytes_left fields.new)) result (begin_at (bytes_left fields.old)) }
{
    let table = a_name(fields)?;
    let row = a_byte_string(alloc, fields)?;
    let kind = a_kind(fields)?;
    Ok(Act::Begin(table, row, kind))
}

fn a_kind(fields: &mut Fields) -> Result<Compaction, ParseError>
    ensures { Gives (λ x. (x, bytes_left fields.new)) result (picked kind_of u8_at (bytes_left fields.old)) }
{
    let mark = a_byte(fields)?;
    if mark == 0 {
        Ok(Compaction::Minor)
    } else if mark == 1 {
        Ok(Compaction::Partial)
    } else if mark == 2 {
        Ok(Compaction::Full)
    } else {
        Err(ParseError::Malformed)
    }
}

#[tactic(auto, unfolding(crate::specs::Records::install_at))]
fn an_install(fields: &mut Fields) -> Result<Act, ParseError>
    ensures { Gives (λ x. (x, bytes_left fields.new)) result (install_at (bytes_left fields.old)) }
{
    let table = a_name(fields)?;
    let given = a_given(fields)?;
    Ok(Act::Install(table, given))
}

fn a_given(fields: &mut Fields) -> Result<Given, ParseError>
    ensures { Gives (λ x. (x, bytes_left fields.new)) result (tagged given_by (bytes_left fields.old)) }
{
    let mark = a_byte(fields)?;
    if mark == 0 {
        Ok(Given::InSlot(a_long_number(fields)?))
    } else if mark == 1 {
        Ok(Given::ByHand(a_long_number(fields)?))
    } else {
        Err(ParseError::Malformed)
    }
}
