//! One frame, and what it is told.
ghost use Rattle.std.specs.Prelude.{◌≡◌, ℕ, true, List, Option, [], is_some, Some, unwrap_or, IfOk, IfSome, OnErr};
ghost use Rattle.tab_io.specs.Streams.{FailsByFault};
ghost use Rattle.tab_io.specs.Writing.{Puts};
ghost use Rattle.tab_wire.specs.Asking.{Asks, Knows, Stays, IsFramed};
ghost use Rattle.tab_wire.specs.Requests.{request_in};
ghost use Rattle.tab_wire.specs.Taking.{TakesPart, Costs};
ghost use Rattle.tab_wire.specs.Heard.{heard_by, next_by, HasUser};
ghost use Rattle.tab_wire.specs.Heard as heard;
ghost use Rattle.tab_wire.specs.Replies.{Sent, sent_bytes};
ghost use Rattle.tab_serve.specs.Turns.{cells_asked, Tells};
ghost use Rattle.tab_serve.specs.Progress.{side, is_here, NothingWaits, FlushesFirst, Goes, CostsOn, Faults, PutsOn, goes_on};

use crate::{ServeFault, Service};
use std::alloc::Global;
use tab_history::{Refusal, Reply};
use tab_io::{Input, Output, ReadFault, WriteFault};
use tab_wire::{Asked, Conn, Request, write_bad_frame};

// How many cells the request asks for, where it asks for a batch.
fn cells_asked(request: &Request) -> u32
    ensures { result ≡ cells_asked request.now }
{
    match request {
        Request::Next { count, .. } => *count,
        _ => 0,
    }
}

// Has the request of the connection's user answered, and writes the reply.
fn answer<W: Output, S: Service>(
    conn: &mut Conn,
    request: &mut Request,
    output: &mut W,
    service: &mut S,
) -> Result<(), WriteFault>
    requires ready { S.ready }
    requires opened { conn.old.opened ≡ S.opened service.old }
    requires user { is_some conn.old.user ≡ true }
    requires framed { request_in conn.old.frame ≡ Some request.old }
    ensures told { (sent : Sent) × Tells S.Service service.old (heard.Request (unwrap_or conn.old.user []) request.old) sent service.new × Puts W.Output output.old output.new (sent_bytes sent) result }
    ensures user { conn.new.user ≡ conn.old.user }
    ensures opened { conn.new.opened ≡ S.opened service.new }
{
    let count = cells_asked(request);
    service.answer(conn.user().unwrap(), request, conn.frame());
    conn.answer(count, service.reply(), output)
}

// Tells what comes of what is asked.
fn tell<W: Output, S: Service>(
    conn: &mut Conn,
    asked: &mut Asked,
    output: &mut W,
    service: &mut S,
) -> Result<(), WriteFault>
    requires ready { S.ready }
    requires opened { conn.old.opened ≡ S.opened service.old }
    requires user { HasUser conn.old.user asked.old }
    requires framed { IsFramed conn.old.frame (Some asked.old) }
    ensures told { (sent : Sent) × Tells S.Service service.old (heard_by conn.old.user asked.old) sent service.new × Puts W.Output output.old output.new (sent_bytes sent) result }
    ensures user { conn.new.user ≡ conn.old.user }
    ensures opened { conn.new.opened ≡ S.opened service.new }
{
    match asked {
        Asked::Request(request) => answer(conn, request, output, service),
        Asked::Bad(reason) => write_bad_frame(output, *reason),
        Asked::Broken(reason) => write_bad_frame(output, *reason),
        Asked::NoMemory => conn.answer(0, &Reply::Refused(Refusal::NoMemory), output),
    }
}

// Whether the connection goes on behind this.
fn goes_on(asked: &Asked) -> bool
    ensures { (user : Option (List ℕ)) → result ≡ goes_on (heard_by user asked.now) }
{
    !matches!(asked, Asked::Broken(_))
}

// Tells it, and whether the connection goes on.
fn tell_on<W: Output, S: Service>(
    conn: &mut Conn,
    asked: &mut Asked,
    output: &mut W,
    service: &mut S,
) -> Result<bool, ServeFault>
    requires ready { S.ready }
    requires opened { conn.old.opened ≡ S.opened service.old }
    requires user { HasUser conn.old.user asked.old }
    requires framed { IsFramed conn.old.frame (Some asked.old) }
    ensures told { (sent : Sent) × Tells S.Service service.old (heard_by conn.old.user asked.old) sent service.new × PutsOn W.Output output.old output.new (sent_bytes sent) result }
    ensures on { IfOk result (λ on. on ≡ goes_on (heard_by conn.old.user asked.old)) }
    ensures user { conn.new.user ≡ conn.old.user }
    ensures opened { conn.new.opened ≡ S.opened service.new }
{
    let on = goes_on(asked);
    match tell(conn, asked, output, service) {
        Ok(()) => Ok(on),
        Err(WriteFault) => Err(ServeFault::Write),
    }
}

// `tell_on` of what was read, which the service hears before, and which is let go then.
fn tell_read<W: Output, S: Service>(
    conn: &mut Conn,
    mut asked: Asked,
    output: &mut W,
    service: &mut S,
) -> Result<bool, ServeFault>
    requires ready { S.ready }
    requires opened { conn.old.opened ≡ S.opened service.old }
    requires user { HasUser conn.old.user asked }
    requires framed { IsFramed conn.old.frame (Some asked) }
    ensures told { (sent : Sent) × Tells S.Service service.old (heard_by conn.old.user asked) sent service.new × PutsOn W.Output output.old output.new (sent_bytes sent) result }
    ensures on { IfOk result (λ on. on ≡ goes_on (heard_by conn.old.user asked)) }
    ensures user { conn.new.user ≡ conn.old.user }
    ensures opened { conn.new.opened ≡ S.opened service.new }
{
    service.hear(&asked);
    tell_on(conn, &mut asked, output, service)
}

// Whether the next frame is here whole: its length, and as many bytes behind it.
#[tactic(auto, unfolding(crate::specs::Progress::is_here))]
fn is_here(front: &[u8]) -> bool
    ensures { result ≡ is_here front.now }
{
    if front.len() < 4 {
        return false;
    }
    let (head, bytes) = front.split_at(4);
    let length = u32::from_be_bytes([head[0], head[1], head[2], head[3]]);
    length as usize <= bytes.len()
}

// Writes what is gathered, unless the next frame is here whole: a read may wait then.
#[tactic(auto, using(tab_io::proofs::Putting::put_none, tab_io::proofs::Putting::flush_put, tab_io::proofs::Putting::flush_part, crate::proofs::ProgressLemmas::flushed_away))]
fn flush_before_read<R: Input, W: Output>(input: &R, output: &mut W) -> Result<(), WriteFault>
    ensures puts { Puts W.Output output.old output.new [] result }
    ensures flushed { IfOk result (λ _. NothingWaits R.Input W.Output input.now output.new) }
    ensures gathers { is_here (R.front input.now) ≡ true → output.new ≡ output.old }
{
    if is_here(input.front()) {
        return Ok(());
    }
    output.flush()
}

// Asks for the next frame, which may wait: nothing that is gathered does.
fn ask<R: Input, W: Output>(
    alloc: Global,
    conn: &mut Conn,
    input: &mut R,
    _output: &W,
) -> Result<Option<Asked>, ReadFault>
    requires { NothingWaits R.Input W.Output input.old _output.now }
    ensures ahead { IfOk result (λ asked. IfSome (R.remaining input.old) (λ ahead. Asks (is_some conn.old.user) ahead (next_by conn.new.user asked) (R.remaining input.new))) }
    ensures ok { IfOk result (λ asked. Knows conn.old (next_by conn.new.user asked) conn.new) }
    ensures err { OnErr result (Stays conn.old conn.new) }
    ensures frame { IfOk result (λ asked. IsFramed conn.new.frame asked) }
    ensures left { OnErr result (TakesPart (R.remaining input.old) (R.remaining input.new)) }
    ensures faults { FailsByFault result (R.faults input.old) (R.faults input.new) (R.budget input.new) }
    ensures costs { IfOk result (λ _. Costs R.Input input.old input.new) }
{
    conn.ask(alloc, input)
}

/// Answers the next frame. Whether the connection goes on.
pub fn turn<R: Input, W: Output, S: Service>(
    alloc: Global,
    conn: &mut Conn,
    input: &mut R,
    output: &mut W,
    service: &mut S,
) -> Result<bool, ServeFault>
    requires ready { S.ready }
    requires opened { conn.old.opened ≡ S.opened service.old }
    ensures goes { Goes R.Input W.Output S.Service (side conn.old service.old) input.old output.old (side conn.new service.new) input.new output.new result }
    ensures flushes { IfOk result (λ _. FlushesFirst R.Input W.Output input.old output.old output.new) }
    ensures costs { IfOk result (λ on. CostsOn R.Input input.old input.new on) }
    ensures faults { Faults R.Input W.Output result input.old input.new output.old output.new }
    ensures opened { conn.new.opened ≡ S.opened service.new }
{
    match flush_before_read(input, output) {
        Ok(()) => {}
        Err(_) => return Err(ServeFault::Write),
    }
    match ask(alloc, conn, input, output) {
        Ok(Some(asked)) => tell_read(conn, asked, output, service),
        Ok(None) => Ok(false),
        Err(_) => Err(ServeFault::Read),
    }
}
