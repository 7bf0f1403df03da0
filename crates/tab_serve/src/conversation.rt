//! Frame after frame of a connection.
ghost use Rattle.std.specs.Prelude.{◌≡◌, IfOk};
ghost use Rattle.tab_serve.specs.Progress.{side, Goes, GoesAll, SpendsOn, Faults, Flushes, Finishes, Converses};

use crate::turn::turn;
use crate::{ServeFault, Service};
use std::alloc::Global;
use tab_io::{Input, Output};
use tab_wire::Conn;

// Answers frames until more was read for one. Whether the connection goes on.
fn answer_front<R: Input, W: Output, S: Service>(
    alloc: Global,
    conn: &mut Conn,
    input: &mut R,
    output: &mut W,
    service: &mut S,
) -> Result<bool, ServeFault>
    requires ready { S.ready }
    requires opened { conn.old.opened ≡ S.opened service.old }
    ensures goes { Goes R.Input W.Output S.Service (side conn.old service.old) input.old output.old (side conn.new service.new) input.new output.new result }
    ensures spends { IfOk result (λ on. SpendsOn R.Input input.old input.new on) }
    ensures faults { Faults R.Input W.Output result input.old input.new output.old output.new }
    ensures opened { conn.new.opened ≡ S.opened service.new }
{
    let mut here = input.front().len();
    loop {
        match turn(alloc, conn, input, output, service) {
            Ok(true) => {}
            Ok(false) => return Ok(false),
            Err(fault) => return Err(fault),
        }
        let left = input.front().len();
        if left >= here {
            return Ok(true);
        }
        here = left;
    }
}

// Answers all frames, to the end of the input or to what is no frame.
fn answer_all<R: Input, W: Output, S: Service>(
    alloc: Global,
    conn: &mut Conn,
    input: &mut R,
    output: &mut W,
    service: &mut S,
) -> Result<(), ServeFault>
    requires ready { S.ready }
    requires opened { conn.old.opened ≡ S.opened service.old }
    ensures goes { GoesAll R.Input W.Output S.Service (side conn.old service.old) input.old output.old (side conn.new service.new) input.new output.new result }
    ensures faults { Faults R.Input W.Output result input.old input.new output.old output.new }
{
    loop {
        match answer_front(alloc, conn, input, output, service) {
            Ok(true) => {}
            Ok(false) => return Ok(()),
            Err(fault) => return Err(fault),
        }
    }
}

// Writes what is gathered, unless writing failed already.
fn finish<W: Output>(answered: Result<(), ServeFault>, output: &mut W) -> Result<(), ServeFault>
    ensures { Finishes W.Output answered output.old output.new result }
{
    match answered {
        Ok(()) => flushed(Ok(()), output),
        Err(ServeFault::Read) => flushed(Err(ServeFault::Read), output),
        Err(ServeFault::Write) => Err(ServeFault::Write),
    }
}

// This, once all that is gathered is written.
fn flushed<W: Output>(answered: Result<(), ServeFault>, output: &mut W) -> Result<(), ServeFault>
    ensures { Flushes W.Output answered output.old output.new result }
{
    match output.flush() {
        Ok(()) => answered,
        Err(_) => Err(ServeFault::Write),
    }
}

/// Answers each frame that is read, until the input ends between two frames, or in what is no frame.
///
/// The service hears each frame, and answers each request once, in the order of the frames, as soon as its frame was read; nothing else is
/// asked of it. How the input is cut into reads makes no difference. Replies are written before a read that may wait. After an error the
/// requests that were answered have taken effect. After a fault of the reader these are all whose frames stand whole in front of what is left
/// to read, and all their replies are written.
pub fn converse<R: Input, W: Output, S: Service>(
    alloc: Global,
    input: &mut R,
    output: &mut W,
    service: &mut S,
) -> Result<(), ServeFault>
    requires ready { S.ready }
    requires none { S.opened service.old ≡ 0 }
    ensures answers { Converses R.Input W.Output S.Service service.old input.old output.old service.new input.new output.new result }
    ensures faults { Faults R.Input W.Output result input.old input.new output.old output.new }
{
    let mut conn = Conn::new(alloc);
    let answered = answer_all(alloc, &mut conn, input, output, service);
    finish(answered, output)
}
