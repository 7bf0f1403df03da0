//! Whole connections over a core.
ghost use Rattle.tab_serve.specs.Progress.{Faults};
ghost use Rattle.tab_serve.specs.Serving.{ServesAll};

use crate::core_service::CoreService;
use crate::{Moments, ServeFault, converse};
use std::alloc::Global;
use tab_core::{Core, Slots};
use tab_history::Reply;
use tab_io::{Input, Output};

/// Answers each frame that is read, until the input ends between two frames, or in what is no frame: one that is empty, too long or cut.
///
/// Each event is one exact step of the core at the next moment, in the order of the frames, and nothing else touches the core. From each
/// history that the core refined the connection goes on legally, with no session to begin with, and its replies are the answers there.
/// Hello, what is asked of a session, what is no request, and an Open past the limit of sessions take no moment. The sessions end with
/// the connection.
///
/// How the input is cut into reads makes no difference. Replies are written before a read that may wait. After an error the requests
/// that were answered have taken effect, and the core refines what they leave. After a fault of the reader these are all whose frames stand
/// whole in front of what is left to read, and all their replies are written.
pub fn serve<R: Input, W: Output, M: Moments>(
    alloc: Global,
    input: &mut R,
    output: &mut W,
    moments: &mut M,
    core: &mut Core,
) -> Result<(), ServeFault>
    ensures serves { ServesAll R.Input W.Output M.gives core.old moments.old input.old output.old core.new moments.new input.new output.new result }
    ensures faults { Faults R.Input W.Output result input.old input.new output.old output.new }
{
    let mut slots = Slots::new(alloc);
    let mut reply = Reply::Done;
    let mut service = CoreService {
        alloc,
        core,
        moments,
        slots: &mut slots,
        reply: &mut reply,
    };
    converse(alloc, input, output, &mut service)
}
