//! What an end of a connection gives to its ring.
ghost use Rattle.std.specs.Prelude.{◌≡◌, ◌+◌, IfErr, IfOk, MatchBool, OnOk};
ghost use Rattle.dso_session.specs.declared.frame.Frame.{Frame};
ghost use Rattle.dso_port.specs.Ports.{EndKeeps, HasGiven, HasNoMore, HasStopped, frames_left, given, lifted};
ghost use Rattle.rtrb.specs.Ring.{SameProducer};

use crate::carried::{Carried, FramesOf};
use crate::fault::PortFault;
use dso_base::Both;
use dso_session::{Frame, Session};
use rtrb::Producer;
use std::alloc::Global;

/// The frame with a message of this way.
fn own_frame<S: Carried>(frame: Frame<Both>) -> Frame<S>
    requires { (own : Frame S) × (frame ≡ lifted S.as_both own) }
    ensures { frame ≡ lifted S.as_both result }
{
    match frame {
        Frame::Carry {
            epoch,
            number,
            seen,
            clock,
            message,
        } => match S::out_of(message) {
            Some(message) => Frame::Carry {
                epoch,
                number,
                seen,
                clock,
                message,
            },
            None => unreachable!(),
        },
        Frame::Hello { epoch, seen, clock } => Frame::Hello { epoch, seen, clock },
    }
}

/// One frame goes to the ring: false where no place is known to be free, or no frame is due.
#[tactic(auto, using(crate::proofs::ends::Given::given_nothing, crate::proofs::ends::Given::none_given, crate::proofs::ends::Given::stopped_here))]
fn give_one<S: Carried>(
    alloc: Global,
    session: &mut Session<Both>,
    out: &mut Producer<Vec<u8>, Global, FramesOf<S>>,
) -> Result<bool, PortFault>
    requires { EndKeeps S.as_both session.old }
    ensures keeps { EndKeeps S.as_both session.new }
    ensures ring { SameProducer out.old out.new }
    ensures gives { OnOk result (HasGiven S.as_both S.cells S.is session.old session.new (given out.old) (given out.new)) }
    ensures less { IfOk result (λ more. MatchBool more (frames_left session.new + 1 ≡ frames_left session.old) (HasNoMore session.new out.new)) }
    ensures stops { IfErr result (λ why. HasStopped S.as_both S.cells S.is S.can_go why session.old) }
{
    if out.is_full() {
        return Ok(false);
    }
    match session.next_frame()? {
        Some(frame) => {
            let bytes = S::encode(alloc, &own_frame(frame))?;
            out.push_reserved(bytes);
            Ok(true)
        }
        None => Ok(false),
    }
}

/// Frames go to the ring, as many as are due and places are known to be free.
#[tactic(auto, using(crate::proofs::ends::Given::stopped_through))]
pub(crate) fn give_all<S: Carried>(
    alloc: Global,
    session: &mut Session<Both>,
    out: &mut Producer<Vec<u8>, Global, FramesOf<S>>,
) -> Result<(), PortFault>
    requires { EndKeeps S.as_both session.old }
    ensures keeps { EndKeeps S.as_both session.new }
    ensures ring { SameProducer out.old out.new }
    ensures gives { OnOk result (HasGiven S.as_both S.cells S.is session.old session.new (given out.old) (given out.new)) }
    ensures all { OnOk result (HasNoMore session.new out.new) }
    ensures stops { IfErr result (λ why. HasStopped S.as_both S.cells S.is S.can_go why session.old) }
{
    while give_one(alloc, session, out)? {}
    Ok(())
}
