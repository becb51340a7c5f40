//! What an end of a connection makes of a frame from its ring.
ghost use Rattle.std.specs.Prelude.{◌≡◌, ◌⊎◌, IfErr, IfOk};
ghost use Rattle.dso_session.specs.declared.frame.Frame.{Frame};
ghost use Rattle.dso_session.specs.Ends.{after_frame};
ghost use Rattle.dso_port.specs.Ports.{HasCome, KeepsLate, LacksBefore, lifted};

use crate::arrival::Arrival;
use crate::carried::Carried;
use crate::fault::PortFault;
use dso_base::Both;
use dso_session::{Accepted, Frame, Session};

/// The clock from which on no entry is made.
pub const LIMIT: u64 = 1 << 28;

/// The frame with its message as one of either way.
fn lift<T: Carried>(frame: Frame<T>) -> Frame<Both>
    ensures { result ≡ lifted T.as_both frame }
{
    match frame {
        Frame::Carry {
            epoch,
            number,
            seen,
            clock,
            message,
        } => Frame::Carry {
            epoch,
            number,
            seen,
            clock,
            message: message.into_both(),
        },
        Frame::Hello { epoch, seen, clock } => Frame::Hello { epoch, seen, clock },
    }
}

/// What the end makes of a frame from the ring; a message at the limit is kept. It answers `Gap` where a message is
/// missing before the frame.
pub(crate) fn hear<T: Carried>(
    session: &mut Session<Both>,
    late: &mut Option<Frame<T>>,
    frame: Frame<T>,
) -> Result<Arrival<T>, PortFault>
    ensures come { IfOk result (λ told. HasCome T.as_both frame told session.old session.new) }
    ensures late { IfOk result (λ told. KeepsLate told late.old late.new) }
    ensures lacks { IfErr result (λ why. LacksBefore T.as_both frame why session.old) }
    ensures moved { (session.new ≡ session.old) ⊎ (session.new ≡ after_frame (lifted T.as_both frame) session.old) }
{
    if let Frame::Carry { clock, .. } = &frame {
        if *clock >= LIMIT {
            *late = Some(frame);
            return Ok(Arrival::Late);
        }
        if !session.is_ready() {
            return Ok(Arrival::Dropped);
        }
    }
    match session.accept(lift(frame)) {
        Accepted::Up(message, clock) => match T::out_of(message) {
            Some(message) => Ok(Arrival::Message(message, clock)),
            None => unreachable!(),
        },
        Accepted::Rejoined(_) => Ok(Arrival::Rejoined),
        Accepted::Again(_) | Accepted::OldConnection(_) => Ok(Arrival::Dropped),
        Accepted::Gap(_) => Err(PortFault::Gap),
    }
}
