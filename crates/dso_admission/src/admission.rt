//! Bytes and frames that a client sends, as the server admits them (`specs/Admissions.antt`).
ghost use Rattle.std.specs.Prelude.{◌+◌, ◌<◌, ◌^◌, ◌≡◌, ◌≤◌, IfOk, OnOk};
ghost use Rattle.dso_server.specs.Answering.{given_by};
ghost use Rattle.dso_session.specs.Ends.{after_frame};
ghost use Rattle.dso_wire.specs.Faults.{whole};
ghost use Rattle.dso_wire.specs.Reading.{up_frame_at};
ghost use Rattle.dso_admission.specs.Admissions.{CutsOff, IsRefusal, KeepsEnd, Leaves, TellsOf, TellsOfFrame, end_after, lifted};

use crate::admitted::Admitted;
use dso_base::{Both, Down, NoMemory, Up};
use dso_machine::Code;
use dso_server::Server;
use dso_session::{Accepted, Frame, Session};
use dso_wire::{WireFault, decode_up};
use std::alloc::Global;

/// The frame with its message as one of either way.
fn lift(frame: Frame<Up>) -> Frame<Both>
    ensures { result ≡ lifted frame }
{
    match frame {
        Frame::Carry {
            epoch,
            number,
            seen,
            clock,
            message,
        } => Frame::Carry {
            epoch,
            number,
            seen,
            clock,
            message: Both::Up(message),
        },
        Frame::Hello { epoch, seen, clock } => Frame::Hello { epoch, seen, clock },
    }
}

/// Loses the client, where it wasn't lost before.
fn cut_off(alloc: Global, server: &mut Server, client: u8) -> Result<Vec<(u8, Down)>, NoMemory>
    ensures cut { IfOk result (λ messages. CutsOff client messages.items server.old server.new) }
    ensures given { OnOk result (given_by server.new ≡ given_by server.old) }
{
    if server.is_lost(client) {
        return Ok(Vec::new(alloc));
    }
    let messages = server.lose(alloc, client)?;
    Ok(messages)
}

/// The bytes of the client are no frame, or an allocation was refused.
fn refuse(
    alloc: Global,
    server: &mut Server,
    client: u8,
    fault: WireFault,
) -> Result<(Admitted, Vec<(u8, Down)>), NoMemory>
    ensures told { IfOk result (λ answer. IsRefusal fault answer.0) }
    ensures stands { IfOk result (λ answer. CutsOff client answer.1.items server.old server.new) }
    ensures given { OnOk result (given_by server.new ≡ given_by server.old) }
{
    match fault {
        WireFault::NoMemory(refused) => Err(refused),
        fault => {
            let messages = cut_off(alloc, server, client)?;
            Ok((Admitted::BadBytes(fault), messages))
        }
    }
}

/// Admits a frame of a client of the cluster, whose code is that of [`Server::new`] and whose end of the connection this
/// is. Fewer than 2^54 batches of ids were given before.
///
/// It tells what the end answers the frame. It is `Took` exactly where the end gives the message up: it carries what
/// [`Server::take`] answers, the message and its sender's clock, and where the server has the stored body of each object
/// that the message names, that answer's word holds. It is `Gap` exactly where a message is missing before the frame:
/// the end is as before, and its client, where it wasn't lost before, is lost as by [`Server::lose`]; of a lost client
/// nothing is sent and nothing changes. With `Again`, `OldConnection` and `Rejoined` nothing is sent and the server is as
/// before. The end is what the frame makes of it: only `Took` and `Rejoined` change it.
///
/// It answers `NoMemory` where an allocation was refused; the server is spent then.
pub fn admit_frame(
    alloc: Global,
    code: &Code,
    server: &mut Server,
    session: &mut Session<Both>,
    client: u8,
    frame: Frame<Up>,
) -> Result<(Admitted, Vec<(u8, Down)>), NoMemory>
    requires { given_by server.old < 2 ^ 54 }
    ensures told { IfOk result (λ answer. TellsOfFrame frame session.old answer.0) }
    ensures after { session.new ≡ after_frame (lifted frame) session.old }
    ensures kept { IfOk result (λ answer. KeepsEnd answer.0 session.old session.new) }
    ensures stands { IfOk result (λ answer. Leaves code.now client answer.0 answer.1.items server.old server.new) }
    ensures given { OnOk result (given_by server.new ≤ given_by server.old + 1) }
{
    match session.accept(lift(frame)) {
        Accepted::Up(given_up, clock) => {
            let Both::Up(message) = given_up else {
                unreachable!()
            };
            let (taken, messages) = server.take(alloc, code, client, &message)?;
            Ok((Admitted::Took(taken, message, clock), messages))
        }
        Accepted::Gap(number) => {
            let messages = cut_off(alloc, server, client)?;
            Ok((Admitted::Gap(number), messages))
        }
        Accepted::Again(number) => Ok((Admitted::Again(number), Vec::new(alloc))),
        Accepted::OldConnection(epoch) => Ok((Admitted::OldConnection(epoch), Vec::new(alloc))),
        Accepted::Rejoined(number) => Ok((Admitted::Rejoined(number), Vec::new(alloc))),
    }
}

/// Admits the bytes of a client of the cluster, whose code is that of [`Server::new`] and whose end of the connection this
/// is. Fewer than 2^54 batches of ids were given before.
///
/// It is `BadBytes` exactly where the bytes are no frame that goes up, with the fault that [`decode_up`] answers: the end
/// is as before, and the client, where it wasn't lost before, is lost as by [`Server::lose`]; of a lost client nothing is
/// sent and nothing changes. Else it is what [`admit_frame`] tells of the frame.
///
/// It answers `NoMemory` where an allocation was refused; the server is spent then, and nothing is said of the end.
pub fn admit(
    alloc: Global,
    code: &Code,
    server: &mut Server,
    session: &mut Session<Both>,
    client: u8,
    bytes: &[u8],
) -> Result<(Admitted, Vec<(u8, Down)>), NoMemory>
    requires { given_by server.old < 2 ^ 54 }
    ensures told { IfOk result (λ answer. TellsOf (whole up_frame_at bytes.now) session.old answer.0) }
    ensures after { OnOk result (session.new ≡ end_after (whole up_frame_at bytes.now) session.old) }
    ensures kept { IfOk result (λ answer. KeepsEnd answer.0 session.old session.new) }
    ensures stands { IfOk result (λ answer. Leaves code.now client answer.0 answer.1.items server.old server.new) }
    ensures given { OnOk result (given_by server.new ≤ given_by server.old + 1) }
{
    match decode_up(alloc, bytes) {
        Ok(frame) => admit_frame(alloc, code, server, session, client, frame),
        Err(fault) => {
            let refusal = refuse(alloc, server, client, fault)?;
            Ok(refusal)
        }
    }
}
