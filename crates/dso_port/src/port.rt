//! One end of a client's connection, with its ends of the two rings.
ghost use Rattle.std.specs.Prelude.{◌≡◌, ◌+◌, ◌<◌, ◌^◌, IfErr, IfOk, None, OnOk, is_some};
ghost use Rattle.dso_session.specs.Ends.{broken, posted, sent_count};
ghost use Rattle.dso_port.specs.Ports.{AreTogether, EndKeeps, HasFailed, HasGiven, HasLooked, HasNoMore, HasStopped, HasTaken, KeepsLate, KnowEachOther, SameRings, all_posted, given};

use crate::arrival::Arrival;
use crate::carried::{Carried, FramesOf};
use crate::fault::PortFault;
use crate::gift::give_all;
use crate::heard::hear;
use dso_base::{Both, NoMemory};
use dso_session::{Frame, Session};
use rtrb::{Consumer, Producer};
use std::alloc::Global;
use std::marker::Model;

/// One end of a client's connection: it gives the frames of its session to one ring, and takes those of the other end
/// from another.
///
/// Contracts see what it has (`PortState`), and that its end of the connection keeps messages of its own way alone
/// (`EndKeeps`).
#[derive(Drop)]
pub struct Port<S: Carried, T: Carried> {
    session: Session<Both>,
    out: Producer<Vec<u8>, Global, FramesOf<S>>,
    into: Consumer<Vec<u8>, Global, FramesOf<T>>,
    /// A message at the limit, which was taken from the ring and makes no entry.
    late: Option<Frame<T>>,
}

impl<S: Carried, T: Carried> Model for Port<S, T> {
    ghost use Rattle.dso_port.specs.Ports.{EndKeeps, PortState};

    ghost Value = { PortState S T };

    ghost view = { λ port. record { session = port.session; out = port.out; into = port.into; late = port.late } };

    ghost invariant = { λ port. EndKeeps S.as_both port.session };
}

impl<S: Carried, T: Carried> Port<S, T> {
    /// The end with these parts, which took no message at the limit.
    pub(crate) fn of(
        session: Session<Both>,
        out: Producer<Vec<u8>, Global, FramesOf<S>>,
        into: Consumer<Vec<u8>, Global, FramesOf<T>>,
    ) -> Port<S, T>
        requires { EndKeeps S.as_both session }
        ensures { result ≡ record { session = session; out = out; into = into; late = None } }
    {
        Port {
            session,
            out,
            into,
            late: None,
        }
    }

    /// The number of the last message that was given up here. It takes no memory.
    pub fn accepted(&self) -> u64
        ensures { result ≡ self.now.session.accepted }
    {
        self.session.accepted()
    }

    /// How often the connection broke, as far as this end knows. It takes no memory.
    pub fn epoch(&self) -> u32
        ensures { result ≡ self.now.session.epoch }
    {
        self.session.epoch()
    }

    /// Whether messages may go to the ring. It takes no memory.
    pub fn is_ready(&self) -> bool
        ensures { result ≡ self.now.session.is_ready }
    {
        self.session.is_ready()
    }

    /// How many messages were sent. It takes no memory.
    pub fn sent(&self) -> u64
        ensures { result ≡ sent_count self.now.session }
    {
        self.session.sent()
    }

    /// Whether a message at the limit was taken. It takes no memory.
    pub fn is_late(&self) -> bool
        ensures { result ≡ is_some self.now.late }
    {
        self.late.is_some()
    }

    /// The connection broke, as the server knows: nothing but a Hello goes until the client has answered that. It
    /// takes no memory.
    pub fn break_now(&mut self)
        requires { self.old.session.epoch + 1 < 2 ^ 32 }
        ensures { self.new ≡ record self.old { session = broken self.old.session } }
    {
        self.session.break_now();
    }

    /// Both ends of a connection learn all that is in their rings. It takes no memory.
    pub fn meet(&mut self, other: &mut Port<T, S>)
        requires { AreTogether self.old other.old }
        ensures know { KnowEachOther self.new other.new }
        ensures own { HasLooked self.old self.new }
        ensures others { HasLooked other.old other.new }
    {
        other.into.slots_beside(&mut self.out);
        self.into.slots_beside(&mut other.out);
    }

    /// Frames go to the ring, as many as are due and places are known to be free. It answers `NoMemory` where an
    /// allocation was refused, and `NoBytes` where a frame comes that has none; nothing is said of what went to the
    /// ring then.
    pub fn give(&mut self, alloc: Global) -> Result<(), PortFault>
        ensures rings { SameRings self.old self.new }
        ensures into { self.new.into ≡ self.old.into }
        ensures late { self.new.late ≡ self.old.late }
        ensures gives { OnOk result (HasGiven S.as_both S.cells S.is self.old.session self.new.session (given self.old.out) (given self.new.out)) }
        ensures all { OnOk result (HasNoMore self.new.session self.new.out) }
        ensures stops { IfErr result (λ why. HasStopped S.as_both S.cells S.is S.can_go why self.old.session) }
    {
        give_all(alloc, &mut self.session, &mut self.out)
    }

    /// Takes a frame from the ring, where one is known to be there. It answers `NoMemory` where an allocation was
    /// refused, and `Gap` where a message is missing before the frame.
    #[tactic(auto, using(crate::proofs::ends::Taken::keeps_moved))]
    pub fn take(&mut self, alloc: Global) -> Result<Arrival<T>, PortFault>
        ensures taken { IfOk result (λ told. HasTaken T.as_both T.cells T.is told self.old self.new) }
        ensures late { IfOk result (λ told. KeepsLate told self.old.late self.new.late) }
        ensures fails { IfErr result (λ why. HasFailed T.as_both T.cells T.is why self.old self.new) }
        ensures rings { SameRings self.old self.new }
        ensures out { self.new.out ≡ self.old.out }
    {
        let Ok(item) = self.into.pop() else {
            return Ok(Arrival::Nothing);
        };
        let frame = T::decode(alloc, item.as_slice())?;
        hear(&mut self.session, &mut self.late, frame)
    }

    /// Sends a message, with the clock of its entry. It answers `NoMemory` where an allocation was refused.
    pub fn send(&mut self, message: S, clock: u64) -> Result<(), NoMemory>
        requires { self.old.session.seen < 2 ^ 63 }
        ensures sent { OnOk result (self.new.session ≡ posted (S.as_both message) clock self.old.session) }
        ensures out { self.new.out ≡ self.old.out }
        ensures into { self.new.into ≡ self.old.into }
        ensures late { self.new.late ≡ self.old.late }
    {
        self.session.send(message.into_both(), clock)?;
        Ok(())
    }

    /// Sends these messages, the first of them first, each with the clock of their entry. It answers `NoMemory` where
    /// an allocation was refused.
    pub fn send_all(&mut self, messages: &[S], clock: u64) -> Result<(), NoMemory>
        requires { self.old.session.seen < 2 ^ 63 }
        ensures sent { OnOk result (self.new.session ≡ all_posted S.as_both clock messages.now self.old.session) }
        ensures out { self.new.out ≡ self.old.out }
        ensures into { self.new.into ≡ self.old.into }
        ensures late { self.new.late ≡ self.old.late }
    {
        for message in messages {
            self.send(message.clone()?, clock)?;
        }
        Ok(())
    }
}
