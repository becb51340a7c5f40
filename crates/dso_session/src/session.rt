//! One end of a connection (`specs/Ends.antt`).
ghost use Rattle.std.specs.Prelude.{ℕ, ◌+◌, ◌-◌, ◌<◌, ◌≤◌, ◌^◌, ◌≡◌, ◌++◌, drop, length, IfErr, IfOk, List, OnErr, OnOk, true};
ghost use Rattle.dso_session.specs.Ends.{IsInOrder, opened, posted, next_frame, behind_frame, answer, answer_hello, after_frame, broken, forgotten, is_new, left_behind, sent_count};
ghost use Rattle.dso_session.specs.Laws.{HasSent};
ghost use Rattle.dso_session.specs.declared.session.Posted.{Posted};
ghost use Rattle.dso_session.specs.declared.frame.Frame.TheVariants.{Hello};
ghost use Rattle.dso_session.specs.declared.session.Role.TheVariants as role;

use crate::frame::{Accepted, Frame};
use dso_base::{Data, NoMemory};
use std::alloc::{AllocFailed, Global};
use std::collections::VecDeque;
use std::marker::Model;

/// Which end of the connection it is.
#[derive(Clone, Copy, Debug, PartialEq, Eq)]
pub enum Role {
    Server,
    Client,
}

/// A message that was sent, with its sender's clock.
#[derive(Debug, Drop)]
pub struct Posted<M> {
    pub message: M,
    pub clock: u64,
}

/// One end of a connection, which numbers the messages that it sends from 1 on and keeps each until the other end has seen it.
///
/// Contracts see what it keeps (`End`). Each call costs a step, but for those that drop messages that were seen, which costs a
/// step for each of these.
#[derive(Drop)]
pub struct Session<M> {
    role: Role,
    epoch: u32,
    is_ready: bool,
    owes_hello: bool,
    accepted: u64,
    seen: u64,
    given: u64,
    kept: VecDeque<Posted<M>>,
    clock: u64,
}

/// The items behind so many.
fn behind<T>(items: &[T], count: usize) -> &[T]
    ensures { result.now ≡ drop count items.now }
{
    let len = items.len();
    if count < len {
        &items[count..]
    } else {
        &items[len..]
    }
}

impl<M> Model for Session<M> {
    ghost use Rattle.dso_session.specs.Ends.{End, IsInOrder};

    ghost Value = { End M };

    ghost view = { λ s. record { role = s.role; epoch = s.epoch; is_ready = s.is_ready; owes_hello = s.owes_hello; accepted = s.accepted; seen = s.seen; given = s.given; kept = s.kept.items; clock = s.clock } };

    ghost invariant = { λ s. IsInOrder (record { role = s.role; epoch = s.epoch; is_ready = s.is_ready; owes_hello = s.owes_hello; accepted = s.accepted; seen = s.seen; given = s.given; kept = s.kept.items; clock = s.clock }) };
}

impl<M: Drop> Session<M> {
    /// The server's end, at first: ready, in epoch 0, with nothing sent or accepted.
    pub fn server(alloc: Global) -> Session<M>
        ensures { result ≡ opened role.Server }
    {
        Session::of(Role::Server, alloc)
    }

    /// The client's end, at first: ready, in epoch 0, with nothing sent or accepted.
    pub fn client(alloc: Global) -> Session<M>
        ensures { result ≡ opened role.Client }
    {
        Session::of(Role::Client, alloc)
    }

    fn of(role: Role, alloc: Global) -> Session<M>
        ensures { result ≡ opened role }
    {
        Session {
            role,
            epoch: 0,
            is_ready: true,
            owes_hello: false,
            accepted: 0,
            seen: 0,
            given: 0,
            kept: VecDeque::new(alloc),
            clock: 0,
        }
    }

    /// Numbers the message and keeps it until the other end has seen it. Fewer than 2^63 messages were seen there; so many
    /// more are never kept. Where an allocation was refused the refusal holds the message, and the session is as before.
    pub fn send(&mut self, message: M, clock: u64) -> Result<(), AllocFailed<M>>
        requires { self.old.seen < 2 ^ 63 }
        ensures ok { OnOk result (self.new ≡ posted message clock self.old) }
        ensures err { OnErr result (self.new ≡ self.old) }
        ensures given_back { IfErr result (λ back. back.value ≡ message) }
        ensures order { IsInOrder self.new }
    {
        match self.kept.push_back(Posted { message, clock }) {
            Ok(()) => {
                self.clock = clock;
                Ok(())
            }
            Err(refused) => Err(AllocFailed {
                value: refused.value.message,
            }),
        }
    }

    /// Whether messages may go to the channel. It takes no memory.
    pub fn is_ready(&self) -> bool
        ensures { result ≡ self.now.is_ready }
    {
        self.is_ready
    }

    /// How often the connection broke, as far as this end knows. It takes no memory.
    pub fn epoch(&self) -> u32
        ensures { result ≡ self.now.epoch }
    {
        self.epoch
    }

    /// The number of the last message that was given up here. It takes no memory.
    pub fn accepted(&self) -> u64
        ensures { result ≡ self.now.accepted }
    {
        self.accepted
    }

    /// How many messages were sent. It takes no memory.
    pub fn sent(&self) -> u64
        ensures { result ≡ sent_count self.now }
    {
        self.seen + self.kept.len() as u64
    }

    /// The messages that are kept and have greater numbers than this one, in order and in two parts: those of the second part
    /// come behind those of the first. Where the other end has accepted so many, and no fewer than are known here to be seen
    /// there, these are the messages that were sent and aren't accepted yet. It takes no memory.
    pub fn left(&self, accepted: u64) -> (&[Posted<M>], &[Posted<M>])
        ensures kept { result.0.now ++ result.1.now ≡ left_behind accepted self.now }
        ensures sent { (sent : List (Posted M)) → HasSent sent self.now → self.now.seen ≤ accepted → result.0.now ++ result.1.now ≡ drop accepted sent }
    {
        let passed = accepted.saturating_sub(self.seen) as usize;
        let (first, second) = self.kept.as_slices();
        let more = passed.saturating_sub(first.len());
        (behind(first, passed), behind(second, more))
    }

    /// Drops the messages that the other end has seen.
    fn forget(&mut self, seen: u64)
        requires { seen ≤ sent_count self.old }
        ensures { self.new ≡ forgotten seen self.old }
    {
        if self.seen < seen {
            self.kept.drain(..(seen - self.seen) as usize);
            self.seen = seen;
        }
        if self.given < seen {
            self.given = seen;
        }
    }

    /// Takes a frame of the other end. It answers the first of these that holds: of a message `OldConnection` where the frame is
    /// of another epoch, `Again` where its number was accepted before, `Gap` where a message is missing before it or where more
    /// was seen than was sent, and else `Up`; of a `Hello` `OldConnection` where it is not of a connection that begins anew,
    /// `Gap` where more was seen than was sent or less than was seen before, and else `Rejoined`. Only `Up` and `Rejoined` change
    /// something. It takes no memory.
    pub fn accept(&mut self, frame: Frame<M>) -> Accepted<M>
        ensures answer { result ≡ answer frame self.old }
        ensures after { self.new ≡ after_frame frame self.old }
    {
        match frame {
            Frame::Carry {
                epoch,
                number,
                seen,
                clock,
                message,
            } => {
                if epoch != self.epoch {
                    Accepted::OldConnection(epoch)
                } else if number <= self.accepted {
                    Accepted::Again(number)
                } else if number - self.accepted > 1 || seen > self.sent() {
                    Accepted::Gap(number)
                } else {
                    self.forget(seen);
                    self.accepted = number;
                    Accepted::Up(message, clock)
                }
            }
            Frame::Hello { epoch, seen, .. } => self.rejoin(epoch, seen),
        }
    }

    /// Whether the connection begins anew with this epoch.
    fn is_new(&self, epoch: u32) -> bool
        ensures { result ≡ is_new epoch self.now self.now.role }
    {
        match self.role {
            Role::Client => epoch > self.epoch,
            Role::Server => epoch == self.epoch && !self.is_ready,
        }
    }

    fn rejoin(&mut self, epoch: u32, seen: u64) -> Accepted<M>
        ensures answer { result ≡ answer_hello epoch seen self.old }
        ensures after { (clock : ℕ) → self.new ≡ after_frame (Hello epoch seen clock) self.old }
    {
        if !self.is_new(epoch) {
            Accepted::OldConnection(epoch)
        } else if seen > self.sent() || seen < self.seen {
            Accepted::Gap(seen)
        } else {
            self.forget(seen);
            self.epoch = epoch;
            self.is_ready = true;
            self.owes_hello = self.owes_hello || self.role == Role::Client;
            self.given = seen;
            Accepted::Rejoined(seen)
        }
    }

    /// The connection broke, as the server knows: its epoch rises, and nothing but a `Hello` goes until the client has answered
    /// that. It takes no memory.
    pub fn break_now(&mut self)
        requires { self.old.epoch + 1 < 2 ^ 32 }
        ensures { self.new ≡ broken self.old }
    {
        self.epoch += 1;
        self.is_ready = false;
        self.owes_hello = true;
    }
}

impl<M: Data + Drop> Session<M> {
    /// The next frame for the channel; None exactly where no `Hello` is due and the end isn't ready or all went. It answers
    /// `NoMemory` where an allocation was refused, and the session is as before then.
    pub fn next_frame(&mut self) -> Result<Option<Frame<M>>, NoMemory>
        ensures frame { IfOk result (λ frame. frame ≡ next_frame self.old) }
        ensures behind { OnOk result (self.new ≡ behind_frame self.old) }
        ensures err { OnErr result (self.new ≡ self.old) }
    {
        if self.owes_hello {
            self.owes_hello = false;
            return Ok(Some(Frame::Hello {
                epoch: self.epoch,
                seen: self.accepted,
                clock: self.clock,
            }));
        }
        if !self.is_ready {
            return Ok(None);
        }
        let Some(posted) = self.kept.get((self.given - self.seen) as usize) else {
            return Ok(None);
        };
        let message = posted.message.clone()?;
        let clock = posted.clock;
        self.given += 1;
        Ok(Some(Frame::Carry {
            epoch: self.epoch,
            number: self.given,
            seen: self.accepted,
            clock,
            message,
        }))
    }
}
