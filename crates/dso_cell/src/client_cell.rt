//! A client's cell (`specs/ClientCells.antt`).
ghost use Rattle.std.specs.Prelude.{◌≡◌, ◌⊎◌, ◌<◌, ◌≤◌, ◌+◌, ◌-◌, ◌^◌, ◌↔◌, [], ◌∷◌, IfOk, IsTrue, None, OnErr, OnOk, false, is_some, map, min, sum_by, true};
ghost use Rattle.std.specs.Result.{is_err};
ghost use Rattle.dso_base.specs.Weight.{entry_weight_of};
ghost use Rattle.dso_base.specs.declared.message.Up.TheVariants as up;
ghost use Rattle.dso_client.specs.ObjectFlushes.{NoneDue};
ghost use Rattle.dso_machine.specs.declared.code.Code.{Code};
ghost use Rattle.dso_base.specs.declared.journal.Sent.TheVariants as sent;
ghost use Rattle.dso_log.specs.Logs.{last_clock, next_clock};
ghost use Rattle.dso_machine.specs.Sound.{IsSoundCode};
ghost use Rattle.dso_session.specs.Ends.{sent_count};
ghost use Rattle.dso_cell.specs.ClientCells.{CanAct, CannotAct, ClientBounds, GoesOn, HasNothingToDo, IsAhead, IsAtLimit, IsOneMore, LooksInVain};
ghost use Rattle.dso_cell.specs.Meetings.{client_log_of};
ghost use Rattle.dso_cell.specs.ClientSteps.{HasHeard, HasRejoined, HasSaid, MayAdd};

use crate::limits::{MOST_AHEAD, MOST_SENT};
use crate::made::Made;
use crate::refusal::refusal_of;
use dso_base::{Down, NoMemory, Sent, Shared, Up};
use dso_client::laws::rejoins_change_nothing;
use dso_client::{Acted, Client};
use dso_log::NodeLog;
use dso_machine::Code;
use dso_port::{Arrival, LIMIT, Port, PortFault};
use std::alloc::Global;

/// A client's cell: its core with its log and its end of its connection.
///
/// Contracts see its parts. What they say of each other stands in `ClientCellStands`, whatever the log is.
#[derive(Drop)]
pub struct ClientCell {
    pub(crate) number: u8,
    /// What spent it, if anything did.
    pub(crate) spent: Option<NoMemory>,
    pub(crate) core: Client,
    pub(crate) log: NodeLog,
    pub(crate) rejoins: u32,
    pub(crate) port: Port<Up, Down>,
}

/// These messages, as an entry sends them.
fn to_server(alloc: Global, messages: Vec<Up>) -> Result<Vec<Sent>, NoMemory>
    ensures { IfOk result (λ made. made.items ≡ map sent.ToServer messages.items) }
{
    let mut sent = Vec::with_capacity(alloc, messages.len())?;
    for message in messages {
        sent.push(Sent::ToServer(message))?;
    }
    Ok(sent)
}

/// The message that tells of a flush, alone.
fn flushed_alone(alloc: Global, object: u64) -> Result<Vec<Up>, NoMemory>
    ensures { IfOk result (λ messages. messages.items ≡ up.Flushed object ∷ []) }
{
    let mut messages = Vec::new(alloc);
    messages.push(Up::Flushed(object))?;
    Ok(messages)
}

impl ClientCell {
    /// The number of its client. It takes no memory.
    pub fn number(&self) -> u8
        ensures { result ≡ self.now.number }
    {
        self.number
    }

    /// Whether the cell is spent. It takes no memory.
    pub fn is_spent(&self) -> bool
        ensures { result ≡ is_some self.now.spent }
    {
        self.spent.is_some()
    }

    /// What the entries of its log weigh together, and 2^64 - 1 where that is more. It takes no memory.
    pub fn weight(&self) -> u64
        ensures { result ≡ min (sum_by entry_weight_of self.now.log.entries) (2 ^ 64 - 1) }
    {
        self.log.weight()
    }

    /// The log of the cell. It takes no memory.
    pub fn into_log(self) -> NodeLog
        ensures { result ≡ client_log_of self }
    {
        self.log
    }

    /// Whether the cell adds no entry any more.
    fn is_at_limit(&self) -> bool
        ensures { IsTrue result ↔ IsAtLimit self.now }
    {
        self.log.last_clock() >= LIMIT || self.port.is_late() || self.port.sent() >= MOST_SENT
    }

    /// Whether its client is ahead of the server: [`MOST_AHEAD`] records or more were sent behind one that isn't
    /// acknowledged. It takes no memory.
    #[tactic(auto, using(crate::proofs::locked::Ahead::ahead_by_first, crate::proofs::locked::Ahead::not_ahead))]
    pub(crate) fn is_ahead(&self) -> bool
        ensures { IsTrue result ↔ IsAhead self.now.core }
    {
        match self.core.first_unacknowledged() {
            Some(first) => self.core.sent().saturating_sub(first) >= MOST_AHEAD,
            None => false,
        }
    }

    /// Logs an entry, and sends its messages.
    fn say(&mut self, alloc: Global, made: Made, messages: Vec<Up>) -> Result<(), NoMemory>
        requires room { self.old.log.has_room ≡ true }
        requires clock { next_clock made.heard self.old.log < 2 ^ 64 }
        requires seen { self.old.port.session.seen < 2 ^ 63 }
        ensures said { OnOk result (HasSaid made messages.items self.old.log self.new.log self.old.port self.new.port) }
        ensures number { self.new.number ≡ self.old.number }
        ensures whole { self.new.spent ≡ self.old.spent }
        ensures core { self.new.core ≡ self.old.core }
        ensures rejoins { self.new.rejoins ≡ self.old.rejoins }
    {
        let clock = self.log.last_clock().max(made.heard) + 1;
        self.port.send_all(messages.as_slice(), clock)?;
        let sent = to_server(alloc, messages)?;
        self.log.add(made.heard, made.input, sent, made.event);
        Ok(())
    }

    /// The thread of this index acts, where it can; whether it did.
    #[tactic(auto, using(crate::proofs::standing::Steps::event_goes_on, crate::proofs::standing::Steps::asked_goes_on, crate::proofs::standing::Bounds::bounds_said, crate::proofs::standing::Bounds::holds_weaker))]
    fn act(&mut self, alloc: Global, code: &Code, index: u8) -> Result<bool, NoMemory>
        requires sound { IsSoundCode code.now }
        requires may { MayAdd code.now self.old }
        ensures bounds { OnOk result (ClientBounds code.now self.new) }
        ensures stands { OnOk result (GoesOn code.now self.old self.new) }
        ensures more { IfOk result (λ added. IsOneMore added self.old.log.entries self.new.log.entries) }
        ensures idle { IfOk result (λ added. added ≡ false → CannotAct code.now index self.old.core) }
        ensures acts { IfOk result (λ added. added ≡ true → CanAct code.now index self.old.core self.new.core) }
        ensures number { self.new.number ≡ self.old.number }
        ensures whole { self.new.spent ≡ self.old.spent }
    {
        let (acted, messages) = self.core.act(alloc, code, index)?;
        match acted {
            Acted::Event(event) => {
                let event = Shared::new(alloc, event)?;
                self.say(alloc, Made::of_act(index, Some(event)), messages)?;
                Ok(true)
            }
            Acted::Asked => {
                self.say(alloc, Made::of_act(index, None), messages)?;
                Ok(true)
            }
            Acted::Blocked(_) | Acted::Over => Ok(false),
        }
    }

    /// The core takes a message.
    #[tactic(auto, using(crate::proofs::standing::Bounds::bounds_said, crate::proofs::standing::Bounds::holds_weaker))]
    fn hear(
        &mut self,
        alloc: Global,
        code: &Code,
        message: Down,
        heard: u64,
    ) -> Result<(), NoMemory>
        requires may { MayAdd code.now self.old }
        requires low { heard < 2 ^ 28 }
        ensures bounds { OnOk result (ClientBounds code.now self.new) }
        ensures heard { OnOk result (HasHeard code.now message heard self.old self.new) }
        ensures number { self.new.number ≡ self.old.number }
        ensures whole { self.new.spent ≡ self.old.spent }
    {
        let messages = self.core.take(alloc, code, &message)?;
        self.say(alloc, Made::of_message(message, heard), messages)?;
        Ok(())
    }

    /// The connection is taken up again.
    #[tactic(auto, using(crate::proofs::standing::Bounds::bounds_said, crate::proofs::standing::Bounds::holds_weaker))]
    fn rejoin(&mut self, alloc: Global) -> Result<(), NoMemory>
        requires may { (code : Code) × MayAdd code self.old }
        ensures bounds { OnOk result ((code : Code) → MayAdd code self.old → ClientBounds code self.new) }
        ensures rejoined { OnOk result (HasRejoined self.old self.new) }
        ensures number { self.new.number ≡ self.old.number }
        ensures whole { self.new.spent ≡ self.old.spent }
    {
        self.rejoins += 1;
        self.say(alloc, Made::of_rejoin(self.number), Vec::new(alloc))?;
        Ok(())
    }

    /// An object is flushed, where one is to be; whether one was.
    #[tactic(auto, using(crate::proofs::standing::Steps::flush_goes_on, crate::proofs::standing::Bounds::bounds_said, crate::proofs::standing::Bounds::holds_weaker))]
    fn flush(&mut self, alloc: Global) -> Result<bool, NoMemory>
        requires may { (code : Code) × MayAdd code self.old }
        ensures bounds { OnOk result ((code : Code) → MayAdd code self.old → ClientBounds code self.new) }
        ensures stands { OnOk result ((code : Code) → GoesOn code self.old self.new) }
        ensures more { IfOk result (λ added. IsOneMore added self.old.log.entries self.new.log.entries) }
        ensures idle { IfOk result (λ added. added ≡ false → (self.new ≡ self.old) × NoneDue self.new.core) }
        ensures number { self.new.number ≡ self.old.number }
        ensures whole { self.new.spent ≡ self.old.spent }
    {
        match self.core.flush() {
            Some(object) => {
                let messages = flushed_alone(alloc, object)?;
                self.say(alloc, Made::of_flush(object), messages)?;
                Ok(true)
            }
            None => Ok(false),
        }
    }

    /// A frame is taken, or else an object flushed; whether an entry was added.
    #[tactic(auto, using(crate::proofs::standing::Steps::hear_goes_on, crate::proofs::standing::Steps::rejoin_goes_on, crate::proofs::standing::Steps::stay_goes_on, dso_line::proofs::standing::Clients::client_dropped, dso_line::proofs::standing::Clients::client_unmoved, crate::proofs::standing::Cells::goes_through))]
    fn take(&mut self, alloc: Global, code: &Code) -> Result<bool, PortFault>
        requires may { MayAdd code.now self.old }
        ensures bounds { OnOk result (ClientBounds code.now self.new) }
        ensures stands { OnOk result (GoesOn code.now self.old self.new) }
        ensures more { IfOk result (λ added. IsOneMore added self.old.log.entries self.new.log.entries) }
        ensures idle { IfOk result (λ added. added ≡ false → IsAtLimit self.new ⊎ (LooksInVain self.old self.new × NoneDue self.new.core)) }
        ensures number { self.new.number ≡ self.old.number }
        ensures whole { self.new.spent ≡ self.old.spent }
    {
        match self.port.take(alloc)? {
            Arrival::Message(message, heard) => {
                self.hear(alloc, code, message, heard)?;
                Ok(true)
            }
            Arrival::Rejoined => {
                rejoins_change_nothing();
                self.rejoin(alloc)?;
                Ok(true)
            }
            Arrival::Late => Ok(false),
            Arrival::Nothing | Arrival::Dropped => Ok(self.flush(alloc)?),
        }
    }

    /// A frame is taken, or else an object flushed; and frames go to the ring. Whether an entry was added.
    #[tactic(auto, using(crate::proofs::standing::Steps::stay_goes_on, dso_line::proofs::standing::Clients::client_given, crate::proofs::standing::Cells::goes_through))]
    fn pump(&mut self, alloc: Global, code: &Code) -> Result<bool, PortFault>
        requires may { MayAdd code.now self.old }
        ensures bounds { OnOk result (ClientBounds code.now self.new) }
        ensures stands { OnOk result (GoesOn code.now self.old self.new) }
        ensures more { IfOk result (λ added. IsOneMore added self.old.log.entries self.new.log.entries) }
        ensures idle { IfOk result (λ added. added ≡ false → IsAtLimit self.new ⊎ HasNothingToDo self.old self.new) }
        ensures number { self.new.number ≡ self.old.number }
        ensures whole { self.new.spent ≡ self.old.spent }
    {
        let added = self.take(alloc, code)?;
        self.port.give(alloc)?;
        Ok(added)
    }

    /// A turn of a cell that isn't spent.
    #[tactic(auto, using(crate::proofs::standing::Cells::goes_through))]
    fn step(&mut self, alloc: Global, code: &Code, worker: u8) -> Result<bool, PortFault>
        requires sound { IsSoundCode code.now }
        requires bounds { ClientBounds code.now self.old }
        ensures bounds { OnOk result (ClientBounds code.now self.new) }
        ensures stands { OnOk result (GoesOn code.now self.old self.new) }
        ensures more { IfOk result (λ added. IsOneMore added self.old.log.entries self.new.log.entries) }
        ensures at_limit { IfOk result (λ added. IsAtLimit self.old → added ≡ false) }
        ensures acted { IfOk result (λ added. 1 ≤ worker → added ≡ false → IsAtLimit self.old ⊎ CannotAct code.now worker self.old.core) }
        ensures may_act { IfOk result (λ added. 1 ≤ worker → added ≡ true → CanAct code.now worker self.old.core self.new.core) }
        ensures pumped { IfOk result (λ added. worker ≡ 0 → added ≡ false → IsAtLimit self.new ⊎ HasNothingToDo self.old self.new) }
        ensures number { self.new.number ≡ self.old.number }
        ensures whole { self.new.spent ≡ self.old.spent }
    {
        if self.is_at_limit() {
            return Ok(false);
        }
        self.log.reserve()?;
        if worker == 0 {
            self.pump(alloc, code)
        } else {
            Ok(self.act(alloc, code, worker)?)
        }
    }

    /// The cell is spent from now on, by this.
    fn spend(&mut self, fault: PortFault) -> NoMemory
        ensures spent { is_some self.new.spent ≡ true }
        ensures number { self.new.number ≡ self.old.number }
    {
        let refused = refusal_of(fault);
        self.spent = Some(refused);
        refused
    }

    /// A turn. With a worker from 1 on the thread of that index acts, where it can. With 0 a frame is taken from the
    /// ring, or else an object flushed, where one is to be; and frames go to the ring while places are known to be
    /// free. True exactly where an entry was added, and never where the cell was at its limit.
    ///
    /// With a worker from 1 on it is false exactly where the cell was at its limit or the thread is blocked or over, and
    /// true exactly where the thread acted or asked; with 0 it is false only where the cell is at its limit or has
    /// nothing to do that it knows of. It answers `NoMemory` where an
    /// allocation was refused, or where a frame came from the ring before which a message is missing, or one is due
    /// that has no bytes; no run has such a frame. The cell is spent then: each turn of it answers `NoMemory`, and
    /// changes nothing.
    pub fn turn(&mut self, alloc: Global, code: &Code, worker: u8) -> Result<bool, NoMemory>
        requires sound { IsSoundCode code.now }
        requires bounds { self.old.spent ≡ None → ClientBounds code.now self.old }
        ensures bounds { OnOk result (ClientBounds code.now self.new) }
        ensures stands { OnOk result (GoesOn code.now self.old self.new) }
        ensures more { IfOk result (λ added. IsOneMore added self.old.log.entries self.new.log.entries) }
        ensures at_limit { IfOk result (λ added. IsAtLimit self.old → added ≡ false) }
        ensures acted { IfOk result (λ added. 1 ≤ worker → added ≡ false → IsAtLimit self.old ⊎ CannotAct code.now worker self.old.core) }
        ensures may_act { IfOk result (λ added. 1 ≤ worker → added ≡ true → CanAct code.now worker self.old.core self.new.core) }
        ensures pumped { IfOk result (λ added. worker ≡ 0 → added ≡ false → IsAtLimit self.new ⊎ HasNothingToDo self.old self.new) }
        ensures number { self.new.number ≡ self.old.number }
        ensures whole { OnOk result (self.new.spent ≡ None) }
        ensures spent { OnErr result (is_some self.new.spent ≡ true) }
        ensures refused { is_some self.old.spent ≡ true → (is_err result ≡ true) × (self.new ≡ self.old) }
    {
        if let Some(refused) = self.spent {
            return Err(refused);
        }
        match self.step(alloc, code, worker) {
            Ok(added) => Ok(added),
            Err(fault) => Err(self.spend(fault)),
        }
    }
}
