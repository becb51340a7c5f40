//! The server's cell (`specs/ServerCells.antt`).
ghost use Rattle.std.specs.Prelude.{ℕ, ◌≡◌, ◌⊎◌, ◌<◌, ◌≤◌, ◌+◌, ◌-◌, ◌^◌, ◌↔◌, [], ◌∷◌, IfNone, IfOk, IfSome, IsTrue, None, OnErr, OnOk, Some, false, is_some, length, min, sum_by, true};
ghost use Rattle.std.specs.Result.{is_err};
ghost use Rattle.dso_base.specs.Weight.{entry_weight_of};
ghost use Rattle.dso_base.specs.declared.journal.Input.TheVariants as input;
ghost use Rattle.dso_log.specs.Logs.{next_clock};
ghost use Rattle.dso_server.specs.Sending.{sent_of};
ghost use Rattle.dso_cell.specs.ClientCells.{IsOneMore};
ghost use Rattle.dso_cell.specs.Meetings.{AreTogetherWith, CellsLooked, KnowAllWith, ServerLooked, server_log_of};
ghost use Rattle.dso_cell.specs.Pairs.{HasNoEnd, IsPairAt};
ghost use Rattle.dso_cell.specs.ServerCells.{AreServed, IsServerAtLimit, ServerBounds, ServerGoesOn};
ghost use Rattle.dso_cell.specs.ServerEnds.{HaveRoom, IsAnyLate};
ghost use Rattle.dso_cell.specs.ServerSteps.{HaveNoneDue, IsFirstDue, IsOneDue, LookedInVain, ServerHasBroken, ServerHasHeard, ServerHasLost, ServerHasSaid, ServerMayAdd, ServerMayLog, server_made};

use crate::due::{Due, Mishap, first_due};
use crate::made::Made;
use crate::meeting::meet_lists;
use crate::refusal::refusal_of;
use crate::server_end::ServerEnd;
use crate::server_ends::{Found, News, break_end, first_news, give_all, is_any_at_limit, tell};
use crate::{ClientCell, ClientPair};
use dso_base::{Down, Input, NoMemory, Sent, Up};
use dso_log::NodeLog;
use dso_machine::Code;
use dso_port::{LIMIT, PortFault};
use dso_server::Server;
use std::alloc::Global;

/// The server's cell: its core with its log and its ends of all connections.
///
/// Contracts see its parts. What they say of each other stands in `ServerCellStands`, whatever the log is.
#[derive(Drop)]
pub struct ServerCell {
    /// What spent it, if anything did.
    pub(crate) spent: Option<NoMemory>,
    pub(crate) core: Server,
    pub(crate) log: NodeLog,
    /// By rising client, from 1 on.
    pub(crate) ends: Vec<ServerEnd>,
    /// The place of the client that is heard first.
    pub(crate) next: usize,
}

/// A message that came up.
#[derive(Drop)]
struct Incoming {
    client: u8,
    message: Up,
    heard: u64,
}

/// What the server is to log.
fn made(heard: u64, input: Input) -> Made
    ensures { result ≡ server_made heard input }
{
    Made {
        heard,
        input,
        event: None,
    }
}

/// These messages, as an entry sends them.
fn to_clients(alloc: Global, messages: Vec<(u8, Down)>) -> Result<Vec<Sent>, NoMemory>
    ensures { IfOk result (λ sent. sent.items ≡ sent_of messages.items) }
{
    let mut sent = Vec::with_capacity(alloc, messages.len())?;
    for (client, message) in messages {
        sent.push(Sent::ToClient(client, message))?;
    }
    Ok(sent)
}

impl ServerCell {
    /// Whether the cell is spent. It takes no memory.
    pub fn is_spent(&self) -> bool
        ensures { result ≡ is_some self.now.spent }
    {
        self.spent.is_some()
    }

    /// Of how many clients it has the server's end. It takes no memory.
    pub fn clients(&self) -> usize
        ensures { result ≡ length self.now.ends.items }
    {
        self.ends.len()
    }

    /// What the entries of its log weigh together, and 2^64 - 1 where that is more. It takes no memory.
    pub fn weight(&self) -> u64
        ensures { result ≡ min (sum_by entry_weight_of self.now.log.entries) (2 ^ 64 - 1) }
    {
        self.log.weight()
    }

    /// The log of the cell. It takes no memory.
    pub fn into_log(self) -> NodeLog
        ensures { result ≡ server_log_of self }
    {
        self.log
    }

    /// Both ends of each client's connection learn all that is in their rings. It takes no memory.
    pub fn meet(&mut self, clients: &mut Vec<ClientCell>)
        requires { AreTogetherWith clients.old.items self.old }
        ensures know { KnowAllWith clients.new.items self.new }
        ensures clients { CellsLooked clients.old.items clients.new.items }
        ensures server { ServerLooked self.old self.new }
    {
        meet_lists(clients, &mut self.ends);
    }

    /// The client of this number with its cell, as the server knows it. None where there is no such client. It takes no
    /// memory.
    pub fn pair<'a>(&'a self, client: u8, cell: &'a ClientCell) -> Option<ClientPair<'a>>
        requires { 1 ≤ client }
        ensures some { IfSome result (IsPairAt self.now client cell.now) }
        ensures none { IfNone result (HasNoEnd self.now client) }
    {
        match self.ends.get(client as usize - 1) {
            Some(end) => Some(ClientPair::new(client, cell, end, self.core.is_lost(client))),
            None => None,
        }
    }

    /// Whether the cell adds no entry any more.
    fn is_at_limit(&self) -> bool
        ensures { IsTrue result ↔ IsServerAtLimit self.now }
    {
        self.log.last_clock() >= LIMIT || is_any_at_limit(self.ends.as_slice())
    }

    /// Logs an entry, and sends its messages.
    fn say(&mut self, alloc: Global, made: Made, messages: Vec<(u8, Down)>) -> Result<(), NoMemory>
        requires room { self.old.log.has_room ≡ true }
        requires clock { next_clock made.heard self.old.log < 2 ^ 64 }
        requires seen { HaveRoom self.old.ends.items }
        ensures said { OnOk result (ServerHasSaid made messages.items self.old self.new) }
        ensures whole { self.new.spent ≡ self.old.spent }
    {
        let clock = self.log.last_clock().max(made.heard) + 1;
        tell(&mut self.ends, messages.as_slice(), clock)?;
        let sent = to_clients(alloc, messages)?;
        self.log.add(made.heard, made.input, sent, made.event);
        Ok(())
    }

    /// The core takes a message.
    #[tactic(auto, using(crate::proofs::serving::Bounds::bounds_said))]
    fn hear(&mut self, alloc: Global, code: &Code, incoming: Incoming) -> Result<(), NoMemory>
        requires may { ServerMayLog self.old }
        requires low { incoming.heard < 2 ^ 28 }
        ensures bounds { OnOk result (ServerBounds self.new) }
        ensures heard { OnOk result (ServerHasHeard code.now incoming.client incoming.message incoming.heard self.old self.new) }
        ensures whole { self.new.spent ≡ self.old.spent }
    {
        let Incoming {
            client,
            message,
            heard,
        } = incoming;
        let (_, messages) = self.core.take(alloc, code, client, &message)?;
        self.say(alloc, made(heard, Input::TookUp(client, message)), messages)
    }

    /// The connection of the client of this number is taken up again.
    #[tactic(auto, using(crate::proofs::serving::Bounds::bounds_said))]
    fn rejoin(&mut self, alloc: Global, client: u8) -> Result<(), NoMemory>
        requires { ServerMayLog self.old }
        ensures bounds { OnOk result (ServerBounds self.new) }
        ensures rejoined { OnOk result (ServerHasSaid (server_made 0 (input.Rejoin client)) [] self.old self.new) }
        ensures whole { self.new.spent ≡ self.old.spent }
    {
        self.say(alloc, made(0, Input::Rejoin(client)), Vec::new(alloc))
    }

    /// The client of this number is lost.
    #[tactic(auto, using(crate::proofs::serving::Bounds::bounds_said))]
    fn lose(&mut self, alloc: Global, client: u8) -> Result<(), NoMemory>
        requires { ServerMayLog self.old }
        ensures bounds { OnOk result (ServerBounds self.new) }
        ensures lost { OnOk result (ServerHasLost client self.old self.new) }
        ensures whole { self.new.spent ≡ self.old.spent }
    {
        let messages = self.core.lose(alloc, client)?;
        self.say(alloc, made(0, Input::Lose(client)), messages)
    }

    /// The connection of the client of this number breaks.
    #[tactic(auto, using(crate::proofs::serving::Bounds::break_left, crate::proofs::serving::Bounds::broken_log, crate::proofs::serving::Bounds::bounds_said))]
    fn break_now(&mut self, alloc: Global, client: u8) -> Result<(), NoMemory>
        requires may { ServerMayAdd self.old }
        requires there { 0 < client }
        ensures bounds { OnOk result (ServerBounds self.new) }
        ensures broken { OnOk result (ServerHasBroken client self.old self.new) }
        ensures whole { self.new.spent ≡ self.old.spent }
    {
        break_end(&mut self.ends, client);
        self.say(alloc, made(0, Input::Break(client)), Vec::new(alloc))?;
        Ok(())
    }

    /// What is due is made.
    #[tactic(auto, using(crate::proofs::serving::Bounds::may_log, crate::proofs::serving::Steps::lose_goes_on, crate::proofs::serving::Steps::break_goes_on, crate::proofs::serving::Turns::one_more))]
    fn suffer(&mut self, alloc: Global, due: Due) -> Result<(), NoMemory>
        requires may { ServerMayAdd self.old }
        requires due { IsOneDue self.old.core 1 due self.old.ends.items }
        ensures bounds { OnOk result (ServerBounds self.new) }
        ensures stands { OnOk result ((code : Code) → ServerGoesOn code self.old self.new) }
        ensures more { OnOk result (IsOneMore true self.old.log.entries self.new.log.entries) }
        ensures whole { self.new.spent ≡ self.old.spent }
    {
        match due.mishap {
            Mishap::Loss => {
                self.lose(alloc, due.client)?;
                Ok(())
            }
            Mishap::Break => {
                self.break_now(alloc, due.client)?;
                Ok(())
            }
        }
    }

    /// Takes one frame from each end in turn, until one makes an entry; whether one did.
    #[tactic(auto, using(crate::proofs::serving::Bounds::looked_log, crate::proofs::serving::Bounds::looked_bounds, crate::proofs::serving::Bounds::passed_bounds, crate::proofs::serving::Steps::hear_goes_on, crate::proofs::serving::Steps::rejoin_goes_on, crate::proofs::serving::Turns::passed_goes_on, crate::proofs::serving::Turns::late_goes_on, crate::proofs::serving::Turns::one_more, crate::proofs::serving::Served::late_found))]
    fn listen(&mut self, alloc: Global, code: &Code) -> Result<bool, PortFault>
        requires may { ServerMayAdd self.old }
        requires none { HaveNoneDue self.old.core 1 self.old.ends.items }
        ensures bounds { OnOk result (ServerBounds self.new) }
        ensures stands { OnOk result (ServerGoesOn code.now self.old self.new) }
        ensures more { IfOk result (λ added. IsOneMore added self.old.log.entries self.new.log.entries) }
        ensures idle { IfOk result (λ added. added ≡ false → IsAnyLate self.new.ends.items ⊎ LookedInVain self.old self.new) }
        ensures whole { self.new.spent ≡ self.old.spent }
    {
        let Some(found) = first_news(alloc, &mut self.ends, self.next)? else {
            return Ok(false);
        };
        let client = found.place as u8 + 1;
        self.next = found.place + 1;
        match found.news {
            News::Message(message, heard) => {
                let incoming = Incoming {
                    client,
                    message,
                    heard,
                };
                self.hear(alloc, code, incoming)?;
                Ok(true)
            }
            News::Rejoined => {
                self.rejoin(alloc, client)?;
                Ok(true)
            }
            News::Late => Ok(false),
        }
    }

    /// Makes what is due, or else takes frames until one makes an entry; whether an entry was added.
    fn add(&mut self, alloc: Global, code: &Code) -> Result<bool, PortFault>
        requires { ServerMayAdd self.old }
        ensures bounds { OnOk result (ServerBounds self.new) }
        ensures stands { OnOk result (ServerGoesOn code.now self.old self.new) }
        ensures more { IfOk result (λ added. IsOneMore added self.old.log.entries self.new.log.entries) }
        ensures idle { IfOk result (λ added. added ≡ false → IsAnyLate self.new.ends.items ⊎ (LookedInVain self.old self.new × HaveNoneDue self.old.core 1 self.old.ends.items)) }
        ensures whole { self.new.spent ≡ self.old.spent }
    {
        match first_due(&self.core, self.ends.as_slice(), 1) {
            Some(due) => {
                self.suffer(alloc, due)?;
                Ok(true)
            }
            None => self.listen(alloc, code),
        }
    }

    /// A turn of a cell that isn't spent.
    #[tactic(auto, using(crate::proofs::serving::Bounds::few_sent, crate::proofs::serving::Bounds::given_bounds, crate::proofs::serving::Cells::goes_through, crate::proofs::serving::Turns::reserved_goes_on, crate::proofs::serving::Turns::given_goes_on, crate::proofs::serving::Turns::served_by))]
    fn step(&mut self, alloc: Global, code: &Code) -> Result<bool, PortFault>
        requires { ServerBounds self.old }
        ensures bounds { OnOk result (ServerBounds self.new) }
        ensures stands { OnOk result (ServerGoesOn code.now self.old self.new) }
        ensures more { IfOk result (λ added. IsOneMore added self.old.log.entries self.new.log.entries) }
        ensures at_limit { IfOk result (λ added. IsServerAtLimit self.old → added ≡ false) }
        ensures served { IfOk result (λ added. added ≡ false → IsServerAtLimit self.new ⊎ AreServed self.new.core 1 self.old.ends.items self.new.ends.items) }
        ensures whole { self.new.spent ≡ self.old.spent }
    {
        if self.is_at_limit() {
            return Ok(false);
        }
        self.log.reserve()?;
        let added = self.add(alloc, code)?;
        give_all(alloc, &mut self.ends)?;
        Ok(added)
    }

    /// The cell is spent from now on, by this.
    fn spend(&mut self, fault: PortFault) -> NoMemory
        ensures { is_some self.new.spent ≡ true }
    {
        let refused = refusal_of(fault);
        self.spent = Some(refused);
        refused
    }

    /// A turn. A loss or a break of a client's connection that is due is made first, by rising client, a loss before a
    /// break. Else one frame is taken from the ring of each client in turn, beginning behind the client that was heard
    /// last, until one makes an entry. In any case frames go to the rings of all clients while places are known to be
    /// free. True exactly where an entry was added, and never where the cell was at its limit.
    ///
    /// False only where the cell is at its limit, or where nothing is to be done for any client that the cell knows of:
    /// no frame that makes an entry, and no loss or break. It answers `NoMemory` where an allocation was refused, or
    /// where a frame came from a ring before which a message is missing, or one is due that has no bytes; no run has
    /// such a frame. The cell is spent then: each turn of it answers `NoMemory`, and changes nothing.
    pub fn turn(&mut self, alloc: Global, code: &Code) -> Result<bool, NoMemory>
        requires bounds { self.old.spent ≡ None → ServerBounds self.old }
        ensures bounds { OnOk result (ServerBounds self.new) }
        ensures stands { OnOk result (ServerGoesOn code.now self.old self.new) }
        ensures more { IfOk result (λ added. IsOneMore added self.old.log.entries self.new.log.entries) }
        ensures at_limit { IfOk result (λ added. IsServerAtLimit self.old → added ≡ false) }
        ensures served { IfOk result (λ added. added ≡ false → IsServerAtLimit self.new ⊎ AreServed self.new.core 1 self.old.ends.items self.new.ends.items) }
        ensures spent { OnErr result (is_some self.new.spent ≡ true) }
        ensures refused { is_some self.old.spent ≡ true → (is_err result ≡ true) × (self.new ≡ self.old) }
        ensures whole { OnOk result (self.new.spent ≡ None) }
    {
        if let Some(refused) = self.spent {
            return Err(refused);
        }
        match self.step(alloc, code) {
            Ok(added) => Ok(added),
            Err(fault) => Err(self.spend(fault)),
        }
    }
}
