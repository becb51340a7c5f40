//! A client (`specs/ClientStands.antt`).
ghost use Rattle.std.specs.Prelude.{ℕ, ◌≡◌, ◌≤◌, ◌<◌, ◌+◌, ◌-◌, ◌^◌, suc, true, false, None, List, [], IfNone, IfOk, IfSome, OnErr, OnOk};
ghost use Rattle.std.specs.Result.{is_err};
ghost use Rattle.dso_law.specs.Settings.{Settings, threads_of};
ghost use Rattle.dso_machine.specs.declared.code.Code.{Code};
ghost use Rattle.dso_machine.specs.Sound.{IsSoundCode};
ghost use Rattle.dso_client.specs.ThreadActs.{Acts, HoldsAtMost, LeavesAlone};
ghost use Rattle.dso_client.specs.ClientStands.{ClientStands};
ghost use Rattle.dso_client.specs.ClientViews.{IsNextVictim, is_unacknowledged, records_sent};
ghost use Rattle.dso_client.specs.CodeRuns.{RunsCode, RunsSomeCode};
ghost use Rattle.dso_client.specs.NamedObjects.{TellsEdges, TellsNamed};
ghost use Rattle.dso_client.specs.ObjectFlushes.{Flushes, IsVictimOf, NoneDue, TellsFlush};
ghost use Rattle.dso_client.specs.Spent.{WhileWhole, is_spent};
ghost use Rattle.dso_client.specs.TakenMessages.{Takes};
ghost use Rattle.dso_client.specs.Threads.{IsEnabled, IsNextRequest, TellsAlive, TellsGoing, WhereAbsent};
ghost use Rattle.dso_txn.specs.Numbers.{IsLeast};
ghost use Rattle.dso_client.specs.declared.acted.Acted.TheVariants as acted;
ghost use Rattle.dso_client.specs.Openings.{HasThreads, AreUnusedSequences, IsEmptyLockState, first_threads};

use crate::acted::Acted;
use crate::client_state::ClientState;
use crate::lock_state::LockState;
use crate::named::named;
use crate::object_flush::flush;
use crate::opening::contexts;
use crate::sequences::Sequences;
use crate::taken_message::take;
use crate::thread_act::act;
use crate::thread_context::{ThreadContext, alive, context_at, is_any_alive};
use crate::turn::may_act;
use dso_base::{Down, NoMemory, Request, Up};
use dso_hold::Hold;
use dso_ids::IdPool;
use dso_lease::Leases;
use dso_machine::Code;
use dso_table::Table;
use dso_txn::Unacked;
use std::alloc::Global;
use std::collections::BTreeMap;
use std::marker::Model;

/// A client of the cluster, with its threads. It keeps no entries: contracts see what it keeps, and say of each list of
/// entries that it stood for (`ClientStands`) what becomes of it.
///
/// A call costs the logarithm of what the client holds, times the number of its threads where it looks what they await.
/// After `NoMemory` the client is spent: it stands for no list of entries that is known, and each later act and message
/// is answered `NoMemory`, with the refusal that spent it.
#[derive(Drop)]
pub struct Client {
    kept: ClientState,
}

impl Model for Client {
    ghost use Rattle.dso_client.specs.declared.client_state.ClientState.{ClientState};
    ghost use Rattle.dso_client.specs.contracts.client_state.ClientState.{the_row};

    ghost Value = { ClientState };

    ghost coded = { the_row.coded };

    ghost view = { λ client. client.kept };
}

/// Nothing is known of locks.
fn opening_lock_state(alloc: Global) -> LockState
    ensures { IsEmptyLockState result }
{
    LockState {
        holds: Hold::new(alloc),
        leases: Leases::new(alloc),
        lists: BTreeMap::new(alloc),
    }
}

/// No id is there, and no record was sent.
fn opening_sequences(alloc: Global) -> Sequences
    ensures { AreUnusedSequences result }
{
    Sequences {
        pool: IdPool::new(),
        is_asking: false,
        records: 0,
        unacked: Unacked::new(alloc),
    }
}

/// What is kept of these threads before the first entry.
fn opening_kept(
    alloc: Global,
    number: u8,
    contexts: Vec<ThreadContext>,
    table: Table,
) -> ClientState
    ensures number { result.number ≡ number }
    ensures contexts { result.contexts ≡ contexts }
    ensures table { result.table ≡ table }
    ensures lock_state { IsEmptyLockState result.lock_state }
    ensures sequences { AreUnusedSequences result.sequences }
    ensures whole { is_spent result ≡ false }
{
    ClientState {
        number,
        contexts,
        table,
        lock_state: opening_lock_state(alloc),
        sequences: opening_sequences(alloc),
        spent: None,
    }
}

impl Client {
    /// The client of this number with so many threads, the first of which has index 1, which is to keep so many objects
    /// resident. Nothing is known to it. The code has these threads.
    ///
    /// It answers `NoMemory` where an allocation was refused.
    pub fn new(
        alloc: Global,
        code: &Code,
        number: u8,
        threads: u8,
        resident: u32,
    ) -> Result<Client, NoMemory>
        requires sound { IsSoundCode code.now }
        requires there { HasThreads code.now number threads }
        ensures runs { IfOk result (RunsCode code.now) }
        ensures records { IfOk result (λ client. records_sent client ≡ 0) }
        ensures holds { IfOk result (HoldsAtMost 0) }
        ensures whole { IfOk result (λ client. is_spent client ≡ false) }
        ensures stands { IfOk result (λ client. (p : Settings) → p.shape ≡ code.now.shape → p.resident ≡ resident
            → threads_of p number ≡ first_threads number threads → ClientStands code.now p number client []) }
    {
        let contexts = contexts(alloc, code, number, threads)?;
        match Table::new(alloc, resident) {
            Ok(table) => Ok(Client {
                kept: opening_kept(alloc, number, contexts, table),
            }),
            Err(refused) => {
                // A call, so that the proof of this function doesn't go into the parts of contexts.
                drop(contexts);
                Err(refused)
            }
        }
    }

    /// The thread of this index makes its next request, where it can: the request is answered, or what it lacks is
    /// asked for; and what the client sends is answered too. Whatever entries the client stood for whose sizes are
    /// kept, it stands for them with that entry, which follows by the client rule. `Blocked` exactly where the rule has
    /// no act of the thread, with the first need that isn't met; `Over` exactly where the thread has ended, and where
    /// there is no such thread; nothing is changed or sent then.
    ///
    /// It answers `NoMemory` where an allocation was refused; the client is spent then. A spent client answers it to
    /// each call, and nothing changes; then nothing is asked of the code of its threads and of its counts.
    pub fn act(
        &mut self,
        alloc: Global,
        code: &Code,
        index: u8,
    ) -> Result<(Acted, Vec<Up>), NoMemory>
        requires sound { IsSoundCode code.now }
        requires runs { WhileWhole self.old (RunsCode code.now self.old) }
        requires few { WhileWhole self.old (records_sent self.old < 2 ^ 62) }
        requires counts { WhileWhole self.old (HoldsAtMost (2 ^ 32 - 2) self.old) }
        ensures acts { IfOk result (λ made. Acts code.now index self.old self.new made.0 made.1.items) }
        ensures alone { IfOk result (λ made. LeavesAlone made.0 made.1.items self.old self.new) }
        ensures absent { WhereAbsent self.old index (IfOk result (λ made. made.0 ≡ acted.Over)) }
        ensures runs { OnOk result (RunsCode code.now self.new) }
        ensures records { OnOk result (records_sent self.new ≤ records_sent self.old + 1) }
        ensures holds { OnOk result ((most : ℕ) → HoldsAtMost most self.old → HoldsAtMost (suc most) self.new) }
        ensures whole { OnOk result (is_spent self.new ≡ false) }
        ensures spent { OnErr result (is_spent self.new ≡ true) }
        ensures refused { is_spent self.old ≡ true → (is_err result ≡ true) × (self.new ≡ self.old) }
    {
        if let Some(refused) = self.kept.spent {
            return Err(refused);
        }
        match act(alloc, code, &mut self.kept, index) {
            Ok(made) => Ok(made),
            Err(refused) => {
                self.kept.spent = Some(refused);
                Err(refused)
            }
        }
    }

    /// Takes a message of the server, and answers what the client sends. Whatever entries the client stood for: where
    /// the message fits, it stands for them with the entry that takes it and sends these leases back, which follows by
    /// the client rule; a message that doesn't fit changes and sends nothing. The shape is that of the code of the
    /// threads.
    ///
    /// It answers `NoMemory` where an allocation was refused; the client is spent then. A spent client answers it to
    /// each message, and nothing changes.
    pub fn take(&mut self, alloc: Global, code: &Code, message: &Down) -> Result<Vec<Up>, NoMemory>
        ensures takes { IfOk result (λ sent. Takes code.now message.now self.old self.new sent.items) }
        ensures runs { (code : Code) → RunsCode code self.old → RunsCode code self.new }
        ensures holds { (most : ℕ) → HoldsAtMost most self.old → HoldsAtMost most self.new }
        ensures records { records_sent self.new ≡ records_sent self.old }
        ensures whole { OnOk result (is_spent self.new ≡ false) }
        ensures spent { OnErr result (is_spent self.new ≡ true) }
        ensures refused { is_spent self.old ≡ true → (is_err result ≡ true) × (self.new ≡ self.old) }
    {
        if let Some(refused) = self.kept.spent {
            return Err(refused);
        }
        match take(alloc, &mut self.kept, &code.shape, message) {
            Ok(sent) => Ok(sent),
            Err(refused) => {
                self.kept.spent = Some(refused);
                Err(refused)
            }
        }
    }

    /// Flushes an object: the table's victim, which may be flushed where more objects are resident than the client is
    /// to keep. Whatever entries the client stood for, they name it, by the order in which they used objects; and the
    /// client stands for them with the flush, which follows by the client rule.
    ///
    /// None, with nothing changed, exactly where the rule has no flush. It takes no memory.
    pub fn flush(&mut self) -> Option<u64>
        ensures victim { IfSome result (IsNextVictim self.old) }
        ensures named { IfSome result (IsVictimOf self.old) }
        ensures made { IfSome result (Flushes self.old self.new) }
        ensures none { IfNone result (NoneDue self.old) }
        ensures unchanged { IfNone result (self.new ≡ self.old) }
        ensures runs { (code : Code) → RunsCode code self.old → RunsCode code self.new }
        ensures holds { (most : ℕ) → HoldsAtMost most self.old → HoldsAtMost most self.new }
        ensures records { records_sent self.new ≡ records_sent self.old }
        ensures spent { is_spent self.new ≡ is_spent self.old }
    {
        flush(&mut self.kept.table)
    }

    /// Whether the client rule has a flush of some object. It takes no memory.
    pub fn may_flush(&self) -> bool
        ensures { TellsFlush self.now result }
    {
        self.kept.table.victim().is_some()
    }

    /// Whether the client rule has an act of the thread of this index: its next request can be answered, or what it
    /// lacks asked for. False where there is no such thread. It takes no memory.
    pub fn enabled(&self, index: u8) -> bool
        ensures enabled { IsEnabled self.now index result }
        ensures absent { WhereAbsent self.now index (result ≡ false) }
    {
        match context_at(&self.kept, index) {
            Some(context) => may_act(&self.kept, context),
            None => false,
        }
    }

    /// The next request of the thread of this index, which the thread asks until it is answered. None where it has ended, or
    /// there is no such thread. It takes no memory.
    pub fn next_request(&self, index: u8) -> Option<Request>
        ensures next { IsNextRequest self.now index result }
        ensures absent { WhereAbsent self.now index (result ≡ None) }
    {
        match context_at(&self.kept, index) {
            Some(context) => context.next,
            None => None,
        }
    }

    /// How many records it sent. It takes no memory.
    pub fn sent(&self) -> u64
        ensures { result ≡ records_sent self.now }
    {
        self.kept.sequences.records
    }

    /// The number of the first record that the server hasn't acknowledged, None exactly where there is none. It takes no
    /// memory.
    pub fn first_unacknowledged(&self) -> Option<u64>
        ensures first { IfSome result (λ first. IsLeast first (is_unacknowledged self.now)) }
        ensures none { IfNone result ((n : ℕ) → is_unacknowledged self.now n ≡ false) }
    {
        self.kept.sequences.unacked.least()
    }

    /// How many threads have a next request: those that haven't ended. It takes no memory.
    pub fn alive(&self) -> usize
        ensures { TellsAlive self.now result }
    {
        alive(self.kept.contexts.as_slice())
    }

    /// Whether a thread has a next request: one that hasn't ended. It takes no memory, and looks at no thread behind the
    /// first that has one.
    pub fn is_alive(&self) -> bool
        ensures { TellsGoing self.now result }
    {
        is_any_alive(self.kept.contexts.as_slice())
    }

    /// The objects that a thread of the client names: its frames hold them, its next request names them, or it has them
    /// in hand, in a private object or in its open block. Whatever entries the client stands for, an object is listed
    /// exactly where they say so, as often as it is named. A thread that has ended names what it has in hand alone. It
    /// costs the size of what the threads hold.
    ///
    /// It answers `NoMemory` where an allocation was refused, and where the client is spent; then nothing is asked of the
    /// code of its threads.
    pub fn named(&self, alloc: Global) -> Result<Vec<u64>, NoMemory>
        requires runs { WhileWhole self.now (RunsSomeCode self.now) }
        ensures named { IfOk result (λ named. TellsNamed self.now named.items) }
        ensures refused { is_spent self.now ≡ true → is_err result ≡ true }
    {
        match self.kept.spent {
            Some(refused) => Err(refused),
            None => named(alloc, self.kept.contexts.as_slice()),
        }
    }

    /// The edges of the client's copies: from a to b exactly where its copy of a names b in a field, whatever entries the
    /// client stands for. They stand by rising a, and it costs the size of the copies.
    ///
    /// It answers `NoMemory` where an allocation was refused.
    pub fn edges(&self, alloc: Global) -> Result<Vec<(u64, u64)>, NoMemory>
        ensures { IfOk result (λ edges. TellsEdges self.now edges.items) }
    {
        self.kept.table.edges(alloc)
    }
}
