//! What the entries of a client tell of its threads, kept from entry to entry: how often each lock is held, the open
//! block, and the blocks that were ended (`specs/JournalPassTables.antt`).
ghost use Rattle.std.specs.Prelude.{◌≡◌, ◌<◌, ◌-◌, ◌^◌, ◌++◌, Some, None, OnOk, IfOk};
ghost use Rattle.std.specs.Option.{unwrap_or, option_to_list};
ghost use Rattle.dso_base.specs.declared.lock.ThreadId.{ThreadId};
ghost use Rattle.dso_base.specs.Following.{is_thread};
ghost use Rattle.dso_lookup.specs.Maps.{writes, written};
ghost use Rattle.dso_legal.specs.Committed.{block_numbered};
ghost use Rattle.dso_legal.specs.JournalPass.{one_less, with_count, with_entry, counts_after, with_resume, ends_block, block_ended, thread_state_after, client_state_after, CountsFit};
ghost use Rattle.dso_legal.specs.JournalPassTables.{no_thread_state, thread_state_in, threads_in, no_client_state, client_state_in};

use dso_base::{Event, Items, LockName, NoMemory, Reply, Request, Shared, ThreadId};
use dso_lookup::{put, take};
use std::alloc::Global;
use std::collections::BTreeMap;
use std::mem::replace;

/// What is kept of a thread: how often it holds each lock, the count that it is to have again after a wait, and its
/// open block, whose events their entries hold too.
#[derive(Drop)]
pub(crate) struct ThreadState {
    counts: BTreeMap<LockName, u64>,
    waiting: Option<u64>,
    block: Items<Shared<Event>>,
}

/// How often a lock is held after one exit, None where it no longer is.
fn one_less(count: Option<u64>) -> Option<u64>
    ensures { result ≡ one_less count }
{
    match count {
        Some(count) => if count == 1 {
            None
        } else {
            Some(count.saturating_sub(1))
        },
        None => None,
    }
}

impl ThreadState {
    /// A thread that did nothing yet. It takes no memory.
    fn new(alloc: Global) -> ThreadState
        ensures { thread_state_in result ≡ no_thread_state }
    {
        ThreadState {
            counts: BTreeMap::new(alloc),
            waiting: None,
            block: Items::new(alloc),
        }
    }

    /// How often the lock is held, None where it is not.
    fn count(&self, lock: LockName) -> Option<u64>
        ensures { result ≡ (thread_state_in self.now).counts lock }
    {
        self.counts.get(&lock).copied()
    }

    /// Lets the lock be held so often, or no longer.
    fn hold(&mut self, lock: LockName, count: Option<u64>) -> Result<(), NoMemory>
        ensures { OnOk result (thread_state_in self.new ≡ record (thread_state_in self.old) { counts = with_count lock count (thread_state_in self.old).counts }) }
    {
        match count {
            Some(count) => put(&mut self.counts, lock, count)?,
            None => {
                let _ = take(&mut self.counts, &lock);
            }
        }
        Ok(())
    }

    /// One more entry of the lock.
    fn enter(&mut self, lock: LockName) -> Result<(), NoMemory>
        requires { CountsFit (thread_state_in self.old) }
        ensures { OnOk result (thread_state_in self.new ≡ with_entry lock (thread_state_in self.old)) }
    {
        let count = self.count(lock).unwrap_or(0);
        self.hold(lock, Some(count + 1))?;
        Ok(())
    }

    /// What an act makes of what the thread holds.
    fn act(&mut self, request: Request, reply: Reply) -> Result<(), NoMemory>
        requires { CountsFit (thread_state_in self.old) }
        ensures { OnOk result (thread_state_in self.new ≡ counts_after request reply (thread_state_in self.old)) }
    {
        match (request, reply) {
            (Request::Enter(lock, _), Reply::Done) => self.enter(lock),
            (Request::Exit(lock), Reply::Done) => self.hold(lock, one_less(self.count(lock))),
            (Request::Wait(lock), Reply::Done) => {
                self.waiting = Some(self.count(lock).unwrap_or(0));
                self.hold(lock, None)
            }
            (Request::Resume(lock), Reply::Done) => self.resume(lock),
            _ => Ok(()),
        }
    }

    /// The thread goes on after a wait, and has the lock as often as before.
    fn resume(&mut self, lock: LockName) -> Result<(), NoMemory>
        ensures { OnOk result (thread_state_in self.new ≡ with_resume lock self.old.waiting (thread_state_in self.old)) }
    {
        match self.waiting {
            Some(count) => {
                self.waiting = None;
                self.hold(lock, Some(count))
            }
            None => Ok(()),
        }
    }

    /// Whether the act ends the open block.
    fn ends_block(&self, request: Request, reply: Reply) -> bool
        ensures { result ≡ ends_block request reply (thread_state_in self.now) }
    {
        match (request, reply) {
            (Request::Exit(lock), Reply::Done) => one_less(self.count(lock)).is_none(),
            (Request::Wait(_), Reply::Done) => true,
            (Request::Timeout(_), Reply::Done) => true,
            (Request::End(_), Reply::Done) => true,
            _ => false,
        }
    }

    /// Takes in an act of the thread, and answers the block that it ends.
    fn take(
        &mut self,
        alloc: Global,
        request: Request,
        reply: Reply,
        event: &Shared<Event>,
    ) -> Result<Option<Items<Shared<Event>>>, NoMemory>
        requires { CountsFit (thread_state_in self.old) }
        ensures state { OnOk result (thread_state_in self.new ≡ thread_state_after request reply event.now (thread_state_in self.old)) }
        ensures ended { IfOk result (λ block. option_to_list block ≡ block_ended (ends_block request reply (thread_state_in self.old)) event.now (thread_state_in self.old).block) }
    {
        let ends = self.ends_block(request, reply);
        self.act(request, reply)?;
        self.block.push(event.clone()?)?;
        if ends {
            Ok(Some(replace(&mut self.block, Items::new(alloc))))
        } else {
            Ok(None)
        }
    }
}

/// An act, as an event tells it: whose it is, what was asked, and what the answer was.
#[derive(Clone, Copy)]
struct ThreadAct {
    thread: ThreadId,
    request: Request,
    reply: Reply,
}

/// Takes in an act of a thread, with its event, where the thread stands in the table, and answers the block that it
/// ends.
fn act_in(
    alloc: Global,
    threads: &mut BTreeMap<ThreadId, ThreadState>,
    act: ThreadAct,
    event: &Shared<Event>,
) -> Result<Option<Items<Shared<Event>>>, NoMemory>
    requires { CountsFit (threads_in threads.old act.thread) }
    ensures threads { OnOk result (threads_in threads.new ≡ written (writes (λ t. is_thread t act.thread) (λ _. thread_state_after act.request act.reply event.now (threads_in threads.old act.thread))) (threads_in threads.old)) }
    ensures ended { IfOk result (λ block. option_to_list block ≡ block_ended (ends_block act.request act.reply (threads_in threads.old act.thread)) event.now (threads_in threads.old act.thread).block) }
{
    match threads.get_mut(&act.thread) {
        Some(state) => state.take(alloc, act.request, act.reply, event),
        None => {
            let mut state = ThreadState::new(alloc);
            let ended = state.take(alloc, act.request, act.reply, event)?;
            put(threads, act.thread, state)?;
            Ok(ended)
        }
    }
}

/// What is kept of a client: its threads, and the blocks that they ended, in the order of their endings.
#[derive(Drop)]
pub(crate) struct ClientState {
    threads: BTreeMap<ThreadId, ThreadState>,
    ended: Items<Items<Shared<Event>>>,
}

/// Puts the block at the end, if there is one.
fn add_block(
    blocks: &mut Items<Items<Shared<Event>>>,
    block: Option<Items<Shared<Event>>>,
) -> Result<(), NoMemory>
    ensures { OnOk result (blocks.new ≡ blocks.old ++ option_to_list block) }
{
    if let Some(block) = block {
        blocks.push(block)?;
    }
    Ok(())
}

impl ClientState {
    /// A client that made no entry yet. It takes no memory.
    pub(crate) fn new(alloc: Global) -> ClientState
        ensures { client_state_in result ≡ no_client_state }
    {
        ClientState {
            threads: BTreeMap::new(alloc),
            ended: Items::new(alloc),
        }
    }

    /// The block of this number, counted from 1; empty where there is none. It takes no memory.
    pub(crate) fn block(&self, number: u64) -> &[Shared<Event>]
        ensures { result.now ≡ block_numbered number self.now.ended }
    {
        if number == 0 {
            return &[];
        }
        match self.ended.get((number - 1) as usize) {
            Some(block) => block.as_slice(),
            None => &[],
        }
    }

    /// Takes in the event of an entry of the client. Where an allocation was refused, nothing is known of what stands
    /// here afterwards.
    pub(crate) fn take(&mut self, alloc: Global, event: &Shared<Event>) -> Result<(), NoMemory>
        requires { (t : ThreadId) → CountsFit ((client_state_in self.old).threads t) }
        ensures { OnOk result (client_state_in self.new ≡ client_state_after event.now (client_state_in self.old)) }
    {
        match *event.get() {
            Event::Act {
                thread,
                request,
                reply,
                ..
            } => {
                let act = ThreadAct {
                    thread,
                    request,
                    reply,
                };
                let ended = act_in(alloc, &mut self.threads, act, event)?;
                add_block(&mut self.ended, ended)?;
                Ok(())
            }
            Event::Lost(_) => Ok(()),
        }
    }
}
