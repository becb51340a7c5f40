//! A client that is driven by hand.
ghost use Rattle.std.specs.Prelude.{◌≡◌, IfOk, is_some};
ghost use Rattle.dso_class.specs.Sound.{IsSoundProgram};
ghost use Rattle.dso_client.specs.Openings.{HasThreads};
ghost use Rattle.dso_machine.specs.Next.{body_of};
ghost use Rattle.cluster_cases.specs.Driving.{Goes};

use dso_base::{NoMemory, ThreadId};
use dso_class::Program;
use dso_client::Client;
use dso_machine::{Code, ThreadBody};
use std::alloc::Global;

/// How many threads a client may have.
const MOST_THREADS: u8 = 16;

/// A client with its number; how many acts it was asked for, and how many entries it made.
#[derive(Drop)]
pub struct Driven {
    pub client: Client,
    pub number: u8,
    pub acts: u32,
    pub clock: u64,
}

/// Whether the code has this thread among these bodies.
fn has_thread(bodies: &[ThreadBody], thread: ThreadId) -> bool
    ensures { result ≡ is_some (body_of thread bodies.now) }
{
    match bodies {
        [] => false,
        [body, ..] if body.thread == thread => true,
        [_, rest @ ..] => has_thread(rest, thread),
    }
}

/// How many threads the client has in the code: those of index 1, 2, and so on.
fn thread_count(code: &Code, client: u8) -> u8
    ensures { HasThreads code.now client result }
{
    for at in 0..MOST_THREADS {
        let index = at + 1;
        if !has_thread(code.bodies.as_slice(), ThreadId { client, index }) {
            return at;
        }
    }
    MOST_THREADS
}

impl Driven {
    /// The client of this number of the program, before its first entry.
    pub fn new(alloc: Global, program: &Program, number: u8) -> Result<Driven, NoMemory>
        requires { IsSoundProgram program.now }
        ensures { IfOk result (Goes program.now.code) }
    {
        let threads = thread_count(&program.code, number);
        let client = Client::new(alloc, &program.code, number, threads, program.resident)?;
        Ok(Driven {
            client,
            number,
            acts: 0,
            clock: 0,
        })
    }
}
