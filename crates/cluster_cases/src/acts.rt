//! The steps that make an entry: a thread acts, a message is taken, an object is flushed.
ghost use Rattle.std.specs.Prelude.{OnOk};
ghost use Rattle.dso_machine.specs.Sound.{IsSoundCode};
ghost use Rattle.dso_machine.specs.declared.code.Code.{Code};
ghost use Rattle.cluster_cases.specs.Driving.{Goes};

use crate::causes::blocked;
use crate::driven::Driven;
use crate::entries::{Made, entry_line};
use case_words::shown;
use dso_base::{Down, Input, NoMemory, Shared, Up};
use dso_client::Acted;
use dso_machine::Code;
use std::alloc::Global;

/// How many acts a client may be asked for.
const MOST_ACTS: u32 = 1_000_000;

impl Driven {
    /// The line of what was made.
    fn line(&mut self, alloc: Global, made: Made) -> Result<String, NoMemory>
        ensures { (code : Code) → Goes code self.old → Goes code self.new }
    {
        self.clock = self.clock.saturating_add(1);
        entry_line(alloc, self.clock, self.number, made)
    }

    /// The line of what the thread of this index did, and what was sent.
    fn acted(
        &mut self,
        alloc: Global,
        index: u8,
        acted: Acted,
        sent: Vec<Up>,
    ) -> Result<String, NoMemory>
        ensures { (code : Code) → Goes code self.old → Goes code self.new }
    {
        match acted {
            Acted::Event(event) => self.line(
                alloc,
                Made::new(Input::Act(index), Some(Shared::new(alloc, event)?), sent),
            ),
            Acted::Asked => self.line(alloc, Made::new(Input::Act(index), None, sent)),
            Acted::Blocked(cause) => blocked(alloc, cause),
            Acted::Over => shown(alloc, "over\n"),
        }
    }

    /// The thread of this index acts.
    pub fn act(&mut self, alloc: Global, code: &Code, index: u8) -> Result<String, NoMemory>
        requires sound { IsSoundCode code.now }
        requires goes { Goes code.now self.old }
        ensures { OnOk result (Goes code.now self.new) }
    {
        if self.acts == MOST_ACTS {
            return shown(alloc, "too many acts\n");
        }
        let (acted, sent) = self.client.act(alloc, code, index)?;
        self.acts += 1;
        self.acted(alloc, index, acted, sent)
    }

    /// The client takes a message of the server.
    pub fn take(&mut self, alloc: Global, code: &Code, message: Down) -> Result<String, NoMemory>
        ensures { (code : Code) → Goes code self.old → Goes code self.new }
    {
        let sent = self.client.take(alloc, code, &message)?;
        self.line(alloc, Made::new(Input::TookDown(message), None, sent))
    }

    /// A message comes that doesn't fit: there is no entry.
    pub fn offer(&mut self, alloc: Global, code: &Code, message: Down) -> Result<String, NoMemory>
        ensures { (code : Code) → Goes code self.old → Goes code self.new }
    {
        let sent = self.client.take(alloc, code, &message)?;
        if sent.is_empty() {
            shown(alloc, "nothing\n")
        } else {
            shown(alloc, "something is sent\n")
        }
    }

    /// An object is flushed, where one is due.
    pub fn flush(&mut self, alloc: Global) -> Result<String, NoMemory>
        ensures { (code : Code) → Goes code self.old → Goes code self.new }
    {
        match self.client.flush() {
            Some(object) => self.flushed(alloc, object),
            None => shown(alloc, "nothing\n"),
        }
    }

    /// The line of this object's flush.
    fn flushed(&mut self, alloc: Global, object: u64) -> Result<String, NoMemory>
        ensures { (code : Code) → Goes code self.old → Goes code self.new }
    {
        let mut sent = Vec::new(alloc);
        sent.push(Up::Flushed(object))?;
        self.line(alloc, Made::new(Input::Flush(object), None, sent))
    }
}
