//! Whether a slot is open in the journal that is gathered of cells, as they tell it (`specs/OpenSlots.antt`).
ghost use Rattle.std.specs.Prelude.{◌≤◌};
ghost use Rattle.dso_host.specs.OpenSlots.{TellsActOf, TellsAnyAct, TellsAnyStep, TellsOpen, TellsStepAt, TellsStepOf};

use crate::Cells;
use dso_base::ThreadId;
use dso_cell::ClientPair;
use dso_class::Program;

/// Whether a step of the pair's client is open but for its threads' acts.
fn may_step(pair: &ClientPair) -> bool
    ensures { TellsStepAt pair.now result }
{
    pair.is_trigger_due() || pair.can_be_heard() || pair.can_hear() || pair.may_flush()
}

impl Cells {
    /// Whether the thread can act. None can of a client that isn't there.
    fn can_act(&self, thread: ThreadId) -> bool
        ensures { TellsActOf self.now thread result }
    {
        if thread.client == 0 {
            return false;
        }
        match self.pair(thread.client) {
            Some(pair) => pair.may_act(thread.index),
            None => false,
        }
    }

    /// Whether a step of the client of this number is open but for its threads' acts.
    fn can_step(&self, client: u8) -> bool
        requires { 1 ≤ client }
        ensures { TellsStepOf self.now client result }
    {
        match self.pair(client) {
            Some(pair) => may_step(&pair),
            None => false,
        }
    }

    /// Whether some thread can act.
    fn is_any_act_open(&self, program: &Program) -> bool
        ensures { TellsAnyAct program.now self.now result }
    {
        for thread in program.threads.as_slice() {
            if self.can_act(*thread) {
                return true;
            }
        }
        false
    }

    /// Whether a step of some client is open but for its threads' acts.
    fn is_any_step_open(&self, program: &Program) -> bool
        ensures { TellsAnyStep program.now self.now result }
    {
        for place in 0..program.clients {
            if self.can_step(place + 1) {
                return true;
            }
        }
        false
    }

    /// Whether any slot is open: a thread can act, a message can be taken, an object flushed, or a trigger is due. It
    /// takes no memory.
    pub fn is_any_open(&self, program: &Program) -> bool
        ensures { TellsOpen program.now self.now result }
    {
        self.is_any_act_open(program) || self.is_any_step_open(program)
    }
}
