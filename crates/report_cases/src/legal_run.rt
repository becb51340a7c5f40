//! A legal history, made event by event on one heap.
ghost use Rattle.std.specs.Prelude.{◌≡◌, false, IfOk, OnOk};
ghost use Rattle.report_cases.specs.LegalRun.{IsLegalRun, IsNextEvent};

use dso_base::{Event, NoMemory};
use dso_class::Program;
use dso_plain::Plain;
use std::alloc::Global;

/// The events so far, and the heap that they lead to.
#[derive(Drop)]
pub(crate) struct LegalRun {
    pub(crate) events: Vec<Event>,
    pub(crate) plain: Plain,
}

impl LegalRun {
    /// Before the first event.
    pub(crate) fn new(alloc: Global, program: &Program) -> Result<LegalRun, NoMemory>
        ensures { IfOk result (IsLegalRun program.now) }
    {
        let plain = Plain::new(alloc, &program.code.shape)?;
        Ok(LegalRun {
            events: Vec::new(alloc),
            plain,
        })
    }

    /// Makes an event that follows the program where the heap takes it, and answers whether it does.
    pub(crate) fn make(
        &mut self,
        alloc: Global,
        program: &Program,
        event: Event,
    ) -> Result<bool, NoMemory>
        requires legal { IsLegalRun program.now self.old }
        requires next { IsNextEvent program.now.code self.old.events.items event }
        ensures legal { OnOk result (IsLegalRun program.now self.new) }
        ensures refused { IfOk result (λ made. made ≡ false → self.new.events.items ≡ self.old.events.items) }
    {
        let made = self.plain.apply(alloc, &program.code.shape, &event)?;
        if made {
            self.events.push(event)?;
        }
        Ok(made)
    }
}
