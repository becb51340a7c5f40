//! The cluster in one program (`specs/WorldStands.antt`).
ghost use Rattle.std.specs.Prelude.{◌≡◌, ◌<◌, ◌-◌, ◌^◌, false, true, [], length, min, slice_get, IfOk, IsErr, OnErr, OnOk};
ghost use Rattle.std.specs.Option.{option_copied};
ghost use Rattle.dso_class.specs.declared.program.Program.{Program};
ghost use Rattle.dso_class.specs.Sound.{IsSoundProgram};
ghost use Rattle.dso_legal.specs.Slots.{is_finished, weight};
ghost use Rattle.dso_world.specs.Collections.{IsSomeWorld, Sweeps};
ghost use Rattle.dso_world.specs.WorldStands.{IsChosenStep, IsMade, IsMakeable, IsStepped, SweepsNothing, WorldStands, entries_in, is_open_step, is_spent, journal_of};
ghost use Rattle.dso_world.specs.WorldSteps.{settings_of};

use crate::collection::sweep;
use crate::node_step::apply;
use crate::nodes::Nodes;
use crate::open_steps::OpenSteps;
use crate::opening::{nodes, open_steps};
use crate::step::Step;
use crate::step_update::follow;
use dso_base::{Entry, Items, Journal, NoMemory};
use dso_class::Program;
use dso_log::with_weight;
use std::alloc::Global;

/// A whole cluster in one program: its clients with their threads, its server, the connections between them, and the
/// journal of all that they did. It goes on step by step; which step is next is the caller's choice.
///
/// Contracts say of which program it is (`WorldStands`): its journal is lawful for that program, also once the world is
/// spent, which it is after `NoMemory`: it keeps that refusal, and answers it to every step. A step costs the logarithm
/// of what the nodes hold, times the number of its client's threads that ask for what it touches; no step walks the
/// slots, and no call the journal.
#[derive(Drop)]
pub struct World {
    pub(crate) spent: Option<NoMemory>,
    pub(crate) nodes: Nodes,
    pub(crate) open_steps: OpenSteps,
    pub(crate) weight: u64,
    pub(crate) journal: Journal,
}

impl World {
    /// The cluster of a sound program before its first step. It answers `NoMemory` where an allocation was refused.
    pub fn new(alloc: Global, program: &Program) -> Result<World, NoMemory>
        requires { IsSoundProgram program.now }
        ensures stands { IfOk result (WorldStands program.now) }
        ensures whole { IfOk result (λ world. is_spent world ≡ false) }
        ensures empty { IfOk result (λ world. (journal_of world).entries ≡ []) }
    {
        let nodes = nodes(alloc, program)?;
        let open_steps = open_steps(alloc, program, &nodes)?;
        Ok(World {
            spent: None,
            nodes,
            open_steps,
            weight: 0,
            journal: Journal {
                entries: Items::new(alloc),
            },
        })
    }

    /// Makes the step, which is one of the world's program: true, with one entry more at the slot of the step, where
    /// that is open, and false with nothing changed exactly where it isn't. The journal has fewer than 2^28 entries.
    ///
    /// It answers `NoMemory` where an allocation was refused: the world is spent then, with the journal that it had. A
    /// spent world answers that refusal to every step, and nothing changes.
    pub fn step(&mut self, alloc: Global, program: &Program, step: Step) -> Result<bool, NoMemory>
        requires sound { IsSoundProgram program.now }
        requires stands { WorldStands program.now self.old }
        requires few { length (journal_of self.old).entries < 2 ^ 28 }
        ensures stands { WorldStands program.now self.new }
        ensures stepped { IfOk result (λ made. IsStepped program.now step made self.old self.new) }
        ensures swept { OnOk result (SweepsNothing program.now self.old self.new) }
        ensures whole { OnOk result (is_spent self.new ≡ false) }
        ensures spent { OnErr result (is_spent self.new ≡ true) }
        ensures refused { is_spent self.old ≡ true → IsErr result × (self.new ≡ self.old) }
        ensures journal { OnErr result (journal_of self.new ≡ journal_of self.old) }
    {
        if let Some(refusal) = self.spent {
            return Err(refusal);
        }
        let Some(place) = self.open_steps.open_place(step) else {
            return Ok(false);
        };
        if let Err(refusal) = self.make(alloc, program, step, place) {
            self.spent = Some(refusal);
            return Err(refusal);
        }
        Ok(true)
    }

    /// Makes the step at this place, which is open.
    fn make(
        &mut self,
        alloc: Global,
        program: &Program,
        step: Step,
        place: usize,
    ) -> Result<(), NoMemory>
        requires { IsMakeable program.now step place self.old }
        ensures made { OnOk result (IsMade program.now step self.old self.new) }
        ensures journal { OnErr result (journal_of self.new ≡ journal_of self.old) }
        ensures spent { self.new.spent ≡ self.old.spent }
    {
        let entry = apply(alloc, program, &mut self.nodes, step)?;
        follow(program, &self.nodes, &entry, place, &mut self.open_steps);
        self.weight = with_weight(self.weight, &entry);
        self.journal.entries.push(entry)?;
        Ok(())
    }

    /// A collection: sweeps the bodies of those objects of the server's graph that are garbage after the journal, which no
    /// path reaches from what the threads of clients that aren't lost hold or what is in flight, and tells how many that
    /// were. It makes no entry, and no later step tells of it (`specs/Collections.antt`).
    ///
    /// It costs the logarithm of what there is, for each object, copy, value and message. It answers `NoMemory` where an
    /// allocation was refused: nothing is swept, and the world is spent then, with the journal that it had. A spent world
    /// answers that refusal.
    pub fn collect(&mut self, alloc: Global) -> Result<u64, NoMemory>
        requires { IsSomeWorld self.old }
        ensures stands { (program : Program) → IsSoundProgram program → WorldStands program self.old → WorldStands program self.new }
        ensures swept { IfOk result (λ count. (program : Program) → IsSoundProgram program → WorldStands program self.old
            → Sweeps program count self.old self.new) }
        ensures whole { OnOk result (is_spent self.new ≡ false) }
        ensures spent { OnErr result (is_spent self.new ≡ true) }
        ensures refused { is_spent self.old ≡ true → IsErr result × (self.new ≡ self.old) }
        ensures unswept { OnErr result ((program : Program) → SweepsNothing program self.old self.new) }
        ensures journal { journal_of self.new ≡ journal_of self.old }
    {
        if let Some(refused) = self.spent {
            return Err(refused);
        }
        match sweep(alloc, &mut self.nodes) {
            Ok(swept) => Ok(swept),
            Err(refused) => {
                self.spent = Some(refused);
                Err(refused)
            }
        }
    }

    /// Whether the step's slot is open. It takes no memory.
    pub fn enabled(&self, step: Step) -> bool
        ensures { (program : Program) → WorldStands program self.now → is_spent self.now ≡ false
            → result ≡ is_open_step program step self.now }
    {
        self.open_steps.is_open(step)
    }

    /// The step that is taken next: by round robin, or by the seed. None exactly where no slot is open. It takes no
    /// memory.
    pub fn choose(&mut self, seed: Option<u64>) -> Option<Step>
        ensures chosen { (program : Program) → WorldStands program self.old → is_spent self.old ≡ false
            → IsChosenStep program seed result self.old }
        ensures same { self.new ≡ self.old }
    {
        self.open_steps.choose(seed)
    }

    /// Whether every thread of a client that isn't lost has ended, no message between the server and such a client is
    /// in flight, and no loss or break is due. It takes no memory.
    pub fn finished(&self) -> bool
        ensures { (program : Program) → WorldStands program self.now → is_spent self.now ≡ false
            → result ≡ is_finished (settings_of program) (entries_in self.now) }
    {
        self.open_steps.is_finished
    }

    /// The journal's weight, and 2^64 - 1 where that is more. It takes no memory.
    pub fn weight(&self) -> u64
        ensures { (program : Program) → WorldStands program self.now → is_spent self.now ≡ false
            → result ≡ min (weight (entries_in self.now)) (2 ^ 64 - 1) }
    {
        self.weight
    }

    /// The journal of all that was done. It takes no memory.
    pub fn journal(&self) -> &Journal
        ensures { result.now ≡ journal_of self.now }
    {
        &self.journal
    }

    /// The last entry, None where there is none. It takes no memory.
    pub fn last(&self) -> Option<&Entry>
        ensures { option_copied result ≡ slice_get (journal_of self.now).entries (length (journal_of self.now).entries - 1) }
    {
        self.journal.entries.as_slice().last()
    }

    /// Hands the journal over. It takes no memory.
    pub fn into_journal(self) -> Journal
        ensures { result ≡ journal_of self }
    {
        let World {
            journal,
            nodes,
            open_steps,
            ..
        } = self;
        // Calls, so that the proof of this function doesn't go into the parts of nodes.
        drop(nodes);
        drop(open_steps);
        journal
    }
}
