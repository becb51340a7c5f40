//! A step of a cluster.
ghost use Rattle.dso_class.specs.Sound.{IsSoundProgram};
ghost use Rattle.dso_world.specs.WorldStands.{WorldStands};

use dso_base::NoMemory;
use dso_class::Program;
use dso_world::{Step, World};
use std::alloc::Global;

/// How many entries a journal may have.
pub const MOST_ENTRIES: u32 = 4_000_000;

/// Makes the step, where its slot is open and the journal has room: whether it was made.
pub fn take(
    alloc: Global,
    program: &Program,
    world: &mut World,
    step: Step,
) -> Result<bool, NoMemory>
    requires sound { IsSoundProgram program.now }
    requires stands { WorldStands program.now world.old }
    ensures { WorldStands program.now world.new }
{
    if world.journal().entries.len() < MOST_ENTRIES as usize {
        world.step(alloc, program, step)
    } else {
        Ok(false)
    }
}
