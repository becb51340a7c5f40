//! Steps that are drawn, open or not.
ghost use Rattle.dso_class.specs.Sound.{IsSoundProgram};
ghost use Rattle.dso_world.specs.WorldStands.{WorldStands};

use crate::draws::{drawn_step, moved_on};
use crate::shown::{shown_refusal, shown_world};
use crate::stepping::take;
use case_programs::Case;
use case_words::{count, first_of, number};
use dso_base::NoMemory;
use dso_class::Program;
use dso_world::World;
use std::alloc::Global;

/// Steps that are drawn: from which seed, and how many.
#[derive(Clone, Copy)]
struct Draws {
    seed: u64,
    count: u32,
}

/// How many steps made an entry, and at how many of them that was told before.
#[derive(Clone, Copy)]
struct Tally {
    made: u32,
    told: u32,
}

impl Tally {
    /// With a step more, of which was told whether it is open.
    fn with(self, is_open: bool, is_made: bool) -> Tally {
        Tally {
            made: self.made.saturating_add(u32::from(is_made)),
            told: self.told.saturating_add(u32::from(is_open == is_made)),
        }
    }
}

/// The row of a walk: `SEED COUNT NAME`.
pub fn by_draws(alloc: Global, text: &str, case: Case<'_>) -> Result<String, NoMemory> {
    let (seed, rest) = first_of(text);
    let (steps, name) = first_of(rest);
    let draws = Draws {
        seed: number(seed).unwrap_or(0),
        count: count(steps).unwrap_or(0),
    };
    match case.program(alloc)? {
        Some(program) => walk_row(alloc, name, &program, draws),
        None => shown_refusal(alloc, name),
    }
}

/// The row of a walk of a program.
fn walk_row(alloc: Global, name: &str, program: &Program, draws: Draws) -> Result<String, NoMemory>
    requires { IsSoundProgram program.now }
{
    let mut world = World::new(alloc, program)?;
    let Tally { made, told } = walk(alloc, program, &mut world, draws)?;
    let left = shown_world(alloc, &world)?;
    let steps = draws.count;
    let row = format!(in alloc; "{name}: {steps} steps, {made} made, {told} told, {left}\n")?;
    Ok(row)
}

/// Tries each step that is drawn.
fn walk(
    alloc: Global,
    program: &Program,
    world: &mut World,
    draws: Draws,
) -> Result<Tally, NoMemory>
    requires sound { IsSoundProgram program.now }
    requires stands { WorldStands program.now world.old }
{
    let mut seed = draws.seed;
    let mut tally = Tally { made: 0, told: 0 };
    for _draw in 0..draws.count {
        seed = moved_on(seed);
        let step = drawn_step(seed);
        let is_open = world.enabled(step);
        let is_made = take(alloc, program, world, step)?;
        tally = tally.with(is_open, is_made);
    }
    Ok(tally)
}
