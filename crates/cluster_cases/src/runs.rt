//! Runs of a program by round robin and by seeds.
ghost use Rattle.dso_class.specs.Sound.{IsSoundProgram};
ghost use Rattle.dso_world.specs.WorldStands.{WorldStands};

use crate::shown::{shown_refusal, shown_world};
use crate::stepping::{MOST_ENTRIES, take};
use case_programs::Case;
use dso_base::NoMemory;
use dso_class::Program;
use dso_world::World;
use std::alloc::Global;

/// How many seeds are tried.
const SEEDS: u64 = 100;

/// How many numbers stand in a configuration in the place of `K`, from 0 on.
const NUMBERS: u64 = 61;

/// How a run ended.
#[derive(Clone, Copy, Debug)]
enum Ending {
    Finished,
    Stuck,
    Unfinished,
}

/// A row for round robin.
pub fn by_round_robin(alloc: Global, name: &str, case: Case<'_>) -> Result<String, NoMemory> {
    match case.program(alloc)? {
        Some(program) => run_row(alloc, name, &program, None),
        None => shown_refusal(alloc, name),
    }
}

/// A row for round robin and for each seed.
pub fn by_seeds(alloc: Global, name: &str, case: Case<'_>) -> Result<String, NoMemory> {
    match case.program(alloc)? {
        Some(program) => seed_rows(alloc, name, &program),
        None => shown_refusal(alloc, name),
    }
}

/// Two rows for each number in the place of `K` in the configuration: by round robin, and by the number as seed.
pub fn by_numbers(alloc: Global, name: &str, case: Case<'_>) -> Result<String, NoMemory> {
    let mut rows = String::new(alloc);
    for number in 0..NUMBERS {
        let rest = numbered_rows(alloc, name, case, number)?;
        rows.push_str(rest.as_str())?;
    }
    Ok(rows)
}

/// A row for round robin and for each seed.
fn seed_rows(alloc: Global, name: &str, program: &Program) -> Result<String, NoMemory>
    requires { IsSoundProgram program.now }
{
    let mut rows = run_row(alloc, name, program, None)?;
    for seed in 0..SEEDS {
        let row = run_row(alloc, name, program, Some(seed))?;
        rows.push_str(row.as_str())?;
    }
    Ok(rows)
}

/// The rows for a number in the place of `K` in the configuration.
fn numbered_rows(
    alloc: Global,
    name: &str,
    case: Case<'_>,
    number: u64,
) -> Result<String, NoMemory> {
    let name = format!(in alloc; "{name} after {number}")?;
    let number_text = format!(in alloc; "{number}")?;
    let config = case.config.replace(alloc, "K", number_text.as_str())?;
    match case.under(config.as_str()).program(alloc)? {
        Some(program) => both_rows(alloc, name.as_str(), &program, number),
        None => shown_refusal(alloc, name.as_str()),
    }
}

/// A row for round robin, and one for the seed.
fn both_rows(alloc: Global, name: &str, program: &Program, seed: u64) -> Result<String, NoMemory>
    requires { IsSoundProgram program.now }
{
    let mut rows = run_row(alloc, name, program, None)?;
    let row = run_row(alloc, name, program, Some(seed))?;
    rows.push_str(row.as_str())?;
    Ok(rows)
}

/// The row of a run by round robin or by the seed.
fn run_row(
    alloc: Global,
    name: &str,
    program: &Program,
    seed: Option<u64>,
) -> Result<String, NoMemory>
    requires { IsSoundProgram program.now }
{
    let mut world = World::new(alloc, program)?;
    let ending = run(alloc, program, &mut world, seed)?;
    let left = shown_world(alloc, &world)?;
    let row = match seed {
        Some(seed) => format!(in alloc; "{name}, seed {seed}: {ending:?}, {left}\n")?,
        None => format!(in alloc; "{name}, round robin: {ending:?}, {left}\n")?,
    };
    Ok(row)
}

/// Runs the cluster to its end.
fn run(
    alloc: Global,
    program: &Program,
    world: &mut World,
    seed: Option<u64>,
) -> Result<Ending, NoMemory>
    requires sound { IsSoundProgram program.now }
    requires stands { WorldStands program.now world.old }
{
    for _turn in 0..MOST_ENTRIES {
        if world.finished() {
            return Ok(Ending::Finished);
        }
        let Some(step) = world.choose(seed) else {
            return Ok(Ending::Stuck);
        };
        take(alloc, program, world, step)?;
    }
    Ok(Ending::Unfinished)
}
