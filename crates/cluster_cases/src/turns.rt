//! Turns of the cells of clients, among those of their cluster (`specs/Bounds.antt`).
ghost use Rattle.cluster_cases.specs.Bounds.{ClientKeeps, ClientsKeep};
ghost use Rattle.dso_machine.specs.Sound.{IsSoundCode};

use dso_base::NoMemory;
use dso_cell::{ClientCell, ServerCell};
use dso_machine::Code;
use std::alloc::Global;

/// The highest index of a thread.
const MOST_THREADS: u8 = 16;

/// How many entries a turn added. One that answered `NoMemory` added none.
pub fn added(turn: Result<bool, NoMemory>) -> u64 {
    u64::from(turn.unwrap_or(false))
}

/// The cell of the client of this number makes a turn; where there is none, no entry is added.
pub fn client_turn(
    alloc: Global,
    code: &Code,
    cells: &mut [ClientCell],
    number: u8,
    worker: u8,
) -> Result<bool, NoMemory>
    requires sound { IsSoundCode code.now }
    requires keep { ClientsKeep code.now cells.old }
    ensures { ClientsKeep code.now cells.new }
{
    let Some((cell, rest)) = cells.split_first_mut() else {
        return Ok(false);
    };
    if cell.number() == number {
        cell.turn(alloc, code, worker)
    } else {
        client_turn(alloc, code, rest, number, worker)
    }
}

/// The pump and each thread of a cell make a turn: how many added an entry.
fn each_turn(alloc: Global, code: &Code, cell: &mut ClientCell) -> u64
    requires sound { IsSoundCode code.now }
    requires keeps { ClientKeeps code.now cell.old }
    ensures { ClientKeeps code.now cell.new }
{
    let mut count = 0_u64;
    for worker in 0..=MOST_THREADS {
        count = count.saturating_add(added(cell.turn(alloc, code, worker)));
    }
    count
}

/// So they do of each of these cells.
pub fn all_turns(alloc: Global, code: &Code, cells: &mut [ClientCell]) -> u64
    requires sound { IsSoundCode code.now }
    requires keep { ClientsKeep code.now cells.old }
    ensures { ClientsKeep code.now cells.new }
{
    let Some((cell, rest)) = cells.split_first_mut() else {
        return 0;
    };
    let count = each_turn(alloc, code, cell);
    count.saturating_add(all_turns(alloc, code, rest))
}

/// How many of the cells are spent.
pub fn spent_count(clients: &[ClientCell], server: &ServerCell) -> u64 {
    let mut count = u64::from(server.is_spent());
    for cell in clients {
        count = count.saturating_add(u64::from(cell.is_spent()));
    }
    count
}
