//! An epoch of the cells of a cluster: each behind its lock, driven by workers in threads of their own.
ghost use Rattle.std.specs.Prelude.{ℕ, ◌≡◌, ◌<◌, ◌^◌, IfOk, length, vec_len};
ghost use Rattle.dso_cell.specs.LockedCells.{RunsNamed};
ghost use Rattle.dso_host.specs.HostStates.{CellsStandFor, ClientsStandFor};
ghost use Rattle.dso_machine.specs.Sound.{IsSoundCode};

use crate::worker::{LockedNode, Worker};
use crate::{Cells, Gate, Setting};
use dso_base::NoMemory;
use dso_cell::{ClientCell, LockedClient, LockedServer, Naming};
use std::alloc::Global;
use std::sync::{Mutex, Wait};
use std::thread;
use std::thread::Threads;

/// The clients' cells behind locks.
fn lock_all<N: Naming>(
    alloc: Global,
    cells: Vec<ClientCell>,
) -> Result<Vec<Mutex<LockedClient<N>>>, NoMemory>
    requires { ClientsStandFor N.cluster 1 cells.items }
    ensures { IfOk result (λ nodes. vec_len nodes ≡ length cells.items) }
{
    let mut nodes = Vec::new(alloc);
    for cell in cells {
        nodes.push(Mutex::new(LockedClient::new(cell)))?;
    }
    Ok(nodes)
}

/// The cells out of their locks.
fn unlock_all<N: Naming>(
    alloc: Global,
    nodes: Vec<Mutex<LockedClient<N>>>,
) -> Result<Vec<ClientCell>, NoMemory>
    requires { vec_len nodes < 2 ^ 8 }
    ensures stand { IfOk result (λ cells. ClientsStandFor N.cluster 1 cells.items) }
    ensures count { IfOk result (λ cells. length cells.items ≡ vec_len nodes) }
{
    let mut cells = Vec::new(alloc);
    for node in nodes {
        let number = cells.len() as u8 + 1;
        cells.push(node.into_inner().into_cell(number)?)?;
    }
    Ok(cells)
}

/// Each worker makes its turns, in a thread of its own.
fn drive<N: Naming + Send + Sync, R: Threads + Wait + Sync, G: Gate>(
    setting: &Setting<'_, R, G>,
    workers: &mut [Worker],
    clients: &[Mutex<LockedClient<N>>],
    server: &Mutex<LockedServer<N>>,
)
    requires sound { IsSoundCode setting.now.program.now.code }
    requires names { RunsNamed setting.now.program.now.code N.cluster }
{
    let count = workers.len();
    if count == 0 {
        return;
    }
    let Setting {
        rt,
        alloc,
        program,
        gate,
        busy,
    } = *setting;
    thread::for_each_mut(
        rt,
        workers,
        count,
        &|_, worker: &mut Worker|
            requires { IsSoundCode program.now.code × RunsNamed program.now.code N.cluster }
        {
            let setting = Setting {
                rt,
                alloc,
                program,
                gate,
                busy,
            };
            work_at(&setting, worker, clients, server);
        },
    );
}

/// The worker makes its turns at its own node.
fn work_at<N: Naming, R: Wait, G: Gate>(
    setting: &Setting<'_, R, G>,
    worker: &mut Worker,
    clients: &[Mutex<LockedClient<N>>],
    server: &Mutex<LockedServer<N>>,
)
    requires sound { IsSoundCode setting.now.program.now.code }
    requires names { RunsNamed setting.now.program.now.code N.cluster }
{
    if worker.node == 0 {
        worker.work(setting, &LockedNode::Server(server));
    } else if let Some(cell) = clients.get(worker.node as usize - 1) {
        worker.work(setting, &LockedNode::Client(worker.node, cell));
    }
}

/// An epoch of the cells that `N` names: they are behind locks while the workers make their turns.
///
/// It answers `NoMemory` where an allocation was refused, in a turn too.
pub(crate) fn run_cells<N: Naming + Send + Sync, R: Threads + Wait + Sync, G: Gate>(
    setting: &Setting<'_, R, G>,
    workers: &mut Vec<Worker>,
    cells: Cells,
) -> Result<Cells, NoMemory>
    requires sound { IsSoundCode setting.now.program.now.code }
    requires names { RunsNamed setting.now.program.now.code N.cluster }
    requires stand { CellsStandFor N.cluster cells }
    requires few { length cells.clients.items < 2 ^ 8 }
    ensures { IfOk result (CellsStandFor N.cluster) }
{
    let Cells { clients, server } = cells;
    let clients = lock_all::<N>(setting.alloc, clients)?;
    let server = Mutex::new(LockedServer::<N>::new(server));
    drive(setting, workers.as_mut_slice(), clients.as_slice(), &server);
    let clients = unlock_all(setting.alloc, clients)?;
    let server = server.into_inner().into_cell()?;
    Ok(Cells { clients, server })
}
