//! The cells of a program's cluster before its first entry (`specs/ProgramCells.antt`).
ghost use Rattle.std.specs.Prelude.{◌≡◌, [], IfOk};
ghost use Rattle.dso_cell.specs.CellsOfClusters.{CellsStand, cluster_of};
ghost use Rattle.dso_cell.specs.Meetings.{AllKnow};
ghost use Rattle.dso_class.specs.Sound.{IsSoundProgram};
ghost use Rattle.dso_host.specs.ProgramCells.{AreBounded, HaveNoEntry, IsServerBounded};
ghost use Rattle.dso_world.specs.WorldSteps.{settings_of};

use dso_base::NoMemory;
use dso_cell::{ClientCell, ServerCell, cells};
use dso_class::Program;
use std::alloc::Global;

/// All cells of a run of this program: those of the clients by rising number, and the server's. No entry was made, both
/// ends of each connection know all that is in its rings, and each cell is whole and keeps its bounds.
///
/// It answers `NoMemory` where an allocation was refused.
#[tactic(auto, using(crate::proofs::programs::ProgramSettings::client_threads, crate::proofs::programs::ProgramSettings::program_settings, crate::proofs::programs::FirstBounds::new_bounded, crate::proofs::hosts::Begun::new_without_entry, crate::proofs::hosts::Begun::server_without_entry))]
pub fn cells_of(alloc: Global, program: &Program) -> Result<(Vec<ClientCell>, ServerCell), NoMemory>
    requires { IsSoundProgram program.now }
    ensures stand { IfOk result (λ made. CellsStand (cluster_of program.now.code (settings_of program.now) made.0.items made.1.ends.items) made.0.items made.1) }
    ensures known { IfOk result (λ made. AllKnow made.0.items made.1.ends.items) }
    ensures clients { IfOk result (λ made. AreBounded program.now.code made.0.items) }
    ensures server { IfOk result (λ made. IsServerBounded made.1) }
    ensures empty { IfOk result (λ made. HaveNoEntry made.0.items) }
    ensures server_empty { IfOk result (λ made. made.1.log.entries ≡ []) }
{
    cells(
        alloc,
        &program.code,
        program.clients,
        program.resident,
        program.losses.as_slice(),
        program.breaks.as_slice(),
    )
}
