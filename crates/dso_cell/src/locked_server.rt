//! The server's cell behind a lock (`specs/LockedCells.antt`).
ghost use Rattle.std.specs.Prelude.{◌≡◌, IfOk, None, OnErr, Some, false, is_some, true};
ghost use Rattle.dso_cell.specs.ClientCells.{IsOneMore};
ghost use Rattle.dso_cell.specs.LockedCells.{RunsNamed, ServerStandsFor};

use crate::{Naming, ServerCell};
use dso_base::NoMemory;
use dso_machine::Code;
use std::alloc::Global;
use std::marker::{Model, PhantomData};

/// The server's cell that is spent, or stands in the cluster that `N` names.
#[derive(Drop)]
pub struct LockedServer<N: Naming> {
    cell: ServerCell,
    of: PhantomData<N>,
}

impl<N: Naming> Model for LockedServer<N> {
    ghost use Rattle.std.specs.Prelude.{◌≡◌, None};
    ghost use Rattle.dso_cell.specs.declared.server_cell.ServerCell.{ServerCell};
    ghost use Rattle.dso_cell.specs.contracts.server_cell.ServerCell.{the_row};
    ghost use Rattle.dso_cell.specs.LockedCells.{ServerStandsFor};

    ghost Value = { ServerCell };

    ghost coded = { the_row.coded };

    ghost view = { λ locked. locked.cell };

    ghost invariant = { λ locked. locked.cell.spent ≡ None → ServerStandsFor N.cluster locked.cell };
}

impl<N: Naming> LockedServer<N> {
    /// The cell, to be put behind a lock.
    pub fn new(cell: ServerCell) -> LockedServer<N>
        requires { ServerStandsFor N.cluster cell }
        ensures { result ≡ cell }
    {
        LockedServer {
            cell,
            of: PhantomData,
        }
    }

    /// The cell, out of its lock. It answers `NoMemory` where the cell is spent, and the cell is gone then.
    pub fn into_cell(self) -> Result<ServerCell, NoMemory>
        ensures ok { IfOk result (λ cell. (cell ≡ self) × (cell.spent ≡ None)) }
        ensures stands { IfOk result (ServerStandsFor N.cluster) }
        ensures err { OnErr result (is_some self.spent ≡ true) }
    {
        match self.cell.spent {
            Some(refused) => Err(refused),
            None => Ok(self.cell),
        }
    }

    /// A turn of the cell ([`ServerCell::turn`]), where it isn't spent; whether an entry was added. A cell that is spent
    /// is left alone, and false is answered. Where memory was refused the cell is spent, and false is answered.
    #[tactic(auto, using(crate::proofs::locked::Turns::server_stays_for, crate::proofs::locked::Turns::one_more_or_spent, crate::proofs::locked::Turns::none_where_refused))]
    pub fn turn(&mut self, alloc: Global, code: &Code) -> bool
        requires names { RunsNamed code.now N.cluster }
        ensures more { self.new.spent ≡ None → IsOneMore result self.old.log.entries self.new.log.entries }
        ensures refused { is_some self.old.spent ≡ true → (result ≡ false) × (self.new ≡ self.old) }
    {
        self.cell.turn(alloc, code).unwrap_or(false)
    }
}
