//! A client's cell behind a lock (`specs/LockedCells.antt`).
ghost use Rattle.std.specs.Prelude.{◌≡◌, ◌≢◌, ◌≤◌, ◌⊎◌, IfOk, None, OnErr, Some, false, is_some, true};
ghost use Rattle.dso_cell.specs.ClientCells.{IsAhead, IsOneMore};
ghost use Rattle.dso_cell.specs.LockedCells.{ClientStandsFor, RunsNamed};
ghost use Rattle.dso_machine.specs.Sound.{IsSoundCode};

use crate::refusal::of_spent;
use crate::{ClientCell, Naming};
use dso_base::NoMemory;
use dso_machine::Code;
use std::alloc::Global;
use std::marker::{Model, PhantomData};

/// A client's cell that is spent, or stands in the cluster that `N` names. What a lock gives back is known by its type
/// alone, so the type says it. It doesn't say of which client the cell is.
#[derive(Drop)]
pub struct LockedClient<N: Naming> {
    cell: ClientCell,
    of: PhantomData<N>,
}

impl<N: Naming> Model for LockedClient<N> {
    ghost use Rattle.std.specs.Prelude.{◌≡◌, None};
    ghost use Rattle.dso_cell.specs.declared.client_cell.ClientCell.{ClientCell};
    ghost use Rattle.dso_cell.specs.contracts.client_cell.ClientCell.{the_row};
    ghost use Rattle.dso_cell.specs.LockedCells.{ClientStandsFor};

    ghost Value = { ClientCell };

    ghost coded = { the_row.coded };

    ghost view = { λ locked. locked.cell };

    ghost invariant = { λ locked. locked.cell.spent ≡ None → ClientStandsFor N.cluster locked.cell };
}

impl<N: Naming> LockedClient<N> {
    /// The cell, to be put behind a lock.
    pub fn new(cell: ClientCell) -> LockedClient<N>
        requires { ClientStandsFor N.cluster cell }
        ensures { result ≡ cell }
    {
        LockedClient {
            cell,
            of: PhantomData,
        }
    }

    /// The cell, out of its lock, as that of the client of this number. It answers `NoMemory` where the cell is spent,
    /// and where it is of another number; the cell is gone then.
    pub fn into_cell(self, number: u8) -> Result<ClientCell, NoMemory>
        ensures ok { IfOk result (λ cell. (cell ≡ self) × (cell.number ≡ number) × (cell.spent ≡ None)) }
        ensures stands { IfOk result (ClientStandsFor N.cluster) }
        ensures err { OnErr result ((is_some self.spent ≡ true) ⊎ (self.number ≢ number)) }
    {
        if let Some(refused) = self.cell.spent {
            return Err(refused);
        }
        if self.cell.number != number {
            return Err(of_spent());
        }
        Ok(self.cell)
    }

    /// A turn of the cell ([`ClientCell::turn`]), where it is of the client of this number and isn't spent; whether an
    /// entry was added. A cell of another number and one that is spent are left alone, and false is answered; and so
    /// where a thread is to act whose client is ahead of the server, which lets it answer first. Where memory was
    /// refused the cell is spent, and false is answered.
    #[tactic(auto, using(crate::proofs::locked::Turns::client_stays_for, crate::proofs::locked::Turns::one_more_or_spent, crate::proofs::locked::Turns::none_where_refused))]
    pub fn turn(&mut self, alloc: Global, code: &Code, number: u8, worker: u8) -> bool
        requires sound { IsSoundCode code.now }
        requires names { RunsNamed code.now N.cluster }
        ensures more { self.new.spent ≡ None → IsOneMore result self.old.log.entries self.new.log.entries }
        ensures other { self.old.number ≢ number → (result ≡ false) × (self.new ≡ self.old) }
        ensures ahead { 1 ≤ worker → IsAhead self.old.core → (result ≡ false) × (self.new ≡ self.old) }
        ensures refused { is_some self.old.spent ≡ true → (result ≡ false) × (self.new ≡ self.old) }
        ensures number { self.new.number ≡ self.old.number }
    {
        if self.cell.number() != number {
            return false;
        }
        if worker != 0 && self.cell.is_ahead() {
            return false;
        }
        self.cell.turn(alloc, code, worker).unwrap_or(false)
    }
}
