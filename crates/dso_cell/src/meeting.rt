//! The two ends of each client's connection are brought together (`specs/Meetings.antt`).
ghost use Rattle.std.specs.Prelude.{◌≡◌};
ghost use Rattle.dso_port.specs.Ports.{AreTogether, KnowEachOther};
ghost use Rattle.dso_cell.specs.Meetings.{AllKnow, AllTogether, CellLooked, CellsLooked, EndLooked, EndsLooked};

use crate::{ClientCell, ServerEnd};

/// Both ends of a client's connection learn all that is in their rings.
fn meet(cell: &mut ClientCell, end: &mut ServerEnd)
    requires { AreTogether cell.old.port end.old.port }
    ensures know { KnowEachOther cell.new.port end.new.port }
    ensures cell { CellLooked cell.old cell.new }
    ensures end { EndLooked end.old end.new }
{
    cell.port.meet(&mut end.port);
}

/// So do those of all clients.
fn meet_all(cells: &mut [ClientCell], ends: &mut [ServerEnd])
    requires { AllTogether cells.old ends.old }
    ensures know { AllKnow cells.new ends.new }
    ensures cells { CellsLooked cells.old cells.new }
    ensures ends { EndsLooked ends.old ends.new }
{
    match (cells.split_first_mut(), ends.split_first_mut()) {
        (Some((cell, cells)), Some((end, ends))) => {
            meet(cell, end);
            meet_all(cells, ends);
        }
        _ => (),
    }
}

/// So do those of these lists.
pub(crate) fn meet_lists(cells: &mut Vec<ClientCell>, ends: &mut Vec<ServerEnd>)
    requires { AllTogether cells.old.items ends.old.items }
    ensures know { AllKnow cells.new.items ends.new.items }
    ensures cells { CellsLooked cells.old.items cells.new.items }
    ensures ends { EndsLooked ends.old.items ends.new.items }
{
    meet_all(cells.as_mut_slice(), ends.as_mut_slice());
}
