//! The collections of a run (`specs/Collecting.antt`).
ghost use Rattle.std.specs.Prelude.{◌≡◌, false, IfOk, OnOk};
ghost use Rattle.dso_class.specs.declared.program.Program.{Program};
ghost use Rattle.dso_class.specs.Sound.{IsSoundProgram};
ghost use Rattle.dso_command_line.specs.Words.{IsInterval};
ghost use Rattle.dso_run.specs.Collecting.{Collects};
ghost use Rattle.dso_world.specs.Collections.{IsSomeWorld};
ghost use Rattle.dso_world.specs.WorldStands.{WorldStands, is_spent, journal_of};

use dso_base::NoMemory;
use dso_world::World;
use std::alloc::Global;

/// Makes a collection where one is due, by how many entries there are to be to each, and tells how many objects it swept: where
/// the journal's length is a multiple of that number.
///
/// `NoMemory` is answered where an allocation was refused. The journal stays as it was, whatever is answered.
pub(crate) fn collect_if_due(
    alloc: Global,
    world: &mut World,
    interval: Option<u64>,
) -> Result<u64, NoMemory>
    requires interval { IsInterval interval }
    requires stands { IsSomeWorld world.old }
    requires whole { is_spent world.old ≡ false }
    ensures collected { IfOk result (λ count. (program : Program) → IsSoundProgram program → WorldStands program world.old
        → Collects program interval count world.old world.new) }
    ensures stands { (program : Program) → IsSoundProgram program → WorldStands program world.old → WorldStands program world.new }
    ensures whole { OnOk result (is_spent world.new ≡ false) }
    ensures journal { journal_of world.new ≡ journal_of world.old }
{
    let Some(interval) = interval else {
        return Ok(0);
    };
    let entries = world.journal().entries.len() as u64;
    if entries % interval == 0 {
        world.collect(alloc)
    } else {
        Ok(0)
    }
}
