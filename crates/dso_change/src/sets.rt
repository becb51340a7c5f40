//! Tables of sets, by object and field (`dso_base/specs/Block.antt`).
ghost use Rattle.std.specs.Prelude.{◌≡◌, OnOk, OnErr};
ghost use Rattle.dso_base.specs.Block.{insert_set};
ghost use Rattle.dso_change.specs.Hands.{sets_of};

use dso_base::{NoMemory, Set, Value};
use std::collections::BTreeMap;

/// Puts a set in its place, instead of an earlier one of the same field. It answers `NoMemory` where an allocation was
/// refused, and nothing is changed then.
pub(crate) fn insert_set(sets: &mut BTreeMap<(u64, u32), Value>, set: Set) -> Result<(), NoMemory>
    ensures ok { OnOk result (sets_of sets.new ≡ insert_set set (sets_of sets.old)) }
    ensures err { OnErr result (sets_of sets.new ≡ sets_of sets.old) }
{
    sets.insert((set.object, set.field), set.value)?;
    Ok(())
}
