//! The class of maps, which stands behind the classes of a text that makes a map (`specs/Maps.antt`).

ghost use Rattle.std.specs.Prelude.{◌≡◌, ◌++◌, IfOk};
ghost use Rattle.dso_map.specs.MapClass.{map_fields, own_field};
ghost use Rattle.dso_class.specs.Maps.{map_shapes};

use dso_base::{ClassShape, FieldShape, Guard, Items, Kind, NoMemory};
use std::alloc::Global;

/// How many slots a map has, each of which has three fields.
const SLOTS: usize = 256;

/// A field of this kind, which the map's own monitor guards.
fn own(kind: Kind) -> FieldShape
    ensures { result ≡ own_field kind }
{
    FieldShape {
        kind,
        guard: Guard::Own,
    }
}

/// The fields of a map: of each slot whether it was touched, its key and its value; and the size.
#[tactic(auto, using(crate::proofs::maps::MapFields::fields))]
fn fields_of_maps(alloc: Global) -> Result<Items<FieldShape>, NoMemory>
    ensures { IfOk result (λ fields. fields ≡ map_fields) }
{
    let mut fields = Items::new(alloc);
    for _ in 0..SLOTS {
        fields.push(own(Kind::Bool))?;
        fields.push(own(Kind::Long))?;
        fields.push(own(Kind::Ref))?;
    }
    fields.push(own(Kind::Long))?;
    Ok(fields)
}

/// The classes of a text with that of maps behind them, where the text makes a map.
pub(crate) fn with_maps(
    alloc: Global,
    classes: Items<ClassShape>,
    makes_map: bool,
) -> Result<Items<ClassShape>, NoMemory>
    ensures { IfOk result (λ all. all ≡ classes ++ map_shapes makes_map) }
{
    if !makes_map {
        return Ok(classes);
    }
    let mut all = classes;
    let fields = fields_of_maps(alloc)?;
    all.push(ClassShape { fields })?;
    Ok(all)
}
