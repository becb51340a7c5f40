//! New objects, as they begin (`dso_base/specs/Block.antt`).
ghost use Rattle.std.specs.Prelude.{◌≡◌, IfOk};
ghost use Rattle.dso_base.specs.Block.{opening_from, opening_body};

use dso_base::{Body, ClassId, Items, NoMemory, Shape, Value};
use std::alloc::Global;

/// The opening values of the first fields of the class.
#[tactic(auto, using(crate::proofs::OpeningValues::opening_more))]
fn opening_values(
    alloc: Global,
    shape: &Shape,
    class: ClassId,
    size: u32,
) -> Result<Vec<Value>, NoMemory>
    ensures { IfOk result (λ values. values.items ≡ opening_from shape.now class 0 size) }
{
    let mut values = Vec::new(alloc);
    for field in 0..size {
        values.push(shape.kind(class, field).opening_value())?;
    }
    Ok(values)
}

/// A new object of this class and size, each field with the opening value of its kind: 0, false, or null for texts and
/// references. It answers `NoMemory` where an allocation was refused.
pub fn opening_body(
    alloc: Global,
    shape: &Shape,
    class: ClassId,
    size: u32,
    object: u64,
) -> Result<Body, NoMemory>
    ensures { IfOk result (λ body. body ≡ opening_body shape.now class size object) }
{
    let values = opening_values(alloc, shape, class, size)?;
    Ok(Body {
        object,
        class,
        values: Items::from_vec(values),
    })
}
