//! The code of a thread that makes one call of a map. No text of a program names a map, so it is made by hand.
ghost use Rattle.std.specs.Prelude.{◌≡◌, ◌≢◌, ◌∷◌, ℕ, [], All, IfOk, IfSome, None, Some, length, slice_get};
ghost use Rattle.dso_machine.specs.Next.{body_of};
ghost use Rattle.dso_machine.specs.Sound as machine;
ghost use Rattle.map_cases.specs.CallCode.{AreMethods, IsPart, call_shape};
ghost use Rattle.dso_map.specs.MapClass.{map_fields, own_field};

use dso_base::{ClassShape, FieldShape, Guard, Items, Kind, NoMemory, Shape, ThreadId, Value};
use dso_machine::{Arguments, Branch, Code, Expr, Stmt, ThreadBody};
use std::alloc::Global;

/// The class of the objects that are put, which has no field.
pub const OBJECTS: u32 = 0;

/// The class of maps.
pub const MAPS: u32 = 1;

/// How many slots a map has.
const SLOTS: u32 = 256;

/// The thread of the code.
pub const THREAD: ThreadId = ThreadId {
    client: 1,
    index: 1,
};

/// A new map.
#[tactic(auto, using(crate::proofs::Soundness::parts))]
pub fn new_map() -> Expr
    ensures { IsPart result }
{
    Expr::NewObject(MAPS)
}

/// What is called where there is no map.
#[tactic(auto, using(crate::proofs::Soundness::parts))]
pub fn no_map() -> Expr
    ensures { IsPart result }
{
    Expr::Const(Value::Null)
}

/// The code of a thread that prints what the call of this method gives.
#[tactic(auto, using(crate::proofs::Soundness::made))]
pub fn code_of(alloc: Global, map: Expr, method: &str, values: &[Value]) -> Result<Code, NoMemory>
    requires part { IsPart map }
    ensures sound { IfOk result (λ code. machine.IsSoundCode code) }
    ensures there { IfOk result (λ code. body_of (record { client = 1; index = 1 }) code.bodies ≢ None) }
{
    let args = arguments(alloc, values)?;
    let callees = callees(alloc, method, values.len())?;
    let on = Branch::new(alloc, map)?;
    let called = Branch::new(alloc, callees)?;
    let call = Branch::new(alloc, Expr::Call(on, called, args))?;
    let print = Branch::new(alloc, Stmt::Print(call))?;
    let body = one(alloc, print)?;
    let thread = ThreadBody {
        thread: THREAD,
        vars: 0,
        body: Branch::new(alloc, body)?,
    };
    Ok(Code {
        shape: shape(alloc)?,
        methods: Items::new(alloc),
        bodies: one(alloc, thread)?,
    })
}

/// A list of one.
fn one<T: Drop>(alloc: Global, item: T) -> Result<Items<T>, NoMemory>
    ensures { IfOk result (λ items. items ≡ item ∷ []) }
{
    let mut items = Items::new(alloc);
    items.push(item)?;
    Ok(items)
}

/// An argument: a new object for a reference, and for a text the only one of the code.
#[tactic(auto, using(crate::proofs::Soundness::parts))]
fn argument(value: Value) -> Expr
    ensures { IsPart result }
{
    match value {
        Value::Ref(_) => Expr::NewObject(OBJECTS),
        Value::Text(_) => Expr::Const(Value::Text(0)),
        Value::Null => Expr::Const(Value::Null),
        Value::Long(number) => Expr::Const(Value::Long(number)),
        Value::Bool(truth) => Expr::Const(Value::Bool(truth)),
    }
}

/// The arguments.
#[tactic(auto, using(crate::proofs::Soundness::part_pushed))]
fn arguments(alloc: Global, values: &[Value]) -> Result<Arguments, NoMemory>
    ensures parts { IfOk result (λ args. All IsPart args) }
    ensures count { IfOk result (λ args. length args ≡ length values.now) }
{
    let mut args = Items::new(alloc);
    for value in values {
        args.push(Branch::new(alloc, argument(*value))?)?;
    }
    Ok(Branch::new(alloc, args)?)
}

/// The number of the map's method that has this name and so many parameters.
fn number_of(method: &str, count: usize) -> Option<u32>
    ensures { IfSome result (λ number. slice_get machine.map_arguments number ≡ Some count) }
{
    match (method, count) {
        ("get", 1) => Some(0),
        ("has", 1) => Some(1),
        ("size", 0) => Some(2),
        ("put", 2) => Some(3),
        ("remove", 1) => Some(4),
        _ => None,
    }
}

/// The methods that a call of this name may reach, with so many arguments.
fn callees(alloc: Global, method: &str, count: usize) -> Result<Items<(u32, u32)>, NoMemory>
    ensures { IfOk result (λ callees. AreMethods count callees) }
{
    match number_of(method, count) {
        Some(number) => one(alloc, (MAPS, number)),
        None => Ok(Items::new(alloc)),
    }
}

/// Both classes.
fn shape(alloc: Global) -> Result<Shape, NoMemory>
    ensures { IfOk result (λ shape. shape ≡ call_shape) }
{
    let mut classes = one(
        alloc,
        ClassShape {
            fields: Items::new(alloc),
        },
    )?;
    classes.push(ClassShape {
        fields: fields_of_maps(alloc)?,
    })?;
    Ok(Shape {
        classes,
        roots: 0,
        names: 0,
        texts: 1,
    })
}

/// A field of this kind, which the object's own monitor guards.
fn own(kind: Kind) -> FieldShape
    ensures { result ≡ own_field kind }
{
    FieldShape {
        kind,
        guard: Guard::Own,
    }
}

/// The fields of a map.
#[tactic(auto, using(crate::proofs::Soundness::fields))]
fn fields_of_maps(alloc: Global) -> Result<Items<FieldShape>, NoMemory>
    ensures { IfOk result (λ fields. fields ≡ map_fields) }
{
    let mut fields = Items::new(alloc);
    for _ in 0..SLOTS {
        fields.push(own(Kind::Bool))?;
        fields.push(own(Kind::Long))?;
        fields.push(own(Kind::Ref))?;
    }
    fields.push(own(Kind::Long))?;
    Ok(fields)
}
