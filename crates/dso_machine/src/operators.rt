//! What the operators give, and the small questions that the machine asks of values, classes and indices.
ghost use Rattle.std.specs.Prelude.{◌≡◌, int_div, int_rem};
ghost use Rattle.dso_machine.specs.Calls as calls;
ghost use Rattle.dso_machine.specs.Expressions as expressions;
ghost use Rattle.dso_machine.specs.Outcome as outcome;
ghost use Rattle.dso_machine.specs.Values as values;

use dso_base::{Fault, Grade, Kind, Level, Op, Value, fits};

/// What a binary operator gives, `&&` and `||` aside.
///
/// `==` and `!=` take any values, the others longs.
pub(crate) fn binary(op: Op, left: Value, right: Value) -> Result<Value, Fault>
    ensures { result ≡ values.binary op left right }
{
    match (op, left, right) {
        (Op::Eq, _, _) => Ok(Value::Bool(same(left, right))),
        (Op::Ne, _, _) => Ok(Value::Bool(!same(left, right))),
        (_, Value::Long(left), Value::Long(right)) => binary_longs(op, left, right),
        _ => Err(Fault::BadValue),
    }
}

/// What a unary operator gives: `!` takes a boolean, the minus sign a long.
#[tactic(auto, using(crate::proofs::values::Arithmetic::negation_wraps))]
pub(crate) fn unary(op: Op, operand: Value) -> Result<Value, Fault>
    ensures { result ≡ values.unary op operand }
{
    match (op, operand) {
        (Op::Not, Value::Bool(truth)) => Ok(Value::Bool(!truth)),
        (Op::Neg, Value::Long(number)) => Ok(Value::Long(number.wrapping_neg())),
        _ => Err(Fault::BadValue),
    }
}

/// Whether two values are of one kind and have one content.
#[tactic(auto, using(crate::proofs::values::Tests::same_are_equal))]
fn same(left: Value, right: Value) -> bool
    ensures { result ≡ values.is_same left right }
{
    left == right
}

/// What an operator gives between two longs. Sums, differences and products wrap.
fn binary_longs(op: Op, left: i64, right: i64) -> Result<Value, Fault>
    ensures { result ≡ values.binary_longs op left right }
{
    match op {
        Op::Add => Ok(Value::Long(left.wrapping_add(right))),
        Op::Sub => Ok(Value::Long(left.wrapping_sub(right))),
        Op::Mul => Ok(Value::Long(left.wrapping_mul(right))),
        Op::Div => quotient(left, right),
        Op::Rem => remainder(left, right),
        Op::Lt => Ok(Value::Bool(left < right)),
        Op::Le => Ok(Value::Bool(left <= right)),
        Op::Gt => Ok(Value::Bool(left > right)),
        Op::Ge => Ok(Value::Bool(left >= right)),
        Op::Eq | Op::Ne | Op::And | Op::Or | Op::Not | Op::Neg => Err(Fault::BadValue),
    }
}

/// The quotient, truncated toward zero. The least long divided by -1 wraps: it is the least long.
fn quotient(dividend: i64, divisor: i64) -> Result<Value, Fault>
    ensures { result ≡ values.unless_zero divisor (values.wrapped (int_div dividend divisor)) }
{
    if divisor == 0 {
        return Err(Fault::ZeroDivide);
    }
    Ok(Value::Long(dividend.wrapping_div(divisor)))
}

/// The remainder, with the sign of the dividend.
#[tactic(auto, using(crate::proofs::values::Arithmetic::remainder_wraps))]
fn remainder(dividend: i64, divisor: i64) -> Result<Value, Fault>
    ensures { result ≡ values.unless_zero divisor (values.wrapped (int_rem dividend divisor)) }
{
    if divisor == 0 {
        return Err(Fault::ZeroDivide);
    }
    Ok(Value::Long(dividend.wrapping_rem(divisor)))
}

/// Whether a field of this kind takes the value.
#[tactic(auto, using(crate::proofs::values::Tests::takes_what_fits))]
pub(crate) fn takes(kind: Kind, value: Value) -> bool
    ensures { result ≡ values.takes kind value }
{
    fits(kind, value)
}

/// The index as a place below the size, None where it isn't one.
pub(crate) fn within(index: i64, size: u32) -> Option<u32>
    ensures { result ≡ expressions.within index size }
{
    match u32::try_from(index) {
        Ok(place) if place < size => Some(place),
        _ => None,
    }
}

/// The number that the list has for the class, the first one; None where it has none.
pub(crate) fn lookup(places: &[(u32, u32)], class: u32) -> Option<u32>
    ensures { result ≡ calls.lookup places.now class }
{
    for place in places {
        if place.0 == class {
            return Some(place.1);
        }
    }
    None
}

/// At which level a lock is entered.
pub(crate) fn level_of(grade: Grade) -> Level
    ensures { result ≡ outcome.level_of grade }
{
    match grade {
        Grade::Read => Level::Read,
        Grade::Write | Grade::Synchronous => Level::Write,
    }
}
