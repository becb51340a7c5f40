//! What a field holds (`specs/Held.antt`).
ghost use Rattle.std.specs.Prelude.{◌≡◌};
ghost use Rattle.dso_report.specs.Held.{number_in};

use dso_base::Value;

/// The number that a field holds; 0 where it holds none.
pub(crate) fn number_in(held: Option<Value>) -> i64
    ensures { result ≡ number_in held }
{
    match held {
        Some(Value::Long(number)) => number,
        _ => 0,
    }
}
