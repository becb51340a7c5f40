//! What stands at the keys of a table (`specs/Keys.antt`).

ghost use Rattle.std.specs.Prelude.{◌≡◌, ◌≤◌, IfOk, IfErr, option_copied, option_map, option_and_then};
ghost use Rattle.toml.specs.View.{table_view, view};
ghost use Rattle.toml.specs.Data.{get_member};
ghost use Rattle.dso_config.specs.Keys as spec;
ghost use Rattle.dso_config.specs.Keys.{IsSaid, IsTold, value_fault};
ghost use Rattle.dso_config.specs.declared.fault.ConfigFault.TheVariants as fault;

use crate::{ConfigFault, Section, Spot};
use toml::{Table, Value};

/// Whether the section has this key.
fn is_known(section: Section, key: &str) -> bool
    ensures { result ≡ spec.is_known section key.now }
{
    match section {
        Section::Top => is_known_at_top(key),
        Section::Root => key == "field",
        Section::Autolock => key == "method" || key == "level",
        Section::NamedLock => key == "name" || key == "method" || key == "level",
        Section::Guard => key == "field" || key == "lock",
        Section::Lose | Section::Break => key == "client" || key == "after",
    }
}

/// Whether this key may stand at the top.
fn is_known_at_top(key: &str) -> bool
    ensures { result ≡ spec.is_known Section.Top key.now }
{
    key == "clients"
        || key == "resident"
        || key == "root"
        || key == "autolock"
        || key == "named_lock"
        || key == "guard"
        || key == "lose"
        || key == "break"
}

/// Whether each key of the table is one of the section.
pub fn has_known_keys(table: &Table, section: Section) -> bool
    ensures { result ≡ spec.has_known_keys section (table_view table.now) }
{
    'members: for (key, _value) in table.iter() {
        if !is_known(section, key.as_str()) {
            return false;
        }
    }
    true
}

/// The value at a key, None where the key is absent.
pub fn value_at<'a>(table: &'a Table, key: &str) -> Option<&'a Value>
    ensures { option_map (λ value. view value.now) result ≡ get_member key.now (table_view table.now) }
{
    table.get(key)
}

/// The text at a key, None where there is none.
pub fn text_at<'a>(table: &'a Table, key: &str) -> Option<&'a str>
    ensures { option_copied result ≡ spec.text_at key.now (table_view table.now) }
{
    match value_at(table, key) {
        Some(value) => value.as_str(),
        None => None,
    }
}

/// The number at a key, None where there is none.
pub fn number_at(table: &Table, key: &str) -> Option<i64>
    ensures { result ≡ spec.number_at key.now (table_view table.now) }
{
    match value_at(table, key) {
        Some(value) => value.as_integer(),
        None => None,
    }
}

/// The number, where it is in this range.
fn in_range(number: i64, least: u64, most: u64) -> Option<u64>
    ensures { result ≡ spec.in_range least most number }
{
    match u64::try_from(number) {
        Ok(number) if least <= number && number <= most => Some(number),
        _ => None,
    }
}

/// The number that a value is, in this range; WrongKind where it is of another kind, OutOfRange where it is another number.
pub fn number(value: Option<i64>, least: u64, most: u64, spot: Spot) -> Result<u64, ConfigFault>
    ensures ok { IfOk result (IsSaid (option_and_then (spec.in_range least most) value)
        (value_fault spot (fault.OutOfRange spot) (spec.in_range least most) value)) }
    ensures least { IfOk result (λ number. least ≤ number) }
    ensures most { IfOk result (λ number. number ≤ most) }
    ensures err { IfErr result (IsTold (value_fault spot (fault.OutOfRange spot) (spec.in_range least most) value)) }
{
    match value {
        Some(number) => in_range(number, least, most).ok_or(ConfigFault::OutOfRange(spot)),
        None => Err(ConfigFault::WrongKind(spot)),
    }
}
