//! Numbers as far as 32 bits have them (`specs/Gathered.antt`).

ghost use Rattle.std.specs.Prelude.{◌≡◌, ◌+◌};
ghost use Rattle.dso_class.specs.Gathered.{capped};

/// A number as far as 32 bits have it: the last of them for one past them, which no text without a fault has.
pub(crate) fn narrow(number: usize) -> u32
    ensures { result ≡ capped number }
{
    u32::try_from(number).unwrap_or(u32::MAX)
}

/// The number behind this one, as far as 32 bits have it.
pub(crate) fn next(number: u32) -> u32
    ensures { result ≡ capped (number + 1) }
{
    number.saturating_add(1)
}
