//! Sets of numbers below 64: a bit of a word for each.
ghost use Rattle.std.specs.Int.{bit_at};
ghost use Rattle.std.specs.Prelude.{◌≡◌, ◌≢◌, ◌<◌, ◌^◌, ℕ};

/// These with one more; the same where it isn't below 64.
pub(crate) fn with_bit(word: u64, bit: u32) -> u64
    ensures here { bit < 64 → bit_at result bit ≡ 1 }
    ensures others { (i : ℕ) → bit_at word i ≡ 1 → bit_at result i ≡ 1 }
{
    if bit < 64 { word | (1 << bit) } else { word }
}

/// These without that one.
pub(crate) fn without_bit(word: u64, bit: u32) -> u64
    ensures here { bit < 64 → bit_at result bit ≡ 0 }
    ensures others { (i : ℕ) → i < 64 → i ≢ bit → bit_at result i ≡ bit_at word i }
    ensures fewer { bit < 64 → bit_at word bit ≡ 1 → result < word }
{
    if bit < 64 { word & !(1 << bit) } else { word }
}

/// The first of these.
pub(crate) fn first_bit(word: u64) -> u32
    requires { word ≢ 0 }
    ensures within { result < 64 }
    ensures there { bit_at word result ≡ 1 }
{
    word.trailing_zeros()
}
