//! Numbers read from the front (`specs/Reading.antt`).
ghost use Rattle.std.specs.Prelude.{◌≡◌};
ghost use Rattle.std.specs.Int.{w32, w64};
ghost use Rattle.dso_wire.specs.Reading.{Gives, number_at, ranged_at};

use crate::fault::{ReadFault, Wrong};

/// A number in four bytes, and what is behind it.
pub(crate) fn u32_of(bytes: &[u8]) -> Result<(u32, &[u8]), ReadFault>
    ensures { Gives (λ x. (x.0, x.1.now)) result (number_at w32 bytes.now) }
{
    if bytes.len() < 4 {
        return Err(ReadFault::Wrong(Wrong::Short));
    }
    let (front, rest) = bytes.split_at(4);
    let number = u32::from_be_bytes([front[0], front[1], front[2], front[3]]);
    Ok((number, rest))
}

/// A number in eight bytes, and what is behind it.
pub(crate) fn u64_of(bytes: &[u8]) -> Result<(u64, &[u8]), ReadFault>
    ensures { Gives (λ x. (x.0, x.1.now)) result (number_at w64 bytes.now) }
{
    if bytes.len() < 8 {
        return Err(ReadFault::Wrong(Wrong::Short));
    }
    let (front, rest) = bytes.split_at(8);
    let number = u64::from_be_bytes([
        front[0], front[1], front[2], front[3], front[4], front[5], front[6], front[7],
    ]);
    Ok((number, rest))
}

/// A byte from `low` to `high`, and what is behind it.
pub(crate) fn ranged_of(low: u8, high: u8, bytes: &[u8]) -> Result<(u8, &[u8]), ReadFault>
    ensures { Gives (λ x. (x.0, x.1.now)) result (ranged_at low high bytes.now) }
{
    match bytes {
        [] => Err(ReadFault::Wrong(Wrong::Short)),
        [byte, rest @ ..] => {
            if low <= *byte && *byte <= high {
                Ok((*byte, rest))
            } else {
                Err(ReadFault::Wrong(Wrong::Range(bytes.len())))
            }
        }
    }
}
