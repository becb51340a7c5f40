//! Lists as bytes: a count, and so many items (`specs/Spelling.antt`).
ghost use Rattle.std.specs.Prelude.{◌≡◌, ◌++◌, ◌↔◌, All, IsTrue, OnOk};
ghost use Rattle.std.specs.List.{flat_map};
ghost use Rattle.dso_wire.specs.Cells.{bytes_of, listed};
ghost use Rattle.dso_wire.specs.CanGo.{ListCanGo};
ghost use Rattle.dso_wire.specs.Spelling.{IsList};
ghost use Rattle.dso_wire.specs.Reading.{Gives, items_at, list_at};

use crate::fault::ReadFault;
use crate::reading::u32_of;
use crate::writing::{Wire, put_u32};
use dso_base::Items;
use std::alloc::{AllocError, Global};

impl<T: Wire + Drop> Wire for Items<T> {
    ghost cells = { listed T.cells };

    ghost reading = { list_at T.reading };

    ghost can_go = { ListCanGo T.can_go };

    ghost is = { IsList T.is };

    fn is_encodable(&self) -> bool {
        (self.len() as u64) < 1 << 32 && are_encodable(self.as_slice())
    }

    fn room(&self) -> usize {
        room_of(self.as_slice()).saturating_add(4)
    }

    fn put(&self, bytes: &mut Vec<u8>) -> Result<(), AllocError> {
        put_u32(self.len() as u32, bytes)?;
        put_each(self.as_slice(), bytes)?;
        Ok(())
    }

    fn take(alloc: Global, bytes: &[u8]) -> Result<(Self, &[u8]), ReadFault> {
        let (count, rest) = u32_of(bytes)?;
        let (items, rest) = take_each(alloc, count, rest)?;
        Ok((Items::from_vec(items), rest))
    }
}

/// Whether each item has what it needs to have bytes.
fn are_encodable<T: Wire>(items: &[T]) -> bool
    ensures { IsTrue result ↔ All T.can_go items.now }
{
    for item in items {
        if !item.is_encodable() {
            return false;
        }
    }
    true
}

/// How many bytes the items take.
fn room_of<T: Wire>(items: &[T]) -> usize {
    let mut room = 0usize;
    for item in items {
        room = room.saturating_add(item.room());
    }
    room
}

/// Puts each item, one behind the other.
fn put_each<T: Wire>(items: &[T], bytes: &mut Vec<u8>) -> Result<(), AllocError>
    requires { All T.can_go items.now }
    ensures spelled { OnOk result (bytes.new.items ≡ bytes.old.items ++ flat_map (λ item. bytes_of (T.cells item)) items.now) }
    ensures is { OnOk result (All T.is items.now) }
{
    for item in items {
        item.put(bytes)?;
    }
    Ok(())
}

/// Takes so many items from the front.
///
/// Each item has a byte at least, so that there is room for no more items than there are bytes.
fn take_each<T: Wire + Drop>(
    alloc: Global,
    count: u32,
    bytes: &[u8],
) -> Result<(Vec<T>, &[u8]), ReadFault>
    ensures { Gives (λ x. (x.0.items, x.1.now)) result (items_at T.reading count bytes.now) }
{
    let mut items = Vec::with_capacity(alloc, (count as usize).min(bytes.len()))?;
    let mut rest = bytes;
    for _ in 0..count {
        let (item, after) = T::take(alloc, rest)?;
        items.push(item)?;
        rest = after;
    }
    Ok((items, rest))
}
