//! What has bytes, and numbers put behind others (`specs/Cells.antt`).
ghost use Rattle.std.specs.Prelude.{◌≡◌, ◌++◌, ◌<◌, ◌^◌, ◌↔◌, List, IsTrue, OnOk, FitsSigned};
ghost use Rattle.std.specs.Int.{w32, w64};
ghost use Rattle.dso_wire.specs.Cells.{Cell, bytes_of, number};
ghost use Rattle.dso_wire.specs.Spelling.{signed_cells};
ghost use Rattle.dso_wire.specs.Reading.{Gives, Reader};

use crate::fault::ReadFault;
use std::alloc::{AllocError, Global};

/// What goes over a connection.
pub(crate) trait Wire {
    /// Its bytes.
    ghost cells: { Self → List Cell };

    /// How it is read.
    ghost reading: { Reader Self };

    /// What it needs to have bytes: its lists aren't too long, its threads are numbered as threads are.
    ghost can_go: { Self → Type 0 };

    /// What it is, also that its numbers are those of its type.
    ghost is: { Self → Type 0 };

    /// Whether it has what it needs.
    fn is_encodable(&self) -> bool
        ensures { IsTrue result ↔ can_go self.now };

    /// How many bytes it takes. Nothing rests on it but that the bytes of a whole frame take one allocation.
    fn room(&self) -> usize;

    /// Puts its bytes at the end of others.
    fn put(&self, bytes: &mut Vec<u8>) -> Result<(), AllocError>
        requires { can_go self.now }
        ensures spelled { OnOk result (bytes.new.items ≡ bytes.old.items ++ bytes_of (cells self.now)) }
        ensures is { OnOk result (is self.now) };

    /// Takes it from the front of bytes.
    fn take(alloc: Global, bytes: &[u8]) -> Result<(Self, &[u8]), ReadFault>
        ensures { Gives (λ x. (x.0, x.1.now)) result (reading bytes.now) };
}

/// Puts a number in four bytes at the end of others.
pub(crate) fn put_u32(n: u32, bytes: &mut Vec<u8>) -> Result<(), AllocError>
    ensures spelled { OnOk result (bytes.new.items ≡ bytes.old.items ++ bytes_of (number w32 n)) }
    ensures is { n < 2 ^ 32 }
{
    bytes.extend_from_slice(&n.to_be_bytes())
}

/// Puts a number in eight bytes at the end of others.
pub(crate) fn put_u64(n: u64, bytes: &mut Vec<u8>) -> Result<(), AllocError>
    ensures spelled { OnOk result (bytes.new.items ≡ bytes.old.items ++ bytes_of (number w64 n)) }
    ensures is { n < 2 ^ 64 }
{
    bytes.extend_from_slice(&n.to_be_bytes())
}

/// Puts a long in eight bytes at the end of others.
pub(crate) fn put_i64(n: i64, bytes: &mut Vec<u8>) -> Result<(), AllocError>
    ensures spelled { OnOk result (bytes.new.items ≡ bytes.old.items ++ bytes_of (signed_cells n)) }
    ensures is { FitsSigned w64 n }
{
    bytes.extend_from_slice(&n.to_be_bytes())
}
