//! Frames put at the end of other bytes, and read from the front (`specs/Spelling.antt`).
ghost use Rattle.std.specs.Prelude.{◌≡◌, ◌++◌, ◌↔◌, IsTrue, OnOk};
ghost use Rattle.dso_wire.specs.Cells.{bytes_of};
ghost use Rattle.dso_wire.specs.CanGo.{FrameCanGo};
ghost use Rattle.dso_wire.specs.Spelling.{IsFrame, carry_cells, hello_cells, frame_cells};
ghost use Rattle.dso_wire.specs.Reading.{Gives, carry_at, hello_at, frame_at};

use crate::fault::{ReadFault, Wrong};
use crate::reading::{u32_of, u64_of};
use crate::writing::{Wire, put_u32, put_u64};
use dso_session::Frame;
use std::alloc::{AllocError, Global};

/// What stands at the head of a frame that carries a message.
#[derive(Clone, Copy, Debug)]
struct Head {
    epoch: u32,
    number: u64,
    seen: u64,
    clock: u64,
}

/// Puts a message with the byte of its direction and its head at the end of other bytes.
fn put_carry<M: Wire>(
    direction: u8,
    head: Head,
    message: &M,
    bytes: &mut Vec<u8>,
) -> Result<(), AllocError>
    requires { M.can_go message.now }
    ensures spelled { OnOk result (bytes.new.items ≡ bytes.old.items ++ bytes_of (carry_cells direction head.epoch head.number head.seen head.clock (M.cells message.now))) }
    ensures is { OnOk result (M.is message.now) }
{
    bytes.push(direction)?;
    put_u32(head.epoch, bytes)?;
    put_u64(head.number, bytes)?;
    put_u64(head.seen, bytes)?;
    put_u64(head.clock, bytes)?;
    message.put(bytes)?;
    Ok(())
}

/// Puts a Hello at the end of other bytes.
fn put_hello(epoch: u32, seen: u64, clock: u64, bytes: &mut Vec<u8>) -> Result<(), AllocError>
    ensures spelled { OnOk result (bytes.new.items ≡ bytes.old.items ++ bytes_of (hello_cells epoch seen clock)) }
{
    bytes.push(3)?;
    put_u32(epoch, bytes)?;
    put_u64(seen, bytes)?;
    put_u64(clock, bytes)?;
    Ok(())
}

/// Whether a frame has what it needs to have bytes.
pub(crate) fn is_frame_encodable<M: Wire>(frame: &Frame<M>) -> bool
    ensures { IsTrue result ↔ FrameCanGo M.can_go frame.now }
{
    match frame {
        Frame::Carry { message, .. } => message.is_encodable(),
        Frame::Hello { .. } => true,
    }
}

/// How many bytes a frame takes.
pub(crate) fn frame_room<M: Wire>(frame: &Frame<M>) -> usize {
    match frame {
        Frame::Carry { message, .. } => message.room().saturating_add(29),
        Frame::Hello { .. } => 21,
    }
}

/// Puts a frame at the end of other bytes.
pub(crate) fn put_frame<M: Wire>(
    direction: u8,
    frame: &Frame<M>,
    bytes: &mut Vec<u8>,
) -> Result<(), AllocError>
    requires { FrameCanGo M.can_go frame.now }
    ensures spelled { OnOk result (bytes.new.items ≡ bytes.old.items ++ bytes_of (frame_cells direction M.cells frame.now)) }
    ensures is { OnOk result (IsFrame M.is frame.now) }
{
    match frame {
        Frame::Carry {
            epoch,
            number,
            seen,
            clock,
            message,
        } => {
            let head = Head {
                epoch: *epoch,
                number: *number,
                seen: *seen,
                clock: *clock,
            };
            put_carry(direction, head, message, bytes)
        }
        Frame::Hello { epoch, seen, clock } => put_hello(*epoch, *seen, *clock, bytes),
    }
}

/// A message with its head, from the front.
#[tactic(auto, unfolding(crate::specs::Reading::carry_at))]
fn carry_of<M: Wire + Drop>(alloc: Global, bytes: &[u8]) -> Result<(Frame<M>, &[u8]), ReadFault>
    ensures { Gives (λ x. (x.0, x.1.now)) result (carry_at M.reading bytes.now) }
{
    let (epoch, rest) = u32_of(bytes)?;
    let (number, rest) = u64_of(rest)?;
    let (seen, rest) = u64_of(rest)?;
    let (clock, rest) = u64_of(rest)?;
    let (message, rest) = M::take(alloc, rest)?;
    let frame = Frame::Carry {
        epoch,
        number,
        seen,
        clock,
        message,
    };
    Ok((frame, rest))
}

/// A Hello, from the front.
#[tactic(auto, unfolding(crate::specs::Reading::hello_at))]
fn hello_of<M: Drop>(bytes: &[u8]) -> Result<(Frame<M>, &[u8]), ReadFault>
    ensures { Gives (λ x. (x.0, x.1.now)) result (hello_at bytes.now) }
{
    let (epoch, rest) = u32_of(bytes)?;
    let (seen, rest) = u64_of(rest)?;
    let (clock, rest) = u64_of(rest)?;
    let frame = Frame::Hello { epoch, seen, clock };
    Ok((frame, rest))
}

/// A frame with the byte of its direction, from the front.
#[tactic(auto, unfolding(crate::specs::Reading::frame_at))]
pub(crate) fn frame_of<M: Wire + Drop>(
    alloc: Global,
    direction: u8,
    bytes: &[u8],
) -> Result<(Frame<M>, &[u8]), ReadFault>
    ensures { Gives (λ x. (x.0, x.1.now)) result (frame_at direction M.reading bytes.now) }
{
    match bytes {
        [] => Err(ReadFault::Wrong(Wrong::Short)),
        [first, rest @ ..] => {
            if *first == direction {
                carry_of(alloc, rest)
            } else if *first == 3 {
                hello_of(rest)
            } else {
                Err(ReadFault::Wrong(Wrong::Tag(bytes.len())))
            }
        }
    }
}
