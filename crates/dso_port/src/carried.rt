//! What a ring of one direction carries: frames, as bytes.
ghost use Rattle.std.specs.Prelude.{◌≡◌, List, Some, IfErr, IfOk, OnOk};
ghost use Rattle.dso_base.specs.declared.both.Both.{Both};
ghost use Rattle.dso_session.specs.declared.frame.Frame.{Frame};
ghost use Rattle.dso_wire.specs.Cells.{Cell, bytes_of};
ghost use Rattle.dso_port.specs.Frames.{HasNoBytes, IsSpelling};

use crate::fault::PortFault;
use dso_base::{Both, Data, Down, NoMemory, Up};
use dso_session::Frame;
use dso_wire::{
    WireFault, can_encode_down, can_encode_up, decode_down, decode_up, encode_down, encode_up,
};
use rtrb::Protocol;
use std::alloc::Global;
use std::marker::PhantomData;

/// A message of one way, whose frames go through a ring as bytes.
pub trait Carried: Data + Drop {
    /// It as a message of either way.
    ghost as_both: { Self → Both };

    /// The bytes of a frame of it.
    ghost cells: { Frame Self → List Cell };

    /// Which frames of it are in the grammar.
    ghost is: { Frame Self → Type 0 };

    /// Which frames of it can be spelled.
    ghost can_go: { Frame Self → Type 0 };

    /// It as a message of either way. It takes no memory.
    fn into_both(self) -> Both
        ensures { result ≡ as_both self };

    /// The message of this way, if it is one. It takes no memory.
    fn out_of(both: Both) -> Option<Self>
        ensures { (message : Self) → both ≡ as_both message → result ≡ Some message };

    /// The bytes of the frame. It answers `NoBytes` where the frame has none, and `NoMemory` where an allocation was
    /// refused.
    fn encode(alloc: Global, frame: &Frame<Self>) -> Result<Vec<u8>, PortFault>
        ensures is { OnOk result (is frame.now) }
        ensures bytes { IfOk result (λ bytes. bytes.items ≡ bytes_of (cells frame.now)) }
        ensures fault { IfErr result (HasNoBytes can_go frame.now) };

    /// The frame whose bytes these are. It answers `NoMemory` where an allocation was refused.
    fn decode(alloc: Global, bytes: &[u8]) -> Result<Frame<Self>, NoMemory>
        requires { IsSpelling cells is bytes.now }
        ensures is { IfOk result is }
        ensures bytes { IfOk result (λ frame. bytes.now ≡ bytes_of (cells frame)) };
}

impl Carried for Up {
    ghost use Rattle.dso_base.specs.declared.both.Both.TheVariants as both;
    ghost use Rattle.dso_wire.specs.CanGo.{FrameCanGo, UpCanGo};
    ghost use Rattle.dso_wire.specs.Spelling.{IsUp, IsFrame, up_frame_cells};

    ghost as_both = { both.Up };

    ghost cells = { up_frame_cells };

    ghost is = { IsFrame IsUp };

    ghost can_go = { FrameCanGo UpCanGo };

    fn into_both(self) -> Both {
        Both::Up(self)
    }

    fn out_of(both: Both) -> Option<Up> {
        match both {
            Both::Up(message) => Some(message),
            _ => None,
        }
    }

    fn encode(alloc: Global, frame: &Frame<Up>) -> Result<Vec<u8>, PortFault> {
        if !can_encode_up(frame) {
            return Err(PortFault::NoBytes);
        }
        Ok(encode_up(alloc, frame)?)
    }

    fn decode(alloc: Global, bytes: &[u8]) -> Result<Frame<Up>, NoMemory> {
        match decode_up(alloc, bytes) {
            Ok(frame) => Ok(frame),
            Err(WireFault::NoMemory(refused)) => Err(refused),
            Err(_) => unreachable!(),
        }
    }
}

impl Carried for Down {
    ghost use Rattle.dso_base.specs.declared.both.Both.TheVariants as both;
    ghost use Rattle.dso_wire.specs.CanGo.{FrameCanGo, DownCanGo};
    ghost use Rattle.dso_wire.specs.Spelling.{IsDown, IsFrame, down_frame_cells};

    ghost as_both = { both.Down };

    ghost cells = { down_frame_cells };

    ghost is = { IsFrame IsDown };

    ghost can_go = { FrameCanGo DownCanGo };

    fn into_both(self) -> Both {
        Both::Down(self)
    }

    fn out_of(both: Both) -> Option<Down> {
        match both {
            Both::Down(message) => Some(message),
            _ => None,
        }
    }

    fn encode(alloc: Global, frame: &Frame<Down>) -> Result<Vec<u8>, PortFault> {
        if !can_encode_down(frame) {
            return Err(PortFault::NoBytes);
        }
        Ok(encode_down(alloc, frame)?)
    }

    fn decode(alloc: Global, bytes: &[u8]) -> Result<Frame<Down>, NoMemory> {
        match decode_down(alloc, bytes) {
            Ok(frame) => Ok(frame),
            Err(WireFault::NoMemory(refused)) => Err(refused),
            Err(_) => unreachable!(),
        }
    }
}

/// The protocol of a ring: each item has the bytes of a frame with messages of this way.
pub struct FramesOf<M> {
    of: PhantomData<M>,
}

impl<M: Carried> Protocol<Vec<u8>> for FramesOf<M> {
    ghost use Rattle.dso_port.specs.Frames.{IsSpelling};

    ghost allows = { λ before item. IsSpelling M.cells M.is item.items };
}
