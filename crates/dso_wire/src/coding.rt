//! Frames and records as bytes, both ways (`specs/Spelling.antt`, `specs/Faults.antt`).
ghost use Rattle.std.specs.Prelude.{◌≡◌, ◌↔◌, IfOk, IsTrue, Ok, OnOk};
ghost use Rattle.dso_base.specs.declared.message.Down.{Down};
ghost use Rattle.dso_base.specs.declared.message.Up.{Up};
ghost use Rattle.dso_base.specs.declared.record.Txn.{Txn};
ghost use Rattle.dso_session.specs.declared.frame.Frame.{Frame};
ghost use Rattle.dso_wire.specs.Cells.{bytes_of};
ghost use Rattle.dso_wire.specs.CanGo.{FrameCanGo, UpCanGo, DownCanGo, RecordCanGo};
ghost use Rattle.dso_wire.specs.Faults.{IsAnswer, Means, whole};
ghost use Rattle.dso_wire.specs.Reading.{record_at, up_frame_at, down_frame_at};
ghost use Rattle.dso_wire.specs.Spelling.{IsFrame, IsUp, IsDown, IsRecord, record_cells, up_frame_cells, down_frame_cells};

use crate::fault::WireFault;
use crate::frames::{frame_room, is_frame_encodable, put_frame};
use crate::whole::{whole_frame, whole_record};
use crate::writing::Wire;
use dso_base::{Down, NoMemory, Txn, Up};
use dso_session::Frame;
use std::alloc::Global;

/// Whether [`encode_up`] may be asked for the frame: each list in it has fewer than 2^32 items, and each thread that it names has
/// a client and an index from 1 to 16.
pub fn can_encode_up(frame: &Frame<Up>) -> bool
    ensures { IsTrue result ↔ FrameCanGo UpCanGo frame.now }
{
    is_frame_encodable(frame)
}

/// The bytes of a frame that goes up.
///
/// Each list in it has fewer than 2^32 items, and each thread that it names has a client and an index from 1 to 16. It answers
/// `NoMemory` where an allocation was refused.
pub fn encode_up(alloc: Global, frame: &Frame<Up>) -> Result<Vec<u8>, NoMemory>
    requires { FrameCanGo UpCanGo frame.now }
    ensures bytes { IfOk result (λ bytes. bytes.items ≡ bytes_of (up_frame_cells frame.now)) }
    ensures is { OnOk result (IsFrame IsUp frame.now) }
{
    let mut bytes = Vec::with_capacity(alloc, frame_room(frame))?;
    put_frame(1, frame, &mut bytes)?;
    Ok(bytes)
}

/// The frame that comes up as these bytes.
///
/// It answers the first fault from the front where the bytes are no frame, and `NoMemory` where an allocation was refused.
pub fn decode_up(alloc: Global, bytes: &[u8]) -> Result<Frame<Up>, WireFault>
    ensures means { Means up_frame_cells (IsFrame IsUp) bytes.now result }
    ensures only { (frame : Frame Up) → IsFrame IsUp frame → bytes.now ≡ bytes_of (up_frame_cells frame) → IsAnswer result (Ok frame) }
    ensures exact { IsAnswer result (whole up_frame_at bytes.now) }
{
    whole_frame(alloc, 1, bytes)
}

/// Whether [`encode_down`] may be asked for the frame: each list in it has fewer than 2^32 items, and each thread that it names has
/// a client and an index from 1 to 16.
pub fn can_encode_down(frame: &Frame<Down>) -> bool
    ensures { IsTrue result ↔ FrameCanGo DownCanGo frame.now }
{
    is_frame_encodable(frame)
}

/// The bytes of a frame that goes down.
///
/// Each list in it has fewer than 2^32 items, and each thread that it names has a client and an index from 1 to 16. It answers
/// `NoMemory` where an allocation was refused.
pub fn encode_down(alloc: Global, frame: &Frame<Down>) -> Result<Vec<u8>, NoMemory>
    requires { FrameCanGo DownCanGo frame.now }
    ensures bytes { IfOk result (λ bytes. bytes.items ≡ bytes_of (down_frame_cells frame.now)) }
    ensures is { OnOk result (IsFrame IsDown frame.now) }
{
    let mut bytes = Vec::with_capacity(alloc, frame_room(frame))?;
    put_frame(2, frame, &mut bytes)?;
    Ok(bytes)
}

/// The frame that comes down as these bytes.
///
/// It answers the first fault from the front where the bytes are no frame, and `NoMemory` where an allocation was refused.
pub fn decode_down(alloc: Global, bytes: &[u8]) -> Result<Frame<Down>, WireFault>
    ensures means { Means down_frame_cells (IsFrame IsDown) bytes.now result }
    ensures only { (frame : Frame Down) → IsFrame IsDown frame → bytes.now ≡ bytes_of (down_frame_cells frame) → IsAnswer result (Ok frame) }
    ensures exact { IsAnswer result (whole down_frame_at bytes.now) }
{
    whole_frame(alloc, 2, bytes)
}

/// The bytes of a record.
///
/// Each list in it has fewer than 2^32 items, and each thread that it names has a client and an index from 1 to 16. It answers
/// `NoMemory` where an allocation was refused.
pub fn encode_record(alloc: Global, txn: &Txn) -> Result<Vec<u8>, NoMemory>
    requires { RecordCanGo txn.now }
    ensures bytes { IfOk result (λ bytes. bytes.items ≡ bytes_of (record_cells txn.now)) }
    ensures is { OnOk result (IsRecord txn.now) }
{
    let mut bytes = Vec::with_capacity(alloc, txn.room())?;
    txn.put(&mut bytes)?;
    Ok(bytes)
}

/// The record that the bytes are, with nothing behind it.
///
/// It answers the first fault from the front where the bytes are no record, and `NoMemory` where an allocation was refused.
pub fn decode_record(alloc: Global, bytes: &[u8]) -> Result<Txn, WireFault>
    ensures means { Means record_cells IsRecord bytes.now result }
    ensures only { (txn : Txn) → IsRecord txn → bytes.now ≡ bytes_of (record_cells txn) → IsAnswer result (Ok txn) }
    ensures exact { IsAnswer result (whole record_at bytes.now) }
{
    whole_record(alloc, bytes)
}
