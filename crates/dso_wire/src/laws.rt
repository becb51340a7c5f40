//! The laws of the wire (`specs/Laws.antt`). Each is the contract of a function that does nothing.
ghost use Rattle.dso_session.specs.declared.frame.Frame.{Frame};
ghost use Rattle.dso_base.specs.declared.message.Down.{Down};
ghost use Rattle.dso_base.specs.declared.message.Up.{Up};
ghost use Rattle.dso_base.specs.declared.record.Txn.{Txn};
ghost use Rattle.dso_wire.specs.CanGo.{FrameCanGo, UpCanGo, DownCanGo, RecordCanGo};
ghost use Rattle.dso_wire.specs.Laws.{IsOneToOne, IsShort};
ghost use Rattle.dso_wire.specs.Spelling.{IsFrame, IsUp, IsDown, IsRecord, record_cells, up_frame_cells, down_frame_cells};

/// Two frames in the grammar of one direction, or two records in the grammar, that have the same bytes are one.
pub fn one_frame()
    ensures up { IsOneToOne up_frame_cells (IsFrame IsUp) }
    ensures down { IsOneToOne down_frame_cells (IsFrame IsDown) }
    ensures record_too { IsOneToOne record_cells IsRecord }
{}

/// What was decoded can be encoded.
pub fn decoded_can_go()
    ensures up { (frame : Frame Up) → IsFrame IsUp frame → FrameCanGo UpCanGo frame }
    ensures down { (frame : Frame Down) → IsFrame IsDown frame → FrameCanGo DownCanGo frame }
    ensures record_too { (txn : Txn) → IsRecord txn → RecordCanGo txn }
{}

/// A record has at most 36 bytes, and 17 for each object published, 21 for each value, 12 for each notification.
pub fn record_length()
    ensures { (txn : Txn) → IsShort txn }
{}
