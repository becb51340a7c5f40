//! The law of what goes to a ring. It is the contract of a function that does nothing.
ghost use Rattle.dso_base.specs.declared.both.Both.TheVariants as both;
ghost use Rattle.dso_wire.specs.Spelling.{IsDown, IsFrame, IsUp, down_frame_cells, up_frame_cells};
ghost use Rattle.dso_port.specs.Laws.{GivenGoesOn};

/// Whatever messages an end sent, and whatever frames of them it gave: with those that it gives now they are frames
/// of what it sent, with no more Hellos than it was to greet; and nothing else of the end changes.
pub fn given_goes_on()
    ensures up { GivenGoesOn both.Up up_frame_cells (IsFrame IsUp) }
    ensures down { GivenGoesOn both.Down down_frame_cells (IsFrame IsDown) }
{}
