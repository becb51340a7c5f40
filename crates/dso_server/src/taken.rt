//! What becomes of a message, and the number of its kind (`specs/Tags.antt`).
ghost use Rattle.std.specs.Prelude.{◌≡◌};
ghost use Rattle.dso_server.specs.Tags.{tag_of};

use dso_base::Up;

/// Whether the server took the message of a client.
#[derive(Clone, Copy, Debug, PartialEq, Eq)]
pub enum Taken {
    /// It fits and was done.
    Done,
    /// The client was lost before: nothing changed.
    Gone,
    /// The message, of the kind of this number, doesn't fit: its client, which wasn't lost before, is lost.
    BadMessage(u8),
}

/// The number of a message's kind, as the wire has it.
pub(crate) fn tag(message: &Up) -> u8
    ensures { result ≡ tag_of message.now }
{
    match message {
        Up::IdAsk => 1,
        Up::Fault(_) => 2,
        Up::Flushed(_) => 3,
        Up::Request(..) => 4,
        Up::Return(..) => 5,
        Up::Commit(_) => 6,
    }
}
