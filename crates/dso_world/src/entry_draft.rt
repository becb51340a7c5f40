//! What a node makes an entry of.
ghost use Rattle.std.specs.Prelude.{◌≡◌};

use dso_base::{Event, Input, Shared};

/// The clock of the message that was heard, 0 where none was; what the node took in; and the event of a thread.
#[derive(Drop)]
pub struct EntryDraft {
    pub heard: u64,
    pub input: Input,
    pub event: Option<Shared<Event>>,
}

impl EntryDraft {
    /// The node takes something in, and no thread has an event.
    pub(crate) fn of(heard: u64, input: Input) -> EntryDraft
        ensures { result ≡ record { heard = heard; input = input; event = None } }
    {
        EntryDraft {
            heard,
            input,
            event: None,
        }
    }
}
