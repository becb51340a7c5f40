//! What a client is to log.
ghost use Rattle.std.specs.Prelude.{◌≡◌, None};
ghost use Rattle.dso_base.specs.declared.journal.Input.TheVariants as input;
ghost use Rattle.dso_cell.specs.ClientSteps.{made_of_message, made_of_rejoin};

use dso_base::{Down, Event, Input, Shared};

/// An entry that is to be logged: the clock that was heard with what it takes in, 0 where it takes no message, and
/// its event.
#[derive(Drop)]
pub(crate) struct Made {
    pub(crate) heard: u64,
    pub(crate) input: Input,
    pub(crate) event: Option<Shared<Event>>,
}

impl Made {
    /// A thread acts.
    pub(crate) fn of_act(index: u8, event: Option<Shared<Event>>) -> Made
        ensures { result ≡ record { heard = 0; input = input.Act index; event = event } }
    {
        Made {
            heard: 0,
            input: Input::Act(index),
            event,
        }
    }

    /// A message is taken.
    pub(crate) fn of_message(message: Down, heard: u64) -> Made
        ensures { result ≡ made_of_message message heard }
    {
        Made {
            heard,
            input: Input::TookDown(message),
            event: None,
        }
    }

    /// The connection is taken up again.
    pub(crate) fn of_rejoin(client: u8) -> Made
        ensures { result ≡ made_of_rejoin client }
    {
        Made {
            heard: 0,
            input: Input::Rejoin(client),
            event: None,
        }
    }

    /// An object is flushed.
    pub(crate) fn of_flush(object: u64) -> Made
        ensures { result ≡ record { heard = 0; input = input.Flush object; event = None } }
    {
        Made {
            heard: 0,
            input: Input::Flush(object),
            event: None,
        }
    }
}
