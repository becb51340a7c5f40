//! A message of the server, taken (`specs/TakenMessages.antt`).
ghost use Rattle.std.specs.Prelude.{◌≡◌, IfOk, map};
ghost use Rattle.dso_machine.specs.declared.code.Code.{Code};
ghost use Rattle.dso_client.specs.ThreadActs.{KeepsCounts};
ghost use Rattle.dso_client.specs.ContextPlaces.{running};
ghost use Rattle.dso_client.specs.TakenMessages.{Takes};

use crate::client_state::ClientState;
use crate::due_lease::settle;
use crate::message_effect::{hear, touched};
use crate::message_fit::fits_down;
use dso_base::{Down, NoMemory, Shape, Up};
use std::alloc::Global;

/// Takes a message, and answers what is sent. One that doesn't fit changes and sends nothing.
///
/// It answers `NoMemory` where an allocation was refused.
pub(crate) fn take(
    alloc: Global,
    kept: &mut ClientState,
    shape: &Shape,
    message: &Down,
) -> Result<Vec<Up>, NoMemory>
    ensures takes { IfOk result (λ sent. (code : Code) → code.shape ≡ shape.now → Takes code message.now kept.old kept.new sent.items) }
    ensures runs { map running kept.new.contexts.items ≡ map running kept.old.contexts.items }
    ensures counts { KeepsCounts kept.old kept.new }
    ensures spent { kept.new.spent ≡ kept.old.spent }
{
    if !fits_down(kept, shape, message) {
        return Ok(Vec::new(alloc));
    }
    let lock = touched(kept, message);
    hear(alloc, kept, message)?;
    settle(alloc, kept, lock)
}
