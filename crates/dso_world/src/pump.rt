//! What goes from an end of a connection into its channel, and out of a channel to an end (`specs/Link.antt`).
ghost use Rattle.std.specs.Prelude.{◌≡◌, ◌++◌, OnOk, drop};
ghost use Rattle.dso_session.specs.Ends.{IsInOrder};
ghost use Rattle.dso_world.specs.Link.{after_first, emptied, first_answer, gives};

use dso_base::{Data, NoMemory};
use dso_session::{Accepted, Frame, Session};
use std::collections::VecDeque;

/// Every frame that the end can give goes to the channel. It answers `NoMemory` where an allocation was refused. It
/// costs a step for each frame.
pub(crate) fn pump<M: Data + Drop>(
    end: &mut Session<M>,
    channel: &mut VecDeque<Frame<M>>,
) -> Result<(), NoMemory>
    requires { IsInOrder end.old }
    ensures frames { OnOk result (channel.new.items ≡ channel.old.items ++ gives end.old) }
    ensures end { OnOk result (end.new ≡ emptied end.old) }
    ensures order { IsInOrder end.new }
{
    while let Some(frame) = end.next_frame()? {
        channel.push_back(frame)?;
    }
    Ok(())
}

/// The end takes the first frame of the channel, and what it makes of it is answered. It takes no memory.
#[tactic(auto, using(crate::proofs::links::Order::order_after))]
pub(crate) fn take_first<M: Data + Drop>(
    end: &mut Session<M>,
    channel: &mut VecDeque<Frame<M>>,
) -> Option<Accepted<M>>
    requires { IsInOrder end.old }
    ensures answer { result ≡ first_answer channel.old.items end.old }
    ensures end { end.new ≡ after_first channel.old.items end.old }
    ensures rest { channel.new.items ≡ drop 1 channel.old.items }
    ensures order { IsInOrder end.new }
{
    match channel.pop_front() {
        Some(frame) => Some(end.accept(frame)),
        None => None,
    }
}
