//! The laws of connections (`specs/Laws.antt`). Each is the contract of a function that does nothing.
ghost use Rattle.dso_session.specs.Laws.{GivenUpOnce, KeepsSent};

/// Whatever happens to an end, the messages that it sent are those sent before and those that it sends now, and each frame that
/// goes to the channel carries the message of its number.
pub fn frames_carry_what_was_sent<M>()
    ensures { KeepsSent M }
{}

/// Whichever frames of the other end come, in whatever order and however often, with whatever lost or broken between: what an
/// end gives up are the messages that the other end sent, in order and once.
pub fn given_up_once<M>()
    ensures { GivenUpOnce M }
{}
