//! What a thread did in its turn.
use crate::cause::Cause;
use dso_base::Event;

/// What a thread did in its turn.
#[derive(Clone, Copy, Debug, PartialEq, Eq)]
pub enum Acted {
    /// Its request was answered.
    Event(Event),
    /// It lacks something, and the client asks for it.
    Asked,
    /// It can't go on, for this cause: all was asked for before, or nothing is to be asked.
    Blocked(Cause),
    /// It has ended.
    Over,
}
