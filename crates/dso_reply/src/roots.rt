//! Whether an assignment binds a root (`specs/Replies.antt`).

ghost use Rattle.std.specs.Prelude.{◌≡◌};
ghost use Rattle.dso_reply.specs.Replies as replies;

use dso_base::{Reply, Value};

/// What an assignment to a root does, by what the root was read as.
#[derive(Clone, Copy, Debug, PartialEq, Eq)]
pub enum Binding {
    /// It binds the root, which was null.
    Binds,
    /// It changes nothing: the root is bound.
    Stays,
    /// The reply isn't one that is wanted.
    Unwanted,
}

/// What an assignment does after this reply to the reading of its root.
pub fn binding_of(reply: Reply) -> Binding
    ensures { result ≡ replies.binding_of reply }
{
    match reply {
        Reply::Val(Value::Null) => Binding::Binds,
        Reply::Val(_) => Binding::Stays,
        _ => Binding::Unwanted,
    }
}
