//! Which replies are offered to a request.
use dso_base::{ClassId, Fault, Reply, Request, Value};
use dso_plain::Plain;

/// The replies that are offered behind the one that tells of the heap, in their order.
pub(crate) const PLAIN_REPLIES: &[Reply] = &[
    Reply::Done,
    Reply::Local,
    Reply::Refused(Fault::UnlockedSharedObject),
    Reply::Refused(Fault::WrongLock),
    Reply::Refused(Fault::ReadOnly),
    Reply::Refused(Fault::LockUpgrade),
    Reply::Refused(Fault::IllegalMonitor),
    Reply::Val(Value::Bool(false)),
];

/// The reply to a request that tells of the heap: of a tick or a timeout that the thread was woken; Done to any other.
/// A new object gets this id.
pub(crate) fn told(plain: &Plain, id: u64, request: Request) -> Reply {
    match request {
        Request::New(..) => Reply::Made(id),
        Request::Look(object) => seen(plain, object),
        Request::Get(object, field) => {
            Reply::Val(plain.value(object, field).unwrap_or(Value::Null))
        }
        Request::Tick(_) | Request::Timeout(_) => Reply::Val(Value::Bool(true)),
        _ => Reply::Done,
    }
}

/// The class and the size of an object.
fn seen(plain: &Plain, object: u64) -> Reply {
    match plain.object(object) {
        Some(object) => Reply::Seen(object.class, object.size),
        None => Reply::Seen(ClassId::Roots, 0),
    }
}
