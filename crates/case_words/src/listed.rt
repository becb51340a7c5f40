//! Which replies are listed for a request.

ghost use Rattle.std.specs.Prelude.{◌↔◌, IsTrue};
ghost use Rattle.dso_base.specs.declared.request.Reply.TheVariants as reply;
ghost use Rattle.dso_base.specs.Following.{IsListed};

use dso_base::{Fault, Reply, Request, Value};

/// Whether the reply is one of those that are listed for the request.
pub fn is_listed(request: Request, reply: Reply) -> bool
    ensures { IsTrue result ↔ IsListed request reply }
{
    match reply {
        Reply::Done => !matches!(
            request,
            Request::New(..) | Request::Look(_) | Request::Get(..) | Request::Tick(_)
        ),
        Reply::Made(_) => matches!(request, Request::New(..)),
        Reply::Seen(..) => matches!(request, Request::Look(_)),
        Reply::Val(value) => may_tell(request, value),
        Reply::Local => matches!(request, Request::Enter(..)),
        Reply::Refused(fault) => may_refuse(request, fault),
    }
}

/// Whether the request may be answered with this value: a field's, or whether a waiting thread was woken.
fn may_tell(request: Request, value: Value) -> bool
    ensures { IsTrue result ↔ IsListed request (reply.Val value) }
{
    match request {
        Request::Get(..) => true,
        Request::Tick(_) => matches!(value, Value::Bool(_)),
        Request::Timeout(_) => matches!(value, Value::Bool(true)),
        _ => false,
    }
}

/// Whether the request may be refused so.
fn may_refuse(request: Request, fault: Fault) -> bool
    ensures { IsTrue result ↔ IsListed request (reply.Refused fault) }
{
    match request {
        Request::Put(..) => matches!(
            fault,
            Fault::UnlockedSharedObject | Fault::WrongLock | Fault::ReadOnly
        ),
        Request::Enter(..) => matches!(fault, Fault::LockUpgrade),
        Request::Wait(_) | Request::Notify(_) | Request::NotifyAll(_) => {
            matches!(fault, Fault::IllegalMonitor)
        }
        _ => false,
    }
}
