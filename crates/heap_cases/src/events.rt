//! Events, as `1.1 notify n2 -> done wakes 1.2` or `lost 2`.

use case_words::{reply, request, small, thread};
use dso_base::{Event, Reply, ThreadId};

/// The event of the text, if it is one.
pub fn event_of(text: &str) -> Option<Event> {
    if let Some(client) = text.strip_prefix("lost ") {
        return Some(Event::Lost(small(client)?));
    }
    let (who, act) = text.split_once(' ')?;
    event_by(thread(who)?, act)
}

/// The act of the thread, as `get 1 1 -> val l7`, if it is one.
fn event_by(thread: ThreadId, text: &str) -> Option<Event> {
    let (asked, answer) = text.split_once(" -> ")?;
    let (reply, woken) = reply_and_woken(answer)?;
    Some(Event::Act {
        thread,
        request: request(asked)?,
        reply,
        woken,
    })
}

/// The reply, and the thread that was woken.
fn reply_and_woken(answer: &str) -> Option<(Reply, Option<ThreadId>)> {
    match answer.split_once(" wakes ") {
        Some((told, woken)) => Some((reply(told)?, Some(thread(woken)?))),
        None => Some((reply(answer)?, None)),
    }
}
