//! How a journal's text writes events: requests and replies (`specs/JournalText.antt`).
ghost use Rattle.std.specs.Prelude.{◌≡◌, ◌++◌, OnOk};
ghost use Rattle.dso_report.specs.JournalText.{request_words, reply_words, woken_words, event_words};

use crate::journal_words::{end_number, fault_number};
use crate::written::{Written, put_behind};
use dso_base::{Event, Reply, Request, ThreadId};
use std::alloc::AllocError;

impl Written for Request {
    ghost words = { request_words };

    fn put(&self, text: &mut Vec<u8>) -> Result<(), AllocError> {
        match self {
            Request::New(class, size) => {
                put_behind(text, b"new ", class)?;
                put_behind(text, b" ", size)
            }
            Request::Look(object) => put_behind(text, b"look ", object),
            Request::Get(object, field) => {
                put_behind(text, b"get ", object)?;
                put_behind(text, b" ", field)
            }
            Request::Put(object, field, value) => {
                put_behind(text, b"put ", object)?;
                put_behind(text, b" ", field)?;
                put_behind(text, b" ", value)
            }
            Request::Enter(lock, level) => {
                put_behind(text, b"enter ", lock)?;
                put_behind(text, b" ", level)
            }
            Request::Exit(lock) => put_behind(text, b"exit ", lock),
            Request::Wait(lock) => put_behind(text, b"wait ", lock),
            Request::Tick(lock) => put_behind(text, b"tick ", lock),
            Request::Timeout(lock) => put_behind(text, b"timeout ", lock),
            Request::Resume(lock) => put_behind(text, b"resume ", lock),
            Request::Notify(lock) => put_behind(text, b"notify ", lock),
            Request::NotifyAll(lock) => put_behind(text, b"notifyall ", lock),
            Request::Print(value) => put_behind(text, b"print ", value),
            Request::End(fault) => put_behind(text, b"end ", &end_number(*fault)),
            Request::Pause => text.extend_from_slice(b"pause"),
            Request::Settle => text.extend_from_slice(b"settle"),
        }
    }
}

impl Written for Reply {
    ghost words = { reply_words };

    fn put(&self, text: &mut Vec<u8>) -> Result<(), AllocError> {
        match self {
            Reply::Done => text.extend_from_slice(b"done"),
            Reply::Made(object) => put_behind(text, b"made ", object),
            Reply::Seen(class, size) => {
                put_behind(text, b"seen ", class)?;
                put_behind(text, b" ", size)
            }
            Reply::Val(value) => put_behind(text, b"val ", value),
            Reply::Local => text.extend_from_slice(b"local"),
            Reply::Refused(fault) => put_behind(text, b"refused ", &fault_number(*fault)),
        }
    }
}

impl Written for Event {
    ghost words = { event_words };

    fn put(&self, text: &mut Vec<u8>) -> Result<(), AllocError> {
        match self {
            Event::Act {
                request,
                reply,
                woken,
                ..
            } => {
                request.put(text)?;
                put_behind(text, b" ", reply)?;
                put_woken(text, *woken)
            }
            Event::Lost(client) => put_behind(text, b"lost ", client),
        }
    }
}

/// Puts the thread that was woken at the end, where one was.
fn put_woken(text: &mut Vec<u8>, woken: Option<ThreadId>) -> Result<(), AllocError>
    ensures { OnOk result (text.new.items ≡ text.old.items ++ woken_words woken) }
{
    match woken {
        None => Ok(()),
        Some(thread) => put_behind(text, b" woke ", &thread),
    }
}
