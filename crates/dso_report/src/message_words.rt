//! How a journal's text writes messages: bodies, sets, notifications, endings, records (`specs/JournalText.antt`).
ghost use Rattle.dso_report.specs.JournalText.{body_words, set_words, choice_words, note_words, ending_words, record_words, up_words, down_words};

use crate::journal_words::end_number;
use crate::written::{Written, put_behind};
use dso_base::{Body, Choice, Down, Ending, Note, Set, Txn, Up};
use std::alloc::AllocError;

impl Written for Body {
    ghost words = { body_words };

    fn put(&self, text: &mut Vec<u8>) -> Result<(), AllocError> {
        self.object.put(text)?;
        put_behind(text, b" ", &self.class)?;
        put_behind(text, b" ", &self.values)
    }
}

impl Written for Set {
    ghost words = { set_words };

    fn put(&self, text: &mut Vec<u8>) -> Result<(), AllocError> {
        self.object.put(text)?;
        put_behind(text, b" ", &self.field)?;
        put_behind(text, b" ", &self.value)
    }
}

impl Written for Choice {
    ghost words = { choice_words };

    fn put(&self, text: &mut Vec<u8>) -> Result<(), AllocError> {
        match self {
            Choice::Here(thread) => put_behind(text, b"here ", thread),
            Choice::There => text.extend_from_slice(b"there"),
            Choice::All => text.extend_from_slice(b"all"),
        }
    }
}

impl Written for Note {
    ghost words = { note_words };

    fn put(&self, text: &mut Vec<u8>) -> Result<(), AllocError> {
        self.lock.put(text)?;
        put_behind(text, b" ", &self.choice)
    }
}

impl Written for Ending {
    ghost words = { ending_words };

    fn put(&self, text: &mut Vec<u8>) -> Result<(), AllocError> {
        match self {
            Ending::Exit(lock) => put_behind(text, b"exit ", lock),
            Ending::Wait(lock) => put_behind(text, b"wait ", lock),
            Ending::End(fault) => put_behind(text, b"end ", &end_number(*fault)),
            Ending::Timeout(lock) => put_behind(text, b"timeout ", lock),
        }
    }
}

impl Written for Txn {
    ghost words = { record_words };

    fn put(&self, text: &mut Vec<u8>) -> Result<(), AllocError> {
        self.seq.put(text)?;
        put_behind(text, b" ", &self.thread)?;
        put_behind(text, b" new ", &self.news)?;
        put_behind(text, b" set ", &self.sets)?;
        put_behind(text, b" out ", &self.outs)?;
        put_behind(text, b" note ", &self.notes)?;
        put_behind(text, b" ", &self.ending)
    }
}

impl Written for Up {
    ghost words = { up_words };

    fn put(&self, text: &mut Vec<u8>) -> Result<(), AllocError> {
        match self {
            Up::IdAsk => text.extend_from_slice(b"idask"),
            Up::Fault(object) => put_behind(text, b"fault ", object),
            Up::Flushed(object) => put_behind(text, b"flushed ", object),
            Up::Request(lock, level) => {
                put_behind(text, b"request ", lock)?;
                put_behind(text, b" ", level)
            }
            Up::Return(lock, waiters) => {
                put_behind(text, b"return ", lock)?;
                put_behind(text, b" ", waiters)
            }
            Up::Commit(txn) => put_behind(text, b"commit ", txn.get()),
        }
    }
}

impl Written for Down {
    ghost words = { down_words };

    fn put(&self, text: &mut Vec<u8>) -> Result<(), AllocError> {
        match self {
            Down::Ids(first) => put_behind(text, b"ids ", first),
            Down::Object(body) => put_behind(text, b"object ", body.get()),
            Down::Grant(lock, level) => {
                put_behind(text, b"grant ", lock)?;
                put_behind(text, b" ", level)
            }
            Down::Recall(lock) => put_behind(text, b"recall ", lock),
            Down::Ack(seq) => put_behind(text, b"ack ", seq),
            Down::Changes(sets) => put_behind(text, b"changes ", sets),
            Down::Wake(lock, thread) => {
                put_behind(text, b"wake ", lock)?;
                put_behind(text, b" ", thread)
            }
        }
    }
}
