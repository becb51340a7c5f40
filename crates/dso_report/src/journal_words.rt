//! The words of a journal's text: nodes, threads, locks, levels, classes, values and faults
//! (`specs/JournalWords.antt`).
ghost use Rattle.std.specs.Prelude.{◌≡◌};
ghost use Rattle.dso_report.specs.JournalWords.{node_word, thread_word, lock_word, level_word, class_word, value_word, fault_number, end_number};

use crate::value_texts::{push_kind, push_long};
use crate::written::{Written, put_behind};
use dso_base::{ClassId, Fault, Level, LockName, Node, ThreadId, Value};
use std::alloc::AllocError;

impl Written for Node {
    ghost words = { node_word };

    fn put(&self, text: &mut Vec<u8>) -> Result<(), AllocError> {
        match self {
            Node::Server => text.extend_from_slice(b"s"),
            Node::Client(client) => put_behind(text, b"c", client),
        }
    }
}

impl Written for ThreadId {
    ghost words = { thread_word };

    fn put(&self, text: &mut Vec<u8>) -> Result<(), AllocError> {
        self.client.put(text)?;
        put_behind(text, b".", &self.index)
    }
}

impl Written for LockName {
    ghost words = { lock_word };

    fn put(&self, text: &mut Vec<u8>) -> Result<(), AllocError> {
        match self {
            LockName::Mon(object) => put_behind(text, b"m", object),
            LockName::Name(name) => put_behind(text, b"n", name),
        }
    }
}

impl Written for Level {
    ghost words = { level_word };

    fn put(&self, text: &mut Vec<u8>) -> Result<(), AllocError> {
        match self {
            Level::Read => text.extend_from_slice(b"read"),
            Level::Write => text.extend_from_slice(b"write"),
        }
    }
}

impl Written for ClassId {
    ghost words = { class_word };

    fn put(&self, text: &mut Vec<u8>) -> Result<(), AllocError> {
        match self {
            ClassId::Plain(class) => put_behind(text, b"k", class),
            ClassId::Array(kind) => {
                text.extend_from_slice(b"a")?;
                push_kind(text, *kind)
            }
            ClassId::Roots => text.extend_from_slice(b"roots"),
        }
    }
}

impl Written for Value {
    ghost words = { value_word };

    fn put(&self, text: &mut Vec<u8>) -> Result<(), AllocError> {
        match self {
            Value::Null => text.extend_from_slice(b"null"),
            Value::Long(number) => push_long(text, *number),
            Value::Bool(true) => text.extend_from_slice(b"true"),
            Value::Bool(false) => text.extend_from_slice(b"false"),
            Value::Text(literal) => put_behind(text, b"t", literal),
            Value::Ref(object) => put_behind(text, b"r", object),
        }
    }
}

/// The number of a fault.
pub(crate) fn fault_number(fault: Fault) -> u64
    ensures { result ≡ fault_number fault }
{
    match fault {
        Fault::NullPointer => 1,
        Fault::NoSuchField => 2,
        Fault::BadValue => 3,
        Fault::BadIndex => 4,
        Fault::BadSize => 5,
        Fault::ZeroDivide => 6,
        Fault::StackOverflow => 7,
        Fault::UnlockedSharedObject => 8,
        Fault::WrongLock => 9,
        Fault::ReadOnly => 10,
        Fault::LockUpgrade => 11,
        Fault::IllegalMonitor => 12,
    }
}

/// The number of the fault that a thread ends with, and 0 where it ends without one.
pub(crate) fn end_number(fault: Option<Fault>) -> u64
    ensures { result ≡ end_number fault }
{
    match fault {
        None => 0,
        Some(fault) => fault_number(fault),
    }
}
