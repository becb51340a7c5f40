//! Words for what has a name or a number.

use crate::numbers::{count, number, small};
use dso_base::{Fault, Kind, Level, LockName, ThreadId};

/// The first word and those behind it.
pub fn first_of(text: &str) -> (&str, &str) {
    text.split_once(' ').unwrap_or((text, ""))
}

/// A thread as `1.2`: its client, and its index there.
pub fn thread(word: &str) -> Option<ThreadId> {
    let (client, index) = word.split_once('.')?;
    Some(ThreadId {
        client: small(client)?,
        index: small(index)?,
    })
}

/// A named lock as `n0`, or the monitor of an object as `m1`.
pub fn lock(word: &str) -> Option<LockName> {
    match word.strip_prefix('n') {
        Some(name) => Some(LockName::Name(count(name)?)),
        None => Some(LockName::Mon(number(word.strip_prefix('m')?)?)),
    }
}

/// `read` or `write`.
pub fn level(word: &str) -> Option<Level> {
    match word {
        "read" => Some(Level::Read),
        "write" => Some(Level::Write),
        _ => None,
    }
}

/// `long`, `bool`, `text` or `ref`.
pub fn kind(word: &str) -> Option<Kind> {
    match word {
        "long" => Some(Kind::Long),
        "bool" => Some(Kind::Bool),
        "text" => Some(Kind::Text),
        "ref" => Some(Kind::Ref),
        _ => None,
    }
}

/// A refusal by its name.
pub fn fault(word: &str) -> Option<Fault> {
    match word {
        "UnlockedSharedObject" => Some(Fault::UnlockedSharedObject),
        "WrongLock" => Some(Fault::WrongLock),
        "ReadOnly" => Some(Fault::ReadOnly),
        "LockUpgrade" => Some(Fault::LockUpgrade),
        "IllegalMonitor" => Some(Fault::IllegalMonitor),
        _ => None,
    }
}
