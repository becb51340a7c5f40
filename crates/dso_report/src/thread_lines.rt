//! The report's lines of threads and of what they printed (`specs/Report.antt`).
ghost use Rattle.std.specs.Prelude.{◌≡◌, ◌++◌, Some, None, reverse, IfOk, OnOk, IsErrOf};
ghost use Rattle.std.specs.Fmt.{◌++?◌};
ghost use Rattle.dso_plain.specs.HeapTables.{state_of};
ghost use Rattle.dso_report.specs.declared.unwritten.Unwritten.TheVariants as unwritten;
ghost use Rattle.dso_report.specs.MissingText.{IsThreadTextMissing};
ghost use Rattle.dso_report.specs.Report.{HasStanding, IsThreadsText, fault_text, standing_text, thread_line, output_line, thread_text};
ghost use Rattle.dso_report.specs.Texts.{each_of};

use crate::unwritten::Unwritten;
use crate::value_texts::{push_number, push_printed};
use dso_base::{Fault, ThreadId, Value, Word};
use dso_class::Names;
use dso_plain::Plain;
use std::alloc::{AllocError, Global};

/// How a thread stands: it has ended, with a fault or without one, or its client is lost, or it waits, or none of
/// these.
#[derive(Clone, Copy, Debug, PartialEq, Eq)]
pub(crate) enum ThreadStanding {
    Ended,
    Faulted(Fault),
    Lost,
    Waiting,
    Open,
}

/// The lines of the threads in their order.
pub(crate) fn threads_text(
    alloc: Global,
    names: &Names,
    threads: &[ThreadId],
    plain: &Plain,
) -> Result<Vec<u8>, Unwritten>
    ensures written { IfOk result (λ text. IsThreadsText names.now (state_of plain.now) threads.now text.items) }
    ensures missing { IsErrOf result unwritten.Missing → IsThreadTextMissing names.now (state_of plain.now) }
{
    let mut text = Vec::new(alloc);
    for thread in threads {
        let standing = standing_of(plain, *thread);
        push_thread(&mut text, names, plain, *thread, standing)?;
    }
    Ok(text)
}

/// How a thread stands. It takes no memory.
fn standing_of(plain: &Plain, thread: ThreadId) -> ThreadStanding
    ensures { HasStanding (state_of plain.now) thread result }
{
    match plain.ended(thread) {
        Some(None) => ThreadStanding::Ended,
        Some(Some(fault)) => ThreadStanding::Faulted(fault),
        None => {
            if plain.is_lost(thread.client) {
                ThreadStanding::Lost
            } else if plain.waits(thread) {
                ThreadStanding::Waiting
            } else {
                ThreadStanding::Open
            }
        }
    }
}

/// Puts the lines of a thread at the end.
fn push_thread(
    text: &mut Vec<u8>,
    names: &Names,
    plain: &Plain,
    thread: ThreadId,
    standing: ThreadStanding,
) -> Result<(), Unwritten>
    ensures written { OnOk result (Some text.old.items ++? thread_text names.now (state_of plain.now) thread standing ≡ Some text.new.items) }
    ensures missing { IsErrOf result unwritten.Missing → thread_text names.now (state_of plain.now) thread standing ≡ None }
{
    push_thread_line(text, thread, standing)?;
    push_output(text, names.texts.as_slice(), plain, thread)
}

/// Puts the line of a thread at the end.
fn push_thread_line(
    text: &mut Vec<u8>,
    thread: ThreadId,
    standing: ThreadStanding,
) -> Result<(), AllocError>
    ensures { OnOk result (text.new.items ≡ text.old.items ++ thread_line thread standing) }
{
    text.extend_from_slice(b"thread ")?;
    push_number(text, thread.client as u64)?;
    text.extend_from_slice(b".")?;
    push_number(text, thread.index as u64)?;
    text.extend_from_slice(b" ")?;
    push_standing(text, standing)?;
    text.extend_from_slice(b"\n")
}

/// Puts at the end how a thread stands.
fn push_standing(text: &mut Vec<u8>, standing: ThreadStanding) -> Result<(), AllocError>
    ensures { OnOk result (text.new.items ≡ text.old.items ++ standing_text standing) }
{
    match standing {
        ThreadStanding::Ended => text.extend_from_slice(b"ended"),
        ThreadStanding::Faulted(fault) => {
            text.extend_from_slice(b"fault ")?;
            text.extend_from_slice(name_of(fault))
        }
        ThreadStanding::Lost => text.extend_from_slice(b"lost"),
        ThreadStanding::Waiting => text.extend_from_slice(b"waiting"),
        ThreadStanding::Open => text.extend_from_slice(b"open"),
    }
}

/// The name of a fault.
fn name_of(fault: Fault) -> &'static [u8]
    ensures { result.now ≡ fault_text fault }
{
    match fault {
        Fault::NullPointer => b"NullPointer",
        Fault::NoSuchField => b"NoSuchField",
        Fault::BadValue => b"BadValue",
        Fault::BadIndex => b"BadIndex",
        Fault::BadSize => b"BadSize",
        Fault::ZeroDivide => b"ZeroDivide",
        Fault::StackOverflow => b"StackOverflow",
        Fault::UnlockedSharedObject => b"UnlockedSharedObject",
        Fault::WrongLock => b"WrongLock",
        Fault::ReadOnly => b"ReadOnly",
        Fault::LockUpgrade => b"LockUpgrade",
        Fault::IllegalMonitor => b"IllegalMonitor",
    }
}

/// Puts a line for each value that a thread printed at the end, the oldest first.
fn push_output(
    text: &mut Vec<u8>,
    texts: &[Word],
    plain: &Plain,
    thread: ThreadId,
) -> Result<(), Unwritten>
    ensures written { OnOk result (Some text.old.items ++? each_of (output_line texts.now) (reverse ((state_of plain.now).output thread)) ≡ Some text.new.items) }
    ensures missing { IsErrOf result unwritten.Missing → each_of (output_line texts.now) (reverse ((state_of plain.now).output thread)) ≡ None }
{
    for at in 0..plain.printed(thread) {
        if let Some(value) = plain.output(thread, at) {
            push_output_line(text, texts, value)?;
        }
    }
    Ok(())
}

/// Puts the line of a value that a thread printed at the end.
fn push_output_line(text: &mut Vec<u8>, texts: &[Word], value: Value) -> Result<(), Unwritten>
    ensures written { OnOk result (Some text.old.items ++? output_line texts.now value ≡ Some text.new.items) }
    ensures missing { IsErrOf result unwritten.Missing → output_line texts.now value ≡ None }
{
    text.extend_from_slice(b"| ")?;
    push_printed(text, texts, value)?;
    text.extend_from_slice(b"\n")?;
    Ok(())
}
