//! Which objects a client's threads name (`specs/NamedObjects.antt`).
ghost use Rattle.std.specs.List.{AllByRecursion};
ghost use Rattle.std.specs.Prelude.{◌≡◌, ◌++◌, [], IfOk, OnOk};
ghost use Rattle.dso_client.specs.NamedObjects.{AddsHeld, AddsThread, AddsThreads, HasNextOut};

use crate::thread_context::ThreadContext;
use dso_base::NoMemory;
use std::alloc::Global;

/// Adds these objects.
fn add_all(objects: &[u64], into: &mut Vec<u64>) -> Result<(), NoMemory>
    ensures { OnOk result (into.new.items ≡ into.old.items ++ objects.now) }
{
    into.extend_from_slice(objects)?;
    Ok(())
}

/// Adds what a thread's frames hold and what its next request names: nothing where it has ended.
fn add_held(alloc: Global, context: &ThreadContext, into: &mut Vec<u64>) -> Result<(), NoMemory>
    requires { HasNextOut context.now }
    ensures { OnOk result (AddsHeld context.now into.old.items into.new.items) }
{
    match context.next {
        None => Ok(()),
        Some(_) => {
            let held = context.thread.named(alloc)?;
            add_all(held.as_slice(), into)
        }
    }
}

/// Adds what a thread names: what it holds, and what it has in hand.
fn add_thread(alloc: Global, context: &ThreadContext, into: &mut Vec<u64>) -> Result<(), NoMemory>
    requires { HasNextOut context.now }
    ensures { OnOk result (AddsThread context.now into.old.items into.new.items) }
{
    add_held(alloc, context, into)?;
    context.block.named(&context.privates, into)
}

/// Adds what the threads name.
fn add_threads(
    alloc: Global,
    contexts: &[ThreadContext],
    into: &mut Vec<u64>,
) -> Result<(), NoMemory>
    requires { AllByRecursion HasNextOut contexts.now }
    ensures { OnOk result (AddsThreads contexts.now into.old.items into.new.items) }
{
    match contexts {
        [] => Ok(()),
        [context, rest @ ..] => {
            add_thread(alloc, context, into)?;
            add_threads(alloc, rest, into)
        }
    }
}

/// The objects that the threads name, each as often as it is named.
///
/// It answers `NoMemory` where an allocation was refused.
pub(crate) fn named(alloc: Global, contexts: &[ThreadContext]) -> Result<Vec<u64>, NoMemory>
    requires { AllByRecursion HasNextOut contexts.now }
    ensures { IfOk result (λ named. AddsThreads contexts.now [] named.items) }
{
    let mut named = Vec::new(alloc);
    add_threads(alloc, contexts, &mut named)?;
    Ok(named)
}
