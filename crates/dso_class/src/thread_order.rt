//! The threads of a program in the order of their clients (`specs/TextProgram.antt`).

ghost use Rattle.std.specs.Prelude.{◌≡◌, AllPairs, IfOk, IsPermutation, map};
ghost use Rattle.dso_class.specs.TextProgram.{AreCounted, IsThreadBefore};

use dso_base::{Items, NoMemory, ThreadId};
use dso_machine::ThreadBody;
use std::alloc::Global;

/// The threads of bodies, by client and then by index.
pub(crate) fn threads(alloc: Global, bodies: &[ThreadBody]) -> Result<Items<ThreadId>, NoMemory>
    ensures all { IfOk result (IsPermutation (map (λ body. body.thread) bodies.now)) }
    ensures rise { AreCounted bodies.now → IfOk result (AllPairs IsThreadBefore) }
{
    let mut threads = threads_of(alloc, bodies)?;
    threads.sort_unstable();
    Ok(Items::from_vec(threads))
}

/// The threads of bodies, in the order of these.
fn threads_of(alloc: Global, bodies: &[ThreadBody]) -> Result<Vec<ThreadId>, NoMemory>
    ensures { IfOk result (λ threads. threads.items ≡ map (λ body. body.thread) bodies.now) }
{
    let mut threads = Vec::with_capacity(alloc, bodies.len())?;
    for body in bodies {
        threads.push(body.thread)?;
    }
    Ok(threads)
}
