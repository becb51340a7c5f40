//! The graph of a table of bodies (`specs/BodyGraph.antt`).
ghost use Rattle.std.specs.Prelude.{◌≡◌, ◌≢◌, ◌<◌, ◌^◌, length, All, AllPairs, IfOk, IsErrOf};
ghost use Rattle.dso_class.specs.Sound.{IsSoundProgram};
ghost use Rattle.dso_report.specs.declared.unwritten.Unwritten.TheVariants as unwritten;
ghost use Rattle.dso_report.specs.BodyGraph.{IsGraphOf, state_of_bodies};
ghost use Rattle.dso_report.specs.MissingText.{IsGraphTextMissing};
ghost use Rattle.dso_report.specs.Report.{IsGraphText};

use crate::body_table::BodyTable;
use crate::graph_lines::push_graph;
use crate::numbering::order_of;
use crate::unwritten::Unwritten;
use dso_base::{Body, NoMemory};
use dso_class::{Names, Program};
use std::alloc::Global;

/// The lines of the graph that these bodies are: the roots, and the objects that are found from them, numbered breadth
/// first, as the report of a run has them.
///
/// The condition is that the program is sound and the bodies are a graph of it: then nothing is missing that the lines
/// name. It takes time and memory in the measure of the bodies. `NoMemory` is answered where an allocation was refused,
/// and then there is no text.
pub fn graph(alloc: Global, program: &Program, bodies: &[Body]) -> Result<Vec<u8>, NoMemory>
    requires sound { IsSoundProgram program.now }
    requires graph { IsGraphOf program.now bodies.now }
    ensures { IfOk result (λ bytes. IsGraphText program.now.names (state_of_bodies bodies.now) bytes.items) }
{
    match graph_of_bodies(alloc, &program.names, bodies) {
        Ok(text) => Ok(text),
        Err(Unwritten::NoMemory(refusal)) => Err(refusal),
        Err(Unwritten::Missing) => unreachable!(),
    }
}

/// The lines of the graph of some bodies. `Missing` is answered only where something that they would name isn't there.
fn graph_of_bodies(alloc: Global, names: &Names, bodies: &[Body]) -> Result<Vec<u8>, Unwritten>
    requires differ { AllPairs (λ body other. body.object ≢ other.object) bodies.now }
    requires counted { All (λ body. length body.values < 2 ^ 32) bodies.now }
    ensures written { IfOk result (λ bytes. IsGraphText names.now (state_of_bodies bodies.now) bytes.items) }
    ensures missing { IsErrOf result unwritten.Missing → IsGraphTextMissing names.now (state_of_bodies bodies.now) }
{
    let table = BodyTable::new(alloc, bodies)?;
    let order = order_of(alloc, &table)?;
    let mut text = Vec::new(alloc);
    push_graph(alloc, &mut text, names, &table, &order)?;
    Ok(text)
}
