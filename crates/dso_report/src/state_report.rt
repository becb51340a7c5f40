//! The report of a history, from the plain state that it leads to (`specs/Report.antt`).
ghost use Rattle.std.specs.Prelude.{◌≡◌, ◌++◌, IfOk, OnOk, IsErrOf};
ghost use Rattle.dso_plain.specs.HeapTables.{state_of};
ghost use Rattle.dso_report.specs.declared.unwritten.Unwritten.TheVariants as unwritten;
ghost use Rattle.dso_report.specs.MissingText.{IsReportTextMissing};
ghost use Rattle.dso_report.specs.Report.{IsReport, unguarded_line};

use crate::graph_lines::push_graph;
use crate::numbering::order_of;
use crate::thread_lines::threads_text;
use crate::unwritten::Unwritten;
use crate::value_texts::push_number;
use dso_base::ThreadId;
use dso_class::Names;
use dso_plain::Plain;
use std::alloc::{AllocError, Global};

/// The report of a state: the threads with what they printed, the count of unguarded reads, and the graph. `Missing` is answered only
/// where something that it would name isn't there.
///
/// It takes time in the measure of the graph and of what was printed.
pub(crate) fn report_of_state(
    alloc: Global,
    names: &Names,
    threads: &[ThreadId],
    plain: &Plain,
) -> Result<Vec<u8>, Unwritten>
    ensures written { IfOk result (λ bytes. IsReport names.now threads.now (state_of plain.now) bytes.items) }
    ensures missing { IsErrOf result unwritten.Missing → IsReportTextMissing names.now (state_of plain.now) }
{
    let order = order_of(alloc, plain)?;
    let mut text = threads_text(alloc, names, threads, plain)?;
    push_unguarded(&mut text, plain)?;
    push_graph(alloc, &mut text, names, plain, &order)?;
    Ok(text)
}

/// Puts the line of the count of unguarded reads at the end.
fn push_unguarded(text: &mut Vec<u8>, plain: &Plain) -> Result<(), AllocError>
    ensures { OnOk result (text.new.items ≡ text.old.items ++ unguarded_line (state_of plain.now)) }
{
    text.extend_from_slice(b"unguarded ")?;
    push_number(text, plain.unguarded() as u64)?;
    text.extend_from_slice(b"\n")
}
