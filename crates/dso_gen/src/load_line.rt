//! The line that a run of the generated load writes (`specs/LoadLine.antt`).
ghost use Rattle.std.specs.Prelude.{◌≡◌, IfOk};
ghost use Rattle.dso_gen.specs.LoadLine.{load_line};

use crate::load::{clients_of, threads_of};
use dso_base::NoMemory;
use std::alloc::Global;

/// The line of a run of the generated load of a number, whose counters come to a total: `big N clients C threads T total S`, and a line
/// feed. `NoMemory` is answered where an allocation was refused, and then there is no line.
pub fn big_line(alloc: Global, n: u32, total: i128) -> Result<Vec<u8>, NoMemory>
    ensures { IfOk result (λ line. line.items ≡ load_line n total) }
{
    let clients = clients_of(n);
    let threads = threads_of(n);
    let line = format!(in alloc; "big {n} clients {clients} threads {threads} total {total}\n")?;
    Ok(line.into_bytes())
}
