//! Whether a message fits (`dso_law/specs/FitsUp.antt`).
ghost use Rattle.std.specs.Bool.{OnTrue};
ghost use Rattle.dso_base.specs.declared.message.Up.TheVariants as up;
ghost use Rattle.dso_law.specs.FitsUp.{FitsUpBy};
ghost use Rattle.dso_server.specs.Fitting.{IsFree, Tells, TellsIn, graph_in};

use crate::fits_locks::{fits_request, fits_return};
use crate::fits_record::fits_record;
use crate::reads::{holds, is_stored};
use crate::server::Server;
use dso_base::{Shape, Up};

/// Whether a fault of the client fits: the object is in the graph, and the client doesn't hold it.
fn fits_fault(server: &Server, client: u8, object: u64) -> bool
    ensures { Tells server.now result (λ p es. FitsUpBy (graph_in server.now) p client (up.Fault object) es) }
{
    if holds(server, client, object) {
        return false;
    }
    is_stored(server, object)
}

/// Whether the message of the client fits by the server's graph, of whatever entries the server stands for. It takes no memory. A request, a
/// fault and a flush cost the logarithm of what the server holds, a return and a record that for each of their items.
pub(crate) fn fits(server: &Server, shape: &Shape, client: u8, message: &Up) -> bool
    ensures tells { TellsIn shape.now server.now result (λ p es. FitsUpBy (graph_in server.now) p client message.now es) }
    ensures free { OnTrue result (IsFree client message.now server.now) }
{
    match message {
        Up::IdAsk => true,
        Up::Fault(object) => fits_fault(server, client, *object),
        Up::Flushed(object) => holds(server, client, *object),
        Up::Request(lock, _) => fits_request(server, shape, client, *lock),
        Up::Return(lock, threads) => fits_return(server, client, *lock, threads.as_slice()),
        Up::Commit(txn) => fits_record(server, shape, client, txn.get()),
    }
}
