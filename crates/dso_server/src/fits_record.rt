//! Whether a record fits (`dso_law/specs/FitsUp.antt`).
ghost use Rattle.std.specs.Prelude.{◌≡◌, ◌↔◌, IsTrue, suc};
ghost use Rattle.dso_law.specs.FitsUp.{FitsRecordBy};
ghost use Rattle.dso_server.specs.Fitting.{Tells, TellsIn, graph_in};
ghost use Rattle.dso_server.specs.Records.{FitsMaker, FitsObjects, FitsRest, FitsValues, IsRising};

use crate::fits_lists::{
    all_news_fit, all_sets_fit, are_rising, are_rising_sets, body_values_fit, notes_fit, outs_fit,
    set_values_fit,
};
use crate::fits_parts::fits_ending;
use crate::reads::{is_ended, is_thread_of, last_number};
use crate::server::Server;
use dso_base::{Shape, Txn};

/// Whether the number is the one behind the last.
fn is_next(number: u64, last: u64) -> bool
    ensures { IsTrue result ↔ (number ≡ suc last) }
{
    number > last && number - last == 1
}

/// Whether the number and the thread fit.
fn fits_maker(server: &Server, client: u8, txn: &Txn) -> bool
    ensures { Tells server.now result (λ p es. FitsMaker p client txn.now es) }
{
    if !is_next(txn.seq, last_number(server, client)) {
        return false;
    }
    if !is_thread_of(server, client, txn.thread) {
        return false;
    }
    !is_ended(server, txn.thread)
}

/// Whether the objects published and the sets fit, and the sets rise.
fn fits_objects(server: &Server, shape: &Shape, client: u8, txn: &Txn) -> bool
    ensures { TellsIn shape.now server.now result (λ p es. FitsObjects (graph_in server.now) p client txn.now es) }
{
    if !all_news_fit(server, shape, client, txn.news.as_slice()) {
        return false;
    }
    if !all_sets_fit(server, shape, client, txn.sets.as_slice()) {
        return false;
    }
    are_rising_sets(txn.sets.as_slice())
}

/// Whether all values fit that the record would put in the graph, and those printed.
fn fits_values(server: &Server, shape: &Shape, txn: &Txn) -> bool
    requires { IsRising txn.now.news }
    ensures { Tells server.now result (λ p es. FitsValues shape.now (graph_in server.now) txn.now es) }
{
    if !body_values_fit(server, shape, &txn.news, txn.news.as_slice()) {
        return false;
    }
    if !set_values_fit(server, shape, &txn.news, txn.sets.as_slice()) {
        return false;
    }
    outs_fit(server, shape, txn.outs.as_slice())
}

/// Whether the notifications and the ending fit.
fn fits_rest(server: &Server, client: u8, txn: &Txn) -> bool
    ensures { Tells server.now result (λ p es. FitsRest p client txn.now es) }
{
    if !notes_fit(server, client, txn.notes.as_slice()) {
        return false;
    }
    fits_ending(server, client, txn.thread, txn.ending)
}

/// Whether a record of the client fits.
pub(crate) fn fits_record(server: &Server, shape: &Shape, client: u8, txn: &Txn) -> bool
    ensures { TellsIn shape.now server.now result (λ p es. FitsRecordBy (graph_in server.now) p client txn.now es) }
{
    if !are_rising(txn.news.as_slice()) {
        return false;
    }
    if !fits_maker(server, client, txn) {
        return false;
    }
    if !fits_objects(server, shape, client, txn) {
        return false;
    }
    if !fits_values(server, shape, txn) {
        return false;
    }
    fits_rest(server, client, txn)
}
