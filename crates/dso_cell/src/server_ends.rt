//! The server's ends of all connections (`specs/ServerEnds.antt`).
ghost use Rattle.std.specs.Prelude.{◌≡◌, ◌+◌, ◌<◌, ◌≤◌, ◌^◌, ◌↔◌, [], ◌∷◌, IfOk, IfSome, IsTrue, OnOk, length};
ghost use Rattle.dso_base.specs.declared.both.Both.TheVariants as both;
ghost use Rattle.dso_cell.specs.ServerCells.{IsAnyAtLimit};
ghost use Rattle.dso_cell.specs.ServerEnds.{AreGivenDown, AreTold, ChangesEnd, HasBreakLeft, HaveLooked, HaveRoom, moved, sent_more, with_break};

use crate::server_end::ServerEnd;
use dso_base::{Down, NoMemory, Up};
use dso_port::{Arrival, PortFault};
use std::alloc::Global;

/// What an end took from its ring that isn't dropped.
#[derive(Drop)]
pub(crate) enum News {
    /// A message, with its sender's clock.
    Message(Up, u64),
    /// The connection begins anew.
    Rejoined,
    /// A message at the limit.
    Late,
}

/// The news that an end brought, by the place of the end.
#[derive(Drop)]
pub(crate) struct Found {
    pub(crate) place: usize,
    pub(crate) news: News,
}

/// Whether some end is at its limit.
pub(crate) fn is_any_at_limit(ends: &[ServerEnd]) -> bool
    ensures { IsTrue result ↔ IsAnyAtLimit ends.now }
{
    match ends {
        [] => false,
        [end, rest @ ..] => end.is_at_limit() || is_any_at_limit(rest),
    }
}

/// What was found, so many places behind.
fn behind(found: Option<Found>, places: usize) -> Option<Found>
    requires { IfSome found (λ found. found.place + places < 2 ^ 64) }
    ensures { result ≡ moved places found }
{
    match found {
        Some(Found { place, news }) => Some(Found {
            place: place + places,
            news,
        }),
        None => None,
    }
}

/// Looks into the ring of each end, the first of them first, until one brings news.
#[tactic(auto, using(crate::proofs::serving::Ends::one_behind, crate::proofs::serving::Ends::unmoved_left))]
fn look_through(alloc: Global, ends: &mut [ServerEnd]) -> Result<Option<Found>, PortFault>
    ensures looked { IfOk result (λ found. HaveLooked found ends.old ends.new) }
    ensures there { IfOk result (λ found. IfSome found (λ found. found.place < length ends.old)) }
{
    let Some((end, rest)) = ends.split_first_mut() else {
        return Ok(None);
    };
    match end.look(alloc)? {
        Arrival::Nothing | Arrival::Dropped => Ok(behind(look_through(alloc, rest)?, 1)),
        Arrival::Message(message, clock) => Ok(Some(Found {
            place: 0,
            news: News::Message(message, clock),
        })),
        Arrival::Rejoined => Ok(Some(Found {
            place: 0,
            news: News::Rejoined,
        })),
        Arrival::Late => Ok(Some(Found {
            place: 0,
            news: News::Late,
        })),
    }
}

/// Looks into the ring of each end until one brings news, the one at this place first, and then in turn.
#[tactic(auto, using(crate::proofs::serving::Ends::found_behind, crate::proofs::serving::Ends::looked_before))]
fn look_from(alloc: Global, ends: &mut [ServerEnd], next: usize) -> Result<Option<Found>, PortFault>
    requires { next ≤ length ends.old }
    ensures looked { IfOk result (λ found. HaveLooked found ends.old ends.new) }
    ensures there { IfOk result (λ found. IfSome found (λ found. found.place < length ends.old)) }
{
    let (before, from) = ends.split_at_mut(next);
    match behind(look_through(alloc, from)?, next) {
        Some(found) => Ok(Some(found)),
        None => look_through(alloc, before),
    }
}

/// This place, where there is one among so many, else the first one.
fn place_among(next: usize, count: usize) -> usize
    ensures { result ≤ count }
{
    if next < count { next } else { 0 }
}

/// Takes one frame from each end in turn, beginning with the one at this place, until one brings news; where there is
/// no such place, with the first one.
pub(crate) fn first_news(
    alloc: Global,
    ends: &mut Vec<ServerEnd>,
    next: usize,
) -> Result<Option<Found>, PortFault>
    ensures looked { IfOk result (λ found. HaveLooked found ends.old.items ends.new.items) }
    ensures there { IfOk result (λ found. IfSome found (λ found. found.place < length ends.old.items)) }
{
    let next = place_among(next, ends.len());
    look_from(alloc, ends.as_mut_slice(), next)
}

/// Sends a message to the client of this number.
fn send_to(ends: &mut Vec<ServerEnd>, client: u8, message: Down, clock: u64) -> Result<(), NoMemory>
    requires there { 0 < client }
    requires room { HaveRoom ends.old.items }
    ensures { OnOk result (ChangesEnd client (sent_more clock message) ends.old.items ends.new.items) }
{
    match ends.get_mut(client as usize - 1) {
        Some(end) => end.send(message, clock),
        None => Ok(()),
    }
}

/// Sends a message to a client, where there is one of this number.
#[tactic(auto, using(crate::proofs::serving::Told::one_told, crate::proofs::serving::Told::room_kept))]
fn tell_one(
    ends: &mut Vec<ServerEnd>,
    client: u8,
    message: &Down,
    clock: u64,
) -> Result<(), NoMemory>
    requires { HaveRoom ends.old.items }
    ensures told { OnOk result (AreTold clock ((client, message.now) ∷ []) ends.old.items ends.new.items) }
    ensures room { OnOk result (HaveRoom ends.new.items) }
{
    if client == 0 {
        return Ok(());
    }
    send_to(ends, client, message.clone()?, clock)
}

/// Sends these messages, each to its client, with the clock of their entry.
#[tactic(auto, using(crate::proofs::serving::Told::none_told, crate::proofs::serving::Told::more_told))]
pub(crate) fn tell(
    ends: &mut Vec<ServerEnd>,
    messages: &[(u8, Down)],
    clock: u64,
) -> Result<(), NoMemory>
    requires { HaveRoom ends.old.items }
    ensures { OnOk result (AreTold clock messages.now ends.old.items ends.new.items) }
{
    match messages {
        [] => Ok(()),
        [message, rest @ ..] => {
            tell_one(ends, message.0, &message.1, clock)?;
            tell(ends, rest, clock)
        }
    }
}

/// The connection of the client of this number breaks.
pub(crate) fn break_end(ends: &mut Vec<ServerEnd>, client: u8)
    requires there { 0 < client }
    requires few { HasBreakLeft client ends.old.items }
    ensures { ChangesEnd client with_break ends.old.items ends.new.items }
{
    if let Some(end) = ends.get_mut(client as usize - 1) {
        end.break_now();
    }
}

/// Frames go to the rings of these ends.
fn give_each(alloc: Global, ends: &mut [ServerEnd]) -> Result<(), PortFault>
    ensures { OnOk result (AreGivenDown ends.old ends.new) }
{
    let Some((end, rest)) = ends.split_first_mut() else {
        return Ok(());
    };
    end.give(alloc)?;
    give_each(alloc, rest)
}

/// Frames go to the rings of all ends.
pub(crate) fn give_all(alloc: Global, ends: &mut Vec<ServerEnd>) -> Result<(), PortFault>
    ensures { OnOk result (AreGivenDown ends.old.items ends.new.items) }
{
    give_each(alloc, ends.as_mut_slice())
}
