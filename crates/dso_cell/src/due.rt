//! The triggers that are due (`specs/ServerSteps.antt`).
ghost use Rattle.std.specs.Prelude.{◌≡◌, ◌+◌, ◌<◌, ◌≤◌, ◌^◌, IfSome, length};
ghost use Rattle.dso_cell.specs.ServerSteps.{IsFirstDue, TellsDue};

use crate::server_end::ServerEnd;
use dso_server::Server;

/// What a trigger makes.
#[derive(Clone, Copy, Debug, PartialEq, Eq)]
pub(crate) enum Mishap {
    /// The client is lost.
    Loss,
    /// Its connection breaks.
    Break,
}

/// A trigger that is due, with its client.
#[derive(Clone, Copy, Debug, PartialEq, Eq)]
pub(crate) struct Due {
    pub(crate) client: u8,
    pub(crate) mishap: Mishap,
}

/// What is due of the client of this number, a loss before a break.
fn due_of(core: &Server, end: &ServerEnd, client: u8) -> Option<Mishap>
    ensures { TellsDue core.now client result end.now }
{
    let taken = end.port.accepted();
    let is_lost = core.is_lost(client);
    let is_loss_due = end.triggers.is_loss_due(taken, is_lost);
    if is_loss_due {
        return Some(Mishap::Loss);
    }
    let broke = end.port.epoch();
    if end
        .triggers
        .is_break_due(taken, is_lost, is_loss_due, broke)
    {
        Some(Mishap::Break)
    } else {
        None
    }
}

/// The first trigger that is due of these ends, of which the first is that of the client of this number.
pub(crate) fn first_due(core: &Server, ends: &[ServerEnd], client: usize) -> Option<Due>
    requires { client + length ends.now ≤ 2 ^ 8 }
    ensures { IsFirstDue core.now client result ends.now }
{
    match ends {
        [] => None,
        [end, rest @ ..] => {
            let number = client as u8;
            match due_of(core, end, number) {
                Some(mishap) => Some(Due {
                    client: number,
                    mishap,
                }),
                None => first_due(core, rest, client + 1),
            }
        }
    }
}
