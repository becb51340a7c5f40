//! Many turns of the cells of a cluster.

use crate::cluster::Cluster;
use crate::turns::added;
use std::alloc::Global;

/// After so many rounds without an entry none comes any more: a ring has fewer frames that make none.
const QUIET: u32 = 100;

/// How rounds went.
#[derive(Clone, Copy)]
pub struct Outcome {
    /// How many entries were added.
    pub entries: u64,
    /// Whether no entry came at last.
    pub has_ended: bool,
}

/// So many turns of a client with this worker: how many added an entry.
pub fn many(alloc: Global, cluster: &mut Cluster, number: u8, worker: u8, turns: u32) -> u64 {
    let mut count = 0_u64;
    for _turn in 0..turns {
        count = count.saturating_add(added(cluster.client_turn(alloc, number, worker)));
    }
    count
}

/// So many turns of the server: how many added an entry.
pub fn served(alloc: Global, cluster: &mut Cluster, turns: u32) -> u64 {
    let mut count = 0_u64;
    for _turn in 0..turns {
        count = count.saturating_add(added(cluster.server_turn(alloc)));
    }
    count
}

/// So many turns of a client's pump and of the server, one after the other: how many of each added an entry.
pub fn by_turns(alloc: Global, cluster: &mut Cluster, number: u8, turns: u32) -> (u64, u64) {
    let (mut pumped, mut taken) = (0_u64, 0_u64);
    for _turn in 0..turns {
        pumped = pumped.saturating_add(added(cluster.client_turn(alloc, number, 0)));
        taken = taken.saturating_add(added(cluster.server_turn(alloc)));
    }
    (pumped, taken)
}

/// Rounds until no entry comes, so many at most.
pub fn rounds(alloc: Global, cluster: &mut Cluster, most: u32) -> Outcome {
    let (mut entries, mut quiet) = (0_u64, 0_u32);
    for _round in 0..most {
        let count = cluster.round(alloc);
        entries = entries.saturating_add(count);
        quiet = if count == 0 {
            quiet.saturating_add(1)
        } else {
            0
        };
        if quiet == QUIET {
            break;
        }
    }
    Outcome {
        entries,
        has_ended: quiet == QUIET,
    }
}
