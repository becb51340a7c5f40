//! Calls on leases that are drawn from a number, each compared with what a plain list of locks tells.

use crate::plain_calls::{Comparison, drawn_level, drawn_lock, run};
use dso_base::{Level, LockName, NoMemory};
use dso_lease::{Lease, Leases, Want};
use std::alloc::Global;

/// How one of four locks stands: its lease's level, whether it was entered and is closing, and whether it was asked
/// for.
#[derive(Clone, Copy)]
struct Row {
    level: Option<Level>,
    is_entered: bool,
    is_closing: bool,
    is_asked: bool,
}

/// An idle lock.
const IDLE: Row = Row {
    level: None,
    is_entered: false,
    is_closing: false,
    is_asked: false,
};

impl Row {
    /// The lease of the lock, where it has one.
    fn lease(&self) -> Option<Lease> {
        match self.level {
            Some(level) => Some(Lease {
                level,
                is_entered: self.is_entered,
                is_closing: self.is_closing,
            }),
            None => None,
        }
    }
}

/// The leases, and the plain list of four locks.
#[derive(Drop)]
struct LeaseComparison {
    leases: Leases,
    rows: [Row; 4],
}

/// Makes so many calls, drawn from a number, and tells whether each answered what the list tells.
pub fn compared_leases(alloc: Global, first: &str, second: &str) -> Result<String, NoMemory> {
    let mut comparison = LeaseComparison {
        leases: Leases::new(alloc),
        rows: [IDLE; 4],
    };
    run(alloc, &mut comparison, first, second)
}

impl Comparison for LeaseComparison {
    fn agrees(&mut self, _alloc: Global, drawn: u64) -> Result<bool, NoMemory> {
        let row = &mut self.rows[(drawn % 4) as usize];
        row_agrees(&mut self.leases, row, drawn_lock(drawn), drawn / 4)
    }
}

/// Whether the call that is drawn answers what the row tells.
fn row_agrees(
    leases: &mut Leases,
    row: &mut Row,
    lock: LockName,
    drawn: u64,
) -> Result<bool, NoMemory> {
    let level = drawn_level(drawn % 2 != 0);
    let flag = drawn / 2 % 2 == 0;
    match drawn / 4 % 5 {
        0 => {
            let answer = leases.want(lock, level, flag)?;
            Ok(answer == plain_want(row, level, flag))
        }
        1 => Ok(leases.granted(lock, level) == plain_granted(row, level)),
        2 => Ok(leases.recalled(lock) == plain_recalled(row)),
        3 => {
            leases.entered(lock);
            row.is_entered = row.level.is_some();
            Ok(leases.leased(lock) == row.lease())
        }
        _ => Ok(leases.try_return(lock, flag) == plain_return(row, flag)),
    }
}

/// What the row answers to a thread that wants the lock, and the row after it.
fn plain_want(row: &mut Row, level: Level, inner: bool) -> Want {
    let Some(leased) = row.level else {
        let answer = if row.is_asked {
            Want::Waiting
        } else {
            Want::Ask(level)
        };
        row.is_asked = true;
        return answer;
    };
    let is_enough = leased == Level::Write || level == Level::Read;
    let is_open = inner || !row.is_closing || !row.is_entered;
    row.is_closing = row.is_closing || !is_enough;
    if is_enough && is_open {
        Want::Held
    } else {
        Want::Closing
    }
}

/// Whether the row was asked for, and the row after the grant.
fn plain_granted(row: &mut Row, level: Level) -> bool {
    let was_asked = row.is_asked;
    if was_asked {
        *row = Row {
            level: Some(level),
            ..IDLE
        };
    }
    was_asked
}

/// Whether the row has a lease, and the row after the recall.
fn plain_recalled(row: &mut Row) -> bool {
    row.is_closing = row.level.is_some();
    row.is_closing
}

/// Whether the row's lease is to be given back, and the row after that.
fn plain_return(row: &mut Row, is_free: bool) -> bool {
    let is_due = row.level.is_some() && row.is_closing && row.is_entered && is_free;
    if is_due {
        *row = IDLE;
    }
    is_due
}
