//! The workers of a run in threads, each held before its first turn until all of them have come there.
use crate::trial::{System, Trial, show_answer};
use dso_base::NoMemory;
use dso_host::Gate;
use std::alloc::Global;
use std::io;
use std::sync::atomic::Ordering::SeqCst;
use std::sync::atomic::{AtomicBool, AtomicU32};

/// The workers of two clients with a thread each, by node and by worker: the server's, and of each client its pump and
/// its thread.
const WORKERS: [(u8, u8); 5] = [(0, 0), (1, 0), (1, 1), (2, 0), (2, 1)];

/// How many workers come.
const ALL: u32 = 5;

/// How often each looks whether all have come.
const MOST_LOOKS: u32 = 100_000_000;

/// A worker, and whether it has come.
#[derive(Drop)]
struct Guest {
    node: u8,
    worker: u8,
    has_come: AtomicBool,
}

/// A gate where the workers meet: how many have come, and how many saw that all had.
#[derive(Drop)]
struct Meeting {
    guests: Vec<Guest>,
    come: AtomicU32,
    saw_all: AtomicU32,
}

impl Gate for Meeting {
    fn turn(&self, node: u8, worker: u8) {
        for guest in self.guests.iter() {
            if guest.node == node && guest.worker == worker && !guest.has_come.swap(true, SeqCst) {
                self.meet();
            }
        }
    }
}

impl Meeting {
    fn new(alloc: Global) -> Result<Meeting, NoMemory> {
        let mut guests = Vec::new(alloc);
        for (node, worker) in WORKERS {
            guests.push(Guest {
                node,
                worker,
                has_come: AtomicBool::new(false),
            })?;
        }
        Ok(Meeting {
            guests,
            come: AtomicU32::new(0),
            saw_all: AtomicU32::new(0),
        })
    }

    /// Counts a worker in, and holds it until all have come, or it has looked as often as it may.
    fn meet(&self) {
        self.come.fetch_add(1, SeqCst);
        for _ in 0..MOST_LOOKS {
            if self.come.load(SeqCst) == ALL {
                self.saw_all.fetch_add(1, SeqCst);
                return;
            }
        }
    }
}

/// Tries the call as `show_trial`, with its workers held until all have come to their first turns, and prints how many
/// of them saw that.
pub fn show_meeting<R: System>(rt: &R, name: &str, trial: &Trial<'_>) -> io::Result<()> {
    let Ok(meeting) = Meeting::new(rt.alloc()) else {
        return println!(rt; "{name}: no memory");
    };
    match trial.answer_by(rt, &meeting) {
        Ok(answer) => {
            println!(rt;
                "{name}: {} of {ALL} saw all come",
                meeting.saw_all.load(SeqCst)
            )?;
            show_answer(rt, name, &answer)
        }
        Err(_) => println!(rt; "{name}: no memory"),
    }
}
