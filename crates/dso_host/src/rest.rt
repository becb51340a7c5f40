//! When the workers of an epoch stop: once all of them are at rest.
use std::sync::atomic::AtomicUsize;
use std::sync::atomic::Ordering::SeqCst;

/// After so many turns in a row that added nothing a worker is at rest. It looks on, since what it waits for may still come, until no
/// worker is busy any more.
const IDLE_TURNS: u32 = 6;

/// A worker's rest: the count of the workers that are busy, and how many of its last turns added nothing.
#[derive(Drop)]
pub(crate) struct Rest<'a> {
    busy: &'a AtomicUsize,
    idle: u32,
}

impl<'a> Rest<'a> {
    /// A worker that begins, and is counted as busy.
    pub fn new(busy: &'a AtomicUsize) -> Rest<'a> {
        Rest { busy, idle: 0 }
    }

    /// A turn added an entry: the worker is busy.
    pub fn end(&mut self) {
        if self.idle >= IDLE_TURNS {
            self.busy.fetch_add(1, SeqCst);
        }
        self.idle = 0;
    }

    /// A turn added nothing; whether all workers are at rest now.
    pub fn go_on(&mut self) -> bool {
        if self.idle < IDLE_TURNS {
            self.idle += 1;
            if self.idle == IDLE_TURNS {
                self.busy.fetch_sub(1, SeqCst);
            }
        }
        self.idle >= IDLE_TURNS && self.busy.load(SeqCst) == 0
    }

    /// The worker makes no more turns, and isn't busy any more.
    pub fn leave(&mut self) {
        if self.idle < IDLE_TURNS {
            self.busy.fetch_sub(1, SeqCst);
        }
        self.idle = IDLE_TURNS;
    }
}
