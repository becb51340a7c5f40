//! A sink in memory, by `specs/Memory.antt`.
ghost use Rattle.std.specs.Prelude.{◌≡◌, ◌<◌, ◌≤◌, [], length, take, Some, IfOk, OnOk, OnErr};
ghost use Rattle.dso_io.specs.Environment.{Rose, taken_after};
ghost use Rattle.dso_io.specs.Memory.{IsPut};

use crate::environment::one_more;
use crate::{Failed, Sink};
use dso_base::NoMemory;
use std::alloc::Global;
use std::marker::Model;

/// A sink in memory, which tells what it took and fails when it is asked to.
#[derive(Drop)]
pub struct MemSink {
    bytes: Vec<u8>,
    piece: usize,
    most: usize,
    fails: Vec<u64>,
    calls: u64,
    failed: u64,
}

impl Model for MemSink {
    ghost use Rattle.std.specs.Prelude.{◌<◌, ◌≤◌, vec_len, vec_capacity};
    ghost use Rattle.dso_io.specs.Memory.{MemorySink};

    ghost Value = { MemorySink };

    ghost view = { λ a. record {
      bytes = a.bytes.items;
      piece = a.piece;
      most = a.most;
      fails = a.fails.items;
      calls = a.calls;
      failed = a.failed;
    } };

    ghost invariant = { λ a. (0 < a.piece) × (vec_len a.bytes ≤ a.most) × (a.most ≤ vec_capacity a.bytes) };
}

impl MemSink {
    /// An empty sink with room for `most` bytes, which takes at most `piece` of them at a time and fails the calls
    /// of these numbers, counted from 1.
    pub fn new(alloc: Global, piece: usize, most: usize, fails: &[u64]) -> Result<MemSink, NoMemory>
        requires { 0 < piece }
        ensures { IfOk result (λ sink. sink ≡ record {
          bytes = [];
          piece = piece;
          most = most;
          fails = fails.now;
          calls = 0;
          failed = 0;
        }) }
    {
        let bytes = Vec::with_capacity(alloc, most)?;
        let fails = Vec::from_slice(alloc, fails)?;
        Ok(MemSink {
            bytes,
            piece,
            most,
            fails,
            calls: 0,
            failed: 0,
        })
    }

    /// All bytes taken.
    pub fn taken(&self) -> &[u8]
        ensures { result.now ≡ self.now.bytes }
    {
        self.bytes.as_slice()
    }
}

impl Sink for MemSink {
    ghost faults = { λ sink. sink.failed };

    ghost taken = { λ sink. Some sink.bytes };

    ghost puts = { IsPut };

    fn put(&mut self, bytes: &[u8]) -> Result<usize, Failed>
        ensures within { IfOk result (λ count. count ≤ length bytes.now) }
        ensures some { IfOk result (λ count. 0 < length bytes.now → 0 < count) }
        ensures taken { IfOk result (λ count. Some self.new.bytes ≡ taken_after (Some self.old.bytes) (take count bytes.now)) }
        ensures untaken { OnErr result (Some self.new.bytes ≡ Some self.old.bytes) }
        ensures failed { OnErr result (Rose self.old.failed self.new.failed) }
        ensures sound { OnOk result (self.new.failed ≡ self.old.failed) }
        ensures faults { self.old.failed ≤ self.new.failed }

        // It fails exactly where the call is listed or there is no room, else takes what the piece and the room allow.
        ensures told { IsPut self.old bytes.now result self.new }
    {
        self.calls = one_more(self.calls);
        if self.fails.contains(&self.calls) {
            self.failed = one_more(self.failed);
            return Err(Failed);
        }
        let room = self.most - self.bytes.len();
        let count = bytes.len().min(self.piece.min(room));
        if count == 0 && !bytes.is_empty() {
            self.failed = one_more(self.failed);
            return Err(Failed);
        }
        let (taken, _) = bytes.split_at(count);
        self.bytes.extend_from_slice(taken).unwrap();
        Ok(count)
    }
}
