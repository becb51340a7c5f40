//! The standard output of the system, by `specs/Environment.antt`.
ghost use Rattle.std.specs.Prelude.{◌≡◌, ◌<◌, ◌≤◌, length, take, ⊤, IfOk, OnOk, OnErr, MatchResult};
ghost use Rattle.dso_io.specs.Environment.{Rose, counted, nothing_told, taken_after};

use crate::environment::one_more;
use crate::{Failed, Sink};
use std::io;

/// Standard output, over a runtime. Nothing is told of what it took; each fault is counted.
#[derive(Drop)]
pub struct StdSink<R: Drop> {
    runtime: R,
    failed: u64,
}

impl<R: Print + Drop> StdSink<R> {
    /// The count is at 0.
    pub fn new(runtime: R) -> StdSink<R>
        ensures { result.failed ≡ 0 }
    {
        StdSink { runtime, failed: 0 }
    }
}

impl<R: Print + Drop> Sink for StdSink<R> {
    ghost faults = { λ sink. sink.failed };

    ghost taken = { λ sink. nothing_told };

    ghost puts = { λ sink bytes answer next. ⊤ };

    fn put(&mut self, bytes: &[u8]) -> Result<usize, Failed>
        ensures within { IfOk result (λ count. count ≤ length bytes.now) }
        ensures some { IfOk result (λ count. 0 < length bytes.now → 0 < count) }
        ensures taken { IfOk result (λ count. nothing_told ≡ taken_after nothing_told (take count bytes.now)) }
        ensures untaken { OnErr result (nothing_told ≡ nothing_told) }
        ensures failed { OnErr result (Rose self.old.failed self.new.failed) }
        ensures sound { OnOk result (self.new.failed ≡ self.old.failed) }
        ensures faults { self.old.failed ≤ self.new.failed }
        ensures told { ⊤ }

        // A fault is counted exactly where it is answered.
        ensures counted { MatchResult result
            (λ count. self.new.failed ≡ self.old.failed)
            (λ fault. self.new.failed ≡ counted self.old.failed) }
    {
        match self.runtime.write_some(bytes) {
            Ok(count) if count > 0 || bytes.is_empty() => Ok(count),
            _ => {
                self.failed = one_more(self.failed);
                Err(Failed)
            }
        }
    }
}
