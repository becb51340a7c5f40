//! How often reads failed, by the file's name: the counts of `specs/Environment.antt`.
ghost use Rattle.std.specs.Prelude.{◌≡◌, ◌≢◌, ℕ, ◌≤◌, List, [], ◌∷◌, Err, OnOk, OnErr};
ghost use Rattle.dso_io.specs.Environment.{Rose, faults_of, noted_after};

use crate::FileFault;
use dso_base::NoMemory;
use std::alloc::Global;
use std::marker::Model;

/// The names of the files whose reads failed, a name for each failed read, the latest first.
#[derive(Drop)]
pub(crate) struct FailedReads {
    names: Vec<Vec<u8>>,
}

impl Model for FailedReads {
    ghost use Rattle.std.specs.Prelude.{ℕ, List, map};

    ghost Value = { List (List ℕ) };

    ghost view = { λ a. map (λ name. name.items) a.names.items };
}

impl FailedReads {
    /// None has failed.
    pub(crate) fn new(alloc: Global) -> FailedReads
        ensures { result ≡ [] }
    {
        FailedReads {
            names: Vec::new(alloc),
        }
    }

    /// Notes that a read of this name failed, and answers that it did; or that there is no memory to note it.
    #[tactic(auto, using(crate::proofs::FaultCounts::noted_rose, crate::proofs::FaultCounts::noted_no_less, crate::proofs::FaultCounts::noted_others))]
    pub(crate) fn fault(&mut self, alloc: Global, name: &str) -> FileFault
        ensures noted { self.new ≡ noted_after {A = ℕ} self.old name.now (Err result) }
        ensures rose { result ≡ FileFault.Failed → Rose (faults_of self.old name.now) (faults_of self.new name.now) }
        ensures reads { (name : List ℕ) → faults_of self.old name ≤ faults_of self.new name }
        ensures others { (other : List ℕ) → other ≢ name.now → faults_of self.new other ≡ faults_of self.old other }
    {
        match self.note(alloc, name) {
            Ok(()) => FileFault::Failed,
            Err(refused) => FileFault::NoMemory(refused),
        }
    }

    /// Notes that a read of the file of this name failed. Where there is no memory, all is as before.
    fn note(&mut self, alloc: Global, name: &str) -> Result<(), NoMemory>
        ensures ok { OnOk result (self.new ≡ name.now ∷ self.old) }
        ensures err { OnErr result (self.new ≡ self.old) }
    {
        let name = Vec::from_slice(alloc, name.as_bytes())?;
        self.names.insert(0, name)?;
        Ok(())
    }
}
