//! The records of a client that the server has not acknowledged (`specs/Numbers.antt`).
ghost use Rattle.std.specs.Prelude.{ℕ, ◌≡◌, ◌↔◌, true, false, IsTrue, IfNone, IfSome, OnOk, OnErr};
ghost use Rattle.std.specs.Bool.{OnTrue, OnFalse};
ghost use Rattle.dso_txn.specs.Numbers.{numbers_in, with_number, IsLeast};

use dso_base::NoMemory;
use std::alloc::Global;
use std::collections::BTreeSet;

/// Numbers of records. Contracts see which ones are kept (`numbers_in`). Each call costs the logarithm of how many there
/// are.
#[derive(Drop)]
pub struct Unacked {
    numbers: BTreeSet<u64>,
}

impl Unacked {
    /// No number is kept.
    pub fn new(alloc: Global) -> Unacked
        ensures { numbers_in result ≡ (λ _. false) }
    {
        Unacked {
            numbers: BTreeSet::new(alloc),
        }
    }

    /// Keeps the number of a record that was sent. It answers `NoMemory` where an allocation was refused, and nothing is
    /// changed then.
    pub fn add(&mut self, seq: u64) -> Result<(), NoMemory>
        ensures ok { OnOk result (numbers_in self.new ≡ with_number seq true (numbers_in self.old)) }
        ensures err { OnErr result (numbers_in self.new ≡ numbers_in self.old) }
    {
        self.numbers.insert(seq)?;
        Ok(())
    }

    /// The record was acknowledged. False, with nothing changed, exactly where its number isn't the least one kept. It
    /// takes no memory.
    pub fn ack(&mut self, seq: u64) -> bool
        ensures least { IsTrue result ↔ IsLeast seq (numbers_in self.old) }
        ensures gone { OnTrue result (numbers_in self.new ≡ with_number seq false (numbers_in self.old)) }
        ensures unchanged { OnFalse result (numbers_in self.new ≡ numbers_in self.old) }
    {
        let is_least = self.is_least(seq);
        if is_least {
            self.numbers.remove(&seq);
        }
        is_least
    }

    /// Whether the number is the least one kept.
    fn is_least(&self, seq: u64) -> bool
        ensures { IsTrue result ↔ IsLeast seq (numbers_in self.now) }
    {
        match self.least() {
            Some(least) => least == seq,
            None => false,
        }
    }

    /// The least number kept, None exactly where none is. It takes no memory.
    pub fn least(&self) -> Option<u64>
        ensures least { IfSome result (λ least. IsLeast least (numbers_in self.now)) }
        ensures none { IfNone result ((n : ℕ) → numbers_in self.now n ≡ false) }
    {
        self.numbers.first().copied()
    }

    /// Whether the number is kept. It takes no memory.
    pub fn keeps(&self, seq: u64) -> bool
        ensures { result ≡ numbers_in self.now seq }
    {
        self.numbers.contains(&seq)
    }
}
