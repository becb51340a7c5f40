//! Counts that no number type bounds.
ghost use Rattle.std.specs.Prelude.{◌≡◌, ◌↔◌, ◌+◌, ◌-◌, OnOk, IsTrue};

use dso_base::NoMemory;
use std::alloc::Global;
use std::marker::Model;

/// A count, which contracts see as a number: a unit for each, and units take no memory.
#[derive(Drop)]
pub struct Count {
    units: Vec<()>,
}

impl Model for Count {
    ghost use Rattle.std.specs.Prelude.{ℕ, length};

    ghost Value = { ℕ };

    ghost view = { λ count. length count.units.items };
}

impl Count {
    /// The count 0.
    pub(crate) fn zero(alloc: Global) -> Count
        ensures { result ≡ 0 }
    {
        Count {
            units: Vec::new(alloc),
        }
    }

    /// One more.
    pub(crate) fn add(&mut self) -> Result<(), NoMemory>
        ensures { OnOk result (self.new ≡ self.old + 1) }
    {
        self.units.push(())?;
        Ok(())
    }

    /// One less, or 0 at 0.
    pub(crate) fn drop_one(&mut self)
        ensures { self.new ≡ self.old - 1 }
    {
        let _ = self.units.pop();
    }

    /// The count as a number.
    pub fn get(&self) -> usize
        ensures { result ≡ self.now }
    {
        self.units.len()
    }
}
