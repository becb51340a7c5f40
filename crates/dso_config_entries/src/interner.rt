//! Things in a row, each with its number (`specs/FirstPlace.antt`).

ghost use Rattle.std.specs.Prelude.{◌≡◌, ◌↔◌, [], ◌∷◌, ◌++◌, None, IfOk, OnErr, IsTrue, if◌then◌else◌};
ghost use Rattle.dso_config_entries.specs.FirstPlace.{place_of};

use dso_base::NoMemory;
use std::alloc::Global;
use std::collections::BTreeMap;
use std::marker::Model;

/// Things that differ, in the order in which they came. A thing's number is its place, counted from 0.
#[derive(Drop)]
pub struct Interner<K: Ord> {
    things: Vec<K>,
    numbers: BTreeMap<K, usize>,
}

impl<K: Ord> Model for Interner<K> {
    ghost use Rattle.std.specs.Prelude.{◌≡◌, List};
    ghost use Rattle.std.specs.BTreeMap.{get};
    ghost use Rattle.dso_config_entries.specs.FirstPlace.{place_of};

    ghost Value = { List K };

    ghost view = { λ a. a.things.items };

    ghost invariant = { λ a. (thing : K) → get K.cmp a.numbers thing ≡ place_of K.cmp a.things.items thing };
}

impl<K: Ord + Copy + Drop> Interner<K> {
    /// No thing.
    pub fn new(alloc: Global) -> Self
        ensures { result ≡ [] }
    {
        Interner {
            things: Vec::new(alloc),
            numbers: BTreeMap::new(alloc),
        }
    }

    /// The things in the order of their numbers.
    pub fn as_slice(&self) -> &[K]
        ensures { result.now ≡ self.now }
    {
        self.things.as_slice()
    }

    /// The number of a thing, None where it isn't there.
    pub fn number(&self, thing: K) -> Option<usize>
        ensures { result ≡ place_of K.cmp self.now thing }
    {
        self.numbers.get(&thing).copied()
    }

    /// Puts a thing behind the others where it isn't there yet, and tells whether it wasn't. Where there is no memory
    /// the things are as before.
    pub fn add(&mut self, thing: K) -> Result<bool, NoMemory>
        ensures fresh { IfOk result (λ fresh. IsTrue fresh ↔ (place_of K.cmp self.old thing ≡ None)) }
        ensures added { IfOk result (λ fresh. self.new ≡ if fresh then self.old ++ thing ∷ [] else self.old) }
        ensures err { OnErr result (self.new ≡ self.old) }
    {
        if self.numbers.contains_key(&thing) {
            return Ok(false);
        }
        let number = self.things.len();
        self.things.push(thing)?;
        match self.numbers.insert(thing, number) {
            Ok(_) => Ok(true),
            Err(refused) => {
                self.things.pop();
                Err(refused.into())
            }
        }
    }
}
