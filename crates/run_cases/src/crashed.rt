//! Files that a crash may leave, beside the images of a disk.

use crate::stopped::{MOST_STOPS, is_stopped, shown};
use crate::store_trial::StoreTrial;
use crate::surroundings::Surroundings;
use dso_base::NoMemory;
use std::alloc::Global;

/// The bytes that a place may have.
const BYTES: [u8; 3] = [0, 1, 255];

/// Answers, each with what stands before it, of which one like the answer before it is left out.
#[derive(Drop)]
struct Changes {
    text: String,
    last: String,
}

impl Changes {
    /// None yet, under this name.
    fn new(alloc: Global, name: &str) -> Result<Changes, NoMemory> {
        Ok(Changes {
            text: String::from_str(alloc, name)?,
            last: String::new(alloc),
        })
    }

    /// Adds an answer where it isn't the last one.
    fn add(&mut self, alloc: Global, label: &str, answer: String) -> Result<(), NoMemory> {
        if answer != self.last {
            self.text = format!(in alloc; "{}\n{label}: {answer}", self.text)?;
            self.last = answer;
        }
        Ok(())
    }
}

/// What becomes of the bytes that are pending.
#[derive(Clone, Copy)]
pub enum Damage {
    /// The file has each length between the old end and the new one.
    Cut,
    /// Each byte that isn't as it was is 0, 1 and 255.
    Spoilt,
}

/// What `show` prints of each file that a run may leave so on a disk that stops at call 1, at call 2, and so on.
pub fn crashes(
    alloc: Global,
    name: &str,
    trial: &StoreTrial<'_>,
    damage: Damage,
) -> Result<String, NoMemory> {
    let mut changes = Changes::new(alloc, name)?;
    for stop in 1..MOST_STOPS {
        let left = trial.stopped(stop).answer(alloc)?;
        if !is_stopped(&left) {
            break;
        }
        let torn = Torn::of(alloc, &left)?;
        match damage {
            Damage::Cut => torn.add_cuts(alloc, trial, stop, &mut changes)?,
            Damage::Spoilt => torn.add_spoils(alloc, trial, stop, &mut changes)?,
        }
    }
    let text = format!(in alloc; "{}\n", changes.text)?;
    Ok(text)
}

/// A file of which a crash may leave other bytes: as it is on the disk, and with all that was written since.
#[derive(Drop)]
struct Torn {
    old: Vec<u8>,
    new: Vec<u8>,
}

impl Torn {
    /// The file that a call leaves.
    fn of(alloc: Global, left: &Surroundings) -> Result<Torn, NoMemory> {
        Ok(Torn {
            old: left.disk().image(alloc, 0)?,
            new: left.file(alloc)?,
        })
    }

    /// Adds what `show` prints of the new bytes with each length from the old one on.
    fn add_cuts(
        &self,
        alloc: Global,
        trial: &StoreTrial<'_>,
        stop: u64,
        changes: &mut Changes,
    ) -> Result<(), NoMemory> {
        for count in self.old.len()..self.new.len() {
            let label = format!(in alloc; "at call {stop}, {count} bytes")?;
            let answer = shown(alloc, trial, &self.new[..count])?;
            changes.add(alloc, label.as_str(), answer)?;
        }
        let label = format!(in alloc; "at call {stop}, {} bytes", self.new.len())?;
        changes.add(alloc, label.as_str(), shown(alloc, trial, &self.new)?)
    }

    /// Adds what it prints of the new bytes with each other byte at each place where they aren't the old ones.
    fn add_spoils(
        &self,
        alloc: Global,
        trial: &StoreTrial<'_>,
        stop: u64,
        changes: &mut Changes,
    ) -> Result<(), NoMemory> {
        for place in 0..self.new.len() {
            if self.old.get(place) == self.new.get(place) {
                continue;
            }
            for byte in BYTES {
                let label = format!(in alloc; "at call {stop}, {byte} at {place}")?;
                let spoilt = self.spoilt(alloc, place, byte)?;
                changes.add(alloc, label.as_str(), shown(alloc, trial, &spoilt)?)?;
            }
        }
        Ok(())
    }

    /// The new bytes with another at one place.
    fn spoilt(&self, alloc: Global, place: usize, byte: u8) -> Result<Vec<u8>, NoMemory> {
        let mut bytes = Vec::from_slice(alloc, &self.new)?;
        if let Some(old) = bytes.get_mut(place) {
            *old = byte;
        }
        Ok(bytes)
    }
}
