//! Which step is taken next (`specs/ChosenSlot.antt`, `specs/Flags.antt`).
ghost use Rattle.std.specs.Prelude.{◌≡◌, ◌+◌, ◌*◌, ◌<◌, ◌≤◌, ◌^◌, IfOk, IfSome, drop, false, length, option_map, set, slice_get};
ghost use Rattle.std.specs.Option.{option_map_or};
ghost use Rattle.dso_world.specs.Flags.{AreCounts, closed_row, is_set, next_set, nth_set, one_if, chosen_place};

use crate::seed::SeedState;
use dso_base::NoMemory;
use std::alloc::Global;
use std::marker::Model;

/// Which steps are open, and which of them is taken next.
///
/// It has a flag for each slot, at the slot's place. Contracts see the flags, the place at which the next round begins
/// and how many steps made an entry (`Row`). It keeps how many flags are set in each block of 64, so to choose costs a
/// pass over these counts and over one block or two; a seed that was used before goes on from where it was.
#[derive(Drop)]
pub struct Chooser {
    flags: Vec<bool>,
    counts: Vec<usize>,
    count: usize,
    begin: usize,
    entries: u64,
    seed: SeedState,
}

impl Model for Chooser {
    ghost use Rattle.std.specs.Prelude.{◌≡◌, ◌≤◌, ◌<◌, ◌^◌, length};
    ghost use Rattle.dso_world.specs.Flags.{AreCounts, Row, set_count};

    ghost Value = { Row };

    ghost view = { λ chooser. record { flags = chooser.flags.items; begin = chooser.begin; entries = chooser.entries } };

    ghost invariant = { λ chooser. (chooser.count ≡ set_count chooser.flags.items) × (chooser.begin ≤ length chooser.flags.items) × (chooser.entries < 2 ^ 63) × AreCounts chooser.flags.items chooser.counts.items };
}

/// The place of the flag that has this number among those set, from 0 on.
fn nth_set(flags: &[bool], number: usize) -> Option<usize>
    ensures place { result ≡ nth_set number flags.now }
    ensures within { IfSome result (λ place. place < length flags.now) }
{
    let mut left = number;
    for (place, flag) in flags.iter().enumerate() {
        if *flag {
            if left == 0 {
                return Some(place);
            }
            left -= 1;
        }
    }
    None
}

/// The place of the flag that has this number among those set from this place on.
fn nth_behind(flags: &[bool], begin: usize, number: usize) -> Option<usize>
    requires { begin ≤ length flags.now }
    ensures place { result ≡ option_map (λ i. begin + i) (nth_set number (drop begin flags.now)) }
    ensures within { IfSome result (λ place. place < length flags.now) }
{
    match nth_set(&flags[begin..], number) {
        Some(at) => Some(begin + at),
        None => None,
    }
}

/// The place of the flag that has this number among those set from this block on: blocks before its own are passed over
/// by their counts.
fn nth_from(flags: &[bool], counts: &[usize], from: usize, number: usize) -> Option<usize>
    requires counts { AreCounts flags.now counts.now }
    requires small { length flags.now < 2 ^ 63 }
    ensures place { result ≡ option_map (λ i. 64 * from + i) (nth_set number (drop (64 * from) flags.now)) }
    ensures within { IfSome result (λ place. place < length flags.now) }
{
    let mut left = number;
    for block in from..counts.len() {
        let count = counts[block];
        if left < count {
            return nth_behind(flags, 64 * block, left);
        }
        left -= count;
    }
    None
}

/// The place of the first flag set, from this place on, going round.
fn next_set(flags: &[bool], counts: &[usize], begin: usize) -> Option<usize>
    requires begin { begin ≤ length flags.now }
    requires counts { AreCounts flags.now counts.now }
    requires small { length flags.now < 2 ^ 63 }
    ensures place { result ≡ next_set begin flags.now }
    ensures within { IfSome result (λ place. place < length flags.now) }
{
    let block = begin / 64 + 1;
    let end = flags.len().min(64 * block);
    if let Some(at) = nth_set(&flags[begin..end], 0) {
        return Some(begin + at);
    }
    match nth_from(flags, counts, block, 0) {
        Some(place) => Some(place),
        None => nth_from(flags, counts, 0, 0),
    }
}

/// How many flags are set once one of them is written, of so many.
fn recounted(count: usize, was: bool, to: bool) -> usize
    requires there { one_if was ≤ count }
    requires fits { count < 2 ^ 63 }
    ensures { result + one_if was ≡ count + one_if to }
{
    match (was, to) {
        (true, false) => count - 1,
        (false, true) => count + 1,
        (true, true) => count,
        (false, false) => count,
    }
}

impl Chooser {
    /// So many slots, none of which is open, before the first step. It answers `NoMemory` where an allocation was
    /// refused.
    pub fn new(alloc: Global, slots: usize) -> Result<Chooser, NoMemory>
        ensures { IfOk result (λ chooser. chooser ≡ closed_row slots) }
    {
        Ok(Chooser {
            flags: vec![in alloc; false; slots]?,
            counts: vec![in alloc; 0; slots / 64 + 1]?,
            count: 0,
            begin: 0,
            entries: 0,
            seed: SeedState::new(0),
        })
    }

    /// Whether the slot at this place is open; false where there is no such place. It takes no memory.
    pub fn is_open(&self, place: usize) -> bool
        ensures { result ≡ option_map_or is_set (slice_get self.now.flags place) false }
    {
        match self.flags.get(place) {
            Some(flag) => *flag,
            None => false,
        }
    }

    /// Tells whether the slot at this place is open. It takes no memory.
    pub fn set(&mut self, place: usize, to: bool)
        requires { place < length self.old.flags }
        ensures { self.new ≡ record self.old { flags = set self.old.flags place to } }
    {
        let block = place / 64;
        let was = self.flags[place];
        self.count = recounted(self.count, was, to);
        self.counts[block] = recounted(self.counts[block], was, to);
        self.flags[place] = to;
    }

    /// The step of the slot at this place made an entry: the next round begins behind it. It takes no memory.
    pub fn taken(&mut self, place: usize)
        requires place { place < length self.old.flags }
        requires fits { self.old.entries + 1 < 2 ^ 63 }
        ensures { self.new ≡ record self.old { begin = place + 1; entries = self.old.entries + 1 } }
    {
        self.entries += 1;
        self.begin = place + 1;
    }

    /// The place of the slot that is taken next: by round robin, or by the seed. None exactly where no slot is open. It
    /// takes no memory.
    pub fn choose(&mut self, seed: Option<u64>) -> Option<usize>
        ensures chosen { result ≡ chosen_place seed self.old }
        ensures within { IfSome result (λ place. place < length self.old.flags) }
        ensures same { self.new ≡ self.old }
    {
        match seed {
            Some(_) if self.count == 0 => None,
            Some(seed) => {
                self.seed = self.seed.moved_to(seed, self.entries + 1);
                let number = self.seed.lot(self.count);
                nth_from(self.flags.as_slice(), self.counts.as_slice(), 0, number)
            }
            None => next_set(self.flags.as_slice(), self.counts.as_slice(), self.begin),
        }
    }
}
