//! Which steps are open (`specs/ChosenSlot.antt`).
ghost use Rattle.std.specs.Option.{option_map_or};
ghost use Rattle.std.specs.Prelude.{◌≡◌, ◌<◌, false, true, length, option_and_then, position, slice_get, IfNone, IfSome};
ghost use Rattle.dso_world.specs.ChosenSlot.{is_slot};
ghost use Rattle.dso_world.specs.Flags.{chosen_place, is_set};
ghost use Rattle.dso_world.specs.WorldSteps.{slot_of};

use crate::asking_threads::AskingThreads;
use crate::step_table::StepTable;
use crate::{Chooser, Step};

/// The steps of the cluster in the order of their slots, which of them are open, the threads by what they ask next, and
/// whether the run is finished.
#[derive(Drop)]
pub struct OpenSteps {
    pub(crate) steps: StepTable,
    pub(crate) chooser: Chooser,
    pub(crate) asking: AskingThreads,
    pub(crate) is_finished: bool,
}

impl OpenSteps {
    /// Whether the step is open; false where it isn't one of the cluster's.
    pub(crate) fn is_open(&self, step: Step) -> bool
        ensures { result ≡ option_map_or is_set (option_and_then (slice_get self.now.chooser.flags) (position (λ other. is_slot (slot_of step) (slot_of other)) self.now.steps)) false }
    {
        match self.steps.place_of(step) {
            Some(place) => self.chooser.is_open(place),
            None => false,
        }
    }

    /// The place of the step, where it is open.
    pub(crate) fn open_place(&self, step: Step) -> Option<usize>
        ensures none { IfNone result (option_map_or is_set (option_and_then (slice_get self.now.chooser.flags) (position (λ other. is_slot (slot_of step) (slot_of other)) self.now.steps)) false ≡ false) }
        ensures place { IfSome result (λ place. position (λ other. is_slot (slot_of step) (slot_of other)) self.now.steps ≡ Some place) }
        ensures open { IfSome result (λ place. slice_get self.now.chooser.flags place ≡ Some true) }
    {
        match self.steps.place_of(step) {
            Some(place) if self.chooser.is_open(place) => Some(place),
            _ => None,
        }
    }

    /// The step at the chosen place.
    pub(crate) fn choose(&mut self, seed: Option<u64>) -> Option<Step>
        ensures chosen { result ≡ option_and_then (slice_get self.old.steps) (chosen_place seed self.old.chooser) }
        ensures within { IfSome (chosen_place seed self.old.chooser) (λ place. place < length self.old.chooser.flags) }
        ensures same { self.new ≡ self.old }
    {
        match self.chooser.choose(seed) {
            Some(place) => self.steps.get(place),
            None => None,
        }
    }
}
