//! Which threads an entry of their client may let act or keep from acting.
#![tactic(auto)]

mod examples;
mod laws;

pub use examples::print_closes;
pub use laws::{
    acts_touch_what_they_do, entries_touch_their_lock, few_act_otherwise, few_are_touched,
    light_acts_touch_none, other_threads_stay, others_may_act, waiters_and_copies_are_so,
};
