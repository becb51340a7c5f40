//! Lists of waiting threads.
#![tactic(auto)]

mod wait_list;

pub use wait_list::WaitList;
