//! What a thread does after a reply, where the reply and a number or a grade alone decide it.
#![tactic(auto)]

mod leaving;
mod roots;
mod waiting;

pub use leaving::{AfterExit, after_exit};
pub use roots::{Binding, binding_of};
pub use waiting::{AfterWait, after_tick, after_wait};
