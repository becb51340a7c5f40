//! The cluster whose nodes run in threads: what the logs of its nodes come to, once they are together.
#![tactic(auto)]

mod cells;
mod epoch;
mod gate;
mod host;
pub mod laws;
mod open_slots;
mod opening;
mod readings;
mod rest;
mod rounds;
mod setting;
mod weights;
mod worker;

pub use cells::Cells;
pub use gate::Gate;
pub use host::Host;
pub use opening::cells_of;
use setting::Setting;
