//! What a journal tells of each node, and which entry each node may make next.
//!
//! The definitions stand in `specs/`, their laws are the contracts of the functions in [`laws`].
#![tactic(auto)]

mod copies;
pub mod core_laws;
mod entries;
pub mod laws;
mod leases;
mod readings;
pub mod run_laws;
mod shapes;

pub use copies::copy_of;
pub use leases::leased;
pub use readings::LockStanding;
pub use shapes::{fits_shape, guard_at, kind_at};
