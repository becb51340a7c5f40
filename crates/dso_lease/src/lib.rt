//! The leases of one client: which locks it asked for, which it has, and which entries they admit.
#![tactic(auto)]

mod leases;
mod standing;

pub use leases::Leases;
pub use standing::{Lease, LeaseStanding, Want};
