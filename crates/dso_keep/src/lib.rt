//! The permanent store: a disk with the model of a crash, and a file of records that each crash leaves whole.
//!
//! A file begins with a gate, one byte, and each record is followed by the next one. A gate is open where it is 1.
//! Behind an open gate stand the length of what follows in four bytes, the greatest first, the byte of a client, and the
//! record.
#![tactic(auto)]

mod disk;
mod fault;
mod fitting;
mod keep;
mod kept;
pub mod laws;
mod mem_disk;
mod reading;
mod std_disk;
mod tape;

pub use disk::Disk;
pub use fault::KeepFault;
pub use keep::{Keep, create};
pub use kept::Kept;
pub use mem_disk::MemDisk;
pub use reading::reopen;
pub use std_disk::StdDisk;
