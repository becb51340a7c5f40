//! What is garbage stays garbage, and is named no more; and a server may lack it.
#![tactic(auto)]

mod laws;

pub use laws::{
    garbage_is_found, garbage_stays, lacked_stays_garbage, named_are_there, swept_are_unnamed,
    swept_is_clean,
};
