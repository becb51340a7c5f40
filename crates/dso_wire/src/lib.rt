//! Frames and records as bytes: one spelling a frame, and one frame a spelling.
#![tactic(auto)]

mod bodies;
mod coding;
mod endings;
mod fault;
mod frames;
mod laws;
mod lists;
mod locks;
mod messages;
mod notes;
mod reading;
mod records;
mod values;
mod whole;
mod writing;

pub use coding::{
    can_encode_down, can_encode_up, decode_down, decode_record, decode_up, encode_down,
    encode_record, encode_up,
};
pub use fault::{ReadFault, WireFault, Wrong};
pub use laws::{decoded_can_go, one_frame, record_length};
