//! Look-ups: ordered maps seen as functions from keys, maps of rows and of lists, and the search for what is found
//! from a value through the private objects of a thread.
#![tactic(auto)]

mod lists;
mod maps;
mod rows;
mod rows_in_place;
mod search;

pub use lists::push_at;
pub use maps::{put, take};
pub use rows::{
    discard_in, find_in, first_in, is_row_empty, is_row_taken, put_in, take_in, take_row,
};
pub use rows_in_place::{insert_in, remove_in, replace_in};
pub use search::{PrivateObjects, reached_from};
