//! The words behind the program's name, and what they ask for.
#![tactic(auto)]

mod arguments;
mod command;
mod laws;
mod numbers;
mod option_name;
mod word_reading;
mod words;

pub use command::Command;
pub use laws::words_ask_once;
pub use numbers::BUDGET;
pub use words::command_of;
