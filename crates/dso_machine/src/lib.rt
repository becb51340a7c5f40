//! A program as the machine runs it: every name is a number.
#![tactic(auto)]

mod branch;
mod call;
mod code;
mod continuation;
mod copies;
mod evaluate;
mod execute;
mod held;
mod known;
mod laws;
mod machine;
mod map;
mod next_part;
mod on_reply;
mod on_value;
mod operators;
mod rest;
mod stack;
mod thread;
mod tree;

pub use branch::{Branch, TreePart};
pub use code::{Code, Method, ThreadBody};
pub use laws::{faults_unwind, frames_are_kept, locks_nest, maps_are_called};
pub use thread::Thread;
pub use tree::{Arguments, Block, Expr, FieldRef, Places, Stmt};
