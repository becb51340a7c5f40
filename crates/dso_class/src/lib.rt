//! The names of the method language: from the tree of a program text to code in which every name is a number.
#![tactic(auto)]

mod body;
mod class_item;
mod clients;
mod declaration;
mod environment;
mod expression;
mod fault;
mod gathered_classes;
mod gathered_fields;
mod gathered_methods;
mod gathered_statics;
pub mod laws;
mod limits;
mod locks;
mod map_class;
mod member;
mod multimap;
mod names;
mod narrow;
mod new_maps;
mod place;
mod program;
mod resolution;
mod scope;
mod statement;
mod tables;
mod texts;
mod thread;
mod thread_order;
mod uses;
mod variables;

pub use fault::{NameFault, NameKind, What};
pub use program::{Names, Program};
pub use resolution::resolve;
