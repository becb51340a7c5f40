//! The grammar of the method language: the tree of a program text, over its tokens.
#![tactic(auto)]

mod blockless;
mod expression;
mod fault;
mod grammar;
mod item;
mod limits;
mod member;
mod names;
mod operand;
mod plain;
mod statement;
mod text;
mod tree;

pub use fault::SyntaxFault;
pub use grammar::{one_fault, one_tree, read_exactly};
pub use text::parse;
pub use tree::{Ast, ExprForm, ExprTree, Ident, Item, Member, StmtForm, StmtTree};
