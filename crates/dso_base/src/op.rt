//! The operators of the method language.
use crate::{Data, Same};

/// An operator of the language. `Not` and `Neg` stand before their one operand, the others between two.
#[derive(Clone, Copy, Debug, PartialEq, Eq)]
pub enum Op {
    Add,
    Sub,
    Mul,
    Div,
    Rem,
    Lt,
    Le,
    Gt,
    Ge,
    Eq,
    Ne,
    And,
    Or,
    Not,
    /// The minus sign before an operand.
    Neg,
}

impl Data for Op {
    ghost use Rattle.std.proofs.Common.{rules};

    ghost faithful = { Prim.search rules };
}

impl Same for Op {
    fn same(&self, other: &Self) -> bool {
        self == other
    }
}
