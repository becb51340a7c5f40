//! Words: names as their bytes.
use crate::{Data, Items, Same};

/// A word of a text as its bytes: a name, or the content of a text literal. Contracts see a list of bytes.
pub type Word = Items<u8>;

impl Data for u8 {
    ghost use Rattle.std.proofs.Common.{rules};

    ghost faithful = { Prim.search rules };
}

impl Same for u8 {
    fn same(&self, other: &Self) -> bool {
        self == other
    }
}
