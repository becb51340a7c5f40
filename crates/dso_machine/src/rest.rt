//! What is left of parts that stand one behind the other.
ghost use Rattle.std.specs.Prelude.{◌≡◌, ◌↔◌, [], ◌++◌, IfOk, IsNone};
ghost use Rattle.std.specs.Option.{option_to_list};

use crate::{Branch, TreePart};
use dso_base::{Items, NoMemory};
use std::alloc::Global;
use std::marker::Model;

/// The parts from a place on, which contracts see as their list. The parts before it stay where they are.
#[derive(Debug, Drop)]
pub(crate) struct Rest<T> {
    parts: Branch<Items<Branch<T>>>,
    at: usize,
}

impl<T> Model for Rest<T> {
    ghost use Rattle.std.specs.Prelude.{List, drop};

    ghost Value = { List T };

    ghost view = { λ rest. drop rest.at rest.parts };
}

impl<T> Rest<T> {
    /// All of the parts. It takes no memory.
    pub(crate) fn new(parts: Branch<Items<Branch<T>>>) -> Self
        ensures { result ≡ parts }
    {
        Rest { parts, at: 0 }
    }
}

impl<T: TreePart> Rest<T> {
    /// Takes the first part, None exactly where there is none.
    ///
    /// NoMemory: an allocation was refused. The parts stay as they were.
    pub(crate) fn pop(&mut self, alloc: Global) -> Result<Option<Branch<T>>, NoMemory>
        ensures taken { IfOk result (λ part. self.old ≡ option_to_list part ++ self.new) }
        ensures none { IfOk result (λ part. IsNone part ↔ (self.old ≡ [])) }
    {
        let parts = self.parts.get().as_slice();
        if self.at < parts.len() {
            let part = parts[self.at].again(alloc)?;
            self.at += 1;
            Ok(Some(part))
        } else {
            Ok(None)
        }
    }
}
