//! A part of a tree that several hold at once, which contracts see as the part.
ghost use Rattle.std.specs.Prelude.{◌≡◌, IfErr, IfOk, IfSome};

use dso_base::NoMemory;
use std::alloc::{AllocFailed, Global};
use std::fmt;
use std::marker::Model;
use std::sync::Arc;

/// A part of a tree in a block that several hold at once. Nobody changes it, so contracts see it as the part.
///
/// A type that holds values of its own kind holds them in such branches, and in lists of them.
pub struct Branch<T> {
    inner: Arc<T>,
}

impl<T> Model for Branch<T> {
    ghost Value = { T };

    ghost coded = { T.code };

    ghost view = { λ b. b.inner.value };
}

impl<T: Drop> Drop for Branch<T> {
    fn drop(self) {
        let Self { inner } = self;
        drop(inner);
    }
}

impl<T: fmt::Debug> fmt::Debug for Branch<T> {
    fn fmt<W: fmt::Write>(&self, f: &mut fmt::Formatter<W>) -> fmt::Result {
        self.get().fmt(f)
    }
}

impl<T> Branch<T> {
    /// Puts a part into a block. Where there is no memory the part is given back.
    pub fn new(alloc: Global, part: T) -> Result<Self, AllocFailed<T>>
        ensures ok { IfOk result (λ branch. branch ≡ part) }
        ensures given_back { IfErr result (λ e. e.value ≡ part) }
    {
        Ok(Branch {
            inner: Arc::new(alloc, part)?,
        })
    }

    /// The part.
    pub fn get(&self) -> &T
        ensures { result.now ≡ self.now }
    {
        &self.inner
    }
}

/// A part of a tree, of which a copy can be made.
pub trait TreePart: Drop {
    /// The same part, with a node of its own.
    ///
    /// The branches of the copy are had once more ([`Branch::again`]), so mostly it shares all that stands below. Where a
    /// branch has as many owners as can be counted, what stands in it is copied in turn. So a copy goes down at most as
    /// deep as the grammar nests, which is 64 levels.
    ///
    /// NoMemory: an allocation was refused. The part stays as it was.
    fn copied(&self, alloc: Global) -> Result<Self, NoMemory>
        ensures { IfOk result (λ copy. copy ≡ self.now) };
}

impl<T: Drop> Branch<T> {
    /// The same part once more: one more owner is counted. None where there are as many owners as can be counted.
    pub(crate) fn counted(&self) -> Option<Self>
        ensures { IfSome result (λ branch. branch ≡ self.now) }
    {
        match self.inner.clone() {
            Ok(inner) => Some(Branch { inner }),
            Err(_) => None,
        }
    }
}

impl<T: TreePart> Branch<T> {
    /// The same part once more. It takes no memory while its owners can be counted, and is a copy otherwise.
    ///
    /// NoMemory: an allocation was refused. The part stays as it was.
    pub fn again(&self, alloc: Global) -> Result<Self, NoMemory>
        ensures { IfOk result (λ branch. branch ≡ self.now) }
    {
        match self.counted() {
            Some(branch) => Ok(branch),
            None => Ok(Branch::new(alloc, self.get().copied(alloc)?)?),
        }
    }
}
