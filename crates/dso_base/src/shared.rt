//! A value that several hold at once, which contracts see as the value.
ghost use Rattle.std.specs.Prelude.{◌≡◌, IfErr, IfOk};

use crate::{Data, Same};
use std::alloc::{AllocError, AllocFailed, Global};
use std::fmt;
use std::marker::Model;
use std::sync::Arc;

/// A value in a block that several hold at once. Nobody changes it, so contracts see it as the value.
///
/// A clone is one owner more of the block, and takes no memory. Where no owner more can be counted the value is copied into
/// a block of its own.
pub struct Shared<T> {
    inner: Arc<T>,
    alloc: Global,
}

impl<T> Model for Shared<T> {
    ghost Value = { T };

    ghost coded = { T.code };

    ghost view = { λ s. s.inner.value };
}

impl<T: Drop> Drop for Shared<T> {
    fn drop(self) {
        let Self { inner, alloc: _ } = self;
        drop(inner);
    }
}

impl<T: fmt::Debug> fmt::Debug for Shared<T> {
    fn fmt<W: fmt::Write>(&self, f: &mut fmt::Formatter<W>) -> fmt::Result {
        self.get().fmt(f)
    }
}

impl<T> Shared<T> {
    /// Puts a value into a block. Where there is no memory the value is given back.
    pub fn new(alloc: Global, value: T) -> Result<Self, AllocFailed<T>>
        ensures ok { IfOk result (λ shared. shared ≡ value) }
        ensures given_back { IfErr result (λ e. e.value ≡ value) }
    {
        Ok(Shared {
            inner: Arc::new(alloc, value)?,
            alloc,
        })
    }

    /// The value.
    pub fn get(&self) -> &T
        ensures { result.now ≡ self.now }
    {
        &self.inner
    }
}

impl<T: Data + Drop> Clone for Shared<T> {
    ghost use Rattle.std.specs.Prelude.{◌≡◌};

    ghost is_clone = { λ source clone. clone ≡ source };

    fn clone(&self) -> Result<Self, AllocError> {
        match self.inner.clone() {
            Ok(inner) => Ok(Shared {
                inner,
                alloc: self.alloc,
            }),
            Err(_) => self.copied(),
        }
    }
}

impl<T: Data + Drop> Shared<T> {
    /// The value once more, in a block of its own.
    fn copied(&self) -> Result<Self, AllocError>
        ensures { IfOk result (λ copy. copy ≡ self.now) }
    {
        let copy = self.get().clone()?;
        Ok(Shared::new(self.alloc, copy)?)
    }
}

impl<T: Data + Drop> Data for Shared<T> {
    ghost faithful = { λ source clone is_clone. is_clone };
}

impl<T: Same> Same for Shared<T> {
    fn same(&self, other: &Self) -> bool {
        self.get().same(other.get())
    }
}
