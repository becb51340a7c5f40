//! A value in a box, which contracts see as the value.
ghost use Rattle.std.specs.Prelude.{◌≡◌, IfErr, IfOk};

use crate::{Data, Same};
use std::alloc::{AllocError, AllocFailed, Global};
use std::marker::Model;

/// A value in a block of its own, which contracts see as the value.
///
/// A type that holds values of its own kind holds them in such boxes, and in [`crate::Items`].
#[derive(Debug, Drop)]
pub struct Boxed<T> {
    inner: Box<T>,
}

impl<T> Model for Boxed<T> {
    ghost Value = { T };

    ghost coded = { T.code };

    ghost view = { λ b. b.inner.value };
}

impl<T> Boxed<T> {
    /// Puts a value into a block of its own. Where there is no memory the value is given back.
    pub fn new(alloc: Global, value: T) -> Result<Self, AllocFailed<T>>
        ensures ok { IfOk result (λ boxed. boxed ≡ value) }
        ensures given_back { IfErr result (λ e. e.value ≡ value) }
    {
        Ok(Boxed {
            inner: Box::new(alloc, value)?,
        })
    }

    /// The value.
    pub fn get(&self) -> &T
        ensures { result.now ≡ self.now }
    {
        &self.inner
    }

    /// The value, out of its block. It takes no memory.
    pub fn into_inner(self) -> T
        ensures { result ≡ self }
    {
        Box::into_inner(self.inner)
    }
}

impl<T: Data> Clone for Boxed<T> {
    ghost use Rattle.std.specs.Prelude.{◌≡◌};

    ghost is_clone = { λ source clone. clone ≡ source };

    fn clone(&self) -> Result<Self, AllocError> {
        let alloc = *Box::allocator(&self.inner);
        let value = self.get().clone()?;
        Ok(Boxed::new(alloc, value)?)
    }
}

impl<T: Data> Data for Boxed<T> {
    ghost faithful = { λ source clone is_clone. is_clone };
}

impl<T: Same> Same for Boxed<T> {
    fn same(&self, other: &Self) -> bool {
        self.get().same(other.get())
    }
}
