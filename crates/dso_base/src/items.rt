//! A list over one vector, which contracts see as the list.
ghost use Rattle.std.specs.Prelude.{◌≡◌, ◌↔◌, [], ◌∷◌, ◌++◌, length, IsNone, IsTrue, OnOk, OnErr, IfErr, IfOk, slice_get};
ghost use Rattle.std.specs.Option.{option_copied, option_to_list};

use crate::{Data, Same};
use std::alloc::{AllocError, AllocFailed, Global};
use std::marker::Model;

/// A list of values, which contracts see as a list.
///
/// It is a `Vec` inside. [`Items::from_vec`] and [`Items::into_vec`] go between the two and take no memory.
#[derive(Debug, Drop)]
pub struct Items<T> {
    items: Vec<T>,
}

impl<T> Model for Items<T> {
    ghost use Rattle.std.specs.Prelude.{List};

    ghost Value = { List T };

    ghost view = { λ a. a.items.items };
}

impl<T> Items<T> {
    /// The empty list.
    pub fn new(alloc: Global) -> Self
        ensures { result ≡ [] }
    {
        Items {
            items: Vec::new(alloc),
        }
    }

    /// The list of a vector's items. It takes no memory.
    pub fn from_vec(items: Vec<T>) -> Self
        ensures { result ≡ items.items }
    {
        Items { items }
    }

    /// The vector of the items. It takes no memory.
    pub fn into_vec(self) -> Vec<T>
        ensures { result.items ≡ self }
    {
        self.items
    }

    /// The items as a slice.
    pub fn as_slice(&self) -> &[T]
        ensures { result.now ≡ self.now }
    {
        self.items.as_slice()
    }

    /// How many items there are.
    pub fn len(&self) -> usize
        ensures { result ≡ length self.now }
    {
        self.items.len()
    }

    /// Whether there is no item.
    pub fn is_empty(&self) -> bool
        ensures { IsTrue result ↔ (self.now ≡ []) }
    {
        self.items.is_empty()
    }

    /// The item at a place, counted from 0; None past the end.
    pub fn get(&self, at: usize) -> Option<&T>
        ensures { option_copied result ≡ slice_get self.now at }
    {
        self.items.get(at)
    }

    /// Puts an item at the end. Where there is no memory the list is as before, and the item is given back.
    pub fn push(&mut self, item: T) -> Result<(), AllocFailed<T>>
        ensures ok { OnOk result (self.new ≡ self.old ++ item ∷ []) }
        ensures err { OnErr result (self.new ≡ self.old) }
        ensures given_back { IfErr result (λ e. e.value ≡ item) }
    {
        self.items.push(item)
    }

    /// Takes the last item, None exactly where there is none.
    pub fn pop(&mut self) -> Option<T>
        ensures taken { self.old ≡ self.new ++ option_to_list result }
        ensures none { IsNone result ↔ (self.old ≡ []) }
    {
        self.items.pop()
    }
}

impl<T: Data> Clone for Items<T> {
    ghost use Rattle.std.specs.Prelude.{◌≡◌};

    ghost is_clone = { λ source clone. clone ≡ source };

    fn clone(&self) -> Result<Self, AllocError> {
        let alloc = *self.items.allocator();
        Ok(Items::from_vec(copied(alloc, self.as_slice())?))
    }
}

impl<T: Data> Data for Items<T> {
    ghost faithful = { λ source clone is_clone. is_clone };
}

impl<T: Same> Same for Items<T> {
    fn same(&self, other: &Self) -> bool {
        same_items(self.as_slice(), other.as_slice())
    }
}

/// The same items in a vector of their own.
fn copied<T: Data>(alloc: Global, items: &[T]) -> Result<Vec<T>, AllocError>
    ensures { IfOk result (λ copies. copies.items ≡ items.now) }
{
    let mut copies = Vec::with_capacity(alloc, items.len())?;
    for item in items {
        copies.push(item.clone()?)?;
    }
    Ok(copies)
}

/// Whether the two lists have the same items in the same order.
fn same_items<T: Same>(items: &[T], others: &[T]) -> bool
    ensures { IsTrue result ↔ (items.now ≡ others.now) }
{
    if items.len() != others.len() {
        return false;
    }
    for (at, item) in items.iter().enumerate() {
        if !item.same(&others[at]) {
            return false;
        }
    }
    true
}
