//! Lists of any items that a definition can compute with.

ghost use Rattle.std.specs.Prelude.{◌≡◌, ◌==◌, ◌++◌, ◌∷◌, [], IfErr, IfOk, OnErr, OnOk, length};

use crate::memory::{NoMemory, TryClone};
use std::alloc::{AllocFailed, Global};
use std::marker::Model;

/// Items in order, seen as the list of them.
#[derive(Debug, Drop)]
pub struct Items<T> {
    inner: Vec<T>,
}

impl<T> Model for Items<T> {
    ghost use Rattle.std.specs.Prelude.{List};

    ghost Value = { List T };

    ghost view = { λ a. a.inner.items };
}

impl<T> Items<T> {
    /// No items.
    pub fn new(alloc: Global) -> Items<T>
        ensures { result ≡ [] }
    {
        Items {
            inner: Vec::new(alloc),
        }
    }

    /// The items of a vector, which isn't copied.
    pub fn from_vec(inner: Vec<T>) -> Items<T>
        ensures { result ≡ inner.items }
    {
        Items { inner }
    }

    /// The items as a vector, which isn't copied.
    pub fn into_vec(self) -> Vec<T>
        ensures { result.items ≡ self }
    {
        let Items { inner } = self;
        inner
    }

    /// The items, borrowed.
    pub fn as_slice(&self) -> &[T]
        ensures { result.now ≡ self.now }
    {
        &self.inner
    }

    /// How many items there are.
    pub fn len(&self) -> usize
        ensures { result ≡ length self.now }
    {
        self.inner.len()
    }

    /// Whether there are none.
    pub fn is_empty(&self) -> bool
        ensures { result ≡ (length self.now == 0) }
    {
        self.inner.is_empty()
    }

    /// Puts an item at the end. Where memory is wanting, the item comes back.
    pub fn push(&mut self, item: T) -> Result<(), AllocFailed<T>>
        ensures ok { OnOk result (self.new ≡ self.old ++ item ∷ []) }
        ensures err { OnErr result (self.new ≡ self.old) }
        ensures item_returned { IfErr result (λ failed. failed.value ≡ item) }
    {
        self.inner.push(item)
    }
}

impl<T: TryClone + Drop> Items<T> {
    /// Copies of these items.
    pub fn copy_of(alloc: Global, items: &[T]) -> Result<Items<T>, NoMemory>
        ensures { IfOk result (λ copy. copy ≡ items.now) }
    {
        let mut inner = Vec::with_capacity(alloc, items.len())?;
        for item in items {
            inner.push(item.try_clone(alloc)?)?;
        }
        Ok(Items { inner })
    }
}

impl<T: TryClone + Drop> TryClone for Items<T> {
    fn try_clone(&self, alloc: Global) -> Result<Items<T>, NoMemory> {
        Items::copy_of(alloc, self.as_slice())
    }
}
