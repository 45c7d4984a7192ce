ghost use Rattle.std.specs.Prelude.{◌≡◌, ◌↔◌, IsTrue, ◌<◌, ◌++◌, ◌∷◌, [], length, OnOk, OnErr, slice_get, slice_set, option_copied};
ghost use Rattle.std.specs.Prelude.{List as list_of};

use crate::NoMemory;
use std::alloc::Global;
use std::marker::Model;

/// A list that grows at its end. Contracts see it as the list of its items.
#[derive(Debug, Drop)]
pub struct List<T> {
    items: Vec<T>,
}

impl<T> Model for List<T> {
    ghost Value = { list_of T };

    ghost view = { λ l. l.items.items };
}

impl<T> List<T> {
    /// The empty list, which grows by this allocator. Takes no memory.
    pub fn new(alloc: Global) -> List<T>
        ensures { result ≡ [] }
    {
        List {
            items: Vec::new(alloc),
        }
    }

    /// The list of a vector that is owned already.
    pub fn from_vec(items: Vec<T>) -> List<T>
        ensures { result ≡ items.items }
    {
        List { items }
    }

    /// How many items there are.
    pub fn len(&self) -> usize
        ensures { result ≡ length self.now }
    {
        self.items.len()
    }

    pub fn is_empty(&self) -> bool
        ensures { IsTrue result ↔ (self.now ≡ []) }
    {
        self.items.is_empty()
    }

    /// The item number `i`, counted from 0.
    pub fn get(&self, i: usize) -> Option<&T>
        ensures { option_copied result ≡ slice_get self.now i }
    {
        self.items.as_slice().get(i)
    }

    /// All items in order.
    pub fn as_slice(&self) -> &[T]
        ensures { result.now ≡ self.now }
    {
        self.items.as_slice()
    }
}

impl<T: Drop> List<T> {
    /// Adds an item at the end. A refused one is let go, and the list stays as it was.
    pub fn push(&mut self, item: T) -> Result<(), NoMemory>
        ensures ok { OnOk result (self.new ≡ self.old ++ item ∷ []) }
        ensures err { OnErr result (self.new ≡ self.old) }
    {
        self.items.push(item)?;
        Ok(())
    }

    /// Gives back the memory behind the last item, where the allocator can.
    pub fn fit(&mut self)
        ensures { self.new ≡ self.old }
    {
        self.items.shrink_to_fit();
    }

    /// Puts an item in the place of number `i`, which is let go.
    pub fn set(&mut self, i: usize, item: T)
        requires { i < length self.old }
        ensures { self.new ≡ slice_set self.old i item }
    {
        self.items[i] = item;
    }
}
