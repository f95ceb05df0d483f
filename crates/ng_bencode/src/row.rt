ghost use Rattle.std.specs.Prelude.{◌≡◌, ◌+◌, ◌<◌, ◌≤◌, [], ◌∷◌, ◌++◌, OnOk};

use crate::errors::OutOfMemory;
use std::alloc::Global;

/// A list of items that grows where room was reserved.
///
/// Contracts see it as its items, `list_in`, and the number of items that it has room for, `spare_in`.
/// They are no model, since a model of a type that holds itself can't name it.
#[derive(Drop)]
pub struct Row<T> {
    items: Vec<T>,
}

impl<T> Row<T> {
    ghost use Rattle.ng_bencode.specs.Row.{list_in, spare_in};

    /// The empty list. It takes no memory.
    pub fn new(alloc: Global) -> Row<T>
        ensures { list_in result ≡ [] }
    {
        Row {
            items: Vec::new(alloc),
        }
    }

    /// Makes room for `more` items. Its items and the room that was there stay, also when it fails.
    pub fn reserve(&mut self, more: usize) -> Result<(), OutOfMemory>
        ensures list { list_in self.new ≡ list_in self.old }
        ensures room { OnOk result (more ≤ spare_in self.new) }
        ensures kept { spare_in self.old ≤ spare_in self.new }
    {
        Ok(self.items.reserve(more)?)
    }

    /// Puts an item at the end.
    pub fn push(&mut self, item: T)
    where
        T: Drop,
        requires { 0 < spare_in self.old }
        ensures list { list_in self.new ≡ list_in self.old ++ item ∷ [] }
        ensures room { spare_in self.old ≤ spare_in self.new + 1 }
    {
        let _ = self.items.push(item);
    }

    /// Its items.
    pub fn as_slice(&self) -> &[T]
        ensures { result.now ≡ list_in self.now }
    {
        self.items.as_slice()
    }
}
