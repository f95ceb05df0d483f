ghost use Rattle.std.specs.Prelude.{◌≡◌, ◌+◌, ◌≤◌, ◌<◌, [], ◌∷◌, ◌++◌, length, OnOk, OnErr};

use std::alloc::{AllocError, AllocFailed, Global};
use std::marker::Model;

/// Out of memory.
#[derive(Clone, Copy, Debug, PartialEq, Eq)]
pub struct OutOfMemory;

impl From<AllocError> for OutOfMemory {
    fn from(_refused: AllocError) -> OutOfMemory {
        OutOfMemory
    }
}

impl<T: Drop> From<AllocFailed<T>> for OutOfMemory {
    fn from(_refused: AllocFailed<T>) -> OutOfMemory {
        OutOfMemory
    }
}

/// A list of bytes with its spare room.
#[derive(Drop)]
pub struct Bytes {
    items: Vec<u8>,
}

impl Model for Bytes {
    ghost use Rattle.std.specs.Prelude.{ℕ, ◌-◌, vec_len};
    ghost use Rattle.std.specs.Vec.{vec_capacity};
    ghost use Rattle.sdp_text.specs.Room.{Reserve};

    ghost Value = { Reserve ℕ };

    ghost view = { λ b. record { list = b.items.items; spare = vec_capacity b.items - vec_len b.items } };
}

impl Bytes {
    /// The empty list. It takes no memory.
    pub fn new(alloc: Global) -> Bytes
        ensures { result.list ≡ [] }
    {
        Bytes {
            items: Vec::new(alloc),
        }
    }

    /// Makes room for `more` bytes. Its bytes and the room that it had stay, also when it fails.
    pub fn reserve(&mut self, more: usize) -> Result<(), OutOfMemory>
        ensures room { OnOk result (more ≤ self.new.spare) }
        ensures list { self.new.list ≡ self.old.list }
        ensures kept { self.old.spare ≤ self.new.spare }
    {
        self.items.reserve(more)?;
        Ok(())
    }

    /// Adds a byte at the end.
    pub fn push(&mut self, item: u8)
        requires { 0 < self.old.spare }
        ensures list { self.new.list ≡ self.old.list ++ item ∷ [] }
        ensures spare { self.old.spare ≤ self.new.spare + 1 }
    {
        let _ = self.items.push(item);
    }

    /// The bytes.
    pub fn as_slice(&self) -> &[u8]
        ensures { result.now ≡ self.now.list }
    {
        self.items.as_slice()
    }

    /// Adds bytes at the end.
    pub fn extend(&mut self, bytes: &[u8])
        requires { length bytes.now ≤ self.old.spare }
        ensures list { self.new.list ≡ self.old.list ++ bytes.now }
        ensures spare { self.old.spare ≤ self.new.spare + length bytes.now }
    {
        let _ = self.items.extend_from_slice(bytes);
    }
}
