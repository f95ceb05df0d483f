ghost use Rattle.std.specs.Prelude.{◌≡◌, ◌+◌, ◌-◌, ◌<◌, ◌≤◌, ℕ, [], ◌∷◌, ◌++◌, length, IfOk, OnOk, vec_len, vec_capacity};
ghost use Rattle.ng_bencode.specs.Room.{Room};

use crate::errors::OutOfMemory;
use std::alloc::Global;
use std::marker::Model;

/// A list of bytes that grows where room was reserved.
///
/// Contracts see it as its bytes, `list`, and the number of bytes that it has room for, `spare`.
#[derive(Drop)]
pub struct Text {
    bytes: Vec<u8>,
}

impl Model for Text {
    ghost Value = { Room ℕ };

    ghost view = { λ text. record { list = text.bytes.items; spare = vec_capacity text.bytes - vec_len text.bytes } };
}

impl Text {
    /// The empty text. It takes no memory.
    pub fn new(alloc: Global) -> Text
        ensures { result.list ≡ [] }
    {
        Text {
            bytes: Vec::new(alloc),
        }
    }

    /// A text of these bytes, in memory of its own. `Err`: there was no memory for it.
    pub fn copy_of(alloc: Global, bytes: &[u8]) -> Result<Text, OutOfMemory>
        ensures { IfOk result (λ text. text.list ≡ bytes.now) }
    {
        let mut text = Text::new(alloc);
        text.reserve(bytes.len())?;
        text.extend(bytes);
        Ok(text)
    }

    /// Makes room for `more` bytes. Its bytes and the room that was there stay, also when it fails.
    pub fn reserve(&mut self, more: usize) -> Result<(), OutOfMemory>
        ensures list { self.new.list ≡ self.old.list }
        ensures room { OnOk result (more ≤ self.new.spare) }
        ensures kept { self.old.spare ≤ self.new.spare }
    {
        Ok(self.bytes.reserve(more)?)
    }

    /// Puts a byte at the end.
    pub fn push(&mut self, byte: u8)
        requires { 0 < self.old.spare }
        ensures list { self.new.list ≡ self.old.list ++ byte ∷ [] }
        ensures room { self.old.spare ≤ self.new.spare + 1 }
    {
        let _ = self.bytes.push(byte);
    }

    /// Puts bytes at the end.
    pub fn extend(&mut self, bytes: &[u8])
        requires { length bytes.now ≤ self.old.spare }
        ensures list { self.new.list ≡ self.old.list ++ bytes.now }
        ensures room { self.old.spare ≤ self.new.spare + length bytes.now }
    {
        let _ = self.bytes.extend_from_slice(bytes);
    }

    /// Its bytes.
    pub fn as_slice(&self) -> &[u8]
        ensures { result.now ≡ self.now.list }
    {
        self.bytes.as_slice()
    }
}
