ghost use Rattle.std.specs.Prelude.{◌≡◌, ◌≤◌, ◌-◌, ◌^◌, [], ◌∷◌, ◌++◌, None, OnOk, IfSome};
ghost use Rattle.outside_real.specs.KeyStream.{stream_of};
ghost use Rattle.replay_devices.specs.Due.{Draws};

use outside_real::ChaChaKeys;
use relay_outside::{KeyAndSalt, KeySource, OutOfMemory};
use std::alloc::Global;
use std::marker::Model;

/// The keys that draws have to give: those of lines `key` that none used up, the oldest first, and then the stream of a seed.
#[derive(Drop)]
pub(crate) struct KeysDue {
    lines: Vec<KeyAndSalt>,
    /// How many of them were used up.
    used: usize,
    stream: ChaChaKeys,
    /// How many keys of the stream were drawn.
    streamed: u64,
}

impl Model for KeysDue {
    ghost use Rattle.std.specs.Prelude.{◌≡◌, ◌≤◌, vec_len, drop};
    ghost use Rattle.replay_devices.specs.Due.{DueState};

    ghost Value = { DueState };

    ghost view = { λ due. record { unused = drop due.used due.lines.items; seed_words = due.stream.seed_words; streamed = due.streamed } };

    ghost invariant = { λ due. (due.used ≤ vec_len due.lines) × (due.streamed ≡ due.stream.drawn) };
}

impl KeysDue {
    /// No line `key` was made yet, and no key drawn. It takes no memory.
    pub(crate) fn new(alloc: Global, seed: u64) -> KeysDue
        ensures { result ≡ record { unused = []; seed_words = (stream_of seed).seed_words; streamed = 0 } }
    {
        KeysDue {
            lines: Vec::new(alloc),
            used: 0,
            stream: ChaChaKeys::from_number(seed),
            streamed: 0,
        }
    }

    /// A line `key` gives one more.
    pub(crate) fn add(&mut self, key: KeyAndSalt) -> Result<(), OutOfMemory>
        ensures { OnOk result (self.new ≡ record self.old { unused = self.old.unused ++ key ∷ [] }) }
    {
        self.lines.push(key)?;
        Ok(())
    }

    /// The next key, which is used up. `None`: 2^64 - 1 keys of the stream were drawn.
    pub(crate) fn draw(&mut self) -> Option<KeyAndSalt>
        ensures draws { IfSome result (λ key. Draws self.old self.new key) }
        ensures spent { result ≡ None → (self.old.unused ≡ []) × (2 ^ 64 - 1 ≤ self.old.streamed) }
    {
        if self.used < self.lines.len() {
            let key = self.lines[self.used];
            self.used += 1;
            return Some(key);
        }
        if self.streamed == u64::MAX {
            return None;
        }
        self.streamed += 1;
        self.stream.draw().ok()
    }
}
