ghost use Rattle.std.specs.Prelude.{◌≡◌, ◌<◌, ◌≤◌, ◌+◌, ◌-◌, ℕ, [], ◌∷◌, ◌++◌, IfOk, IfErr, OnErr, vec_len, vec_capacity};
ghost use Rattle.ng_bencode.specs.Room.{Room};
ghost use Rattle.replay_devices.specs.Countdowns.{next_counted_fails, counted_room};

use relay_outside::OutOfMemory;
use std::alloc::Global;
use std::marker::Model;

/// Which calls to come of one kind fail: for each, which call from now it is, from 1.
///
/// Contracts see these numbers, 0 for a call that came, and for how many more there is room.
#[derive(Drop)]
pub(crate) struct Countdowns {
    numbers: Vec<u32>,
}

impl Model for Countdowns {
    ghost Value = { Room ℕ };

    ghost view = { λ calls. record { list = calls.numbers.items; spare = vec_capacity calls.numbers - vec_len calls.numbers } };
}

impl Countdowns {
    /// None yet, and capacity for this many.
    pub(crate) fn with_room(alloc: Global, room: usize) -> Result<Countdowns, OutOfMemory>
        ensures list { IfOk result (λ calls. calls.list ≡ []) }
        ensures room { IfOk result (λ calls. calls.spare ≡ room) }
    {
        let numbers = Vec::with_capacity(alloc, room)?;
        Ok(Countdowns { numbers })
    }

    /// The call of this number from now fails. Without room it takes memory; if it runs out of memory, nothing
    /// changes.
    pub(crate) fn add(&mut self, number: u32) -> Result<(), OutOfMemory>
        ensures list { IfOk result (λ _. self.new.list ≡ self.old.list ++ number ∷ []) }
        ensures room { self.old.spare ≤ self.new.spare + 1 }
        ensures full { OnErr result (self.old.spare ≡ 0) }
        ensures same { IfErr result (λ _. self.new.list ≡ self.old.list) }
    {
        self.numbers.push(number)?;
        Ok(())
    }

    /// Whether the next call fails.
    pub(crate) fn next_fails(&self) -> bool
        ensures { result ≡ next_counted_fails self.now.list }
    {
        self.numbers.iter().any(|number| *number == 1)
    }

    /// Counts a call.
    pub(crate) fn count_call(&mut self)
        ensures { self.new ≡ counted_room self.old }
    {
        for number in self.numbers.iter_mut() {
            *number = number.saturating_sub(1);
        }
    }
}
