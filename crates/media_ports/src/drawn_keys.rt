ghost use Rattle.std.specs.Prelude.{◌≡◌, ◌<◌, ◌≤◌, [], length, IfOk, OnOk, OnErr};
ghost use Rattle.relay_outside.specs.DeviceLogs.{Gained, HasCause};
ghost use Rattle.media_ports.specs.Draws.{with_drawn_key, AreDrawn, DrawsUpTo};

use relay_outside::{Failed, KeyAndSalt, KeySource, OutOfMemory};
use std::alloc::Global;
use std::marker::Model;

/// Drawn keys in their order, with room for a number of keys. Contracts see the list and the room.
#[derive(Drop)]
pub struct DrawnList {
    keys: Vec<KeyAndSalt>,
}

impl Model for DrawnList {
    ghost use Rattle.std.specs.Vec.{vec_capacity};
    ghost use Rattle.media_ports.specs.Draws.{KeyBytes};

    ghost Value = { KeyBytes };

    ghost view = { λ drawn. record { list = drawn.keys.items; room = vec_capacity drawn.keys } };
}

impl DrawnList {
    /// No key yet, with capacity for this many.
    pub fn with_room(alloc: Global, room: usize) -> Result<DrawnList, OutOfMemory>
        ensures { IfOk result (λ drawn. drawn ≡ record { list = []; room = room }) }
    {
        let keys = Vec::with_capacity(alloc, room)?;
        Ok(DrawnList { keys })
    }

    /// Adds a key after the others. It takes no memory.
    fn push(&mut self, key: KeyAndSalt)
        requires { length self.old.list < self.old.room }
        ensures { self.new ≡ with_drawn_key self.old key }
    {
        self.keys.push_reserved(key);
    }

    /// The keys: 16 bytes of a master key and 14 of its salt each (RFC 3711 section 8.2).
    pub fn as_slice(&self) -> &[KeyAndSalt]
        ensures { result.now ≡ self.now.list }
    {
        self.keys.as_slice()
    }
}

/// A draw failed. The keys that were drawn before it stay in the list.
#[derive(Clone, Copy, PartialEq, Eq, Debug)]
pub struct KeyFault;

impl From<Failed> for KeyFault {
    fn from(_failed: Failed) -> KeyFault {
        KeyFault
    }
}

/// Draws this many keys into an empty list with room for them. It takes no memory.
pub fn draw_keys<K: KeySource>(
    keys: &mut K,
    count: usize,
    drawn: &mut DrawnList,
) -> Result<(), KeyFault>
    requires none { drawn.old.list ≡ [] }
    requires room { count ≤ drawn.old.room }
    ensures draws { OnOk result (Gained (K.log keys.old) (K.log keys.new) (AreDrawn drawn.new.list)) }
    ensures count { OnOk result (length drawn.new.list ≡ count) }
    ensures then_fails { OnErr result (Gained (K.log keys.old) (K.log keys.new) (DrawsUpTo drawn.new.list)) }
    ensures some_are_left { OnErr result (length drawn.new.list < count) }
    ensures room { drawn.new.room ≡ drawn.old.room }
    ensures cause { HasCause (K.faults keys.old) (K.faults keys.new) result }
{
    for _drawn in 0..count {
        let key = keys.draw()?;
        drawn.push(key);
    }
    Ok(())
}
