ghost use Rattle.std.specs.Prelude.{◌≡◌, ℕ, Option, Some, None, List, [], ◌∷◌, ◌++◌, MatchOption, IsSome, IsTrue, ◌↔◌};
ghost use Rattle.relay_outside.specs.DeviceLogs.{where_logged, Gains};

use std::alloc::Global;
use std::marker::Model;

/// Bytes of a datagram or a line that a device keeps in its list of calls. Contracts see them as a list.
/// Public, as are `CallList` and `Failing`, so that devices can be made of them outside this crate.
#[derive(Drop)]
pub struct Copied {
    bytes: Vec<u8>,
}

impl Model for Copied {
    ghost use Rattle.std.specs.Prelude.{List, ℕ};

    ghost Value = { List ℕ };

    ghost view = { λ copied. copied.bytes.items };
}

impl Copied {
    /// A copy of these bytes; `None`: out of memory.
    pub fn of(alloc: Global, bytes: &[u8]) -> Option<Copied>
        ensures { MatchOption result (Unit {0}) (λ copied. copied ≡ bytes.now) }
    {
        match bytes.to_vec(alloc) {
            Ok(bytes) => Some(Copied { bytes }),
            Err(_) => None,
        }
    }

    /// The bytes.
    pub fn as_slice(&self) -> &[u8]
        ensures { result.now ≡ self.now }
    {
        self.bytes.as_slice()
    }
}

/// The log of a device, which ends where its growth is refused.
///
/// Contracts see `Some` list while the device keeps it, and `None` from the first call on that could not
/// be kept: the call was made all the same.
#[derive(Drop)]
pub struct CallList<C> {
    calls: Vec<C>,
    telling: bool,
}

impl<C> Model for CallList<C> {
    ghost use Rattle.std.specs.Prelude.{List, Option};
    ghost use Rattle.relay_outside.specs.DeviceLogs.{where_logged};

    ghost Value = { Option (List C) };

    ghost view = { λ list. where_logged list.telling list.calls.items };
}

impl<C: Drop> CallList<C> {
    /// The list of a device that has not been called yet. It takes no memory.
    pub fn new(alloc: Global) -> Self
        ensures { result ≡ Some [] }
    {
        CallList {
            calls: Vec::new(alloc),
            telling: true,
        }
    }

    /// Adds a call at the end. `None` stands for a call that could not be copied.
    pub fn note(&mut self, call: Option<C>)
        ensures { MatchOption call (self.new ≡ None) (λ call. Gains self.old self.new call) }
    {
        match call {
            Some(call) => {
                if self.telling && self.calls.push(call).is_err() {
                    self.telling = false;
                }
            }
            None => self.telling = false,
        }
    }

    /// Whether the log is still kept.
    pub fn tells(&self) -> bool
        ensures { IsTrue result ↔ IsSome self.now }
    {
        self.telling
    }

    /// The calls in their order, where they are logged.
    pub fn get(&self) -> Option<&[C]>
        ensures { MatchOption result (self.now ≡ None) (λ calls. self.now ≡ Some calls.now) }
    {
        if self.telling {
            Some(self.calls.as_slice())
        } else {
            None
        }
    }
}
