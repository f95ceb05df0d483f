ghost use Rattle.std.specs.Prelude.{◌≡◌, [], IfOk, length};

use call_cell::Gone;
use relay_outside::OutOfMemory;
use std::alloc::Global;
use std::marker::Model;

/// How many bytes a datagram of the control protocol may have, and one more.
pub const DATAGRAM_ROOM: usize = 16_385;

/// The memory of a control turn: room for one datagram of at most 16,384 bytes, with one byte by which a longer one is told,
/// and for the legs that go from a call's cell, whose out ends are of this type.
#[derive(Drop)]
pub struct Desk<O> {
    /// The bytes of the datagram.
    pub(crate) datagram: Vec<u8>,
    /// The legs that went. It is empty between two calls of the server.
    pub(crate) gone: Gone<O>,
}

impl<O> Model for Desk<O> {
    ghost use Rattle.std.specs.Prelude.{◌≡◌, ℕ, List, [], length};

    ghost Value = { List ℕ };

    ghost view = { λ desk. desk.datagram.items };

    ghost invariant = { λ desk. (length desk.datagram.items ≡ 16385) × (desk.gone ≡ []) };
}

impl<O> Desk<O> {
    /// A desk, whose bytes don't matter.
    pub fn new(alloc: Global) -> Result<Desk<O>, OutOfMemory>
        ensures { IfOk result (λ desk. length desk ≡ DATAGRAM_ROOM) }
    {
        let datagram = vec![in alloc; 0; DATAGRAM_ROOM]?;
        let gone = Gone::new(alloc)?;
        Ok(Desk { datagram, gone })
    }
}
