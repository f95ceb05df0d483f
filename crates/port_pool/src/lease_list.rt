ghost use Rattle.std.specs.Prelude.{◌≡◌, ◌<◌, ◌↔◌, ◌++◌, [], length, IfOk, IsSome, Some, slice_get};
ghost use Rattle.std.specs.Option.{option_to_list};
ghost use Rattle.port_pool.specs.LeaseLists.{with_lease};

use crate::pairs::Lease;
use relay_outside::OutOfMemory;
use std::alloc::Global;
use std::collections::VecDeque;
use std::marker::Model;

/// Leases in the order in which they were made, with room for a number of them. Contracts see the list and the room.
#[derive(Drop)]
pub struct Leases {
    leases: VecDeque<Lease>,
}

impl Model for Leases {
    ghost use Rattle.std.specs.VecDeque.{deque_capacity};
    ghost use Rattle.port_pool.specs.LeaseLists.{LeaseList};

    ghost Value = { LeaseList };

    ghost view = { λ leases. record { list = leases.leases.items; room = deque_capacity leases.leases } };
}

impl Leases {
    /// No leases yet, with capacity for this many.
    pub fn with_room(alloc: Global, room: usize) -> Result<Leases, OutOfMemory>
        ensures { IfOk result (λ leases. leases ≡ record { list = []; room = room }) }
    {
        let leases = VecDeque::with_capacity(alloc, room)?;
        Ok(Leases { leases })
    }

    /// Adds a lease after the others. It takes no memory.
    pub fn push(&mut self, lease: Lease)
        requires { length self.old.list < self.old.room }
        ensures { self.new ≡ with_lease self.old lease }
    {
        self.leases.push_back_reserved(lease);
    }

    /// How many leases there are.
    pub fn len(&self) -> usize
        ensures { result ≡ length self.now.list }
    {
        self.leases.len()
    }

    /// A lease by its place, from 0.
    pub fn get(&self, index: usize) -> &Lease
        requires { index < length self.now.list }
        ensures { slice_get self.now.list index ≡ Some result.now }
    {
        &self.leases[index]
    }

    /// Gives the earliest lease that is left. `None`: none is left.
    pub fn pop(&mut self) -> Option<Lease>
        ensures list { self.old.list ≡ option_to_list result ++ self.new.list }
        ensures left { IsSome result ↔ (0 < length self.old.list) }
        ensures room { self.new.room ≡ self.old.room }
    {
        self.leases.pop_front()
    }
}
