ghost use Rattle.std.specs.Prelude.{◌≡◌, ◌<◌, ◌++◌, [], None, IfOk, length, nat_lt};
ghost use Rattle.std.specs.Option.{option_to_list};
ghost use Rattle.call_cell.specs.CellEnds.{parts_of};

use crate::leg::Leg;
use port_pool::{Lease, MOST_LEGS};
use relay_outside::OutOfMemory;
use std::alloc::Global;
use std::marker::Model;

/// The legs that went from a cell: their leases and out ends, in lease order, with room for 16. Contracts see it as a list.
#[derive(Drop)]
pub struct Gone<O> {
    legs: Vec<(Lease, O, O)>,
}

impl<O> Model for Gone<O> {
    ghost use Rattle.std.specs.Prelude.{◌≤◌, List, vec_capacity};
    ghost use Rattle.port_pool.specs.declared.pairs.Lease.{Lease};

    ghost Value = { List (Lease × O × O) };

    ghost view = { λ gone. gone.legs.items };

    ghost invariant = { λ gone. 16 ≤ vec_capacity gone.legs };
}

impl<O> Gone<O> {
    /// No leg yet.
    pub fn new(alloc: Global) -> Result<Gone<O>, OutOfMemory>
        ensures { IfOk result (λ gone. gone ≡ []) }
    {
        let legs = Vec::with_capacity(alloc, MOST_LEGS)?;
        Ok(Gone { legs })
    }

    /// Whether one more leg has room.
    pub(crate) fn has_room(&self) -> bool
        ensures { result ≡ nat_lt (length self.now) 16 }
    {
        self.legs.len() < MOST_LEGS
    }

    /// Takes a leg, where its ends weren't taken.
    pub(crate) fn put(&mut self, leg: Leg<O>)
        requires { length self.old < 16 }
        ensures { self.new ≡ self.old ++ option_to_list (parts_of leg) }
    {
        if let Some(parts) = leg.into_parts() {
            self.legs.push_reserved(parts);
        }
    }

    /// Gives the lease of a leg that is left, and its out ends for RTP and for RTCP: that of the earliest one. `None`: none is
    /// left.
    pub fn pop(&mut self) -> Option<(Lease, O, O)>
        ensures takes { self.old ≡ option_to_list result ++ self.new }
        ensures none { result ≡ None → self.new ≡ [] }
    {
        if self.legs.is_empty() {
            return None;
        }
        Some(self.legs.remove(0))
    }
}
