//! What a turn shows of itself.
ghost use Rattle.std.specs.Prelude.{◌≡◌};
ghost use Rattle.std.specs.Borrow.{sem};

use crate::hands::Turn;
use crate::machine::Machine;

impl<M: Machine> Turn<M> {
    ghost use Rattle.turn_table.specs.Hands.{state_of, place_of, front_of};
    ghost use Rattle.turn_table.specs.StateBorrows.{LendsState};

    /// The state of the place, to read and to change. What it is when the turn is put is what the place then has.
    pub fn state(&mut self) -> &mut M::State
        ensures* writes_back { sem 𝓛 (LendsState M.row M.State.row M.Event.row M.Outcome.row self.entry result) }
        ensures value { result.now ≡ state_of self.old }
    {
        &mut self.state.inner.value
    }

    /// The place whose turn it is.
    pub fn place(&self) -> usize
        ensures { result ≡ place_of self.now }
    {
        self.place
    }

    /// How many events the place has made before this one: the number of the event that this turn will make.
    pub fn front(&self) -> u64
        ensures { result ≡ front_of self.now }
    {
        self.front
    }
}
