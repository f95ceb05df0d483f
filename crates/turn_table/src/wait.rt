//! The one call that may wait.
ghost use Rattle.std.specs.Prelude.{◌≡◌};

use crate::hands::{Hand, Turn, Turns};
use crate::machine::Machine;
use crossbeam_utils::Backoff;
use std::sync::Wait;

impl<M: Machine> Turns<M> {
    ghost use Rattle.turn_table.specs.Hands.{IsHandOf, MayTurn, IsSameHand, entries, TriedUntilFree, GainsTurn, IsGiven, front_of, state_of};

    /// Takes the turn of a place, and tries again until it has it.
    ///
    /// At a place that has made 2^56 events it waits forever.
    /// Between tries it spins a little longer each time, and then yields the processor.
    pub fn turn<R: Wait>(&self, rt: &R, hand: &mut Hand<M>, place: usize) -> Turn<M>
        requires table { IsHandOf self.now hand.old }
        requires place { MayTurn hand.old place }
        ensures same { IsSameHand hand.old hand.new × (entries hand.new ≡ entries hand.old) }
        ensures tried { TriedUntilFree place hand.old hand.new }
        ensures turn { GainsTurn place result hand.old hand.new × IsGiven M.relates M.reserved hand.old place (front_of result) (state_of result) }
    {
        let backoff = Backoff::new();
        for _ in rt.forever() {
            if let Ok(turn) = self.try_turn(hand, place) {
                return turn;
            }
            backoff.snooze();
        }
        unreachable!()
    }
}
