//! A turn is taken and put back, each in a few atomic steps.
//!
//! The mark of a place at the spot `spot` (`layout`) is the word `4 * spot`, and its count the next one. The two words up
//! to the next spot's are spare.
//!
//! The loads by `Empty` and `Reach` go beyond a plain design: a state moves in or out of its slot only at a step on a
//! word. So turns may be put back in any order.
ghost use Rattle.std.specs.Prelude.{◌≡◌, ℕ, ◌+◌, ◌^◌, IfErr, MatchResult};

use crate::hands::{Busy, Hand, Turn, Turns};
use crate::layout;
use crate::machine::{Machine, Said};
use crate::plays::{Count, Empty, Finish, Free, Look, Mark, Reach, Return};
use std::snapshot::Snapshot;

/// The front at which a place's numbers are spent.
const LAST: u64 = 1 << 56;

impl<M: Machine> Turns<M> {
    ghost use Rattle.turn_table.specs.Hands.{IsHandOf, MayTurn, IsSameHand, entries, parts, tries, TriedOnce, FoundFree, FoundBusy, GainsTurn, IsGiven, IsBusy, HasTurn, EndsTurn, IsMain, place_of, front_of, state_of, taken_of};

    /// Takes the turn of a place, by one compare-exchange of its mark. It never waits.
    ///
    /// `Busy` comes exactly where the mark was found taken, or the place has made 2^56 events.
    pub fn try_turn(&self, hand: &mut Hand<M>, place: usize) -> Result<Turn<M>, Busy>
        requires table { IsHandOf self.now hand.old }
        requires place { MayTurn hand.old place }
        ensures same { IsSameHand hand.old hand.new × (entries hand.new ≡ entries hand.old) }
        ensures tried { MatchResult result (λ t. FoundFree place (front_of t) hand.old hand.new) (λ b. FoundBusy M.relates M.reserved place b.front hand.old hand.new) }
        ensures alone { parts hand.old ≡ 1024 → IfErr result (λ b. b.front ≡ 2 ^ 56) }
        ensures free { parts hand.old ≡ 1024 → TriedOnce place 0 hand.old hand.new }
        ensures turn { MatchResult result (λ t. GainsTurn place t hand.old hand.new × IsGiven M.relates M.reserved hand.old place (front_of t) (state_of t)) (λ b. IsBusy M.relates M.reserved place b.front hand.old hand.new) }
    {
        let spot = layout::spot(self.rows, place);
        let table = &self.table.shared;
        let seat = &mut hand.seat;
        if table.compare_exchange::<Mark<M>>(seat, 4 * spot, 0, 1) != 0 {
            let front = table.load::<Look>(seat, 4 * spot + 1);
            return Err(Busy { front });
        }
        let front = table.load::<Count<M>>(seat, 4 * spot + 1);
        if front == LAST {
            table.store::<Return>(seat, 4 * spot, 0);
            return Err(Busy { front });
        }
        let Some(state) = seat.slot_mut(table, spot).swap(None) else {
            unreachable!()
        };
        table.load::<Empty>(seat, 4 * spot);
        let taken = Snapshot::of(state.get());
        Ok(Turn {
            state,
            taken,
            place,
            front,
        })
    }

    /// Puts a turn back, by which its event is made. It returns the event's number at its place.
    /// That no other hand has an entry with that place and number stands in the rule (`specs/Invariant.antt`, `once`), and is
    /// told at `close`.
    pub fn put<X: Said<M>>(&self, hand: &mut Hand<M>, turn: Turn<M>) -> u64
        requires table { IsHandOf self.now hand.old }
        requires turn { HasTurn hand.old turn }
        requires step { M.relates (taken_of turn) X.event X.outcome (state_of turn) }
        requires right { M.reserved X.event → IsMain hand.old }
        ensures same { IsSameHand hand.old hand.new }
        ensures tried { tries hand.new ≡ tries hand.old }
        ensures number { result ≡ front_of turn }
        ensures entry { EndsTurn (place_of turn) (front_of turn) X.event X.outcome hand.old hand.new }
    {
        let Turn {
            state,
            taken: _,
            place,
            front,
        } = turn;
        let spot = layout::spot(self.rows, place);
        let table = &self.table.shared;
        let seat = &mut hand.seat;
        table.load::<Reach>(seat, 4 * spot);
        let nothing = seat.slot_mut(table, spot).swap(Some(state));
        let None = nothing else { unreachable!() };
        table.store::<Finish<M, X>>(seat, 4 * spot + 1, front + 1);
        table.store::<Free>(seat, 4 * spot, 0);
        front
    }
}
