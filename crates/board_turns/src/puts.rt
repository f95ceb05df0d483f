//! How a turn is put back. All data of the step that ends it are arguments, so that the proof of a call can pick the step from them.
ghost use Rattle.turn_table.specs.Hands.{IsHandOf, HasTurn, IsSameHand, IsMain, EndsTurn, place_of, front_of, state_of, taken_of};
ghost use Rattle.relay_core.specs.Steps.{Relates};

use crate::board_turn::BoardEntryId;
use relay_core::{Relay, Says, Told};
use relay_outside::{InEnd, OutEnd};
use turn_table::{Hand, Turn, Turns};

/// Ends a turn of the main hand with the step that X says. `data` is what the step's event tells, and `left` what left the place by it.
pub(crate) fn put_step<I: InEnd, O: OutEnd, D, L, X: Says>(
    turns: &Turns<Relay<I, O>>,
    hand: &mut Hand<Relay<I, O>>,
    turn: Turn<Relay<I, O>>,
    entry_id: BoardEntryId,
    data: &D,
    left: &L,
)
    requires table { IsHandOf turns.now hand.old × IsMain hand.old }
    requires turn { HasTurn hand.old turn }
    requires step { Relates I.log I.faults O.log O.faults (taken_of turn) X.made (state_of turn) }
    ensures same { IsSameHand hand.old hand.new }
    ensures entry { EndsTurn (place_of turn) (front_of turn) X.made tt hand.old hand.new }
{
    turns.put::<Told<X>>(hand, turn);
}
