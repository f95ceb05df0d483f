//! The end of a board's turn.
ghost use Rattle.std.specs.Prelude.{◌≡◌};
ghost use Rattle.turn_table.specs.Hands.{IsHandOf, HasTurn, IsSameHand, IsMain, EndsTurn, place_of, front_of, state_of, taken_of};
ghost use Rattle.relay_core.specs.Steps.{Relates};

use relay_core::{Relay, Says, Told};
use relay_outside::{InEnd, OutEnd};
use turn_table::{Hand, Turn, Turns};

/// Ends a turn of the main hand with the step that X says. Of the board's turn that is the board's entry, with the pairs of the
/// legs that it closes.
pub fn put_entry<I: InEnd, O: OutEnd, X: Says>(
    turns: &Turns<Relay<I, O>>,
    hand: &mut Hand<Relay<I, O>>,
    turn: Turn<Relay<I, O>>,
)
    requires table { IsHandOf turns.now hand.old × IsMain hand.old }
    requires turn { HasTurn hand.old turn }
    requires step { Relates I.log I.faults O.log O.faults (taken_of turn) X.made (state_of turn) }
    ensures same { IsSameHand hand.old hand.new }
    ensures entry { EndsTurn (place_of turn) (front_of turn) X.made tt hand.old hand.new }
{
    turns.put::<Told<X>>(hand, turn);
}
