//! The end of the board's turn.
ghost use Rattle.std.specs.Prelude.{◌≡◌};
ghost use Rattle.turn_table.specs.Hands.{IsHandOf, HasTurn, IsSameHand, IsMain, EndsTurn, place_of, front_of, state_of, taken_of};
ghost use Rattle.relay_core.specs.PartShapes.{board_shape_in};
ghost use Rattle.relay_core.specs.Entries.{board_history};
ghost use Rattle.relay_core.specs.Steps.{Relates};
ghost use Rattle.relay_core.specs.Turns.{made_by};
ghost use Rattle.board_turns.specs.Controls.{control_made};
ghost use Rattle.ng_server.specs.Requests.{record_of};

use crate::datagram::Arrived;
use crate::turn_record::TurnRecord;
use relay_core::{Relay, Says, Told};
use relay_outside::{Config, InEnd, OutEnd};
use turn_table::{Hand, Turn, Turns};

/// A datagram was dealt with. All data of the board's entry are arguments, so that the proof of a call can pick it from them.
pub(crate) fn put_control<I: InEnd, O: OutEnd, X: Says>(
    turns: &Turns<Relay<I, O>>,
    hand: &mut Hand<Relay<I, O>>,
    turn: Turn<Relay<I, O>>,
    config: &Config,
    arrived: &Arrived,
    turn_record: &TurnRecord,
)
    requires table { IsHandOf turns.now hand.old × IsMain hand.old }
    requires turn { HasTurn hand.old turn }
    requires step { Relates I.log I.faults O.log O.faults (taken_of turn) (control_made config.now (board_history (made_by hand.old) (front_of turn)) arrived.now.moment (record_of arrived.now.request turn_record.now) (board_shape_in (state_of turn))) (state_of turn) }
    requires said { X.made ≡ control_made config.now (board_history (made_by hand.old) (front_of turn)) arrived.now.moment (record_of arrived.now.request turn_record.now) (board_shape_in (state_of turn)) }
    ensures same { IsSameHand hand.old hand.new }
    ensures entry { EndsTurn (place_of turn) (front_of turn) (control_made config.now (board_history (made_by hand.old) (front_of turn)) arrived.now.moment (record_of arrived.now.request turn_record.now) (board_shape_in (state_of turn))) tt hand.old hand.new }
{
    turns.put::<Told<X>>(hand, turn);
}
