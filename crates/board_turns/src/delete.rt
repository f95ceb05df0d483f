//! A call that is deleted.
ghost use Rattle.std.specs.Prelude.{◌≡◌};
ghost use Rattle.relay_outside.specs.DeviceLogs.{Gained};
ghost use Rattle.histories.specs.Words.{In};
ghost use Rattle.call_board.specs.Acts.{Call, BoardEntry, Deleted, act};
ghost use Rattle.call_board.specs.Calls.{live};
ghost use Rattle.media_ports.specs.Openings.{NoneOpened};
ghost use Rattle.board_turns.specs.BoardTurns.{Begins, Does, Works, past_of};

use crate::board_turn::BoardTurn;
use crate::call_end::end_call;
use relay_outside::PortMaker;
use std::sync::Wait;

/// Ends the live call of this number in the board's turn of the delete that ends it: its cell ends, it is live no more, and its
/// legs are closed in lease order. No leg has gone before it and none after it. It takes no memory.
pub fn delete_call<P: PortMaker, R: Wait>(rt: &R, turn: &mut BoardTurn<P>, call: u64)
    requires begins { Begins P.log turn.old }
    requires live { (of : Call) × In of (live (past_of turn.old.main)) × (of.number ≡ call) }
    ensures works { Works P.log P.faults turn.old turn.new }
    ensures does { (e : BoardEntry) (of : Call) → act e ≡ Deleted of → of.number ≡ call → In of (live (past_of turn.old.main)) →
        e.moment ≡ turn.old.main.entry_id.moment → Does P.log turn.old turn.new e }
    ensures closes { Gained (P.log turn.old.ports.now) (P.log turn.new.ports.now) NoneOpened }
{
    end_call(rt, turn, call);
}
