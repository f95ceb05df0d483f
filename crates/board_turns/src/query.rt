//! A call that is asked after.
ghost use Rattle.std.specs.Prelude.{◌≡◌, [], ◌∷◌};
ghost use Rattle.histories.specs.Words.{In};
ghost use Rattle.port_pool.specs.Reports.{CountsFit};
ghost use Rattle.port_pool.specs.declared.reports.LegReport.{LegReport};
ghost use Rattle.call_cell.specs.Cells.{Read};
ghost use Rattle.call_board.specs.Acts.{Call};
ghost use Rattle.call_board.specs.Calls.{live};
ghost use Rattle.relay_core.specs.Scripts.{in_cell};
ghost use Rattle.board_turns.specs.BoardTurns.{Begins, MakesNested, Works, past_of};

use crate::board_turn::BoardTurn;
use crate::cells::read_cell;
use port_pool::LegReports;
use relay_outside::PortMaker;
use std::sync::Wait;

/// Reads the legs of the live call of this number, in the board's turn of the query that asks after it: `out` then has the reports of
/// its cell, whose counts are each below 2^63, in place of what it had. Nothing else is done. It takes no memory.
pub fn query_call<P: PortMaker, R: Wait>(
    rt: &R,
    turn: &mut BoardTurn<P>,
    call: u64,
    out: &mut LegReports,
)
    requires begins { Begins P.log turn.old }
    requires live { (of : Call) × In of (live (past_of turn.old.main)) × (of.number ≡ call) }
    ensures works { Works P.log P.faults turn.old turn.new }
    ensures nothing { (turn.new.board.now ≡ turn.old.board.now) × (turn.new.ports.now ≡ turn.old.ports.now) }
    ensures gained { (of : Call) → In of (live (past_of turn.old.main)) → of.number ≡ call →
        MakesNested (in_cell of (Read out.new) ∷ []) turn.old.main turn.new.main }
    ensures counts { (report : LegReport) → In report out.new → CountsFit report }
{
    let cell = turn.board.cell_of(call);
    read_cell(rt, &mut turn.main, cell, out);
}
