//! A call, ended.
ghost use Rattle.std.specs.Prelude.{◌≡◌, ◌+◌, ℕ, List, [], length};
ghost use Rattle.relay_outside.specs.declared.settings.Config.{Config};
ghost use Rattle.relay_outside.specs.DeviceLogs.{Gained, WhereLogged};
ghost use Rattle.port_pool.specs.declared.holder.Holder.{Holder};
ghost use Rattle.call_board.specs.Acts.{Call};
ghost use Rattle.call_board.specs.Shapes.{board_shape};
ghost use Rattle.call_board.specs.Boards.{BoardMatches, CellsApart};
ghost use Rattle.call_board.specs.Views.{View};
ghost use Rattle.media_ports.specs.OpenPorts.{OpensHeld};
ghost use Rattle.media_ports.specs.Openings.{NoneOpened};
ghost use Rattle.board_turns.specs.Closings.{pairs_left};
ghost use Rattle.board_turns.specs.CallEnds.{ClosesTheirs, ending_of, leg_pairs, with_call_ended};
ghost use Rattle.board_turns.specs.BoardTurns.{CanNest, HoldsPorts, IsTurnCall, MakesNested, MayEnd, Works};

use crate::board_turn::BoardTurn;
use crate::cells::end_cell;
use crate::gone_legs::close_legs;
use relay_outside::PortMaker;
use std::sync::Wait;

/// Ends a live call in the board's turn: its cell ends, it is live no more, and its legs are closed in lease order: of each
/// the box is shut, its two ports are given to the port maker, that for RTP first, and its pair goes back to the board.
/// No leg has gone before it and none after it. It takes no memory.
pub fn end_call<P: PortMaker, R: Wait>(rt: &R, turn: &mut BoardTurn<P>, call: u64)
    requires may { CanNest turn.old.main }
    requires can { MayEnd P.log turn.old call }
    requires empty { turn.old.gone.now ≡ [] }
    ensures works { Works P.log P.faults turn.old turn.new }
    ensures gained { (of : Call) (legs : List Holder) → IsTurnCall turn.old call of legs →
        MakesNested (ending_of turn.old.main.config.now of legs) turn.old.main turn.new.main }
    ensures ended { (of : Call) (legs : List Holder) → IsTurnCall turn.old call of legs →
        (config : Config) (v : View) → BoardMatches config turn.old.board.now v → CellsApart v.calls → BoardMatches config turn.new.board.now (with_call_ended v call legs) }
    ensures closes { (of : Call) (legs : List Holder) → IsTurnCall turn.old call of legs →
        Gained (P.log turn.old.ports.now) (P.log turn.new.ports.now) (ClosesTheirs P.Out.log turn.old.main.config.now legs) }
    ensures open { (of : Call) (legs : List Holder) → IsTurnCall turn.old call of legs →
        (held : List ℕ) → WhereLogged (P.log turn.old.ports.now) (λ calls. OpensHeld turn.old.main.config.now calls held) →
        WhereLogged (P.log turn.new.ports.now) (λ calls. OpensHeld turn.old.main.config.now calls (pairs_left (leg_pairs legs) held)) }
    ensures none { Gained (P.log turn.old.ports.now) (P.log turn.new.ports.now) NoneOpened }
    ensures holds { HoldsPorts P.log turn.old → HoldsPorts P.log turn.new }
    ensures fewer { length (board_shape turn.old.board.now).calls ≡ length (board_shape turn.new.board.now).calls + 1 }
{
    let cell = turn.board.end_call(call);
    end_cell(rt, &mut turn.main, cell, turn.gone);
    close_legs(rt, turn);
}
