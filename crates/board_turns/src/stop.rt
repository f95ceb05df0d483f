//! All live calls, ended in order, and the turn of the board in which a stop does so.
ghost use Rattle.std.specs.Prelude.{◌≡◌, [], ◌∷◌, length};
ghost use Rattle.relay_outside.specs.DeviceLogs.{Gained, WhereLogged};
ghost use Rattle.call_board.specs.Boards.{BoardFor};
ghost use Rattle.call_board.specs.Calls.{live};
ghost use Rattle.relay_core.specs.Scripts.{script};
ghost use Rattle.relay_core.specs.Turns.{made_by};
ghost use Rattle.media_ports.specs.Openings.{NoneOpened};
ghost use Rattle.media_ports.specs.OpenPorts.{OpensHeld, LogsHeld};
ghost use Rattle.board_turns.specs.Between.{MakesTurn, board_of};
ghost use Rattle.board_turns.specs.BoardTurns.{CanNest, Continues, HoldsPorts, IsWholeTurn, MakesNested, Rests, RestsAgain, Works, past_of};
ghost use Rattle.board_turns.specs.Stops.{stop_entry, still_held};

use crate::board_entry::put_entry;
use crate::board_turn::{Between, BoardEntryId, BoardTurn, MainHand};
use crate::call_end::end_call;
use relay_core::Part;
use relay_outside::PortMaker;
use std::marker::Brand;
use std::sync::Wait;

/// Ends all live calls in order of their creation, in the turn of the board that stops the relay, and returns how many: the
/// board then stands for its history with the stop, which has the moment of the last entry. It takes no memory.
pub fn end_live<P: PortMaker, R: Wait>(rt: &R, turn: &mut BoardTurn<P>) -> usize
    requires may { CanNest turn.old.main }
    requires empty { turn.old.gone.now ≡ [] }
    requires whole { IsWholeTurn turn.old }
    requires holds { HoldsPorts P.log turn.old }
    ensures works { Works P.log P.faults turn.old turn.new }
    ensures gained { Continues P.log turn.old → let h = past_of turn.old.main in MakesNested (script turn.old.main.config.now h (stop_entry h)) turn.old.main turn.new.main }
    ensures board { Continues P.log turn.old → let h = past_of turn.old.main in BoardFor turn.old.main.config.now turn.new.board.now (stop_entry h ∷ h) }
    ensures count { Continues P.log turn.old → result ≡ length (live (past_of turn.old.main)) }
    ensures open { Continues P.log turn.old → let h = past_of turn.old.main in
        WhereLogged (P.log turn.new.ports.now) (λ calls. OpensHeld turn.old.main.config.now calls (still_held h (stop_entry h) (live h))) }
    ensures closes { Gained (P.log turn.old.ports.now) (P.log turn.new.ports.now) NoneOpened }
{
    let count = turn.board.live_count();
    for ended in 0..count {
        prove!(ended < count);
        let call = turn.board.call_at(0);
        end_call(rt, turn, call);
    }
    count
}

/// Stops the relay in a turn of the board: all live calls end, in order of their creation, and the board's entry of the stop is
/// made, with the moment of the last one. It returns how many calls ended. Then no port of a pair is open, where just those of the
/// held pairs were. Between its steps the main hand waits for lanes; it takes no memory.
pub fn stop_turn<P: PortMaker, R: Wait>(rt: &R, at: &mut Between<P>) -> usize
    requires rests { Rests P.log at.old }
    ensures rests { RestsAgain P.log P.faults at.old at.new }
    ensures makes { MakesTurn at.old.config.now at.old.hand.now at.new.hand.now (stop_entry (board_of (made_by at.old.hand.now))) }
    ensures count { result ≡ length (live (board_of (made_by at.old.hand.now))) }
    ensures shut { LogsHeld at.old.config.now (P.log at.new.ports.now) [] }
    ensures closes { Gained (P.log at.old.ports.now) (P.log at.new.ports.now) NoneOpened }
{
    let mut step = at.turns.turn(rt, at.hand, 0);
    let number = step.front();
    let board = match step.state() {
        Part::Board(board) => board,
        Part::Cell(_) => unreachable!(),
        Part::Pair(_) => unreachable!(),
    };
    let moment = board.advance(0);
    let mut turn = BoardTurn {
        main: MainHand {
            turns: at.turns,
            config: at.config,
            hand: &mut *at.hand,
            entry_id: BoardEntryId { number, moment },
        },
        board,
        ports: &mut *at.ports,
        gone: &mut *at.gone,
    };
    let count = end_live(rt, &mut turn);
    put_entry::<P::In, P::Out, Brand>(at.turns, at.hand, step);
    count
}
