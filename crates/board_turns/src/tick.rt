//! The live calls that are due or have timed out, ended in order, and the turn of the board in which a tick does so.
ghost use Rattle.std.specs.Prelude.{◌≡◌, ◌+◌, ℕ, Bool, true, false, List, [], ◌∷◌, length, if◌then◌else◌};
ghost use Rattle.relay_outside.specs.declared.settings.Config.{Config};
ghost use Rattle.relay_outside.specs.DeviceLogs.{Gained, WhereLogged};
ghost use Rattle.turn_table.specs.Hands.{parts};
ghost use Rattle.port_pool.specs.declared.holder.Holder.{Holder};
ghost use Rattle.call_board.specs.Acts.{Call};
ghost use Rattle.call_board.specs.Boards.{BoardFor, BoardMatches, CellsApart};
ghost use Rattle.call_board.specs.Shapes.{board_shape};
ghost use Rattle.call_board.specs.Views.{View};
ghost use Rattle.media_ports.specs.Openings.{NoneOpened};
ghost use Rattle.media_ports.specs.OpenPorts.{OpensHeld};
ghost use Rattle.board_turns.specs.BoardTurns.{Begins, CanNest, HoldsPorts, IsWholeTurn, MakesNested, MayAsk, MayExpire, Rests, RestsAgain, Works, hand_list, past_of};
ghost use Rattle.board_turns.specs.Closings.{pairs_left};
ghost use Rattle.board_turns.specs.CallEnds.{leg_pairs};
ghost use Rattle.board_turns.specs.Ticks.{EndsDue, IsDueBy, Ticks, asking_of, tick_at, with_asked};

use crate::board_turn::{Between, BoardEntryId, BoardTurn, MainHand};
use crate::call_end::end_call;
use crate::cells::expire_cell;
use crate::puts::put_step;
use relay_core::Part;
use relay_outside::PortMaker;
use std::marker::Brand;
use std::sync::Wait;

/// Ends the call at this place among the live ones, in order of their creation from 0, where it is ending and due, or else where its cell
/// says that it has timed out. Returns whether it ended.
fn expire_call<P: PortMaker, R: Wait>(rt: &R, turn: &mut BoardTurn<P>, index: usize) -> bool
    requires may { CanNest turn.old.main }
    requires can { MayAsk P.log turn.old index }
    requires empty { turn.old.gone.now ≡ [] }
    ensures works { Works P.log P.faults turn.old turn.new }
    ensures gained { (of : Call) (legs : List Holder) (overdue : Bool) → MayExpire P.log turn.old index of legs overdue →
        MakesNested (asking_of turn.old.main.config.now of legs overdue result) turn.old.main turn.new.main }
    ensures asked { (of : Call) (legs : List Holder) (overdue : Bool) → MayExpire P.log turn.old index of legs overdue →
        (config : Config) (v : View) → BoardMatches config turn.old.board.now v → CellsApart v.calls → BoardMatches config turn.new.board.now (with_asked v of.number legs result) }
    ensures open { (of : Call) (legs : List Holder) (overdue : Bool) → MayExpire P.log turn.old index of legs overdue →
        (held : List ℕ) → WhereLogged (P.log turn.old.ports.now) (λ calls. OpensHeld turn.old.main.config.now calls held) →
        WhereLogged (P.log turn.new.ports.now) (λ calls. OpensHeld turn.old.main.config.now calls (if result then pairs_left (leg_pairs legs) held else held)) }
    ensures overdue { (of : Call) (legs : List Holder) (overdue : Bool) → MayExpire P.log turn.old index of legs overdue → overdue ≡ true → result ≡ true }
    ensures timed_out { (of : Call) (legs : List Holder) (overdue : Bool) → MayExpire P.log turn.old index of legs overdue → overdue ≡ false →
        parts turn.old.main.hand.now ≡ 1024 → IsDueBy turn.old.main.config.now (hand_list turn.old.main) of.cell turn.old.main.entry_id.moment result }
    ensures closes { Gained (P.log turn.old.ports.now) (P.log turn.new.ports.now) NoneOpened }
    ensures holds { HoldsPorts P.log turn.old → HoldsPorts P.log turn.new }
    ensures fewer { length (board_shape turn.old.board.now).calls ≡ length (board_shape turn.new.board.now).calls + (if result then 1 else 0) }
{
    let call = turn.board.call_at(index);
    let cell = turn.board.cell_at(index);
    let overdue = turn.board.is_due(call, turn.main.entry_id.moment);
    if !overdue && !expire_cell(rt, &mut turn.main, cell) {
        return false;
    }
    end_call(rt, turn, call);
    true
}

/// Ends each live call, in order of their creation, that is ending and due at the moment of the board's turn, asks each other one whether it
/// has timed out, ends it if it has, and returns how many ended: the board then stands for its history with the tick that ended these. It takes no memory, and its work is linear in the
/// live calls, but for what ending a call costs.
pub fn expire_live<P: PortMaker, R: Wait>(rt: &R, turn: &mut BoardTurn<P>) -> usize
    requires may { CanNest turn.old.main }
    requires empty { turn.old.gone.now ≡ [] }
    requires whole { IsWholeTurn turn.old }
    requires holds { HoldsPorts P.log turn.old }
    ensures works { Works P.log P.faults turn.old turn.new }
    ensures ends { Begins P.log turn.old → (calls : List Call) × EndsDue turn.old.main.config.now (past_of turn.old.main) turn.old.main.entry_id.number turn.old.main.entry_id.moment
        turn.old.main.hand.now turn.new.main.hand.now result (P.log turn.new.ports.now) calls
        × BoardFor turn.old.main.config.now turn.new.board.now (tick_at turn.old.main.entry_id.moment calls ∷ past_of turn.old.main) }
    ensures closes { Gained (P.log turn.old.ports.now) (P.log turn.new.ports.now) NoneOpened }
{
    let count = turn.board.live_count();
    let mut ended = 0;
    for asked in 0..count {
        if expire_call(rt, turn, asked - ended) {
            ended += 1;
        }
    }
    ended
}

/// Makes a tick in a turn of the board: each live call that is ending and due ends, in order of their creation, and each other one is asked
/// whether it has timed out, and ends if it has; then the board's entry of the tick is made. It returns how many calls ended. `now` is in milliseconds; a moment before that of the board's
/// last entry counts as that one. Between its steps the main hand waits for lanes; it takes no memory.
pub fn tick_turn<P: PortMaker, R: Wait>(rt: &R, at: &mut Between<P>, now: u64) -> usize
    requires rests { Rests P.log at.old }
    ensures rests { RestsAgain P.log P.faults at.old at.new }
    ensures ticks { Ticks at.old.config.now at.old.hand.now at.new.hand.now now result }
    ensures closes { Gained (P.log at.old.ports.now) (P.log at.new.ports.now) NoneOpened }
{
    let mut step = at.turns.turn(rt, at.hand, 0);
    let number = step.front();
    let board = match step.state() {
        Part::Board(board) => board,
        Part::Cell(_) => unreachable!(),
        Part::Pair(_) => unreachable!(),
    };
    let entry_id = BoardEntryId {
        number,
        moment: board.advance(now),
    };
    let mut turn = BoardTurn {
        main: MainHand {
            turns: at.turns,
            config: at.config,
            hand: &mut *at.hand,
            entry_id,
        },
        board,
        ports: &mut *at.ports,
        gone: &mut *at.gone,
    };
    let ended = expire_live(rt, &mut turn);
    put_step::<P::In, P::Out, u64, (), Brand>(at.turns, at.hand, step, entry_id, &now, &());
    ended
}
