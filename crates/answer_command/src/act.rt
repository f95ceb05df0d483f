//! An accepted answer.
ghost use Rattle.std.specs.Prelude.{◌≡◌, ◌≤◌, [], length};
ghost use Rattle.relay_outside.specs.DeviceLogs.{Gained};
ghost use Rattle.call_cell.specs.Commits.{inbound_keys};
ghost use Rattle.offer_answer.specs.Plan.{answer_text};
ghost use Rattle.offer_answer.specs.Rounds.{AnswerAsk};
ghost use Rattle.offer_answer.specs.Widths.{WritesFrom};
ghost use Rattle.call_board.specs.Acts.{Call, BoardEntry};
ghost use Rattle.call_board.specs.Calls.{rounds};
ghost use Rattle.call_board.specs.Shapes.{PlansReply};
ghost use Rattle.media_ports.specs.Openings.{NoneOpened};
ghost use Rattle.board_turns.specs.BoardTurns.{Begins, Does, Works, past_of};
ghost use Rattle.answer_command.specs.Due.{IsAnswerOf};

use crate::description::write_answer;
use board_turns::{BoardTurn, close_legs, commit_cell};
use call_board::BoardPlan;
use call_cell::InContexts;
use relay_outside::PortMaker;
use sdp_text::{Bytes, Sdp};
use std::sync::Wait;

/// An answer that the board planned.
#[derive(Drop)]
pub struct PlannedAnswer<'a, 's> {
    /// Its plan.
    pub plan: BoardPlan,
    /// Its description.
    pub sdp: &'a Sdp<'s>,
    /// Room for the contexts of the inbound keys that the plan names.
    pub contexts: InContexts,
}

/// Takes an answer in, in the board's turn of the answer, by the plan that the board has just made of it: writes the description
/// for the offerer into `out`, which is empty and has room for `reply_len` bytes, commits in the call's cell what the answer says
/// of the legs, takes the answer into the board, and closes the legs of the sections that it rejects, in lease order. It takes
/// no memory.
pub fn answer_act<P: PortMaker, R: Wait>(
    rt: &R,
    turn: &mut BoardTurn<P>,
    answer: PlannedAnswer,
    out: &mut Bytes,
)
    requires begins { Begins P.log turn.old }
    requires due { (e : BoardEntry) × (of : Call) × (ask : AnswerAsk) × IsAnswerOf turn.old.main.config.now (past_of turn.old.main) turn.old.main.entry_id.moment e of ask answer.sdp.now answer.plan }
    requires plans { PlansReply turn.old.board.now answer.plan }
    requires writes { WritesFrom answer.plan.plan answer.sdp.now }
    requires room { (out.old.list ≡ []) × (answer.plan.plan.reply_len ≤ out.old.spare) }
    requires contexts { inbound_keys answer.plan.plan.signal ≤ answer.contexts }
    ensures works { Works P.log P.faults turn.old turn.new }
    ensures text { (e : BoardEntry) (of : Call) (ask : AnswerAsk) → IsAnswerOf turn.old.main.config.now (past_of turn.old.main) turn.old.main.entry_id.moment e of ask answer.entry.sdp.now answer.entry.plan →
        out.new.list ≡ answer_text turn.old.main.config.now (rounds (past_of turn.old.main) of.number) ask }
    ensures within { length out.new.list ≤ answer.entry.plan.plan.reply_len }
    ensures does { (e : BoardEntry) (of : Call) (ask : AnswerAsk) → IsAnswerOf turn.old.main.config.now (past_of turn.old.main) turn.old.main.entry_id.moment e of ask answer.entry.sdp.now answer.entry.plan →
        Does P.log turn.old turn.new e }
    ensures closes { Gained (P.log turn.old.ports.now) (P.log turn.new.ports.now) NoneOpened }
{
    let PlannedAnswer {
        mut plan,
        sdp,
        contexts,
    } = answer;
    write_answer(&mut plan, sdp, out);
    let cell = plan.cell();
    commit_cell(
        rt,
        &mut turn.main,
        cell,
        plan.planned().signal(),
        contexts,
        turn.gone,
    );
    turn.board.apply(plan, turn.main.entry_id.moment);
    close_legs(rt, turn);
}
