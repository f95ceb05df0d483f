//! An answer.
ghost use Rattle.std.specs.Prelude.{◌≡◌, ◌≤◌, ◌<◌, ◌^◌, [], Option, length};
ghost use Rattle.relay_outside.specs.DeviceLogs.{Gained};
ghost use Rattle.ng_bencode.specs.Tree.{Entries};
ghost use Rattle.ng_command.specs.Meanings.{Answer};
ghost use Rattle.media_ports.specs.Openings.{NoneOpened};
ghost use Rattle.board_turns.specs.BoardTurns.{Begins, CarriesOut, Works, past_of};
ghost use Rattle.board_turns.specs.Commands.{record_by};
ghost use Rattle.board_turns.specs.DeviceAnswers.{IsUnasked};
ghost use Rattle.board_turns.specs.PlainReplies.{IsAnew, IsAsking};

use crate::act::{PlannedAnswer, answer_act};
use crate::room::{AnswerRoom, answer_room};
use board_turns::{
    AskedCommand, BoardTurn, CommandOutcome, DeviceAnswers, misdescribed, short, unplanned,
};
use control_messages::{read_description, write_described};
use ng_command::AnswerIn;
use relay_outside::PortMaker;
use std::sync::Wait;

/// Carries out an answer in the board's turn of its datagram, for which no reply is kept. It takes all memory that it needs before
/// it changes anything, and where that is short nothing has changed.
pub fn answer<P: PortMaker, R: Wait>(
    rt: &R,
    turn: &mut BoardTurn<P>,
    asked: &AskedCommand<AnswerIn>,
) -> CommandOutcome
    requires begins { Begins P.log turn.old }
    requires anew { IsAnew (past_of turn.old.main) turn.old.main.entry_id.moment asked.now.request.now }
    requires small { length asked.now.input.now.sdp.list < 2 ^ 31 }
    requires asked { (pairs : Option Entries) × IsAsking asked.now.request.now pairs (Answer asked.now.input.now.call_id.list asked.now.input.now.from_tag.list asked.now.input.now.to_tag.list asked.now.input.now.sdp.list asked.now.input.now.options) }
    ensures works { Works P.log P.faults turn.old turn.new }
    ensures carries { (pairs : Option Entries) → IsAsking asked.now.request.now pairs (Answer asked.now.input.now.call_id.list asked.now.input.now.from_tag.list asked.now.input.now.to_tag.list asked.now.input.now.sdp.list asked.now.input.now.options) →
        CarriesOut P.log turn.old turn.new (record_by asked.now.request.now pairs result) result.reply }
    ensures closes { Gained (P.log turn.old.ports.now) (P.log turn.new.ports.now) NoneOpened }
    ensures unasked { IsUnasked result.device_answers }
{
    let AskedCommand {
        request,
        input,
        alloc,
    } = *asked;
    let sdp = match read_description(alloc, turn.main.config, None, input.sdp.as_slice()) {
        Ok(sdp) => sdp,
        Err(fault) => return misdescribed(alloc, request, fault),
    };
    let chosen_lines = turn.board.hear_answer(input.call_id.as_slice(), &sdp);
    let plan = match turn.board.plan_answer(alloc, input, &sdp) {
        Ok(plan) => plan,
        Err(fault) => return unplanned(alloc, request, fault, chosen_lines),
    };
    let planned = plan.planned();
    let Ok(room) = answer_room(alloc, request, planned.signal(), planned.reply_len()) else {
        return short();
    };
    let AnswerRoom {
        contexts,
        mut text,
        mut reply,
    } = room;
    let answer = PlannedAnswer {
        plan,
        sdp: &sdp,
        contexts,
    };
    answer_act(rt, turn, answer, &mut text);
    write_described(request, text.as_slice(), &mut reply);
    CommandOutcome {
        chosen_lines,
        device_answers: DeviceAnswers::Nothing,
        reply: Some(reply),
    }
}
