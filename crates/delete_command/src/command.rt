//! A delete.
ghost use Rattle.std.specs.Prelude.{◌≡◌, ◌≤◌, [], Option, Some};
ghost use Rattle.relay_outside.specs.declared.settings.Config.{Config};
ghost use Rattle.relay_outside.specs.DeviceLogs.{Gained};
ghost use Rattle.ng_bencode.specs.Tree.{Entries};
ghost use Rattle.ng_command.specs.Meanings.{Delete, strings_in_list};
ghost use Rattle.offer_answer.specs.Sides.{is_tag_of};
ghost use Rattle.call_board.specs.Answers.{names_side};
ghost use Rattle.call_board.specs.Calls.{due_after};
ghost use Rattle.call_board.specs.Boards.{BoardMatches, IsLive};
ghost use Rattle.call_board.specs.Views.{View, CallView, call_numbered};
ghost use Rattle.media_ports.specs.Openings.{NoneOpened};
ghost use Rattle.board_turns.specs.BoardTurns.{Begins, CarriesOut, Works, past_of};
ghost use Rattle.board_turns.specs.Commands.{record_by};
ghost use Rattle.board_turns.specs.DeviceAnswers.{IsUnasked};
ghost use Rattle.board_turns.specs.PlainReplies.{IsAnew, IsAsking};

use board_turns::{
    AskedCommand, BoardTurn, CommandOutcome, DeviceAnswers, delete_call, missing, short,
};
use call_board::Board;
use control_messages::done_datagram;
use ng_bencode::Text;
use ng_command::DeleteIn;
use ng_reply::ErrorCode;
use offer_answer::ChosenLines;
use port_pool::Side;
use relay_outside::{Config, PortMaker};
use std::sync::Wait;

/// Whether this is the tag of a side of a live call.
fn is_tag_of(board: &Board, call: u64, side: Side, tag: &Text) -> bool
    requires { IsLive board.now call }
    ensures { (config : Config) (v : View) (c : CallView) → BoardMatches config board.now v → call_numbered v call ≡ Some c →
        result ≡ is_tag_of c.rounds side tag.now.list }
{
    match board.tag(call, side) {
        Some(own) => own == tag.as_slice(),
        None => false,
    }
}

/// Whether a delete names no tag, or one of a side of its call.
fn names_side(board: &Board, call: u64, tag: &Option<Text>) -> bool
    requires { IsLive board.now call }
    ensures { (config : Config) (v : View) (c : CallView) → BoardMatches config board.now v → call_numbered v call ≡ Some c →
        result ≡ names_side c.rounds (strings_in_list tag.now) }
{
    let Some(tag) = tag else {
        return true;
    };
    is_tag_of(board, call, Side::A, tag) || is_tag_of(board, call, Side::B, tag)
}

/// When a call ends that is deleted at a moment, in milliseconds, with a delay in seconds: at most 2^64 - 1.
fn due_after(moment: u64, delay_s: u32) -> u64
    ensures { result ≡ due_after moment delay_s }
{
    moment.saturating_add(1_000 * u64::from(delay_s))
}

/// Ends the live call of a delete, in the board's turn of its datagram, at once or, with a delay, at the tick that finds it due; or tells
/// that there is none to end: no live call has the call-id (`E9`), or the tag is of no side of it (`E10`), which is an error where the
/// delete is fatal and else a warning. Then, and where memory runs out, nothing is done.
pub fn delete<P: PortMaker, R: Wait>(
    rt: &R,
    turn: &mut BoardTurn<P>,
    asked: &AskedCommand<DeleteIn>,
) -> CommandOutcome
    requires begins { Begins P.log turn.old }
    requires anew { IsAnew (past_of turn.old.main) turn.old.main.entry_id.moment asked.now.request.now }
    requires asked { (pairs : Option Entries) × IsAsking asked.now.request.now pairs (Delete asked.now.input.now.call_id.list (strings_in_list asked.now.input.now.from_tag) asked.now.input.now.fatal asked.now.input.now.delay_s) }
    ensures works { Works P.log P.faults turn.old turn.new }
    ensures carries { (pairs : Option Entries) → IsAsking asked.now.request.now pairs (Delete asked.now.input.now.call_id.list (strings_in_list asked.now.input.now.from_tag) asked.now.input.now.fatal asked.now.input.now.delay_s) →
        CarriesOut P.log turn.old turn.new (record_by asked.now.request.now pairs result) result.reply }
    ensures closes { Gained (P.log turn.old.ports.now) (P.log turn.new.ports.now) NoneOpened }
    ensures unasked { IsUnasked result.device_answers }
{
    let AskedCommand {
        request,
        input,
        alloc,
    } = *asked;
    let Some(call) = turn.board.find_call(input.call_id.as_slice()) else {
        return missing(alloc, request, input.fatal, ErrorCode::E9);
    };
    if !names_side(turn.board, call, &input.from_tag) {
        return missing(alloc, request, input.fatal, ErrorCode::E10);
    }
    let Ok(reply) = done_datagram(alloc, request) else {
        return short();
    };
    if input.delay_s == 0 {
        delete_call(rt, turn, call);
    } else {
        let due = due_after(turn.main.entry_id.moment, input.delay_s);
        turn.board.mark_ending(call, due);
    }
    CommandOutcome {
        chosen_lines: ChosenLines::none(),
        device_answers: DeviceAnswers::Nothing,
        reply: Some(reply),
    }
}
