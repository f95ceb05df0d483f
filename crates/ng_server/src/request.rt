//! A datagram, dealt with in the board's turn.
ghost use Rattle.std.specs.Prelude.{◌≡◌, ◌≤◌, [], None, false, IfOk, OnOk, length};
ghost use Rattle.relay_outside.specs.DeviceLogs.{HasCause};
ghost use Rattle.turn_table.specs.Hands.{entries};
ghost use Rattle.board_turns.specs.BoardTurns.{Begins, IsSameBoard, IsWholeTurn, Nests, past_of};
ghost use Rattle.ng_command.specs.Meanings.{said};
ghost use Rattle.cookie_cache.specs.Keepings.{IsCookie};
ghost use Rattle.cookie_cache.specs.Caches.{HasSparePlace};
ghost use Rattle.control_messages.specs.Bodies.{dictionary_in, said_by, description_in};
ghost use Rattle.call_board.specs.Requests.{ReadsBody, command_in};
ghost use Rattle.call_board.specs.Boards.{BoardMatches};
ghost use Rattle.call_board.specs.Shapes.{board_shape};
ghost use Rattle.call_board.specs.Views.{View};
ghost use Rattle.relay_outside.specs.declared.settings.Config.{Config};
ghost use Rattle.board_turns.specs.Controls.{control_of, entry_pairs};
ghost use Rattle.call_board.specs.Replies.{fault_datagram};
ghost use Rattle.board_turns.specs.DeviceAnswers.{given_by, IsGivenBy, IsUnasked};
ghost use Rattle.ng_server.specs.SentReplies.{SendsOnce};
ghost use Rattle.ng_server.specs.Datagrams.{IsRequest};
ghost use Rattle.ng_server.specs.Requests.{record_of, AnswersRequest};
ghost use Rattle.board_turns.specs.Ties.{PortsFollowRows};

use crate::command::{carry_out, read_request};
use crate::reply::reply_to;
use crate::sent_reply::{send, send_shortage};
use crate::turn_record::TurnRecord;
use board_turns::{AskedCommand, BoardTurn, CommandOutcome, DeviceAnswers};
use call_board::Board;
use control_messages::{Body, Request};
use ng_bencode::{Pairs, Text};
use ng_reply::ErrorCode;
use offer_answer::ChosenLines;
use relay_outside::{ControlLink, Failed, KeySource, OutOfMemory, PortMaker};
use std::alloc::Global;
use std::sync::Wait;

/// What was made of a datagram.
#[derive(Drop)]
pub(crate) struct Answered {
    /// What the board's entry records of it.
    pub turn_record: TurnRecord,
    /// The result of sending its reply.
    pub sent: Result<(), Failed>,
}

/// Replies that memory ran out before anything was read.
fn answer_short<N: ControlLink>(link: &mut N, request: &Request) -> Answered
    requires { IsCookie request.now.cookie.now }
    ensures short { (result.turn_record.dictionary ≡ None) × (result.turn_record.chosen_lines ≡ []) × (result.turn_record.device_answers ≡ DeviceAnswers.OutOfMemory) }
    ensures unasked { IsUnasked result.turn_record.device_answers }
    ensures sent { SendsOnce request.now.source (fault_datagram request.now.cookie.now request.now.body.now ErrorCode.E17) result.sent (N.log link.old) (N.log link.new) }
    ensures cause { HasCause (N.faults link.old) (N.faults link.new) result.sent }
{
    let sent = send_shortage(link, request);
    let turn_record = TurnRecord {
        dictionary: None,
        chosen_lines: ChosenLines::none(),
        device_answers: DeviceAnswers::OutOfMemory,
    };
    Answered { turn_record, sent }
}

/// Sends a request the reply that is kept for it.
fn repeat<N: ControlLink>(link: &mut N, request: &Request, kept: &[u8]) -> Answered
    ensures nothing { (result.turn_record.dictionary ≡ None) × (result.turn_record.chosen_lines ≡ []) × (result.turn_record.device_answers ≡ DeviceAnswers.Nothing) }
    ensures unasked { IsUnasked result.turn_record.device_answers }
    ensures sent { SendsOnce request.now.source kept.now result.sent (N.log link.old) (N.log link.new) }
    ensures cause { HasCause (N.faults link.old) (N.faults link.new) result.sent }
{
    let sent = send(link, request.source, kept);
    let turn_record = TurnRecord {
        dictionary: None,
        chosen_lines: ChosenLines::none(),
        device_answers: DeviceAnswers::Nothing,
    };
    Answered { turn_record, sent }
}

/// A request that was read, and for whose reply there is room.
#[derive(Drop)]
struct Prepared {
    /// Its cookie, under which the reply is kept.
    cookie: Text,
    /// What it asks.
    asked: Body,
}

/// Reads a request, and makes room for its reply. What the board shows stays, also where memory runs out.
fn prepare(alloc: Global, board: &mut Board, request: &Request) -> Result<Prepared, OutOfMemory>
    ensures shows { (config : Config) (v : View) → BoardMatches config board.old v → BoardMatches config board.new v }
    ensures place { OnOk result (HasSparePlace board.new.replies) }
    ensures cookie { IfOk result (λ prepared. prepared.cookie.list ≡ request.now.cookie.now) }
    ensures reads { IfOk result (λ prepared. request.now.too_long ≡ false → ReadsBody request.now.body.now (dictionary_in prepared.asked)) }
    ensures command { IfOk result (λ prepared. command_in request.now.too_long (dictionary_in prepared.asked) ≡ said_by prepared.asked.command) }
    ensures small { IfOk result (λ prepared. IfOk prepared.asked.command (λ command. length (description_in (said command)) ≤ length request.now.body.now)) }
    ensures shape { board_shape board.new ≡ board_shape board.old }
{
    board.reserve_reply()?;
    let Ok(cookie) = Text::copy_of(alloc, request.cookie) else {
        return Err(OutOfMemory);
    };
    let asked = read_request(alloc, request)?;
    Ok(Prepared { cookie, asked })
}

/// The dictionary that a body spells.
fn dictionary_of(asked: Body) -> Option<Pairs>
    ensures { result ≡ asked.dictionary }
{
    asked.dictionary
}

/// Sends the reply that is kept for a request, where there is one; else carries its command out, sends its reply and keeps it.
pub(crate) fn deal<N: ControlLink, P: PortMaker, K: KeySource, R: Wait>(
    rt: &R,
    alloc: Global,
    turn: &mut BoardTurn<P>,
    link: &mut N,
    keys: &mut K,
    request: &Request,
) -> Answered
    requires begins { Begins P.log turn.old }
    requires request { IsRequest request.now }
    ensures nests { Nests turn.old.main turn.new.main }
    ensures devices { IsSameBoard turn.old turn.new }
    ensures deals { AnswersRequest turn.old.main.config.now turn.old.main.hand.now turn.new.main.hand.now turn.old.main.entry_id (record_of request.now result.turn_record) turn.new.board.now (P.log turn.new.ports.now) }
    ensures sent { SendsOnce request.now.source (control_of turn.old.main.config.now (past_of turn.old.main) turn.old.main.entry_id.moment (record_of request.now result.turn_record)).reply
        result.sent (N.log link.old) (N.log link.new) }
    ensures cause { HasCause (N.faults link.old) (N.faults link.new) result.sent }
    ensures empty { turn.new.gone.now ≡ [] }
    ensures whole { IsWholeTurn turn.old → IsWholeTurn turn.new }
    ensures ties { PortsFollowRows turn.old.main.config.now (P.log turn.old.ports.now) (P.log turn.new.ports.now) (entries turn.old.main.hand.now) (entries turn.new.main.hand.now) }
    ensures later { (P.faults turn.old.ports.now ≤ P.faults turn.new.ports.now) × (K.faults keys.old ≤ K.faults keys.new) }
    ensures given { IsGivenBy turn.old.main.config.now (entry_pairs turn.old.main.config.now (past_of turn.old.main) turn.old.main.entry_id.moment (record_of request.now result.turn_record)) (given_by result.turn_record.device_answers) (P.faults turn.old.ports.now) (P.faults turn.new.ports.now)
        (K.faults keys.old) (K.faults keys.new) (P.log turn.old.ports.now) (P.log turn.new.ports.now) (K.log keys.old) (K.log keys.new) }
{
    let moment = turn.main.entry_id.moment;
    if let Some(kept) = turn
        .board
        .find_reply(request.source, request.cookie, moment)
    {
        return repeat(link, request, kept);
    }
    let Ok(prepared) = prepare(alloc, turn.board, request) else {
        return answer_short(link, request);
    };
    let Prepared { cookie, asked } = prepared;
    let CommandOutcome {
        chosen_lines,
        device_answers,
        reply,
    } = carry_out(
        rt,
        turn,
        keys,
        &AskedCommand {
            request: &*request,
            input: &asked.command,
            alloc,
        },
    );
    let sent = reply_to(turn.board, link, request, moment, cookie, reply);
    let turn_record = TurnRecord {
        dictionary: dictionary_of(asked),
        chosen_lines,
        device_answers,
    };
    Answered { turn_record, sent }
}
