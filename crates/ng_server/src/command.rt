//! A command that is no repeat, read and carried out.
ghost use Rattle.std.specs.Prelude.{◌≡◌, ◌≤◌, Option, false, IfOk, length};
ghost use Rattle.ng_command.specs.Meanings.{said};
ghost use Rattle.ng_bencode.specs.Tree.{Entries};
ghost use Rattle.call_board.specs.Requests.{ReadsBody, command_in};
ghost use Rattle.control_messages.specs.Bodies.{dictionary_in, said_by, description_in};
ghost use Rattle.board_turns.specs.PlainReplies.{IsAnew};
ghost use Rattle.board_turns.specs.BoardTurns.{Begins, CarriesOut, Works, past_of};
ghost use Rattle.board_turns.specs.Commands.{record_by};
ghost use Rattle.board_turns.specs.Controls.{entry_pairs};
ghost use Rattle.board_turns.specs.DeviceAnswers.{given_by, IsGivenBy};

use answer_command::answer;
use board_turns::{AskedCommand, BoardTurn, CommandOutcome, refused, replied};
use control_messages::{Body, Request, pong_datagram, read_body};
use delete_command::delete;
use ng_command::Command;
use ng_reply::ErrorCode;
use offer_answer::ChosenLines;
use offer_command::offer;
use relay_outside::{KeySource, OutOfMemory, PortMaker};
use report_commands::{list, query};
use std::alloc::Global;
use std::sync::Wait;

/// What a datagram asks: its dictionary, and its command or the first error that there is in its place. One that is too long isn't read.
pub(crate) fn read_request(alloc: Global, request: &Request) -> Result<Body, OutOfMemory>
    ensures reads { IfOk result (λ read. request.now.too_long ≡ false → ReadsBody request.now.body.now (dictionary_in read)) }
    ensures command { IfOk result (λ read. command_in request.now.too_long (dictionary_in read) ≡ said_by read.command) }
    // A description is no longer than the body.
    ensures small { IfOk result (λ read. IfOk read.command (λ command. length (description_in (said command)) ≤ length request.now.body.now)) }
{
    if request.too_long {
        return Ok(Body {
            dictionary: None,
            command: Err(ErrorCode::E18),
        });
    }
    read_body(alloc, request.body)
}

/// Carries out a command, or returns the error that there is in its place.
pub(crate) fn carry_out<P: PortMaker, K: KeySource, R: Wait>(
    rt: &R,
    turn: &mut BoardTurn<P>,
    keys: &mut K,
    asked: &AskedCommand<Result<Command, ErrorCode>>,
) -> CommandOutcome
    requires begins { Begins P.log turn.old }
    requires anew { IsAnew (past_of turn.old.main) turn.old.main.entry_id.moment asked.now.request.now }
    requires small { IfOk asked.now.input.now (λ asks. length (description_in (said asks)) ≤ length asked.now.request.now.body.now) }
    requires asked { (pairs : Option Entries) × (asked.now.request.now.too_long ≡ false → ReadsBody asked.now.request.now.body.now pairs) × (command_in asked.now.request.now.too_long pairs ≡ said_by asked.now.input.now) }
    ensures works { Works P.log P.faults turn.old turn.new }
    ensures carries { (pairs : Option Entries) → (asked.now.request.now.too_long ≡ false → ReadsBody asked.now.request.now.body.now pairs) → command_in asked.now.request.now.too_long pairs ≡ said_by asked.now.input.now →
        CarriesOut P.log turn.old turn.new (record_by asked.now.request.now pairs result) result.reply }
    ensures later { K.faults keys.old ≤ K.faults keys.new }
    ensures given { (pairs : Option Entries) → (asked.now.request.now.too_long ≡ false → ReadsBody asked.now.request.now.body.now pairs) → command_in asked.now.request.now.too_long pairs ≡ said_by asked.now.input.now →
        IsGivenBy turn.old.main.config.now (entry_pairs turn.old.main.config.now (past_of turn.old.main) turn.old.main.entry_id.moment (record_by asked.now.request.now pairs result)) (given_by result.device_answers) (P.faults turn.old.ports.now) (P.faults turn.new.ports.now)
        (K.faults keys.old) (K.faults keys.new) (P.log turn.old.ports.now) (P.log turn.new.ports.now) (K.log keys.old) (K.log keys.new) }
{
    let AskedCommand {
        request,
        input: command,
        alloc,
    } = *asked;
    let command = match command {
        Ok(command) => command,
        Err(code) => return refused(alloc, request, *code, ChosenLines::none()),
    };
    match command {
        Command::Ping => replied(ChosenLines::none(), pong_datagram(alloc, request)),
        Command::Offer(input) => offer(rt, turn, keys, &asked.with(input)),
        Command::Answer(input) => answer(rt, turn, &asked.with(input)),
        Command::Delete(input) => delete(rt, turn, &asked.with(input)),
        Command::Query(input) => query(rt, turn, &asked.with(input)),
        Command::List(limit) => list(alloc, turn.board, request, *limit),
    }
}
