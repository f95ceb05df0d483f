//! A query.
ghost use Rattle.std.specs.Prelude.{◌≡◌, IfOk, Option, List, ℕ, Some};
ghost use Rattle.relay_outside.specs.declared.settings.Config.{Config};
ghost use Rattle.histories.specs.Words.{In};
ghost use Rattle.port_pool.specs.Reports.{CountsFit};
ghost use Rattle.port_pool.specs.declared.reports.LegReport.{LegReport};
ghost use Rattle.ng_bencode.specs.Tree.{Entries};
ghost use Rattle.ng_command.specs.Meanings.{Query};
ghost use Rattle.call_board.specs.Boards.{BoardMatches};
ghost use Rattle.call_board.specs.Replies.{Reported, reply_datagram};
ghost use Rattle.call_board.specs.Views.{View, CallView, call_numbered};
ghost use Rattle.board_turns.specs.BoardTurns.{Begins, CarriesOut, Works, past_of};
ghost use Rattle.board_turns.specs.Commands.{record_by};
ghost use Rattle.board_turns.specs.DeviceAnswers.{IsUnasked};
ghost use Rattle.board_turns.specs.PlainReplies.{IsAnew, IsAsking};
ghost use Rattle.report_commands.specs.Reports.{ReportsOf, view_report};

use board_turns::{
    AskedCommand, BoardTurn, CommandOutcome, DeviceAnswers, query_call, refused, short,
};
use call_board::Board;
use control_messages::{Request, value_datagram};
use ng_bencode::Text;
use ng_command::QueryIn;
use ng_reply::ErrorCode;
use offer_answer::ChosenLines;
use port_pool::LegReports;
use relay_outside::{Config, OutOfMemory, PortMaker};
use std::alloc::Global;
use std::sync::Wait;

/// The datagram of the reply to a query of a live call with these reports of its legs. `Err`: out of memory.
fn report_datagram(
    alloc: Global,
    board: &Board,
    request: &Request,
    call: u64,
    reports: &LegReports,
) -> Result<Text, OutOfMemory>
    requires shown { (config : Config) × (v : View) × (c : CallView) × BoardMatches config board.now v × (call_numbered v call ≡ Some c) }
    requires counts { (report : LegReport) → In report reports.now → CountsFit report }
    ensures { (config : Config) (v : View) (c : CallView) → BoardMatches config board.now v → call_numbered v call ≡ Some c →
        IfOk result (λ text. text.list ≡ reply_datagram config request.now.cookie.now request.now.body.now (Reported (view_report c reports.now))) }
{
    let value = call_report::query(alloc, board, call, reports)?;
    value_datagram(alloc, request, &value)
}

/// A call was read, and this is the reply, where memory sufficed for it.
fn reported(reports: LegReports, reply: Result<Text, OutOfMemory>) -> CommandOutcome
    ensures tells { (bytes : List ℕ) → IfOk reply (λ text. text.list ≡ bytes) → ReportsOf reports bytes result }
    ensures unasked { IsUnasked result.device_answers }
{
    match reply {
        Ok(reply) => CommandOutcome {
            chosen_lines: ChosenLines::none(),
            device_answers: DeviceAnswers::Report(reports),
            reply: Some(reply),
        },
        Err(_) => CommandOutcome {
            chosen_lines: ChosenLines::none(),
            device_answers: DeviceAnswers::ReportOutOfMemory(reports),
            reply: None,
        },
    }
}

/// Tells of the live call of a query, in the board's turn of its datagram, or that no live call has the call-id (`E9`). The call's cell
/// is read, and nothing is done besides. If memory runs out before the cell is read, it is not read; if it runs out after that, nothing
/// is told.
/// Whether the call is live is asked first, so an unknown call-id is `E9` also where memory is short for the reports.
pub fn query<P: PortMaker, R: Wait>(
    rt: &R,
    turn: &mut BoardTurn<P>,
    asked: &AskedCommand<QueryIn>,
) -> CommandOutcome
    requires begins { Begins P.log turn.old }
    requires anew { IsAnew (past_of turn.old.main) turn.old.main.entry_id.moment asked.now.request.now }
    ensures works { Works P.log P.faults turn.old turn.new }
    ensures carries { (pairs : Option Entries) → IsAsking asked.now.request.now pairs (Query asked.now.input.now.call_id.list) →
        CarriesOut P.log turn.old turn.new (record_by asked.now.request.now pairs result) result.reply }
    ensures nothing { (turn.new.board.now ≡ turn.old.board.now) × (turn.new.ports.now ≡ turn.old.ports.now) }
    ensures unasked { IsUnasked result.device_answers }
{
    let AskedCommand {
        request,
        input,
        alloc,
    } = *asked;
    let Some(call) = turn.board.find_call(input.call_id.as_slice()) else {
        return refused(alloc, request, ErrorCode::E9, ChosenLines::none());
    };
    let Ok(mut reports) = LegReports::new(alloc) else {
        return short();
    };
    query_call(rt, turn, call, &mut reports);
    let reply = report_datagram(alloc, turn.board, request, call, &reports);
    reported(reports, reply)
}
