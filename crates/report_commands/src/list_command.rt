//! A list.
ghost use Rattle.std.specs.Prelude.{◌≡◌, [], IfOk, map, take};
ghost use Rattle.relay_outside.specs.declared.settings.Config.{Config};
ghost use Rattle.call_board.specs.Boards.{BoardMatches};
ghost use Rattle.call_board.specs.Replies.{Listed, reply_datagram};
ghost use Rattle.call_board.specs.Views.{View, CallView};
ghost use Rattle.board_turns.specs.DeviceAnswers.{IsUnasked};
ghost use Rattle.board_turns.specs.PlainReplies.{Tells};

use board_turns::{CommandOutcome, replied};
use call_board::Board;
use control_messages::{Request, value_datagram};
use ng_bencode::Text;
use offer_answer::ChosenLines;
use relay_outside::OutOfMemory;
use std::alloc::Global;

/// The datagram of a list's reply. `Err`: out of memory.
fn list_datagram(
    alloc: Global,
    board: &Board,
    request: &Request,
    limit: u32,
) -> Result<Text, OutOfMemory>
    requires shown { (config : Config) × (v : View) × BoardMatches config board.now v }
    ensures { (config : Config) (v : View) → BoardMatches config board.now v →
        IfOk result (λ text. text.list ≡ reply_datagram config request.now.cookie.now request.now.body.now (Listed (take limit (map (λ (c : CallView). c.of.id) v.calls)))) }
{
    let value = call_report::list(alloc, board, limit)?;
    value_datagram(alloc, request, &value)
}

/// Tells the call-ids of the live calls, in order of their creation, up to this many. Nothing is done.
pub fn list(alloc: Global, board: &Board, request: &Request, limit: u32) -> CommandOutcome
    requires shown { (config : Config) × (v : View) × BoardMatches config board.now v }
    ensures tells { (config : Config) (v : View) → BoardMatches config board.now v →
        Tells [] (reply_datagram config request.now.cookie.now request.now.body.now (Listed (take limit (map (λ (c : CallView). c.of.id) v.calls)))) result }
    ensures unasked { IsUnasked result.device_answers }
{
    replied(
        ChosenLines::none(),
        list_datagram(alloc, board, request, limit),
    )
}
