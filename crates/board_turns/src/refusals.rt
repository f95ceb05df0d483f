//! Commands that change nothing: those that fail, and those that only tell.
ghost use Rattle.std.specs.Prelude.{◌≡◌, ℕ, List, [], IfOk};
ghost use Rattle.cookie_cache.specs.Keepings.{IsCookie};
ghost use Rattle.call_board.specs.Replies.{Fault, Warned, reply_datagram};
ghost use Rattle.relay_outside.specs.declared.settings.Config.{Config};
ghost use Rattle.board_turns.specs.DeviceAnswers.{IsUnasked};
ghost use Rattle.board_turns.specs.PlainReplies.{Tells, RanOutOfMemory, missing_reply};

use crate::command_outcome::CommandOutcome;
use crate::device_answers::DeviceAnswers;
use control_messages::{Request, error_datagram, warned_datagram};
use ng_bencode::Text;
use ng_reply::ErrorCode;
use offer_answer::ChosenLines;
use relay_outside::OutOfMemory;
use std::alloc::Global;

/// Out of memory.
pub fn short() -> CommandOutcome
    ensures is_short { RanOutOfMemory result }
    ensures unasked { IsUnasked result.device_answers }
{
    CommandOutcome {
        chosen_lines: ChosenLines::none(),
        device_answers: DeviceAnswers::OutOfMemory,
        reply: None,
    }
}

/// Nothing was asked of the outside, and this is the reply, where memory sufficed for it.
pub fn replied(chosen_lines: ChosenLines, reply: Result<Text, OutOfMemory>) -> CommandOutcome
    ensures tells { (bytes : List ℕ) → IfOk reply (λ text. text.list ≡ bytes) → Tells chosen_lines bytes result }
    ensures unasked { IsUnasked result.device_answers }
{
    match reply {
        Ok(reply) => CommandOutcome {
            chosen_lines,
            device_answers: DeviceAnswers::Nothing,
            reply: Some(reply),
        },
        Err(_) => short(),
    }
}

/// A command that fails.
pub fn refused(
    alloc: Global,
    request: &Request,
    code: ErrorCode,
    chosen_lines: ChosenLines,
) -> CommandOutcome
    requires { IsCookie request.now.cookie.now }
    ensures tells { (config : Config) → Tells chosen_lines (reply_datagram config request.now.cookie.now request.now.body.now (Fault code)) result }
    ensures unasked { IsUnasked result.device_answers }
{
    replied(chosen_lines, error_datagram(alloc, request, code))
}

/// A delete that finds nothing to end: an error where it is fatal, a warning otherwise.
pub fn missing(alloc: Global, request: &Request, fatal: bool, code: ErrorCode) -> CommandOutcome
    requires { IsCookie request.now.cookie.now }
    ensures tells { (config : Config) → Tells [] (reply_datagram config request.now.cookie.now request.now.body.now (missing_reply fatal code)) result }
    ensures unasked { IsUnasked result.device_answers }
{
    if fatal {
        refused(alloc, request, code, ChosenLines::none())
    } else {
        replied(ChosenLines::none(), warned_datagram(alloc, request, code))
    }
}
