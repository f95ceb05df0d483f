//! A command whose description is refused, and one that the board doesn't plan.
ghost use Rattle.std.specs.Prelude.{◌≡◌, []};
ghost use Rattle.cookie_cache.specs.Keepings.{IsCookie};
ghost use Rattle.call_board.specs.Plans.{board_code};
ghost use Rattle.board_turns.specs.DeviceAnswers.{IsUnasked};
ghost use Rattle.board_turns.specs.PlainReplies.{RefusesRequest, error_in};

use crate::command_outcome::CommandOutcome;
use crate::refusals::{refused, short};
use call_board::BoardFault;
use control_messages::{DescriptionFault, Request};
use ng_reply::ErrorCode;
use offer_answer::ChosenLines;
use std::alloc::Global;

/// The error of a fault. None: out of memory.
fn code_of(fault: BoardFault) -> Option<ErrorCode>
    ensures { result ≡ board_code fault }
{
    match fault {
        BoardFault::UnknownCall => Some(ErrorCode::E9),
        BoardFault::UnknownTag => Some(ErrorCode::E10),
        BoardFault::OtherSide => Some(ErrorCode::E11),
        BoardFault::MediaCount => Some(ErrorCode::E12),
        BoardFault::Family => Some(ErrorCode::E20),
        BoardFault::NoCrypto => Some(ErrorCode::E8),
        BoardFault::SessionLimit => Some(ErrorCode::E14),
        BoardFault::NoPair => Some(ErrorCode::E13),
        BoardFault::Ending => Some(ErrorCode::E19),
        BoardFault::OutOfMemory => None,
    }
}

/// The outcome when planning fails with this fault, after these crypto lines were chosen: the reply tells its error, or that memory ran out.
pub fn unplanned(
    alloc: Global,
    request: &Request,
    fault: BoardFault,
    chosen_lines: ChosenLines,
) -> CommandOutcome
    requires { IsCookie request.now.cookie.now }
    ensures refuses { RefusesRequest request.now.cookie.now request.now.body.now chosen_lines (board_code fault) result }
    ensures unasked { IsUnasked result.device_answers }
{
    match code_of(fault) {
        Some(code) => refused(alloc, request, code, chosen_lines),
        None => short(),
    }
}

/// The outcome when the description is refused: the reply tells the error, or that memory ran out. No crypto line is chosen in it.
pub fn misdescribed(alloc: Global, request: &Request, fault: DescriptionFault) -> CommandOutcome
    requires { IsCookie request.now.cookie.now }
    ensures refuses { RefusesRequest request.now.cookie.now request.now.body.now [] (error_in fault) result }
    ensures unasked { IsUnasked result.device_answers }
{
    match fault {
        DescriptionFault::Error(code) => refused(alloc, request, code, ChosenLines::none()),
        DescriptionFault::OutOfMemory => short(),
    }
}
