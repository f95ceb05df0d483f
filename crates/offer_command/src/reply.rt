//! The replies to an offer that was carried out.
ghost use Rattle.std.specs.Prelude.{◌≡◌, ◌<◌, ◌≤◌, ◌^◌, [], length};
ghost use Rattle.cookie_cache.specs.Keepings.{IsCookie};
ghost use Rattle.call_board.specs.Replies.{Described, Fault};
ghost use Rattle.control_messages.specs.Rooms.{described_room};
ghost use Rattle.board_turns.specs.declared.device_answers.DeviceAnswers.TheVariants as device_answers;
ghost use Rattle.offer_command.specs.Commands.{GivesOutcome, undone_code, undone_answers};

use crate::act::AcceptedOffer;
use crate::lease::LeaseFault;
use board_turns::{CommandOutcome, DeviceAnswers};
use control_messages::{Request, write_described, write_error};
use ng_bencode::Text;
use ng_reply::ErrorCode;
use offer_answer::ChosenLines;

/// The offer was accepted, and opened this many ports. Its reply is written into the room that was made for it. It takes no memory.
pub(crate) fn accepted(
    request: &Request,
    offered: AcceptedOffer,
    opened: usize,
    chosen_lines: ChosenLines,
    reply: Text,
) -> CommandOutcome
    requires small { length offered.text.list < 2 ^ 40 }
    requires empty { reply.list ≡ [] }
    requires room { described_room request.now.cookie.now request.now.body.now offered.text.list ≤ reply.spare }
    ensures { GivesOutcome request.now.cookie.now request.now.body.now chosen_lines (device_answers.Offered opened offered.drawn) (Described offered.text.list) result }
{
    let AcceptedOffer { drawn, text } = offered;
    let mut reply = reply;
    write_described(request, text.as_slice(), &mut reply);
    CommandOutcome {
        chosen_lines,
        device_answers: DeviceAnswers::Offered(opened, drawn),
        reply: Some(reply),
    }
}

/// The error of an offer that is undone, and what the devices returned for it, where it opens this many ports.
fn undone_by(fault: LeaseFault, ports: usize) -> (ErrorCode, DeviceAnswers)
    ensures { result ≡ (undone_code fault, undone_answers ports fault) }
{
    match fault {
        LeaseFault::Port { opened } => (ErrorCode::E15, DeviceAnswers::PortFault(opened)),
        LeaseFault::Key { drawn } => (ErrorCode::E16, DeviceAnswers::KeyFault(ports, drawn)),
    }
}

/// The offer, which opens this many ports, was undone. Its reply is written into the room that was made for it. It takes no memory.
pub(crate) fn undone(
    request: &Request,
    fault: LeaseFault,
    ports: usize,
    chosen_lines: ChosenLines,
    reply: Text,
) -> CommandOutcome
    requires cookie { IsCookie request.now.cookie.now }
    requires empty { reply.list ≡ [] }
    requires room { 512 ≤ reply.spare }
    ensures { GivesOutcome request.now.cookie.now request.now.body.now chosen_lines (undone_answers ports fault) (Fault (undone_code fault)) result }
{
    let mut reply = reply;
    let (code, device_answers) = undone_by(fault, ports);
    write_error(request, code, &mut reply);
    CommandOutcome {
        chosen_lines,
        device_answers,
        reply: Some(reply),
    }
}
