//! The step of a line `ng`: one control turn.
ghost use Rattle.std.specs.Prelude.{◌≡◌, false, None, IsTrue, IsSome, IfOk, Err, take};
ghost use Rattle.relay_outside.specs.LinkTape.{last_sent};
ghost use Rattle.replay_devices.specs.Link.{last_taken};
ghost use Rattle.turn_table.specs.Hands.{IsSameHand};
ghost use Rattle.relay_core.specs.Turns.{made_by};
ghost use Rattle.board_turns.specs.Between.{IsBetween};
ghost use Rattle.media_lane.specs.Steps.{KeepsReceipts};
ghost use Rattle.ng_server.specs.Servers.{OpensJust, history_of};
ghost use Rattle.relay_script.specs.EventLines.{event_of};
ghost use Rattle.replay_steps.specs.ControlSteps.{IsReply, TellsTaken, TellsEvent, Controlled};

use crate::devices::Devices;
use crate::ended::Untold;
use crate::state::Replayer;
use ng_bencode::Text;
use ng_server::{ControlTurn, DATAGRAM_ROOM, Desk};
use relay_core::Relay;
use relay_outside::Addr;
use relay_script::Printed;
use replay_devices::{ReplayIn, ReplayLink, ReplayOut};
use std::alloc::Global;
use std::sync::Wait;
use turn_table::Hand;

/// The datagram of a line `ng` with the moment it comes at, and which calls of its control turn have to fail.
#[derive(Clone, Copy)]
pub(crate) struct LineDatagram<'p> {
    /// Where it comes from.
    pub(crate) source: Addr,
    /// Its bytes.
    pub(crate) bytes: &'p [u8],
    /// When it comes, in milliseconds.
    pub(crate) moment: u64,
    /// Whether the take of the link has to fail.
    pub(crate) read_fails: bool,
    /// Whether the send of a reply has to fail.
    pub(crate) reply_fails: bool,
}

/// The first bytes of some, at most this many.
fn front(bytes: &[u8], count: usize) -> &[u8]
    ensures { result.now ≡ take count bytes.now }
{
    &bytes[..bytes.len().min(count)]
}

/// Whether the last datagram that the link gave is the one of the line, as far as its room takes it.
fn gave_line(link: &ReplayLink<'_>, source: Addr, bytes: &[u8]) -> bool
    ensures gave { IsTrue result → TellsTaken link.now.log source bytes.now }
    ensures other { result ≡ false → TellsTaken link.now.log source bytes.now → ⊥ }
{
    match link.last_taken() {
        Some((from, taken)) => from == source && taken == front(bytes, DATAGRAM_ROOM),
        None => false,
    }
}

/// Why the link didn't do as the script says: it logs nothing any more, for want of memory, or it did otherwise.
fn cause_of(link: &ReplayLink<'_>) -> Untold
    ensures { result ≡ Untold.DeviceFault → IsSome link.now.log }
{
    if link.tells() {
        Untold::DeviceFault
    } else {
        Untold::OutOfMemory
    }
}

/// The reply that was sent last.
fn reply_event(alloc: Global, link: &ReplayLink<'_>) -> Result<Printed, Untold>
    ensures sent { IfOk result (λ event. IsReply link.now.log (event_of event)) }
    ensures none { result ≡ Err Untold.DeviceFault → IsSome link.now.log × (last_sent link.now.log ≡ None) }
{
    let Some((to, bytes)) = link.last_sent() else {
        return Err(cause_of(link));
    };
    let Ok(text) = Text::copy_of(alloc, bytes) else {
        return Err(Untold::OutOfMemory);
    };
    Ok(Printed::Reply(to, text))
}

/// What is printed of the control turn of a line, or why it can't be.
fn turn_event(
    alloc: Global,
    turn: ControlTurn,
    link: &ReplayLink<'_>,
    line: LineDatagram<'_>,
) -> Result<Printed, Untold>
    ensures { TellsEvent turn line.entry.read_fails line.entry.reply_fails link.now.log line.entry.source line.entry.bytes.now result }
{
    if turn == ControlTurn::ReadFault {
        return if line.read_fails {
            Ok(Printed::ReadFault)
        } else {
            Err(cause_of(link))
        };
    }
    if line.read_fails || !gave_line(link, line.source, line.bytes) {
        return Err(cause_of(link));
    }
    match turn {
        ControlTurn::Silent => Ok(Printed::Silent),
        ControlTurn::ReplyFault => {
            if line.reply_fails {
                Ok(Printed::ReplyFault)
            } else {
                Err(cause_of(link))
            }
        }
        ControlTurn::Replied => {
            if line.reply_fails {
                Err(cause_of(link))
            } else {
                reply_event(alloc, link)
            }
        }
        ControlTurn::ReadFault | ControlTurn::Nothing | ControlTurn::End => Err(cause_of(link)),
    }
}

/// Makes the control turn of the present line, and returns what is printed, or why it can't be.
pub(crate) fn make_turn<'a, R: Wait>(
    replayer: &Replayer<'_, 'a, R>,
    hand: &mut Hand<Relay<ReplayIn<'a>, ReplayOut<'a>>>,
    desk: &mut Desk<ReplayOut<'a>>,
    devices: &mut Devices<'a>,
    line: LineDatagram<'_>,
) -> Result<Printed, Untold>
    requires between { IsBetween replayer.now.server.config replayer.now.server.turns hand.old }
    requires open { OpensJust replayer.now.server.config (history_of hand.old) devices.old.ports.log }
    ensures same { IsSameHand hand.old hand.new }
    ensures between { IsBetween replayer.now.server.config replayer.now.server.turns hand.new }
    ensures open { OpensJust replayer.now.server.config (history_of hand.new) devices.new.ports.log }
    ensures receipts { KeepsReceipts replayer.now.server.config (made_by hand.old) (made_by hand.new) }
    ensures controls { Controlled replayer.now.server.config line.entry.moment (made_by hand.old) line.entry.source line.entry.bytes.now line.entry.read_fails line.entry.reply_fails devices.old.ports.log devices.new.ports.log devices.old.keys.log devices.new.keys.log result (made_by hand.new) }
{
    let Devices { link, ports, keys } = devices;
    let Replayer {
        rt,
        alloc,
        server,
        ..
    } = replayer;
    let turn = server.control_turn(*rt, *alloc, hand, desk, link, ports, keys, line.moment);
    turn_event(*alloc, turn, link, line)
}
