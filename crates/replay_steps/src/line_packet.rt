//! The packets of lines `take` and `packet`, and their relays.
ghost use Rattle.std.specs.Prelude.{◌≡◌, ◌≢◌, ℕ, List, IsTrue, true, false};
ghost use Rattle.relay_outside.specs.declared.settings.Config.{Config};
ghost use Rattle.rtp_packet.specs.declared.head.Half.{Half};
ghost use Rattle.relay_core.specs.Entries.{Entry};
ghost use Rattle.relay_core.specs.Turns.{made_by};
ghost use Rattle.media_lane.specs.Takes.{HasReceipt};
ghost use Rattle.media_lane.specs.Steps.{IsIn, IsNew, Took, deed_after};
ghost use Rattle.call_cell.specs.Cells.{CellEntry};
ghost use Rattle.call_cell.specs.Cells as cells;
ghost use Rattle.replay_steps.specs.Arrivals.{IsEndAt, IsGoodArrival, IsShutUnless};
ghost use Rattle.replay_steps.specs.Receipts.{IsApart, taken_with_pair};
ghost use Rattle.replay_steps.specs.Moves.{HasArrived, HasPassed};
ghost use Rattle.replay_steps.specs.Ready.{IsReplayReady};
ghost use Rattle.replay_steps.specs.Steps.{Arrives, SendsAsked};
ghost use Rattle.replay_steps.specs.WatchNotes.{Watches, SendsOther, send_in, failed_send_of};

use crate::ended::Untold;
use crate::ends::find_end;
use crate::open_ports::is_open;
use crate::state::{ReplayState, Replayer};
use call_cell::{LocalPort, Lost, Outcome};
use media_lane::{Receipt, Received, receive_between, relay_between};
use port_pool::{MOST_PACKET, port_address};
use relay_outside::Addr;
use relay_script::{FailKind, Printed};
use replay_devices::Watch;
use std::sync::Wait;

/// The packet of a line.
#[derive(Clone, Copy)]
pub(crate) struct LinePacket<'p> {
    /// The port at which it arrives.
    pub(crate) port: u16,
    /// Where it comes from.
    pub(crate) source: Addr,
    /// Its bytes.
    pub(crate) bytes: &'p [u8],
}

/// What came of the packet of a line.
#[derive(Drop)]
pub(crate) enum Arrived {
    /// It was taken.
    Packet(Receipt),
    /// Nothing was taken, and this is printed.
    Printed(Printed),
    /// It can't be told. A device did otherwise: another packet than the line's was taken, or the take failed where it had not to, or did
    /// not where it had to.
    Untold(Untold),
}

/// What came of a take at a port that is open or not; the take had to fail or not.
/// Of a packet that is too long the printed line is tied to the script's line by its length alone, since the lane gives no bytes of it.
fn tell_arrival(received: Received, packet: LinePacket<'_>, failing: bool, opened: bool) -> Arrived
    ensures good { (config : Config) (l new : List Entry) → HasReceipt config new received → IsNew config l received → IsGoodArrival config l result new }
    ensures arrives { (config : Config) (l new : List Entry) (port pair : ℕ) (half : Half) → IsEndAt config port packet.entry.source.ip (pair, half) → Took config l pair half received new → IsShutUnless config l pair (opened ≡ true) → Arrives config l port packet.entry.source packet.entry.bytes.now failing result new }
    ensures memory { result ≢ Arrived.Untold Untold.OutOfMemory }
{
    match received {
        Received::Got(receipt) => {
            if !failing && receipt.source() == packet.source && receipt.bytes() == packet.bytes {
                Arrived::Packet(receipt)
            } else {
                Arrived::Untold(Untold::DeviceFault)
            }
        }
        Received::Nothing => {
            if opened {
                Arrived::Untold(Untold::DeviceFault)
            } else {
                Arrived::Printed(Printed::Nothing)
            }
        }
        Received::TooLong => {
            if !failing && packet.bytes.len() > MOST_PACKET {
                Arrived::Printed(Printed::TooLong)
            } else {
                Arrived::Untold(Untold::DeviceFault)
            }
        }
        Received::TakeFault => {
            if failing {
                Arrived::Printed(Printed::TakeFault)
            } else {
                Arrived::Untold(Untold::DeviceFault)
            }
        }
        Received::Busy { .. } => Arrived::Untold(Untold::DeviceFault),
    }
}

/// The packet of a line arrives at its port and is taken there, once. A port that no pair of the range has is not open.
pub(crate) fn arrive<'a, R: Wait>(
    replayer: &Replayer<'_, 'a, R>,
    state: ReplayState<'a>,
    packet: LinePacket<'_>,
) -> (Arrived, ReplayState<'a>)
    requires ready { IsReplayReady replayer.now state }
    ensures { HasArrived replayer.now packet.entry.port packet.entry.source packet.entry.bytes.now result.0 state.entry result.1 }
{
    let config = &replayer.config;
    let failing = state.watch.fails(FailKind::Take);
    let Some((pair, half)) = find_end(config, packet.port, packet.source.ip) else {
        return (Arrived::Printed(Printed::Nothing), state);
    };
    let Some(log) = state.devices.ports.calls() else {
        return (Arrived::Untold(Untold::OutOfMemory), state);
    };
    let opened = is_open(log, port_address(config, pair, half));
    let turns = replayer.server.turns();
    let mut state = state;
    let (received, hand) = receive_between(replayer.rt, turns, state.hand, config, pair, half);
    state.hand = hand;
    (tell_arrival(received, packet, failing, opened), state)
}

/// By which port a relay with this outcome sent, and whether its send succeeded. `None`: it sent nothing.
fn send_of(outcome: Outcome) -> Option<(LocalPort, bool)>
    ensures { result ≡ send_in outcome }
{
    match outcome {
        Outcome::Sent { family, port, .. } => Some((LocalPort { family, port }, true)),
        Outcome::Lost(cause) => failed_send_of(cause),
        Outcome::Refused(_) => None,
    }
}

/// The same of a lost packet.
fn failed_send_of(cause: Lost) -> Option<(LocalPort, bool)>
    ensures { result ≡ failed_send_of cause }
{
    match cause {
        Lost::SendFault { family, port } => Some((LocalPort { family, port }, false)),
        Lost::Hold => None,
        Lost::OutTooOld => None,
        Lost::IndexUsed => None,
        Lost::OutSources => None,
        Lost::KeySpent => None,
    }
}

/// Notes the send of a relay with this outcome, if it made one, and says whether it failed just where it had to.
fn note_send(watch: &mut Watch, outcome: Outcome) -> bool
    ensures asked { IsTrue result → (config : Config) (seed : ℕ) (h : List CellEntry) (p : cells.Receipt) → outcome ≡ (deed_after config h p outcome).outcome →
        Watches config seed watch.old watch.new (SendsAsked config outcome (deed_after config h p outcome).sending) }
    ensures other { result ≡ false → SendsOther outcome watch.old }
{
    let Some((from, done)) = send_of(outcome) else {
        return true;
    };
    let failing = watch.send_fails(from);
    watch.sent(from);
    done != failing
}

/// Relays a packet at the clock's moment, and returns what is printed, or why it can't be: there was no memory for it, or its send failed where
/// it had not to, or did not where it had to.
pub(crate) fn pass<'a, R: Wait>(
    replayer: &Replayer<'_, 'a, R>,
    state: ReplayState<'a>,
    receipt: Receipt,
) -> (Result<Printed, Untold>, ReplayState<'a>)
    requires ready { IsReplayReady replayer.now state }
    requires receipt { IsIn replayer.now.server.config (made_by state.hand) (taken_with_pair receipt) }
    requires apart { IsApart receipt state.receipts.list }
    ensures { HasPassed replayer.now receipt result.0 state.entry result.1 }
{
    let mut state = state;
    let (outcome, sent, hand) = relay_between(
        replayer.rt,
        replayer.alloc,
        replayer.server.turns(),
        state.hand,
        &replayer.config,
        receipt,
        state.clock,
    );
    state.hand = hand;
    if !note_send(&mut state.watch, outcome) {
        return (Err(Untold::DeviceFault), state);
    }
    match sent {
        Ok(bytes) => (Ok(Printed::Relayed { outcome, bytes }), state),
        Err(_) => (Err(Untold::OutOfMemory), state),
    }
}
