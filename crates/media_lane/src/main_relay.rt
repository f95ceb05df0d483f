//! Packets are relayed by the main hand.
ghost use Rattle.std.specs.Prelude.{◌≡◌, IfOk};
ghost use Rattle.turn_table.specs.Hands.{IsSameHand, parts};
ghost use Rattle.relay_core.specs.Turns.{made_by};
ghost use Rattle.media_lane.specs.Lanes.{packet_of, pair_of};
ghost use Rattle.media_lane.specs.Receipts.{IsReceiptOf};
ghost use Rattle.board_turns.specs.Between.{board_of, IsBetween};
ghost use Rattle.media_lane.specs.Steps.{RelayedOnce, RelaysBy, KeepsOthers};

use crate::lane::Lane;
use crate::receipt::Receipt;
use call_cell::Outcome;
use ng_bencode::{OutOfMemory, Text};
use relay_core::Relay;
use relay_outside::{Config, InEnd, OpenGate, OutEnd};
use std::alloc::Global;
use std::sync::Wait;
use turn_table::{Hand, Turns};

/// Relays the packet of a receipt in the cell of its leg, handed the moment `now` in milliseconds, by the main hand, which holds no
/// turn. Returns with the outcome a copy of the bytes that were sent, empty if none were; `Err`: out of memory for it.
/// Where no lane has a hand, the outcome and the bytes are those that the cell's history in the hand's list demands. It may wait, where
/// a lane has the cell's turn.
pub fn relay_between<I: InEnd, O: OutEnd, R: Wait>(
    rt: &R,
    alloc: Global,
    turns: &Turns<Relay<I, O>>,
    hand: Hand<Relay<I, O>>,
    config: &Config,
    receipt: Receipt,
    now: u64,
) -> (Outcome, Result<Text, OutOfMemory>, Hand<Relay<I, O>>)
    requires between { IsBetween config.now turns.now hand }
    requires receipt { IsReceiptOf config.now (made_by hand) (pair_of receipt) (packet_of receipt) }
    ensures same { IsSameHand hand result.2 }
    ensures between { IsBetween config.now turns.now result.2 }
    ensures board { board_of (made_by result.2) ≡ board_of (made_by hand) }
    ensures relayed { RelayedOnce (made_by hand) (packet_of receipt) result.0 (made_by result.2) }
    ensures demanded { parts hand ≡ 1024 → IfOk result.1 (λ bytes. RelaysBy config.now (made_by hand) (packet_of receipt) now result.0 bytes.list (made_by result.2)) }
    ensures others { KeepsOthers config.now (made_by hand) (pair_of receipt, packet_of receipt) (made_by result.2) }
{
    let mut lane = Lane::new(hand, 0, 1, config);
    let outcome = lane.relay(rt, turns, &OpenGate::new(), receipt, now);
    let sent = Text::copy_of(alloc, lane.sent_bytes());
    (outcome, sent, lane.into_hand())
}
