//! Packets are relayed in cells.
ghost use Rattle.std.specs.Prelude.{◌≡◌, ◌≤◌, ℕ, List, length, min};
ghost use Rattle.relay_outside.specs.declared.settings.Config.{Config};
ghost use Rattle.turn_table.specs.Hands.{IsHandOf, HasTurn, IsSameHand, EndsTurn, tries, place_of, front_of, state_of, taken_of};
ghost use Rattle.call_cell.specs.Cells.{CellEntry};
ghost use Rattle.call_cell.specs.LegHistories.{receipt_of};
ghost use Rattle.relay_core.specs.declared.part.Part.{Part};
ghost use Rattle.relay_core.specs.PlaceHistories.{IsCellPart};
ghost use Rattle.media_lane.specs.Relays.{relay_by, RelaysPart, RelaysByResult, RelaysAtLast, bytes_left, bytes_sent};
ghost use Rattle.media_lane.specs.Lanes.{packet_of, pair_of, hand_in, lane_list, config_in, IsSameHandOf, hand_of, list_of_lane, lane_config, sent_last, IsSameLane};
ghost use Rattle.media_lane.specs.Rooms.{front_in, last_in, sent_room};
ghost use Rattle.media_lane.specs.Receipts.{IsReceiptOf, KeepsList};
ghost use Rattle.media_lane.specs.Gates.{GainsGated};

use crate::answers::Relayed;
use crate::lane::{Lane, LaneHand};
use crate::puts::{Arrived, put_relay};
use crate::receipt::Receipt;
use crate::rooms::Rooms;
use call_cell::{Incoming, Outcome, PacketBuffer};
use relay_core::Relay;
use relay_outside::{Gate, InEnd, OutEnd};
use std::marker::Brand;
use std::sync::Wait;
use turn_table::{Hand, Turn, Turns};

/// Relays a packet that this take gave in the cell whose turn this is, where its bytes stand, and puts the turn.
fn relay_in_turn<I: InEnd, O: OutEnd, A: Arrived>(
    turns: &Turns<Relay<I, O>>,
    hand: &mut Hand<Relay<I, O>>,
    turn: Turn<Relay<I, O>>,
    take: u64,
    packet: &Incoming,
    rooms: &mut Rooms,
    now: u64,
) -> Outcome
    requires table { IsHandOf turns.now hand.old }
    requires turn { HasTurn hand.old turn }
    requires untouched { taken_of turn ≡ state_of turn }
    requires at_cell { IsCellPart (state_of turn) }
    requires short { packet.now.len ≤ 2000 }
    requires arrived { A.bytes ≡ front_in rooms.old }
    ensures same { IsSameHand hand.old hand.new }
    ensures tried { tries hand.new ≡ tries hand.old }
    ensures step { (after : Part I O) × RelaysPart O.log O.faults (receipt_of take packet.now (front_in rooms.old)) now (state_of turn) (last_in rooms.new) result after }
    ensures entry { EndsTurn (place_of turn) (front_of turn) (relay_by (state_of turn) (receipt_of take packet.now (front_in rooms.old)) now result) tt hand.old hand.new }
    ensures sent { sent_room rooms.new ≡ bytes_sent result (last_in rooms.new) }
{
    let mut turn = turn;
    let outcome = rooms.relay_in(turn.state(), take, packet, now);
    put_relay::<I, O, A, Brand>(turns, hand, turn, take, packet, now, outcome);
    outcome
}

/// How many of a packet's bytes left with this outcome.
pub(crate) fn bytes_left(outcome: Outcome, packet: &PacketBuffer) -> usize
    ensures count { result ≡ min (bytes_left outcome) (length packet.now) }
    ensures within { result ≤ 2064 }
{
    match outcome {
        Outcome::Sent { len, .. } => len.min(packet.len()),
        Outcome::Lost(_) => 0,
        Outcome::Refused(_) => 0,
    }
}

impl<I: InEnd, O: OutEnd> LaneHand<I, O> {
    /// Relays the packet in the free room, which this take gave, in the cell of its leg, under one turn of that cell, where its bytes
    /// stand. It tries again until it has the turn.
    pub(crate) fn relay_taken<W: Wait, G: Gate>(
        &mut self,
        rt: &W,
        turns: &Turns<Relay<I, O>>,
        gate: &G,
        take: u64,
        packet: &Incoming,
        now: u64,
        rooms: &mut Rooms,
    ) -> Outcome
        requires table { IsHandOf turns.now (hand_in self.old) }
        requires receipt { (pair : ℕ) × IsReceiptOf (config_in self.old) (lane_list self.old) pair (receipt_of take packet.now (front_in rooms.old)) }
        requires short { packet.now.len ≤ 2000 }
        ensures same { IsSameHandOf self.old self.new }
        ensures relayed { RelaysAtLast I.log I.faults O.log O.faults (receipt_of take packet.now (front_in rooms.old)) now result (sent_room rooms.new) (hand_in self.old) (hand_in self.new) }
        ensures list { KeepsList (config_in self.old) (lane_list self.old) (lane_list self.new) }
        ensures gated { GainsGated (G.passed gate.now) (lane_list self.old) (lane_list self.new) }
    {
        let cell = packet.holder.cell;
        let turn = turns.turn(rt, &mut self.hand, cell as usize);
        gate.inside(cell);
        relay_in_turn::<I, O, Brand>(turns, &mut self.hand, turn, take, packet, rooms, now)
    }
}

impl<I: InEnd, O: OutEnd> Lane<I, O> {
    /// Relays the packet of a receipt in the cell of its leg, handed the moment `now` in milliseconds, under one turn of that
    /// cell. It never waits and takes no memory. The receipt is one of this lane's list.
    ///
    /// `Busy` comes exactly where another hand has the cell's turn, or the cell has made 2^56 events.
    pub fn relay_try<G: Gate>(
        &mut self,
        turns: &Turns<Relay<I, O>>,
        gate: &G,
        receipt: Receipt,
        now: u64,
    ) -> Relayed
        requires table { IsHandOf turns.now (hand_of self.old) }
        requires receipt { IsReceiptOf (lane_config self.old) (list_of_lane self.old) (pair_of receipt) (packet_of receipt) }
        ensures same { IsSameLane self.old self.new }
        ensures relayed { RelaysByResult I.log I.faults O.log O.faults receipt now result (sent_last self.old) (sent_last self.new) (hand_of self.old) (hand_of self.new) }
        ensures list { KeepsList (lane_config self.old) (list_of_lane self.old) (list_of_lane self.new) }
        ensures gated { GainsGated (G.passed gate.now) (list_of_lane self.old) (list_of_lane self.new) }
    {
        let Lane { own, rooms } = self;
        let cell = receipt.packet.holder.cell;
        let turn = match turns.try_turn(&mut own.hand, cell as usize) {
            Ok(turn) => turn,
            Err(busy) => {
                return Relayed::Busy {
                    front: busy.front,
                    receipt,
                };
            }
        };
        gate.inside(cell);
        rooms.put(receipt.bytes());
        Relayed::Done(relay_in_turn::<I, O, Brand>(
            turns,
            &mut own.hand,
            turn,
            receipt.take,
            &receipt.packet,
            rooms,
            now,
        ))
    }

    /// Relays the packet of a receipt in the cell of its leg, handed the moment `now` in milliseconds, under one turn of that
    /// cell. It takes no memory, and may wait: it tries again until it has the turn. At a cell that has made 2^56 events it waits
    /// forever. The receipt is one of this lane's list.
    pub fn relay<W: Wait, G: Gate>(
        &mut self,
        rt: &W,
        turns: &Turns<Relay<I, O>>,
        gate: &G,
        receipt: Receipt,
        now: u64,
    ) -> Outcome
        requires table { IsHandOf turns.now (hand_of self.old) }
        requires receipt { IsReceiptOf (lane_config self.old) (list_of_lane self.old) (pair_of receipt) (packet_of receipt) }
        ensures same { IsSameLane self.old self.new }
        ensures relayed { RelaysAtLast I.log I.faults O.log O.faults (packet_of receipt) now result (sent_last self.new) (hand_of self.old) (hand_of self.new) }
        ensures list { KeepsList (lane_config self.old) (list_of_lane self.old) (list_of_lane self.new) }
        ensures gated { GainsGated (G.passed gate.now) (list_of_lane self.old) (list_of_lane self.new) }
    {
        self.rooms.put(receipt.bytes());
        self.own.relay_taken(
            rt,
            turns,
            gate,
            receipt.take,
            &receipt.packet,
            now,
            &mut self.rooms,
        )
    }
}
