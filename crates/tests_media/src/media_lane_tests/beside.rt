//! What a lane returns while another hand has the turn of a place.
ghost use Rattle.std.specs.Prelude.{◌≡◌, ◌≤◌};
ghost use Rattle.turn_table.specs.Hands.{IsHandOf, HasNoTurn, HasTurn, IsSameHand, EndsTurn, starts, place_of, front_of, state_of, taken_of};
ghost use Rattle.call_cell.specs.LegHistories.{receipt_of};
ghost use Rattle.relay_core.specs.PlaceHistories.{IsCellPart};
ghost use Rattle.relay_core.specs.Steps.{Relates};
ghost use Rattle.media_lane.specs.Starts.{IsPairPart, HasLaneStarts};
ghost use Rattle.media_lane.specs.Lanes.{hand_of, list_of_lane, lane_config, sent_last, packet_of, pair_of, IsSameLane};
ghost use Rattle.media_lane.specs.Receipts.{IsReceiptOf};
ghost use Rattle.media_lane.specs.Takes.{box_take_made};
ghost use Rattle.media_lane.specs.Relays.{relay_by, RelaysPart, RelaysByResult};

use super::{CONFIG, HOLDER, SOURCE};
use call_cell::{Incoming, Outcome};
use media_lane::{Lane, Receipt, Received, Relayed};
use port_pool::BoxTake;
use relay_core::{Part, Relay, Says, Told};
use relay_outside::{InEnd, OpenGate, OutEnd};
use rtp_packet::Half;
use std::marker::Brand;
use std::sync::Wait;
use turn_table::{Hand, Turn, Turns};

// Takes from a box.
fn take_from<I: InEnd, O: OutEnd>(
    part: &mut Part<I, O>,
    half: Half,
    buf: &mut [u8; 2001],
) -> BoxTake
    requires { IsPairPart part.old }
    ensures { Relates I.log I.faults O.log O.faults part.old (box_take_made half result buf.new) part.new }
{
    match part {
        Part::Pair(held) => held.take(half, buf),
        Part::Board(_) => unreachable!(),
        Part::Cell(_) => unreachable!(),
    }
}

// Ends a box's turn, and records a take with its result.
fn put_take<I: InEnd, O: OutEnd, X: Says>(
    turns: &Turns<Relay<I, O>>,
    hand: &mut Hand<Relay<I, O>>,
    turn: Turn<Relay<I, O>>,
    half: Half,
    given: &BoxTake,
    buf: &[u8; 2001],
)
    requires table { IsHandOf turns.now hand.old }
    requires turn { HasTurn hand.old turn }
    requires step { Relates I.log I.faults O.log O.faults (taken_of turn) (box_take_made half given.now buf.now) (state_of turn) }
    requires said { X.made ≡ box_take_made half given.now buf.now }
    ensures same { IsSameHand hand.old hand.new }
    ensures entry { EndsTurn (place_of turn) (front_of turn) (box_take_made half given.now buf.now) tt hand.old hand.new }
{
    turns.put::<Told<X>>(hand, turn);
}

// What a lane receives while another hand has the turn of the pair's box, which that hand ends by a take.
#[tactic(auto, unfolding(port_pool::specs::Ports::pair_count, port_pool::specs::Ports::range_pairs))]
pub(super) fn receive_beside<I: InEnd, O: OutEnd, R: Wait>(
    rt: &R,
    turns: &Turns<Relay<I, O>>,
    hand: &mut Hand<Relay<I, O>>,
    lane: &mut Lane<I, O>,
) -> Received
    requires tables { IsHandOf turns.now hand.old × IsHandOf turns.now (hand_of lane.old) }
    requires idle { HasNoTurn hand.old }
    requires begins { HasLaneStarts CONFIG (starts hand.old) × (lane_config lane.old ≡ CONFIG) }
    ensures same { IsSameHand hand.old hand.new × IsSameLane lane.old lane.new }
    ensures over { HasNoTurn hand.new }
{
    let mut turn = turns.turn(rt, hand, 2);
    let received = lane.receive_try(turns, 0, Half::Rtp);
    let mut buf = [0; 2001];
    let given = take_from(turn.state(), Half::Rtcp, &mut buf);
    put_take::<I, O, Brand>(turns, hand, turn, Half::Rtcp, &given, &buf);
    received
}

// Relays a packet in a cell.
fn relay_in<I: InEnd, O: OutEnd>(
    part: &mut Part<I, O>,
    take: u64,
    packet: &Incoming,
    bytes: &[u8; 2001],
    buf: &mut [u8; 2064],
    now: u64,
) -> Outcome
    requires cell { IsCellPart part.old }
    requires short { packet.now.len ≤ 2000 }
    ensures { RelaysPart O.log O.faults (receipt_of take packet.now bytes.now) now part.old buf.new result part.new }
{
    let len = packet.len;
    buf[..len].copy_from_slice(&bytes[..len]);
    match part {
        Part::Cell(cell) => cell.relay(packet, buf, now),
        Part::Board(_) => unreachable!(),
        Part::Pair(_) => unreachable!(),
    }
}

// Puts the turn of a cell by the relay of a packet with this outcome.
fn put_relay<I: InEnd, O: OutEnd, X: Says>(
    turns: &Turns<Relay<I, O>>,
    hand: &mut Hand<Relay<I, O>>,
    turn: Turn<Relay<I, O>>,
    take: u64,
    packet: &Incoming,
    bytes: &[u8; 2001],
    now: u64,
    outcome: Outcome,
)
    requires table { IsHandOf turns.now hand.old }
    requires turn { HasTurn hand.old turn }
    requires step { Relates I.log I.faults O.log O.faults (taken_of turn) (relay_by (taken_of turn) (receipt_of take packet.now bytes.now) now outcome) (state_of turn) }
    requires said { X.made ≡ relay_by (taken_of turn) (receipt_of take packet.now bytes.now) now outcome }
    ensures same { IsSameHand hand.old hand.new }
    ensures entry { EndsTurn (place_of turn) (front_of turn) (relay_by (taken_of turn) (receipt_of take packet.now bytes.now) now outcome) tt hand.old hand.new }
{
    turns.put::<Told<X>>(hand, turn);
}

// What becomes of a receipt while another hand has the turn of its cell, which that hand ends by the relay of a packet of no call.
pub(super) fn relay_beside<I: InEnd, O: OutEnd, R: Wait>(
    rt: &R,
    turns: &Turns<Relay<I, O>>,
    hand: &mut Hand<Relay<I, O>>,
    lane: &mut Lane<I, O>,
    receipt: Receipt,
) -> Relayed
    requires tables { IsHandOf turns.now hand.old × IsHandOf turns.now (hand_of lane.old) }
    requires idle { HasNoTurn hand.old }
    requires begins { HasLaneStarts CONFIG (starts hand.old) }
    requires receipt { IsReceiptOf (lane_config lane.old) (list_of_lane lane.old) (pair_of receipt) (packet_of receipt) }
    ensures same { IsSameHand hand.old hand.new × IsSameLane lane.old lane.new }
    ensures over { HasNoTurn hand.new }
    ensures relayed { RelaysByResult I.log I.faults O.log O.faults receipt 5 result (sent_last lane.old) (sent_last lane.new) (hand_of lane.old) (hand_of lane.new) }
{
    let mut turn = turns.turn(rt, hand, 1);
    let relayed = lane.relay_try(turns, &OpenGate::new(), receipt, 5);
    let packet = Incoming {
        holder: HOLDER,
        half: Half::Rtcp,
        source: SOURCE,
        len: 0,
    };
    let bytes = [0; 2001];
    let mut buf = [0; 2064];
    let outcome = relay_in(turn.state(), 9, &packet, &bytes, &mut buf, 3);
    put_relay::<I, O, Brand>(turns, hand, turn, 9, &packet, &bytes, 3, outcome);
    relayed
}
