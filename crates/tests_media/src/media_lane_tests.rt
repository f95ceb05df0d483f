ghost use Rattle.std.specs.Prelude.{◌≡◌, IfOk};
ghost use Rattle.turn_table.specs.Hands.{IsHandOf, HasNoTurn, starts, parts};
ghost use Rattle.media_lane.specs.Starts.{HasCells, HasLaneStarts};

use call_board::Board;
use call_cell::{Cell, Outcome, Refused};
use media_lane::{Lane, LaneHand, Media, Received, Relayed, Rooms, Totals};
use port_pool::{Holder, PairBox, Side};
use relay_core::{Part, Relay};
use relay_outside::{
    Addr, Arrivals, Config, HandClock, Ip, OpenGate, Packet, PortMaker, SteadyIn, SteadyMaker,
    SteadyOut,
};
use rtp_packet::Half;
use std::alloc::Global;
use std::test::Fail;
use turn_table::{Hand, Turns};

// One call and two pairs: place 0 is the board, place 1 the call's cell, places 2 and 3 the pairs' boxes.
const CONFIG: Config = Config {
    interface: Ip::V4([192, 0, 2, 1]),
    interface6: None,
    port_min: 30_000,
    port_max: 30_003,
    timeout_ms: 60_000,
    offer_timeout_ms: 120_000,
    max_sessions: 1,
};

const HOLDER: Holder = Holder {
    cell: 1,
    call: 7,
    section: 0,
    side: Side::A,
    pair: 0,
    generation: 1,
};

const AT: Addr = Addr {
    ip: Ip::V4([192, 0, 2, 1]),
    port: 30_000,
};

const SOURCE: Addr = Addr {
    ip: Ip::V4([192, 0, 2, 10]),
    port: 6000,
};

// An in end that gives this many datagrams of three bytes.
fn in_end(alloc: Global, count: usize) -> Result<SteadyIn, Fail> {
    let mut packets = Vec::new(alloc);
    for _ in 0..count {
        packets.push(Packet::datagram(alloc, SOURCE, &[1, 2, 3])?)?;
    }
    let arrivals = Vec::from_array(alloc, [Arrivals::new(AT, packets)])?;
    let mut maker = SteadyMaker::new(alloc, arrivals);
    let (receiving, _) = maker.open(AT)?;
    Ok(receiving)
}

// The box of a pair, held by the leg, whose two ports give this many datagrams.
fn held_box(alloc: Global, pair: u32, rtp: usize, rtcp: usize) -> Result<PairBox<SteadyIn>, Fail>
    ensures { IfOk result (λ held. HasCells 1 held) }
{
    let rtp = in_end(alloc, rtp)?;
    let rtcp = in_end(alloc, rtcp)?;
    let mut held = PairBox::empty(1, AT);
    held.put_in(Holder { pair, ..HOLDER }, rtp, rtcp);
    Ok(held)
}

// A table whose first box gives this many datagrams at its two ports, whose second one gives one at that for RTCP, and whose cell has
// no call.
fn begin(
    alloc: Global,
    rtp: usize,
    rtcp: usize,
) -> Result<
    (
        Turns<Relay<SteadyIn, SteadyOut>>,
        Hand<Relay<SteadyIn, SteadyOut>>,
    ),
    Fail,
>
    ensures { IfOk result (λ r. IsHandOf r.0 r.1 × HasNoTurn r.1 × (parts r.1 ≡ 1024) × HasLaneStarts CONFIG (starts r.1)) }
{
    let board = Part::Board(Board::new(alloc, &CONFIG)?);
    let cell = Part::Cell(Cell::empty(alloc, &CONFIG));
    let first = Part::Pair(held_box(alloc, 0, rtp, rtcp)?);
    let second = Part::Pair(held_box(alloc, 1, 0, 1)?);
    let states = Vec::from_array(alloc, [board, cell, first, second])?;
    Ok(Turns::start(alloc, states)?)
}

// How many events a busy box had made.
fn front_of(received: &Received) -> Option<u64> {
    match received {
        Received::Busy { front } => Some(*front),
        _ => None,
    }
}

mod beside;

use beside::{receive_beside, relay_beside};

fn is_nothing(received: Received) -> bool {
    match received {
        Received::Nothing => true,
        _ => false,
    }
}

#[test]
#[tactic(auto, unfolding(port_pool::specs::Ports::pair_count, port_pool::specs::Ports::range_pairs))]
fn a_packet_is_received_and_relayed_in_the_cell_of_its_leg(rt: HostRuntime) -> Result<(), Fail> {
    let (turns, hand) = begin(rt.alloc(), 1, 0)?;
    let mut lane = Lane::new(hand, 0, 1, &CONFIG);
    let Received::Got(receipt) = lane.receive_try(&turns, 0, Half::Rtp) else {
        panic!(rt; "a datagram is there");
    };
    let outcome = match lane.relay_try(&turns, &OpenGate::new(), receipt, 5) {
        Relayed::Done(outcome) => Some(outcome),
        Relayed::Busy { .. } => None,
    };
    let is_empty = lane.sent_bytes().is_empty();
    let rtp = lane.receive_try(&turns, 0, Half::Rtp);
    let rtcp = lane.receive_try(&turns, 0, Half::Rtcp);
    drop(turns.close(lane.into_hand()));
    assert!(rt;
        outcome == Some(Outcome::Refused(Refused::Stale)),
        "the cell has no call"
    );
    assert!(rt; is_empty, "nothing was sent");
    assert!(rt; is_nothing(rtp) && is_nothing(rtcp), "it was the only one");
    Ok(())
}

#[test]
#[tactic(auto, unfolding(port_pool::specs::Ports::pair_count, port_pool::specs::Ports::range_pairs))]
fn a_closed_box_has_nothing(rt: HostRuntime) -> Result<(), Fail> {
    let (turns, hand) = begin_closed(rt.alloc())?;
    let mut lane = Lane::new(hand, 0, 1, &CONFIG);
    assert!(rt;
        is_nothing(lane.receive_try(&turns, 0, Half::Rtp)),
        "the box is closed"
    );
    drop(turns.close(lane.into_hand()));
    Ok(())
}

// A table before its first step.
fn begin_closed(
    alloc: Global,
) -> Result<
    (
        Turns<Relay<SteadyIn, SteadyOut>>,
        Hand<Relay<SteadyIn, SteadyOut>>,
    ),
    Fail,
>
    ensures { IfOk result (λ r. IsHandOf r.0 r.1 × HasNoTurn r.1 × (parts r.1 ≡ 1024) × HasLaneStarts CONFIG (starts r.1)) }
{
    let states = relay_core::parts(alloc, &CONFIG)?;
    Ok(Turns::start(alloc, states)?)
}

#[test]
#[tactic(auto, unfolding(port_pool::specs::Ports::pair_count, port_pool::specs::Ports::range_pairs))]
fn a_box_is_busy_while_another_hand_has_its_turn(rt: HostRuntime) -> Result<(), Fail> {
    let (turns, mut main) = begin(rt.alloc(), 1, 0)?;
    let mut lane = Lane::new(turns.split_hand(&mut main), 0, 1, &CONFIG);
    let first = front_of(&receive_beside(&rt, &turns, &mut main, &mut lane));
    let is_there = matches!(lane.receive_try(&turns, 0, Half::Rtp), Received::Got(_));
    let third = front_of(&receive_beside(&rt, &turns, &mut main, &mut lane));
    turns.join_hand(&mut main, lane.into_hand());
    drop(turns.close(main));
    assert!(rt; first == Some(0), "the box had made no event");
    assert!(rt; is_there, "nothing was taken meanwhile");
    assert!(rt; third == Some(2), "it was the box's second event");
    Ok(())
}

#[test]
#[tactic(auto, unfolding(port_pool::specs::Ports::pair_count, port_pool::specs::Ports::range_pairs))]
fn a_receipt_comes_back_while_another_hand_has_the_turn_of_its_cell(
    rt: HostRuntime,
) -> Result<(), Fail> {
    let (turns, mut main) = begin(rt.alloc(), 1, 0)?;
    let mut lane = Lane::new(turns.split_hand(&mut main), 0, 1, &CONFIG);
    let Received::Got(receipt) = lane.receive_try(&turns, 0, Half::Rtp) else {
        panic!(rt; "a datagram is there");
    };
    let Relayed::Busy { front, receipt } = relay_beside(&rt, &turns, &mut main, &mut lane, receipt)
    else {
        panic!(rt; "the cell is busy");
    };
    assert!(rt; front == 0, "the cell had made no event");
    let done = match lane.relay_try(&turns, &OpenGate::new(), receipt, 5) {
        Relayed::Done(outcome) => Some(outcome),
        Relayed::Busy { .. } => None,
    };
    turns.join_hand(&mut main, lane.into_hand());
    drop(turns.close(main));
    assert!(rt;
        done == Some(Outcome::Refused(Refused::Stale)),
        "the cell has no call"
    );
    Ok(())
}

#[test]
#[tactic(auto, unfolding(port_pool::specs::Ports::pair_count, port_pool::specs::Ports::range_pairs))]
fn a_hand_that_may_wait_receives_and_relays(rt: HostRuntime) -> Result<(), Fail> {
    let (turns, hand) = begin(rt.alloc(), 1, 0)?;
    let mut lane = Lane::new(hand, 0, 1, &CONFIG);
    let Received::Got(receipt) = lane.receive(&rt, &turns, 0, Half::Rtp) else {
        panic!(rt; "a datagram is there");
    };
    let is_it = receipt.source() == SOURCE && receipt.bytes() == [1, 2, 3].as_slice();
    let outcome = lane.relay(&rt, &turns, &OpenGate::new(), receipt, 5);
    let rtp = lane.receive(&rt, &turns, 0, Half::Rtp);
    drop(turns.close(lane.into_hand()));
    assert!(rt; is_it, "it is the datagram that the end gave");
    assert!(rt;
        outcome == Outcome::Refused(Refused::Stale),
        "the cell has no call"
    );
    assert!(rt; is_nothing(rtp), "it was the only one");
    Ok(())
}

// What comes of this many datagrams for a cell that has no call.
fn refused(count: u64) -> Totals {
    Totals {
        taken: count,
        sent: 0,
        refused: count,
        lost: 0,
    }
}

#[test]
#[tactic(auto, unfolding(port_pool::specs::Ports::pair_count, port_pool::specs::Ports::range_pairs))]
fn a_sweep_takes_once_of_each_half(rt: HostRuntime) -> Result<(), Fail> {
    let (turns, mut main) = begin(rt.alloc(), 2, 1)?;
    let other = turns.split_hand(&mut main);
    let mut lane = Lane::new(main, 0, 2, &CONFIG);
    let mut beside = Lane::new(other, 1, 2, &CONFIG);
    let clock = HandClock::new(5);
    let gate = OpenGate::new();
    let foreign = beside.sweep(&rt, &turns, &gate, &clock);
    let first = lane.sweep(&rt, &turns, &gate, &clock);
    let second = lane.sweep(&rt, &turns, &gate, &clock);
    let third = lane.sweep(&rt, &turns, &gate, &clock);
    let mut main = lane.into_hand();
    turns.join_hand(&mut main, beside.into_hand());
    drop(turns.close(main));
    assert!(rt; foreign == refused(1), "the other lane's pair has one");
    assert!(rt; first == refused(2), "one datagram of each half");
    assert!(rt; second == refused(1), "the half that had two");
    assert!(rt; third == refused(0), "nothing is left");
    Ok(())
}

#[test]
#[tactic(auto, unfolding(port_pool::specs::Ports::pair_count, port_pool::specs::Ports::range_pairs))]
fn lanes_that_share_rooms_take_from_their_own_pairs(rt: HostRuntime) -> Result<(), Fail> {
    let (turns, mut main) = begin(rt.alloc(), 2, 1)?;
    let other = turns.split_hand(&mut main);
    let mut lane = LaneHand::new(main, 0, 2, &CONFIG);
    let mut beside = LaneHand::new(other, 1, 2, &CONFIG);
    let mut rooms = Rooms::new();
    let media = Media {
        clock: &HandClock::new(5),
        gate: &OpenGate::new(),
    };
    let first = lane.sweep(&rt, &turns, &media, &mut rooms);
    let foreign = beside.sweep(&rt, &turns, &media, &mut rooms);
    let second = lane.sweep(&rt, &turns, &media, &mut rooms);
    let nothing = beside.sweep(&rt, &turns, &media, &mut rooms);
    let mut main = lane.into_hand();
    turns.join_hand(&mut main, beside.into_hand());
    drop(turns.close(main));
    assert!(rt; first == refused(2), "one datagram of each half");
    assert!(rt; foreign == refused(1), "the other lane's pair has one");
    assert!(rt; second == refused(1), "the half that had two");
    assert!(rt; nothing == refused(0), "nothing is left");
    Ok(())
}
