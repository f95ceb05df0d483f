//! One way to put a turn for each kind of event. All data of the event are arguments, so that the proof of a call can pick the event from
//! them; but for the bytes of a packet that was relayed, which are picked before.
ghost use Rattle.std.specs.Prelude.{◌≡◌, ◌+◌};
ghost use Rattle.turn_table.specs.Hands.{IsHandOf, HasTurn, IsSameHand, EndsTurn, tries, place_of, front_of, state_of, taken_of};
ghost use Rattle.call_cell.specs.LegHistories.{receipt_of};
ghost use Rattle.relay_core.specs.Steps.{Relates};
ghost use Rattle.media_lane.specs.Rooms.{front_in};
ghost use Rattle.media_lane.specs.Takes.{box_take_made};
ghost use Rattle.media_lane.specs.Relays.{relay_by};

use crate::rooms::Rooms;
use call_cell::{Incoming, Outcome};
use port_pool::BoxTake;
use relay_core::{Relay, Says, Told};
use relay_outside::{InEnd, OutEnd};
use rtp_packet::Half;
use std::marker::Brand;
use turn_table::{Hand, Turn, Turns};

/// Ends a box's turn, and records a take with its result.
pub(crate) fn put_take<I: InEnd, O: OutEnd, X: Says>(
    turns: &Turns<Relay<I, O>>,
    hand: &mut Hand<Relay<I, O>>,
    turn: Turn<Relay<I, O>>,
    half: Half,
    given: &BoxTake,
    rooms: &Rooms,
) -> u64
    requires table { IsHandOf turns.now hand.old }
    requires turn { HasTurn hand.old turn }
    requires step { Relates I.log I.faults O.log O.faults (taken_of turn) (box_take_made half given.now (front_in rooms.now)) (state_of turn) }
    requires said { X.made ≡ box_take_made half given.now (front_in rooms.now) }
    ensures same { IsSameHand hand.old hand.new }
    ensures tried { tries hand.new ≡ tries hand.old }
    ensures number { result ≡ front_of turn }
    ensures entry { EndsTurn (place_of turn) (front_of turn) (box_take_made half given.now (front_in rooms.now)) tt hand.old hand.new }
{
    turns.put::<Told<X>>(hand, turn)
}

/// The bytes of a packet that is relayed, which the proof of a call picks from the call's arguments before the relay: what is sent stands
/// in their place after it.
pub(crate) trait Arrived {
    ghost use Rattle.std.specs.Prelude.{ℕ, List};

    ghost bytes: { List ℕ };
}

impl Arrived for Brand {
    ghost use Rattle.std.specs.Prelude.{[]};

    ghost bytes = { [] };
}

/// A packet that this take gave was relayed in a cell, handed this moment, with this outcome.
pub(crate) fn put_relay<I: InEnd, O: OutEnd, A: Arrived, X: Says>(
    turns: &Turns<Relay<I, O>>,
    hand: &mut Hand<Relay<I, O>>,
    turn: Turn<Relay<I, O>>,
    take: u64,
    packet: &Incoming,
    now: u64,
    outcome: Outcome,
) -> u64
    requires table { IsHandOf turns.now hand.old }
    requires turn { HasTurn hand.old turn }
    requires step { Relates I.log I.faults O.log O.faults (taken_of turn) (relay_by (taken_of turn) (receipt_of take packet.now A.bytes) now outcome) (state_of turn) }
    requires said { X.made ≡ relay_by (taken_of turn) (receipt_of take packet.now A.bytes) now outcome }
    ensures same { IsSameHand hand.old hand.new }
    ensures tried { tries hand.new ≡ tries hand.old }
    ensures number { result ≡ front_of turn }
    ensures entry { EndsTurn (place_of turn) (front_of turn) (relay_by (taken_of turn) (receipt_of take packet.now A.bytes) now outcome) tt hand.old hand.new }
{
    turns.put::<Told<X>>(hand, turn)
}
