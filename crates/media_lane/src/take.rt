//! Datagrams are taken from boxes.
ghost use Rattle.std.specs.Prelude.{◌≡◌, ◌<◌, ◌≤◌, ◌+◌, ℕ, [], ◌∷◌, ◌++◌, length, None, Some, MatchOption};
ghost use Rattle.port_pool.specs.Ports.{pair_count};
ghost use Rattle.port_pool.specs.Takes.{taken_within};
ghost use Rattle.turn_table.specs.Hands as hands;
ghost use Rattle.turn_table.specs.Hands.{IsHandOf, HasTurn, IsSameHand, EndsTurn, entries, tries, place_of, front_of, state_of};
ghost use Rattle.turn_table.specs.Steps.{entry};
ghost use Rattle.call_cell.specs.Cells as cells;
ghost use Rattle.call_cell.specs.LegHistories.{receipt_of};
ghost use Rattle.relay_core.specs.Entries.{box_of};
ghost use Rattle.relay_core.specs.declared.part.Part.{Part};
ghost use Rattle.relay_core.specs.Steps.{Relates};
ghost use Rattle.media_lane.specs.declared.answers.Received.{Received};
ghost use Rattle.media_lane.specs.Starts.{IsPairPart};
ghost use Rattle.media_lane.specs.Takes.{box_take_made, TellsOfTake, IsShort, HasReceipt, Receives, TakesAtLast};
ghost use Rattle.media_lane.specs.Lanes.{hand_in, lane_list, config_in, IsSameHandOf, hand_of, list_of_lane, lane_config, sent_last, IsSameLane};
ghost use Rattle.media_lane.specs.Rooms.{front_in, sent_room};
ghost use Rattle.media_lane.specs.Receipts.{IsReceiptOf, KeepsList};
ghost use Rattle.media_lane.specs.Visits.{packet_by};

use crate::answers::Received;
use crate::lane::{Lane, LaneHand};
use crate::puts::put_take;
use crate::receipt::Receipt;
use crate::rooms::Rooms;
use call_cell::Incoming;
use port_pool::{BoxTake, TakeBuffer};
use relay_core::{Part, Relay};
use relay_outside::{InEnd, OutEnd};
use rtp_packet::Half;
use std::marker::Brand;
use std::sync::Wait;
use turn_table::{Hand, Turn, Turns};

/// What a take of a box gave, and its number among the box's events, from 0. The bytes of a datagram are in the lane's room.
#[derive(Clone, Copy)]
pub(crate) struct NumberedTake {
    pub(crate) number: u64,
    pub(crate) given: BoxTake,
}

/// Takes from a box, into the buffer.
pub(crate) fn take_from<I: InEnd, O: OutEnd>(
    part: &mut Part<I, O>,
    half: Half,
    buf: &mut TakeBuffer,
) -> BoxTake
    requires { IsPairPart part.old }
    ensures step { Relates I.log I.faults O.log O.faults part.old (box_take_made half result buf.new) part.new }
    ensures long { length buf.new ≡ 2001 }
{
    match part {
        Part::Pair(held) => held.take(half, buf),
        Part::Board(_) => unreachable!(),
        Part::Cell(_) => unreachable!(),
    }
}

/// Takes once of a half at the box whose turn this is, into the free room, and puts the turn.
fn take_in_turn<I: InEnd, O: OutEnd>(
    turns: &Turns<Relay<I, O>>,
    hand: &mut Hand<Relay<I, O>>,
    turn: Turn<Relay<I, O>>,
    half: Half,
    rooms: &mut Rooms,
) -> NumberedTake
    requires table { IsHandOf turns.now hand.old }
    requires turn { HasTurn hand.old turn }
    requires untouched { hands.taken_of turn ≡ state_of turn }
    requires at_box { IsPairPart (state_of turn) }
    ensures same { IsSameHand hand.old hand.new }
    ensures tried { tries hand.new ≡ tries hand.old }
    ensures number { result.number ≡ front_of turn }
    ensures step { (after : Part I O) × Relates I.log I.faults O.log O.faults (state_of turn) (box_take_made half result.given (front_in rooms.new)) after }
    ensures entry { EndsTurn (place_of turn) (front_of turn) (box_take_made half result.given (front_in rooms.new)) tt hand.old hand.new }
    ensures kept { sent_room rooms.new ≡ sent_room rooms.old }
{
    let mut turn = turn;
    let given = rooms.take_from(turn.state(), half);
    let number = put_take::<I, O, Brand>(turns, hand, turn, half, &given, rooms);
    NumberedTake { number, given }
}

/// The result of the take with this number at the box of this pair.
fn received(pair: u32, take: u64, half: Half, given: BoxTake, buf: &TakeBuffer) -> Received
    requires { IsShort (taken_within given buf.now) }
    ensures { TellsOfTake result pair take half (taken_within given buf.now) }
{
    match given {
        BoxTake::Closed => Received::Nothing,
        BoxTake::Nothing => Received::Nothing,
        BoxTake::Datagram {
            holder,
            source,
            len,
        } => Received::Got(Receipt {
            pair,
            take,
            packet: Incoming {
                holder,
                half,
                source,
                len,
            },
            bytes: *buf,
        }),
        BoxTake::TooLong { source: _ } => Received::TooLong,
        BoxTake::Fault => Received::TakeFault,
    }
}

/// The packet of the datagram that a take of this half gave into the buffer, where it gave one.
pub(crate) fn packet_in(half: Half, given: BoxTake, buf: &TakeBuffer) -> Option<Incoming>
    requires { IsShort (taken_within given buf.now) }
    ensures packet { (number : ℕ) → MatchOption result (packet_by number half (taken_within given buf.now) ≡ None)
        (λ p. packet_by number half (taken_within given buf.now) ≡ Some (receipt_of number p buf.now)) }
    ensures short { MatchOption result (Unit {0}) (λ p. p.len ≤ 2000) }
{
    match given {
        BoxTake::Datagram {
            holder,
            source,
            len,
        } => Some(Incoming {
            holder,
            half,
            source,
            len,
        }),
        BoxTake::Closed | BoxTake::Nothing => None,
        BoxTake::TooLong { .. } => None,
        BoxTake::Fault => None,
    }
}

impl<I: InEnd, O: OutEnd> LaneHand<I, O> {
    /// Takes one datagram of a half at the box of a pair, under one turn of that box, into the free room. It tries again until
    /// it has the turn.
    pub(crate) fn take<W: Wait>(
        &mut self,
        rt: &W,
        turns: &Turns<Relay<I, O>>,
        pair: u32,
        half: Half,
        rooms: &mut Rooms,
    ) -> NumberedTake
        requires table { IsHandOf turns.now (hand_in self.old) }
        requires pair { pair < pair_count (config_in self.old) }
        ensures same { IsSameHandOf self.old self.new }
        ensures sent { sent_room rooms.new ≡ sent_room rooms.old }
        ensures short { IsShort (taken_within result.given (front_in rooms.new)) }
        ensures entry { entries (hand_in self.new) ≡ entries (hand_in self.old)
            ++ entry (box_of (config_in self.old) pair) result.number (box_take_made half result.given (front_in rooms.new)) tt ∷ [] }
        ensures taken { (answer : Received) → TellsOfTake answer pair result.number half (taken_within result.given (front_in rooms.new))
            → TakesAtLast I.log I.faults O.log O.faults (config_in self.old) pair half answer (hand_in self.old) (hand_in self.new) }
        ensures receipt { (p : cells.Receipt) → packet_by result.number half (taken_within result.given (front_in rooms.new)) ≡ Some p
            → IsReceiptOf (config_in self.old) (lane_list self.new) pair p }
        ensures list { KeepsList (config_in self.old) (lane_list self.old) (lane_list self.new) }
    {
        let at_box = self.config.max_sessions as usize + 1 + pair as usize;
        let turn = turns.turn(rt, &mut self.hand, at_box);
        take_in_turn(turns, &mut self.hand, turn, half, rooms)
    }
}

impl<I: InEnd, O: OutEnd> Lane<I, O> {
    /// Takes one datagram of a half at the box of a pair, under one turn of that box. It never waits and takes no memory.
    ///
    /// `Busy` comes exactly where another hand has the box's turn, or the box has made 2^56 events.
    pub fn receive_try(&mut self, turns: &Turns<Relay<I, O>>, pair: u32, half: Half) -> Received
        requires table { IsHandOf turns.now (hand_of self.old) }
        requires pair { pair < pair_count (lane_config self.old) }
        ensures same { IsSameLane self.old self.new × (sent_last self.new ≡ sent_last self.old) }
        ensures received { Receives I.log I.faults O.log O.faults (lane_config self.old) pair half result (hand_of self.old) (hand_of self.new) }
        ensures receipt { HasReceipt (lane_config self.old) (list_of_lane self.new) result }
        ensures list { KeepsList (lane_config self.old) (list_of_lane self.old) (list_of_lane self.new) }
    {
        let Lane { own, rooms } = self;
        let place = own.config.max_sessions as usize + 1 + pair as usize;
        let turn = match turns.try_turn(&mut own.hand, place) {
            Ok(turn) => turn,
            Err(busy) => return Received::Busy { front: busy.front },
        };
        let take = take_in_turn(turns, &mut own.hand, turn, half, rooms);
        received(pair, take.number, half, take.given, rooms.front())
    }

    /// Takes one datagram of a half at the box of a pair, under one turn of that box. It takes no memory, and may wait: it tries
    /// again until it has the turn, so that it never returns `Busy`. At a box that has made 2^56 events it waits forever.
    pub fn receive<W: Wait>(
        &mut self,
        rt: &W,
        turns: &Turns<Relay<I, O>>,
        pair: u32,
        half: Half,
    ) -> Received
        requires table { IsHandOf turns.now (hand_of self.old) }
        requires pair { pair < pair_count (lane_config self.old) }
        ensures same { IsSameLane self.old self.new × (sent_last self.new ≡ sent_last self.old) }
        ensures received { TakesAtLast I.log I.faults O.log O.faults (lane_config self.old) pair half result (hand_of self.old) (hand_of self.new) }
        ensures receipt { HasReceipt (lane_config self.old) (list_of_lane self.new) result }
        ensures list { KeepsList (lane_config self.old) (list_of_lane self.old) (list_of_lane self.new) }
    {
        let taken = self.own.take(rt, turns, pair, half, &mut self.rooms);
        received(pair, taken.number, half, taken.given, self.rooms.front())
    }
}
