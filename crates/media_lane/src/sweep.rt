//! A lane visits its pairs, one after the other, and waits where another hand has a turn.
ghost use Rattle.std.specs.Prelude.{◌<◌, []};
ghost use Rattle.port_pool.specs.Ports.{pair_count};
ghost use Rattle.turn_table.specs.Hands.{IsHandOf};
ghost use Rattle.media_lane.specs.Lanes.{hand_in, lane_list, config_in, index_in, lanes_in, IsSameHandOf, hand_of, list_of_lane, lane_config, index_of, lanes_of, IsSameLane};
ghost use Rattle.media_lane.specs.Receipts.{KeepsList};
ghost use Rattle.media_lane.specs.Gates.{GainsGated};
ghost use Rattle.media_lane.specs.Visits.{AreTotals, CountsRelay};
ghost use Rattle.media_lane.specs.Sweeps.{VisitsOnce, Sweeps};

use crate::answers::Totals;
use crate::lane::{Lane, LaneHand};
use crate::rooms::Rooms;
use crate::take::packet_in;
use call_cell::Outcome;
use relay_core::Relay;
use relay_outside::{Clock, Gate, InEnd, OutEnd};
use rtp_packet::Half;
use std::sync::Wait;
use turn_table::Turns;

/// What each relay of a packet is handed.
#[derive(Drop)]
pub struct Media<'c, 'g, C, G> {
    /// It gives the relay's moment.
    pub clock: &'c C,
    /// It is passed at the relay's cell.
    pub gate: &'g G,
}

impl Totals {
    /// Nothing was taken.
    pub(crate) fn none() -> Totals
        ensures { AreTotals [] result }
    {
        Totals {
            taken: 0,
            sent: 0,
            refused: 0,
            lost: 0,
        }
    }

    /// Counts a datagram whose relay had this outcome.
    fn count(&mut self, outcome: Outcome)
        ensures { CountsRelay outcome self.old self.new }
    {
        self.taken = self.taken.saturating_add(1);
        match outcome {
            Outcome::Sent { .. } => self.sent = self.sent.saturating_add(1),
            Outcome::Refused(_) => self.refused = self.refused.saturating_add(1),
            Outcome::Lost(_) => self.lost = self.lost.saturating_add(1),
        }
    }
}

impl<I: InEnd, O: OutEnd> LaneHand<I, O> {
    /// Takes once of a half at the box of a pair, and relays what it gave.
    fn visit<W: Wait, C: Clock, G: Gate>(
        &mut self,
        rt: &W,
        turns: &Turns<Relay<I, O>>,
        media: &Media<'_, '_, C, G>,
        pair: u32,
        half: Half,
        rooms: &mut Rooms,
        totals: &mut Totals,
    )
        requires table { IsHandOf turns.now (hand_in self.old) }
        requires pair { pair < pair_count (config_in self.old) }
        ensures same { IsSameHandOf self.old self.new }
        ensures visited { VisitsOnce (config_in self.old) (C.range media.now.clock.now) pair half (hand_in self.old) (hand_in self.new) totals.old totals.new }
        ensures list { KeepsList (config_in self.old) (lane_list self.old) (lane_list self.new) }
        ensures gated { GainsGated (G.passed media.now.gate.now) (lane_list self.old) (lane_list self.new) }
    {
        let take = self.take(rt, turns, pair, half, rooms);
        if let Some(packet) = packet_in(half, take.given, rooms.front()) {
            let now = media.clock.now();
            let outcome = self.relay_taken(rt, turns, media.gate, take.number, &packet, now, rooms);
            totals.count(outcome);
        }
    }

    /// Takes once of each half of each of the lane's own pairs, whose numbers are the lane's modulo the number of lanes, and
    /// relays each datagram, handed a moment of the clock, before the next take. Packets stand in these rooms. It may wait, where another
    /// hand has a turn.
    pub fn sweep<W: Wait, C: Clock, G: Gate>(
        &mut self,
        rt: &W,
        turns: &Turns<Relay<I, O>>,
        media: &Media<'_, '_, C, G>,
        rooms: &mut Rooms,
    ) -> Totals
        requires { IsHandOf turns.now (hand_in self.old) }
        ensures same { IsSameHandOf self.old self.new }
        ensures swept { Sweeps (config_in self.old) (index_in self.old) (lanes_in self.old) (C.range media.now.clock.now) (hand_in self.old) (hand_in self.new) result }
        ensures list { KeepsList (config_in self.old) (lane_list self.old) (lane_list self.new) }
        ensures gated { GainsGated (G.passed media.now.gate.now) (lane_list self.old) (lane_list self.new) }
    {
        let pairs = u64::from(self.config.pairs());
        let mut totals = Totals::none();
        let mut pair = u64::from(self.index);
        while pair < pairs {
            self.visit(rt, turns, media, pair as u32, Half::Rtp, rooms, &mut totals);
            self.visit(
                rt,
                turns,
                media,
                pair as u32,
                Half::Rtcp,
                rooms,
                &mut totals,
            );
            pair += u64::from(self.lanes);
        }
        totals
    }
}

impl<I: InEnd, O: OutEnd> Lane<I, O> {
    /// Takes once of each half of each of the lane's own pairs, whose numbers are the lane's modulo the number of lanes, and
    /// relays each datagram, handed a moment of the clock, before the next take. It may wait, where another hand has a turn.
    pub fn sweep<W: Wait, G: Gate, C: Clock>(
        &mut self,
        rt: &W,
        turns: &Turns<Relay<I, O>>,
        gate: &G,
        clock: &C,
    ) -> Totals
        requires { IsHandOf turns.now (hand_of self.old) }
        ensures same { IsSameLane self.old self.new }
        ensures swept { Sweeps (lane_config self.old) (index_of self.old) (lanes_of self.old) (C.range clock.now) (hand_of self.old) (hand_of self.new) result }
        ensures list { KeepsList (lane_config self.old) (list_of_lane self.old) (list_of_lane self.new) }
        ensures gated { GainsGated (G.passed gate.now) (list_of_lane self.old) (list_of_lane self.new) }
    {
        let media = Media { clock, gate };
        self.own.sweep(rt, turns, &media, &mut self.rooms)
    }
}
