//! A lane sweeps again and again, until it is told to end.
ghost use Rattle.std.specs.Prelude.{◌≡◌, ◌<◌, length};
ghost use Rattle.turn_table.specs.Hands.{IsHandOf};
ghost use Rattle.media_lane.specs.Lanes.{hand_of, list_of_lane, lane_config, index_of, lanes_of, IsSameLane};
ghost use Rattle.media_lane.specs.Receipts.{KeepsList};
ghost use Rattle.media_lane.specs.Gates.{GainsGated};
ghost use Rattle.media_lane.specs.SweepLoops.{AddsTotals, MakesSweeps};

use crate::answers::Totals;
use crate::lane::Lane;
use relay_core::Relay;
use relay_outside::{Clock, Gate, InEnd, OutEnd};
use std::sync::Wait;
use std::sync::atomic::{AtomicBool, Ordering};
use turn_table::Turns;

impl Totals {
    /// Adds what came of more datagrams. A count that has reached 2^64 - 1 stays there.
    pub fn add(&mut self, more: Totals)
        ensures { AddsTotals self.old more self.new }
    {
        self.taken = self.taken.saturating_add(more.taken);
        self.sent = self.sent.saturating_add(more.sent);
        self.refused = self.refused.saturating_add(more.refused);
        self.lost = self.lost.saturating_add(more.lost);
    }
}

/// Sweeps until the halt word is found set, and then once more: the work of a thread of media. What came of all datagrams is returned.
/// It may wait, where another hand has a turn; it takes no memory. That it ever finds the word set is not promised.
pub fn lane_loop<W: Wait, I: InEnd, O: OutEnd, G: Gate, C: Clock>(
    rt: &W,
    lane: &mut Lane<I, O>,
    turns: &Turns<Relay<I, O>>,
    gate: &G,
    clock: &C,
    halt: &AtomicBool,
) -> Totals
    requires { IsHandOf turns.now (hand_of lane.old) }
    ensures same { IsSameLane lane.old lane.new }
    ensures swept { (made : MakesSweeps (lane_config lane.old) (index_of lane.old) (lanes_of lane.old) (C.range clock.now) (hand_of lane.old) (hand_of lane.new) result) × (0 < length made.sweeps) }
    ensures list { KeepsList (lane_config lane.old) (list_of_lane lane.old) (list_of_lane lane.new) }
    ensures gated { GainsGated (G.passed gate.now) (list_of_lane lane.old) (list_of_lane lane.new) }
{
    let mut totals = Totals::none();
    for _ in rt.forever() {
        if halt.load(Ordering::SeqCst) {
            break;
        }
        totals.add(lane.sweep(rt, turns, gate, clock));
    }
    totals.add(lane.sweep(rt, turns, gate, clock));
    totals
}
