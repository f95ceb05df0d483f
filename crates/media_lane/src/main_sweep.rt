//! The main hand sweeps, and holds no turn before and after.
ghost use Rattle.std.specs.Prelude.{◌≡◌};
ghost use Rattle.turn_table.specs.Hands.{IsSameHand};
ghost use Rattle.relay_core.specs.Turns.{made_by};
ghost use Rattle.media_lane.specs.declared.answers.Totals.{Totals};
ghost use Rattle.media_lane.specs.Sweeps.{Sweeps};
ghost use Rattle.media_lane.specs.Gates.{GainsGated};
ghost use Rattle.board_turns.specs.Between.{board_of, IsBetween};
ghost use Rattle.media_lane.specs.Totals.{HasTotals};

use crate::answers::Totals;
use crate::lane::Lane;
use relay_core::Relay;
use relay_outside::{Clock, Config, Gate, InEnd, OutEnd};
use std::sync::Wait;
use turn_table::{Hand, Turns};

/// Sweeps once over all pairs by the main hand, which holds no turn: takes once of each half of each pair, and relays each
/// datagram directly, handed a moment of the clock, inside the gate. The totals go up by what came of it. It may wait, where a lane has a turn;
/// it takes no memory.
pub fn sweep_between<I: InEnd, O: OutEnd, R: Wait, G: Gate, C: Clock>(
    rt: &R,
    turns: &Turns<Relay<I, O>>,
    hand: Hand<Relay<I, O>>,
    config: &Config,
    gate: &G,
    clock: &C,
    totals: &mut Totals,
) -> Hand<Relay<I, O>>
    requires between { IsBetween config.now turns.now hand }
    ensures same { IsSameHand hand result }
    ensures between { IsBetween config.now turns.now result }
    ensures board { board_of (made_by result) ≡ board_of (made_by hand) }
    ensures swept { (swept : Totals) × Sweeps config.now 0 1 (C.range clock.now) hand result swept }
    ensures gated { GainsGated (G.passed gate.now) (made_by hand) (made_by result) }
    ensures totals { HasTotals (made_by hand) totals.old → HasTotals (made_by result) totals.new }
{
    let mut lane = Lane::new(hand, 0, 1, config);
    let swept = lane.sweep(rt, turns, gate, clock);
    totals.add(swept);
    lane.into_hand()
}
