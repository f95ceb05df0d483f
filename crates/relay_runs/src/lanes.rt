//! One lane of a thread of media.
ghost use Rattle.std.specs.Prelude.{◌≡◌};
ghost use Rattle.turn_table.specs.Hands.{IsHandOf};
ghost use Rattle.media_lane.specs.Lanes.{hand_in};
ghost use Rattle.relay_runs.specs.Threads.{Swept};

use media_lane::{LaneHand, Media, Rooms, Totals};
use relay_core::{Happening, Part, Relay};
use relay_outside::{Clock, Gate, InEnd, OutEnd};
use std::sync::Wait;
use turn_table::{Machine, Turns};

/// A lane of a thread of media, with what came of the packets that it took.
#[derive(Drop)]
pub(crate) struct OwnLane<I: InEnd, O: OutEnd>
where
    Relay<I, O>: Machine<State = Part<I, O>, Event = Happening, Outcome = ()>,
{
    pub(crate) lane: LaneHand<I, O>,
    pub(crate) totals: Totals,
}

impl<I: InEnd, O: OutEnd> OwnLane<I, O> {
    /// Sweeps once, and adds what came of it. Packets stand in these rooms.
    pub(crate) fn sweep<W: Wait, C: Clock, G: Gate>(
        &mut self,
        rt: &W,
        turns: &Turns<Relay<I, O>>,
        media: &Media<'_, '_, C, G>,
        rooms: &mut Rooms,
    )
        requires { IsHandOf turns.now (hand_in self.old.lane) }
        ensures { Swept 1 (C.range media.now.clock.now) (G.passed media.now.gate.now) self.old self.new }
    {
        let _before = self.totals.taken;
        let more = self.lane.sweep(rt, turns, media, rooms);
        self.totals.add(more);
    }
}
