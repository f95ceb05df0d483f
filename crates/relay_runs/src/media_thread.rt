//! The threads of media of a run: each owns lanes, and sweeps those at whose pairs datagrams stand.
ghost use Rattle.std.specs.Prelude.{◌≡◌, ◌-◌, ◌^◌, ◌<◌, ℕ, length, min, slice_index_or};
ghost use Rattle.relay_runs.specs.Threads.{AreOfTable, Swept, Each, GoesOn, lanes_took};

use crate::halt::{HaltWord, Over};
use crate::lanes::OwnLane;
use crate::parallel_work::MediaWork;
use crate::rota::{Rota, WAIT_MILLIS};
use media_lane::{Media, Rooms};
use relay_core::{Happening, Part, Relay};
use relay_outside::{Clock, Gate, InEnd, LaneShare, OutEnd};
use std::sync::Wait;
use turn_table::{Machine, Turns};

/// How many hints a thread takes of the clock at once.
const MOST_HINTS: usize = 64;

/// How long a thread of media relays, before it sweeps each of its lanes once more.
#[derive(Clone, Copy)]
pub(crate) enum Until {
    /// Until the halt word is set.
    Halted,
    /// Until its lanes took so many datagrams, or the halt word is set.
    Taken(u64),
}

/// A thread of media: its lanes, and the rooms in which their packets stand.
#[derive(Drop)]
pub(crate) struct MediaThread<I: InEnd, O: OutEnd>
where
    Relay<I, O>: Machine<State = Part<I, O>, Event = Happening, Outcome = ()>,
{
    pub(crate) lanes: Vec<OwnLane<I, O>>,
    /// The thread's number, from 0.
    pub(crate) number: u32,
    /// Which lanes it has.
    pub(crate) share: LaneShare,
    pub(crate) until: Until,
    pub(crate) rooms: Rooms,
}

impl<I: InEnd, O: OutEnd> MediaThread<I, O> {
    /// Sweeps the lane at this place, where there is one.
    fn sweep_at<W: Wait, C: Clock, G: Gate>(
        &mut self,
        rt: &W,
        turns: &Turns<Relay<I, O>>,
        media: &Media<'_, '_, C, G>,
        at: usize,
    )
        requires { AreOfTable turns.now self.old.lanes.items }
        ensures each { Each (Swept 0 (C.range media.now.clock.now) (G.passed media.now.gate.now)) self.old.lanes.items self.new.lanes.items }
        ensures this { (d : _) → at < length self.old.lanes.items → Swept 1 (C.range media.now.clock.now) (G.passed media.now.gate.now) (slice_index_or self.old.lanes.items at d) (slice_index_or self.new.lanes.items at d) }
        ensures table { AreOfTable turns.now self.new.lanes.items }
    {
        if at < self.lanes.len() {
            self.lanes[at].sweep(rt, turns, media, &mut self.rooms);
        }
    }

    /// Sweeps each lane once.
    fn sweep_all<W: Wait, C: Clock, G: Gate>(
        &mut self,
        rt: &W,
        turns: &Turns<Relay<I, O>>,
        media: &Media<'_, '_, C, G>,
    )
        requires { AreOfTable turns.now self.old.lanes.items }
        ensures each { Each (Swept 1 (C.range media.now.clock.now) (G.passed media.now.gate.now)) self.old.lanes.items self.new.lanes.items }
        ensures table { AreOfTable turns.now self.new.lanes.items }
    {
        for at in 0..self.lanes.len() {
            self.sweep_at(rt, turns, media, at);
        }
    }

    /// Sweeps the lane that has this pair, where it is one of the thread's.
    fn sweep_pair<W: Wait, C: Clock, G: Gate>(
        &mut self,
        rt: &W,
        turns: &Turns<Relay<I, O>>,
        media: &Media<'_, '_, C, G>,
        pair: u32,
    )
        requires { AreOfTable turns.now self.old.lanes.items }
        ensures each { Each (Swept 0 (C.range media.now.clock.now) (G.passed media.now.gate.now)) self.old.lanes.items self.new.lanes.items }
        ensures table { AreOfTable turns.now self.new.lanes.items }
    {
        if let Some(lane) = self.share.lane_of(pair) {
            if self.share.thread_of(lane) == self.number {
                self.sweep_at(rt, turns, media, self.share.place_of(lane));
            }
        }
    }

    /// Sweeps so many lanes at which no hint points.
    fn sweep_next<W: Wait, C: Clock, G: Gate>(
        &mut self,
        rt: &W,
        turns: &Turns<Relay<I, O>>,
        media: &Media<'_, '_, C, G>,
        rota: &mut Rota,
        count: usize,
    )
        requires { AreOfTable turns.now self.old.lanes.items }
        ensures each { Each (Swept 0 (C.range media.now.clock.now) (G.passed media.now.gate.now)) self.old.lanes.items self.new.lanes.items }
        ensures table { AreOfTable turns.now self.new.lanes.items }
    {
        for _ in 0..count {
            let at = rota.turn(self.lanes.len());
            self.sweep_at(rt, turns, media, at);
        }
    }

    /// Sweeps the lanes at whose pairs the clock hints, and now and then the others, until the halt word is set. A hint is never trusted: it only
    /// says which lane comes next.
    fn relay_hinted<W: Wait, C: Clock, G: Gate, F: Over>(
        &mut self,
        rt: &W,
        turns: &Turns<Relay<I, O>>,
        media: &Media<'_, '_, C, G>,
        halt: &HaltWord<F>,
    )
        requires { AreOfTable turns.now self.old.lanes.items }
        ensures each { Each (Swept 0 (C.range media.now.clock.now) (G.passed media.now.gate.now)) self.old.lanes.items self.new.lanes.items }
        ensures table { AreOfTable turns.now self.new.lanes.items }
        ensures over { ∥ F.holds ∥₁ }
    {
        let mut pairs = [0; MOST_HINTS];
        let mut rota = Rota::from(media.clock.now());
        for _ in rt.forever() {
            if halt.is_set() {
                break;
            }
            let hints = media
                .clock
                .ready(self.number, WAIT_MILLIS, &mut pairs)
                .min(MOST_HINTS);
            for pair in &pairs[..hints] {
                self.sweep_pair(rt, turns, media, *pair);
            }
            let count = rota.count_due(media.clock.now(), hints, self.lanes.len());
            self.sweep_next(rt, turns, media, &mut rota, count);
        }
    }

    /// How many datagrams its lanes took.
    fn taken(&self) -> u64
        ensures { result ≡ min (lanes_took self.now.lanes.items) (2 ^ 64 - 1) }
    {
        let mut taken: u64 = 0;
        for own in &self.lanes {
            taken = taken.saturating_add(own.totals.taken);
        }
        taken
    }

    /// Sweeps all lanes again and again, until they took so many datagrams or the halt word is set. That they ever take so many is not promised.
    fn relay_due<W: Wait, C: Clock, G: Gate, F: Over>(
        &mut self,
        rt: &W,
        turns: &Turns<Relay<I, O>>,
        media: &Media<'_, '_, C, G>,
        halt: &HaltWord<F>,
        due: u64,
    )
        requires { AreOfTable turns.now self.old.lanes.items }
        ensures each { Each (Swept 0 (C.range media.now.clock.now) (G.passed media.now.gate.now)) self.old.lanes.items self.new.lanes.items }
        ensures table { AreOfTable turns.now self.new.lanes.items }
        ensures over { lanes_took self.new.lanes.items < due → ∥ F.holds ∥₁ }
    {
        for _ in rt.forever() {
            if self.taken() >= due || halt.is_set() {
                break;
            }
            self.sweep_all(rt, turns, media);
        }
    }
}

impl<I: InEnd, O: OutEnd, C: Clock, G: Gate> MediaWork<Turns<Relay<I, O>>, Media<'_, '_, C, G>>
    for MediaThread<I, O> {
    ghost can_work = { λ thread turns. AreOfTable turns thread.lanes.items };

    ghost goes_on = { λ old new. GoesOn old.until (lanes_took new.lanes.items) };

    ghost did = { λ turns media old new. Each (Swept 1 (C.range media.clock.now) (G.passed media.gate.now)) old.lanes.items new.lanes.items };

    fn work<W: Wait, F: Over>(
        &mut self,
        rt: &W,
        turns: &Turns<Relay<I, O>>,
        media: &Media<'_, '_, C, G>,
        halt: &HaltWord<F>,
    ) {
        match self.until {
            Until::Halted => self.relay_hinted(rt, turns, media, halt),
            Until::Taken(due) => self.relay_due(rt, turns, media, halt, due),
        }
        self.sweep_all(rt, turns, media);
    }
}
