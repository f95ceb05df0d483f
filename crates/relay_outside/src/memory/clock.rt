ghost use Rattle.std.specs.Prelude.{◌≡◌, ◌↔◌, ℕ, List, Some, [], IsTrue, IsSome};
ghost use Rattle.relay_outside.specs.DeviceLogs.{Gains, WhereInRange};

use crate::calls::CallList;
use crate::clocks::{Clock, Timer};
use std::alloc::Global;
use std::marker::Model;

/// A timer in memory: it gives the moments of its list in order and then the last one again, or 0 where
/// the list is empty.
#[derive(Drop)]
pub struct HandTimer {
    log: CallList<u64>,
    moments: Vec<u64>,
    next: usize,
}

impl Model for HandTimer {
    ghost use Rattle.std.specs.Prelude.{ℕ, ◌-◌, ◌≤◌, length, drop};
    ghost use Rattle.relay_outside.specs.Clocks.{TimerTape};

    ghost Value = { TimerTape };

    ghost view = { λ timer. record { log = timer.log; moments = drop timer.next timer.moments.items } };

    ghost invariant = { λ timer. timer.next ≤ length timer.moments.items - 1 };
}

impl HandTimer {
    /// A timer that gives these moments.
    pub fn new(alloc: Global, moments: Vec<u64>) -> HandTimer
        ensures { result ≡ record { log = Some []; moments = moments.items } }
    {
        HandTimer {
            log: CallList::new(alloc),
            moments,
            next: 0,
        }
    }

    /// Whether the timer still keeps its log.
    pub fn tells(&self) -> bool
        ensures { IsTrue result ↔ IsSome self.now.log }
    {
        self.log.tells()
    }
}

impl Timer for HandTimer {
    ghost use Rattle.std.specs.Prelude.{◌≡◌};
    ghost use Rattle.relay_outside.specs.DeviceLogs.{Gains};
    ghost use Rattle.relay_outside.specs.Clocks.{next_moment, moments_left};

    ghost log = { λ timer. timer.log };

    fn now(&mut self) -> u64
        ensures log { Gains self.old.log self.new.log result }
        ensures moment { result ≡ next_moment self.old.moments }
        ensures left { self.new.moments ≡ moments_left self.old.moments }
    {
        let moment = match self.moments.get(self.next) {
            Some(moment) => *moment,
            None => 0,
        };
        if self.next + 1 < self.moments.len() {
            self.next += 1;
        }
        self.log.note(Some(moment));
        moment
    }
}

/// A clock in memory that stands at one moment.
#[derive(Drop)]
pub struct HandClock {
    moment: u64,
}

impl Model for HandClock {
    ghost use Rattle.std.specs.Prelude.{ℕ};

    ghost Value = { ℕ };

    ghost view = { λ clock. clock.moment };
}

impl HandClock {
    /// A clock that stands at this moment.
    pub fn new(moment: u64) -> HandClock
        ensures { result ≡ moment }
    {
        HandClock { moment }
    }
}

impl Clock for HandClock {
    ghost use Rattle.std.specs.Prelude.{◌≡◌, Some};
    ghost use Rattle.relay_outside.specs.DeviceLogs.{WhereInRange};

    ghost range = { λ clock. Some (clock, clock) };

    fn now(&self) -> u64
        ensures range { WhereInRange (Some (self.now, self.now)) result }
        ensures moment { result ≡ self.now }
    {
        self.moment
    }
}
