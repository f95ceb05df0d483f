//! The timer of a load.
ghost use Rattle.std.specs.Prelude.{◌≡◌, ◌↔◌, Some, [], IsTrue, IsSome};
ghost use Rattle.relay_outside.specs.DeviceLogs.{Gains};
ghost use Rattle.load_maker.specs.Moments.{AreZero};

use relay_outside::{CallList, Timer};
use std::alloc::Global;
use std::marker::Model;

/// The timer of a load, which stands at 0.
#[derive(Drop)]
pub struct LoadTimer {
    log: CallList<u64>,
}

impl Model for LoadTimer {
    ghost use Rattle.std.specs.Prelude.{ℕ, Option, List};
    ghost use Rattle.load_maker.specs.Moments.{AreZero};

    ghost Value = { Option (List ℕ) };

    ghost view = { λ timer. timer.log };

    ghost invariant = { λ timer. AreZero timer.log };
}

impl LoadTimer {
    /// A timer that was not asked yet.
    pub fn new(alloc: Global) -> LoadTimer
        ensures { result ≡ Some [] }
    {
        LoadTimer {
            log: CallList::new(alloc),
        }
    }

    /// Whether the timer still tells its list.
    pub fn tells(&self) -> bool
        ensures tells { IsTrue result ↔ IsSome self.now }
        ensures zero { AreZero self.now }
    {
        self.log.tells()
    }
}

impl Timer for LoadTimer {
    ghost use Rattle.std.specs.Prelude.{◌≡◌};
    ghost use Rattle.relay_outside.specs.DeviceLogs.{Gains};

    ghost log = { λ timer. timer };

    fn now(&mut self) -> u64
        ensures log { Gains self.old self.new result }
        ensures zero { result ≡ 0 }
    {
        self.log.note(Some(0));
        0
    }
}
