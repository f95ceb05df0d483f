ghost use Rattle.std.specs.Prelude.{◌≡◌, ◌≤◌};
ghost use Rattle.relay_outside.specs.DeviceLogs.{Rose};
ghost use Rattle.relay_outside.specs.Failures.{next_count};

use relay_outside::Failed;
use std::marker::Model;

/// A device's count of faults. It stands still at 2^64 - 1.
#[derive(Drop)]
pub(crate) struct Faults {
    count: u64,
}

impl Model for Faults {
    ghost use Rattle.std.specs.Prelude.{ℕ};

    ghost Value = { ℕ };

    ghost view = { λ faults. faults.count };
}

impl Faults {
    /// The count of a device that met no fault yet.
    pub(crate) fn new() -> Faults
        ensures { result ≡ 0 }
    {
        Faults { count: 0 }
    }

    /// Counts a fault, and returns the error for it.
    pub(crate) fn count(&mut self) -> Failed
        ensures counted { self.new ≡ next_count self.old }
        ensures rose { Rose self.old self.new }
        ensures later { self.old ≤ self.new }
    {
        self.count = self.count.saturating_add(1);
        Failed
    }
}
