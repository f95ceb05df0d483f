ghost use Rattle.std.specs.Prelude.{◌≡◌, ◌==◌, ℕ, ◌≤◌, if◌then◌else◌, IsTrue};
ghost use Rattle.relay_outside.specs.Failures.{next_count, next_fails, after_call, after_fault};
ghost use Rattle.relay_outside.specs.DeviceLogs.{Rose};
ghost use Rattle.std.specs.List.{list_any};

use std::marker::Model;

/// Which calls of a device in memory are to fail, by their number from 1, and its count of faults.
#[derive(Drop)]
pub struct Failing {
    numbers: Vec<u64>,
    calls: u64,
    faults: u64,
}

impl Model for Failing {
    ghost use Rattle.relay_outside.specs.Failures.{Failures};

    ghost Value = { Failures };

    ghost view = { λ failing. record { numbers = failing.numbers.items; calls = failing.calls; faults = failing.faults } };
}

impl Failing {
    /// A device whose calls with these numbers fail; the first call has number 1.
    pub fn new(numbers: Vec<u64>) -> Failing
        ensures { result ≡ record { numbers = numbers.items; calls = 0; faults = 0 } }
    {
        Failing {
            numbers,
            calls: 0,
            faults: 0,
        }
    }

    /// Counts a call, and says whether it fails; then the count of faults rises.
    pub fn fails(&mut self) -> bool
        ensures answer { result ≡ next_fails self.old }
        ensures counted { self.new ≡ after_call self.old }
        ensures later { self.old.faults ≤ self.new.faults }
        ensures cause { IsTrue result → Rose self.old.faults self.new.faults }
    {
        self.calls = self.calls.saturating_add(1);
        let fails = contains(self.numbers.as_slice(), self.calls);
        self.faults = raised_if(fails, self.faults);
        fails
    }

    /// The call that was just counted fails for a cause of its own: the count of faults rises.
    pub fn fault(&mut self)
        ensures counted { self.new ≡ after_fault self.old }
        ensures later { self.old.faults ≤ self.new.faults }
        ensures cause { Rose self.old.faults self.new.faults }
    {
        self.faults = self.faults.saturating_add(1);
    }

    /// The numbers of the calls that fail.
    pub(crate) fn into_numbers(self) -> Vec<u64>
        ensures { result.items ≡ self.numbers }
    {
        let Failing {
            numbers,
            calls: _,
            faults: _,
        } = self;
        numbers
    }
}

/// Whether the number stands in the list.
fn contains(numbers: &[u64], number: u64) -> bool
    ensures { result ≡ list_any (λ n. n == number) numbers.now }
{
    numbers.iter().any(|n| *n == number)
}

/// One more where the call failed, up to the end of the type.
fn raised_if(failed: bool, count: u64) -> u64
    ensures { result ≡ if failed then next_count count else count }
{
    if failed {
        count.saturating_add(1)
    } else {
        count
    }
}
