/// The moments of the control loop, in milliseconds.
pub trait Timer {
    ghost use Rattle.std.specs.Prelude.{ℕ, Option, List};
    ghost use Rattle.relay_outside.specs.DeviceLogs.{Gains};

    /// The moments that were returned since the timer was made, where it logs them.
    ghost log: { Self → Option (List ℕ) };

    /// The moment of this call.
    fn now(&mut self) -> u64
        ensures { Gains (log self.old) (log self.new) result };
}

/// The moment that the lanes of media share, in milliseconds.
pub trait Clock {
    ghost use Rattle.std.specs.Prelude.{ℕ, ◌≤◌, Option};
    ghost use Rattle.relay_outside.specs.DeviceLogs.{WhereInRange};

    /// The least and the greatest moment of this clock, where it logs them.
    ghost range: { Self → Option (ℕ × ℕ) };

    /// A moment in the clock's range.
    fn now(&self) -> u64
        ensures { WhereInRange (range self.now) result };

    /// Waits until datagrams may stand at ports of a thread's pairs, for at most this many milliseconds, and writes the numbers of these
    /// pairs to the front of the buffer; returns how many they are. A pair may stand there twice, and a number may be no pair's. It is a
    /// hint and promises nothing: a clock that knows of no pair returns 0 at once.
    fn ready(&self, _thread: u32, _millis: u32, _pairs: &mut [u32]) -> usize {
        0
    }
}
