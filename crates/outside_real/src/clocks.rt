ghost use Rattle.std.specs.Duration.{as_nanos};
ghost use Rattle.std.specs.Prelude.{◌≡◌, ◌+◌, ◌-◌, ◌/◌, ◌^◌, ◌≤◌, min};

use crate::readiness::Readiness;
use relay_outside::{Clock, Timer};
use std::rt;
use std::time::{Duration, Instant, SystemTime, UNIX_EPOCH};

/// The whole milliseconds of a span, at most 2^64 - 1.
fn millis_of(span: Duration) -> u64
    ensures { result ≡ min (as_nanos span / 1000000) (2 ^ 64 - 1) }
{
    u64::try_from(span.as_millis()).unwrap_or(u64::MAX)
}

/// The moment that comes this long after a first one, at most 2^64 - 1.
fn moment_after(first: u64, gone: Duration) -> u64
    ensures { result ≡ min (first + as_nanos gone / 1000000) (2 ^ 64 - 1) }
{
    first.saturating_add(millis_of(gone))
}

/// What the system's clocks showed when a process began. Its moments count from here: they are milliseconds since 1970 by the wall clock at the
/// start, and from then on by the monotonic clock. So a process that goes on with another's state goes on with its moments too.
///
/// The wall clock is read once. Where it is set afterwards, nothing changes in a process that runs. One that begins after it was set back
/// sees moments below those of the process before it; the last ones of that process then stand still until it has caught up, and so do timeouts. One
/// that begins after it was set forward finds that time gone by at once, and ends calls early.
#[derive(Clone, Copy)]
pub struct ClockStart {
    /// The wall clock in milliseconds since 1970; 0 where it can't be read, as before 1970.
    wall: u64,
    /// The monotonic clock; none where it can't be read.
    steady: Option<Instant>,
}

impl ClockStart {
    /// What the clocks show now.
    pub fn read(clock: &impl rt::Clock) -> ClockStart {
        ClockStart {
            wall: wall_millis(clock),
            steady: Instant::now(clock).ok(),
        }
    }

    /// The moment now; that of the start where the monotonic clock can't be read.
    fn moment(&self, clock: &impl rt::Clock) -> u64
        ensures { self.now.wall ≤ result }
    {
        let Some(steady) = self.steady else {
            return self.wall;
        };
        match steady.elapsed(clock) {
            Ok(gone) => moment_after(self.wall, gone),
            Err(_) => self.wall,
        }
    }
}

/// The wall clock in milliseconds since 1970; 0 where it can't be read.
fn wall_millis(clock: &impl rt::Clock) -> u64 {
    let Ok(time) = SystemTime::now(clock) else {
        return 0;
    };
    match time.duration_since(UNIX_EPOCH) {
        Ok(since) => millis_of(since),
        Err(_) => 0,
    }
}

/// The system's clock as a timer, in milliseconds since 1970 as `ClockStart` counts them. It tells nothing.
#[derive(Drop)]
pub struct SystemTimer<'a, R: rt::Clock> {
    clock: &'a R,
    start: ClockStart,
}

impl<'a, R: rt::Clock> SystemTimer<'a, R> {
    /// A timer that counts from this start.
    pub fn new(clock: &'a R, start: ClockStart) -> SystemTimer<'a, R> {
        SystemTimer { clock, start }
    }
}

impl<'a, R: rt::Clock> Timer for SystemTimer<'a, R> {
    ghost use Rattle.std.specs.Prelude.{None};

    ghost log = { λ timer. None };

    fn now(&mut self) -> u64 {
        self.start.moment(self.clock)
    }
}

/// The system's clock, in milliseconds since 1970 as `ClockStart` counts them. It tells no range.
///
/// Its hints of pairs are the system's, as `Readiness` gives them.
#[derive(Drop)]
pub struct SystemClock<'a, R: rt::Clock> {
    clock: &'a R,
    readiness: &'a Readiness,
    start: ClockStart,
}

impl<'a, R: rt::Clock> SystemClock<'a, R> {
    /// A clock that counts from this start, with hints of the sockets that are watched there.
    pub fn new(clock: &'a R, readiness: &'a Readiness, start: ClockStart) -> SystemClock<'a, R> {
        SystemClock {
            clock,
            readiness,
            start,
        }
    }
}

impl<'a, R: rt::Clock> Clock for SystemClock<'a, R> {
    ghost use Rattle.std.specs.Prelude.{None};

    ghost range = { λ clock. None };

    fn now(&self) -> u64 {
        self.start.moment(self.clock)
    }

    /// At most 64 pairs; the control socket, and the pipe's end, which wakes each thread, have the number `u32::MAX`. Where the system
    /// can't tell of all the thread's sockets, this returns 0 before the time is up, after 2 ms at most.
    fn ready(&self, thread: u32, millis: u32, pairs: &mut [u32]) -> usize {
        let count = self.readiness.wait(self.clock, thread, millis, pairs);
        self.readiness.note_moment(thread, self.now());
        count
    }
}
