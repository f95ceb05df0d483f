//! When the lanes of a thread are swept at which no hint points.

/// How long a thread of media waits for a hint at most, in milliseconds.
pub(crate) const WAIT_MILLIS: u32 = 1_000;

/// In which time each lane is swept once without a hint, in milliseconds.
const ROUND_MILLIS: u64 = 10_000;

/// Which lanes come next without a hint: one after the other, each about every ten seconds.
#[derive(Clone, Copy)]
pub(crate) struct Rota {
    /// When the thread last came back from a wait.
    woken: u64,
    /// Since when no lane came.
    since: u64,
    /// The next one.
    next: usize,
}

impl Rota {
    /// From this moment on, beginning with the first lane.
    pub(crate) fn from(now: u64) -> Rota {
        Rota {
            woken: now,
            since: now,
            next: 0,
        }
    }

    /// How many of so many lanes are due at this moment, after a wait that gave this many hints. All are, where it gave none although its
    /// time was not nearly up: then the clock knows of no pair, or not of all.
    pub(crate) fn count_due(&mut self, now: u64, hints: usize, lanes: usize) -> usize {
        let waited = now.saturating_sub(self.woken);
        self.woken = now;
        if hints == 0 && waited < u64::from(WAIT_MILLIS / 2) {
            return lanes;
        }
        let due = now.saturating_sub(self.since).saturating_mul(lanes as u64) / ROUND_MILLIS;
        if due == 0 {
            return 0;
        }
        self.since = now;
        lanes.min(due as usize)
    }

    /// The place of the next one of so many lanes.
    pub(crate) fn turn(&mut self, lanes: usize) -> usize {
        let at = self.next;
        self.next = if at.saturating_add(1) < lanes {
            at + 1
        } else {
            0
        };
        at
    }
}
