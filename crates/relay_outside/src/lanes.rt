//! Which threads have which lanes of media, and with them which pairs of ports.
ghost use Rattle.std.specs.Prelude.{◌≡◌, ◌%◌, min, max, MatchOption};

/// At most so many lanes: with the main hand they are fewer than the 1,024 parts of a turn table, and most numbers of threads divide it.
const MOST_LANES: u32 = 960;

/// How lanes of media are shared out to threads. A lane has the port pairs whose number is its own modulo the number of lanes. Neighbouring
/// lanes are handed out together, the first of them to the first thread, the next ones to the next thread, and so on in turn.
#[derive(Clone, Copy, PartialEq, Eq, Debug)]
pub struct LaneShare {
    /// How many threads there are; none counts as one.
    pub threads: u32,
    /// How many lanes they have in all.
    pub lanes: u32,
    /// How many neighbouring lanes are handed out together; none counts as one.
    pub together: u32,
}

impl LaneShare {
    /// The lanes of so many pairs: a lane for each, up to 960. They are handed out two by two, so that both pairs of a call with one section
    /// are one thread's.
    pub fn of_pairs(threads: u32, pairs: u32) -> LaneShare
        ensures { (result.threads ≡ threads) × (result.lanes ≡ min pairs 960) }
    {
        LaneShare {
            threads,
            lanes: pairs.min(MOST_LANES),
            together: 2,
        }
    }

    /// A lane for each thread.
    pub fn one_each(threads: u32) -> LaneShare
        ensures { (result.threads ≡ threads) × (result.lanes ≡ threads) }
    {
        LaneShare {
            threads,
            lanes: threads,
            together: 1,
        }
    }

    /// The lane that has this pair; `None` where there is no lane.
    pub fn lane_of(self, pair: u32) -> Option<u32>
        ensures { MatchOption result (self.lanes ≡ 0) (λ lane. lane ≡ pair % self.lanes) }
    {
        pair.checked_rem(self.lanes)
    }

    /// The thread that has this lane, from 0.
    pub fn thread_of(self, lane: u32) -> u32 {
        lane / self.together.max(1) % self.threads.max(1)
    }

    /// At which place among the lanes of its thread this lane stands, from 0.
    pub fn place_of(self, lane: u32) -> usize {
        let together = self.together.max(1);
        let before = lane / together / self.threads.max(1);
        (before as usize)
            .saturating_mul(together as usize)
            .saturating_add((lane % together) as usize)
    }
}
