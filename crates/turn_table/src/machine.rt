//! What a user of the table says of its places: what they hold, and which steps its events are.

/// What the places of a table hold, and what the events do to it.
///
/// An event and its outcome are known to contracts alone: no value of either is ever made.
pub trait Machine {
    /// What each place holds.
    type State;
    /// What happens at a place.
    type Event;
    /// What came of it.
    type Outcome;

    // From the state taken, by this event with this outcome, to the state put back.
    ghost relates: { Self.State → Self.Event → Self.Outcome → Self.State → Type 0 };

    // The events that the main hand alone may make.
    ghost reserved: { Self.Event → Type 0 };
}

/// The event and the outcome that a `put` records.
///
/// They are known to contracts alone. The crate of the machine has the types that implement it.
pub trait Said<M: Machine> {
    ghost event: { M.Event };

    ghost outcome: { M.Outcome };
}

/// One event of one place. No value of it is made: contracts speak of lists of them.
pub struct Entry<E, O> {
    /// The place at which it happened.
    pub place: usize,
    /// How many events of the place were before it.
    pub number: u64,
    pub event: E,
    pub outcome: O,
}
