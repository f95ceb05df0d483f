//! What the proofs know of a hand between two atomic steps. No value of these types is made.
use crate::cased::Slot;
use crate::machine::{Entry, Machine};
use atomic_table::TableRule;
use std::collections::LinkedList;
use std::marker::PhantomData;
use std::snapshot::Snapshot;

/// How far a hand's event at one place is. `S` is the state that was taken, but that in `Counted` is the one that was put.
pub enum Phase<S> {
    /// The hand has no event under way at the place.
    Nothing,
    /// The mark is set, and the slot is out.
    Marked(S),
    /// The count was read, and the slot is out.
    Out(u64, S),
    /// The caller has the state, and the slot is home and empty.
    Held(u64, S),
    /// The new state is home, and the count is raised.
    Counted(S),
}

/// What one hand knows.
pub struct View<S, E, O> {
    /// The states that the table began with, by place.
    pub starts: LinkedList<S>,
    /// The entries that the hand made, or that were joined into it.
    pub entries: LinkedList<Entry<E, O>>,
    /// Places with fronts that the hand has seen, the newest first.
    pub seen: LinkedList<(usize, u64)>,
    /// Places whose marks the hand has tried, each with the number found there, the newest first.
    pub tries: LinkedList<(usize, u64)>,
    /// How many of the 1,024 parts of the table it has.
    pub parts: u64,
    /// Whether it may make reserved events.
    pub main: bool,
    /// Places with the phase of the hand's event there, the newest first.
    pub turns: LinkedList<(usize, Phase<S>)>,
}

/// The rule that holds between any two steps: `specs/Invariant.antt`.
pub struct Rule<M> {
    of: PhantomData<M>,
}

impl<M: Machine> TableRule<
    Slot<M::State>,
    View<M::State, M::Event, M::Outcome>,
    Snapshot<Vec<M::State>>,
> for Rule<M> {
    ghost use Rattle.turn_table.specs.Invariant.{Kept, first_view};

    ghost holds = { λ key. Kept M.relates M.reserved key.value.items };

    ghost first = { λ key. first_view key.value.items };
}
