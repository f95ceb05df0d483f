//! The table, the hands that step on it, and a turn.
ghost use Rattle.std.specs.Prelude.{◌≡◌, ◌*◌, ◌^◌, ◌<◌, ◌≤◌, [], length};
ghost use Rattle.turn_table.specs.Layout.{column_rows};

use crate::cased::{Cased, Slot};
use crate::machine::Machine;
use crate::room::Room;
use crate::view::{Rule, View};
use atomic_table::{Refused, Seat, Table};
use std::alloc::{AllocError, Global};
use std::snapshot::Snapshot;

/// Numbered places, each with a state that changes only under its place's own turn.
///
/// Threads share it by reference. It has to be closed, by the hand that has all parts.
pub struct Turns<M: Machine> {
    pub(crate) table: Table<
        Slot<M::State>,
        View<M::State, M::Event, M::Outcome>,
        Snapshot<Vec<M::State>>,
        Rule<M>,
        Global,
    >,
    pub(crate) room: Room<M::State>,
    /// How many places there are.
    pub(crate) places: usize,
    /// How many spots each of the 960 columns has.
    pub(crate) rows: usize,
    ghost wide: { table.shared.table_id.words ≡ 4 * table.shared.table_id.slots },
    ghost deep: { table.shared.table_id.slots ≡ 960 * rows },
    ghost few: { (0 < rows) × (rows ≤ 2 ^ 50) },
    ghost counts: { (places ≡ length table.shared.key.value.items) × (rows ≡ column_rows places) },
    ghost roomy: { places ≤ room.table.shared.key },
}

/// What a thread makes its turns with. It is moved, never copied.
///
/// Contracts see in it the table's start states, the list of the entries that it made, what it has seen of each
/// front, which places' marks it tried and what it found there, its number of the table's 1,024 parts, and whether it is
/// the main hand.
/// A hand that is dropped keeps its parts, so that its table can't be closed any more.
pub struct Hand<M: Machine> {
    pub(crate) seat: Seat<Slot<M::State>, View<M::State, M::Event, M::Outcome>>,
    ghost empty: { seat.me.1 ≡ [] },
    ghost live: { 0 < seat.me.0.parts },
    ghost long: { seat.table_id.slots ≡ 960 * column_rows (length seat.me.0.starts) },
}

/// The right to change the state of one place, which no other hand has meanwhile. It has to be put back.
pub struct Turn<M: Machine> {
    pub(crate) state: Cased<M::State>,
    pub(crate) taken: Snapshot<M::State>,
    pub(crate) place: usize,
    pub(crate) front: u64,
}

/// The turn was another hand's, or the place's numbers are spent.
#[derive(Clone, Copy, Debug, PartialEq, Eq)]
pub struct Busy {
    /// The place's front, as it was seen just after. It is at most 2^56. Where the mark was taken, the other hand may have raised it in between.
    pub front: u64,
}

/// There was no memory for a table.
#[derive(Clone, Copy, Debug, PartialEq, Eq)]
pub struct OutOfMemory;

impl From<AllocError> for OutOfMemory {
    fn from(_refused: AllocError) -> OutOfMemory {
        OutOfMemory
    }
}

impl<S: Drop> From<Refused<S, Global>> for OutOfMemory {
    fn from(_refused: Refused<S, Global>) -> OutOfMemory {
        OutOfMemory
    }
}

impl<M: Machine> Hand<M> {
    pub(crate) fn into_seat(self) -> Seat<Slot<M::State>, View<M::State, M::Event, M::Outcome>>
        ensures { result ≡ self.seat }
    {
        let Hand { seat } = self;
        seat
    }
}

impl<M: Machine> Drop for Hand<M> {
    fn drop(self) {
        let Self { seat: _ } = self;
    }
}
