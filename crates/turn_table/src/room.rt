//! Where a table keeps an empty vector with room for its states, so that closing it takes no memory.
//! Nothing is written there before the close: until then the system need give no pages for it.
//! The vector lies in a table of its own, of one slot and no word, on which no thread steps: so it can be shared among threads whatever the states are.
ghost use Rattle.std.specs.Prelude.{◌≡◌, ◌≤◌, [], vec_len, vec_capacity, IfOk};

use atomic_table::{Refused, Table, TableRule};
use std::alloc::{AllocError, Global};

/// The vector is home, empty, and has room for as many items as the key says.
pub(crate) struct Roomy;

impl<S> TableRule<Vec<S>, (), usize> for Roomy {
    ghost use Rattle.turn_table.specs.Room.{HasRoom};

    ghost holds = { HasRoom };

    ghost first = { λ _. tt };
}

/// An empty vector with room for the states.
pub(crate) struct Room<S> {
    pub(crate) table: Table<Vec<S>, (), usize, Roomy, Global>,
    ghost one: { table.shared.table_id.slots ≡ 1 },
}

impl<S> Room<S> {
    /// Room for this many states.
    pub(crate) fn new(alloc: Global, places: usize) -> Result<Room<S>, AllocError>
        ensures { IfOk result (λ r. r.table.shared.key ≡ places) }
    {
        let empty = Vec::with_capacity(alloc, places)?;
        let mut slots = Vec::new(alloc);
        if let Err(failed) = slots.push(empty) {
            failed.value.destroy_empty();
            slots.destroy_empty();
            return Err(AllocError);
        }
        match Table::new(alloc, &[], slots, &places) {
            Ok((table, _seat)) => Ok(Room { table }),
            Err(Refused { mut slots }) => {
                slots.take_last().destroy_empty();
                slots.destroy_empty();
                Err(AllocError)
            }
        }
    }

    /// Gives the vector back.
    pub(crate) fn take(self) -> Vec<S>
        ensures empty { result.items ≡ [] }
        ensures room { self.table.shared.key ≤ vec_capacity result }
    {
        let Room { table } = self;
        let mut closed = table.close();
        let empty = closed.take(0);
        closed.free();
        empty
    }
}
