//! What follows from the contracts for a user of the table.
ghost use Rattle.turn_table.specs.Places.{OwnPartIsHistory};

use crate::machine::Machine;

/// Theorem (no run-time code): where a hand's list has all entries of a place, in the order of their numbers, the place's history is the list's own part.
///
/// So the main hand knows the whole history of a place of which each event is reserved.
pub fn own_part_is_history<M: Machine>()
    ensures { OwnPartIsHistory M.Event M.Outcome }
{}
