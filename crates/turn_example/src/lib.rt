//! An example of a machine over the turn table, as a relay would have it: a board at place 0, and boxes at the others, whose ends are of any type.
//!
//! The main hand opens boxes while it has the board's turn. Any hand takes from a box, under the turn of that box alone.
//! It shows how an event with data of the run is put, and what a caller proves of it.
//!
//! - `machine`: the parts, the events and the relation between them.
//! - `puts`: one way to put a turn for each kind of event.
//! - `boxes`: opening a box, and taking from it.
#![tactic(auto)]

mod boxes;
mod machine;
mod puts;

pub use boxes::{open_box, try_take};
pub use machine::{End, Event, Outcome, Part, Relay};
