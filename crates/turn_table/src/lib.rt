//! A table of numbered places, each with a state that changes only under the turn of its own place, won by one compare-exchange.
//!
//! Threads share the table and make turns with hands. Contracts see which events each hand made, that the state which
//! a turn gives is what its place's events before it leave, and, at the close, the whole history of each place.
//! What the states are and which steps its events are is said by a [`Machine`]; the table knows nothing else of them.
//!
//! - `machine`: what a user of the table says of its places.
//! - `hands`: the table, the hands and a turn.
//! - `steps`, `wait`, `turn`: a turn is taken, changed and put back.
//! - `life`: a table begins and ends, and hands are split and joined.
//! - `view`, `plays`: what the proofs know between two atomic steps. The rule that then holds is `specs/Invariant.antt`.
//! - `layout`: where the places lie, so that those of one thread lie side by side.
//! - `cased`, `room`: how the states are kept, so that a turn moves one word, and the close takes no memory.
//! - `threads`: that tables may be shared, and hands moved, among threads.
//! - `laws`: what follows for a user of the table.
#![tactic(auto)]

mod cased;
mod hands;
mod laws;
mod layout;
mod life;
mod machine;
mod plays;
mod room;
mod steps;
mod threads;
mod turn;
mod view;
mod wait;

pub use hands::{Busy, Hand, OutOfMemory, Turn, Turns};
pub use laws::own_part_is_history;
pub use machine::{Machine, Said};
