//! An answer, carried out in the board's turn of its datagram, from its description to its reply.
//!
//! Module `command` reads the description, has the board plan the answer, makes all memory that it needs before anything is
//! changed (`room`), and has the plan carried out. `act` commits in the call's cell what the answer says of its legs, takes the answer
//! into the board, and closes the legs of the sections that it rejects; `description` writes the description for the offerer by the plan.
//!
//! `specs/Commands.antt` says what the command asks, `specs/Due.antt` which entry of the board the answer is.
#![tactic(auto)]

mod act;
mod command;
mod description;
mod room;

pub use command::answer;
