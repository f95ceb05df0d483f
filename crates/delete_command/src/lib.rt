//! A delete, carried out in the board's turn of its datagram: carries out the command and builds its reply.
//!
//! Module `command` finds the call and ends it. What its turn does is `Carries` of `board_turns`; `proofs/Missed.antt` shows it of
//! a delete that finds nothing to end, `proofs/Deleted.antt` of one that ends its call.
#![tactic(auto)]

mod command;

pub use command::delete;
