//! A query and a list, carried out in the board's turn of their datagram: what is asked is read, and the reply is made of it.
//!
//! Module `query_command` finds a call, reads its cell and tells of it; what its turn does is `Carries` of `board_turns`, and
//! `proofs/Queried.antt` shows it. `list_command` tells of the live calls, and reads nothing but the board.
#![tactic(auto)]

mod list_command;
mod query_command;

pub use list_command::list;
pub use query_command::query;
