//! The server of the ng control protocol over the table of the relay's turns: a `Server` takes datagrams from the control link
//! and replies to each in one turn of the board, ends the calls that are due at a tick and all calls at a stop, and closes the table.
//!
//! Module `server` has the server and its calls, `desk` the memory of a control turn, `law` what follows for errors. `specs/Servers.antt` says what is known of
//! a server and its main hand between two calls.
//!
//! `Server::control_turn` makes one take from the link and says how it ended (`control_turn`). For a datagram with a frame `datagram` takes the board's turn, and ends
//! it with the board's entry (`board_entry`). In between, `request` looks for a kept reply and has the command read and carried out (`command`);
//! `reply` and `sent_reply` send its reply and keep it. `turn_record` has what the board's entry records besides the datagram.
//! `specs/Requests.antt` says what the turn does, `specs/Datagrams.antt` what a datagram adds to the hand's list and to the link's,
//! `specs/ControlTurns.antt` the same of a control turn.
#![tactic(auto)]

mod board_entry;
mod command;
mod control_turn;
mod datagram;
mod desk;
mod law;
mod reply;
mod request;
mod sent_reply;
mod server;
mod turn_record;

pub use control_turn::ControlTurn;
pub use desk::{DATAGRAM_ROOM, Desk};
pub use law::errors_change_nothing;
pub use server::Server;
