//! The messages of the control protocol: what a datagram asks, read once, and the datagrams of its replies.
//!
//! Module `request` has the request, `body` reads the dictionary of its body, in bencode or JSON, with the command that this says,
//! `description` the lines of its description; where there is none, they tell the error of its reply. `specs/Bodies.antt` says what a
//! `Body` shows of the body; what a body says and asks is defined in the specs of `call_board` (`Dialects`, `Requests`).
//!
//! A reply's datagram is a cookie, a space, a reply: `reply_datagram` of `call_board`'s `specs/Replies.antt`. Module `short` makes
//! the datagrams of replies that carry no description, that of any value among them. `room` takes the memory for a reply before it is
//! known which one it is, and writes one into it without taking any; `specs/Rooms.antt` says what room for a reply is.
#![tactic(auto)]

mod body;
mod description;
mod request;
mod room;
mod short;

pub use body::{Body, read_body};
pub use description::{DescriptionFault, read_description};
pub use request::{Request, is_json};
pub use room::{reply_room, write_described, write_error};
pub use short::{
    done_datagram, error_datagram, error_into, pong_datagram, value_datagram, warned_datagram,
};
