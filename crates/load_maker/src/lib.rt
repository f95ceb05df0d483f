//! Generated load: calls without callers, of which each byte follows from the numbers of the call and of the packet. `signals` gives
//! the bodies of the offer and the answer that make a call, and a `LoadMaker` makes ports in memory whose in ends give what the two
//! sides of each call send. Nothing is kept of what is sent to them. A `LoadLink` is a control link whose takes give the datagrams
//! of all calls, and `LoadPorts` is a `LoadMaker` that begins each call by itself.
//!
//! `specs/Calls.antt` says what each call signals, `specs/Datagrams.antt` in which datagrams, `specs/Packets.antt` what its sides send,
//! `specs/Ports.antt` which port gives whose packets, and `specs/Links.antt` what the control link tells.
#![tactic(auto)]

mod body;
mod commands;
mod datagrams;
mod ends;
mod link;
mod ports;
mod sdp;
mod stream;
mod text;
mod timer;
mod whole;

pub use body::signals;
pub use commands::Signals;
pub use ends::{LoadIn, LoadOut};
pub use link::LoadLink;
pub use ports::LoadMaker;
pub use timer::LoadTimer;
pub use whole::LoadPorts;
