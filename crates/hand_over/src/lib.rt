//! The hand-over of a node's calls to a second node, so far its first step: the ports of all legs are closed.
//!
//! `closing` closes them, leg by leg; `calls` and `places` have the live calls and what the places of a relay hold, `addresses` which pair a port is of.
//! `specs/Closings.antt` says which all_closings the port maker is given, `specs/Homes.antt` which addresses are open before and none of which is after.
#![tactic(auto)]

mod addresses;
mod calls;
mod closing;
mod places;

pub use closing::close_ports;
