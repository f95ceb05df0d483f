//! The frame of a datagram of the ng control protocol: a cookie, a space, a body.
//! `split` takes a datagram apart, `join` puts one together, and `one_frame` says that no datagram
//! can be taken apart in two ways. `specs/Frame.antt` has the definition.
#![tactic(auto)]

mod frame;

pub use frame::{join, one_frame, split};
