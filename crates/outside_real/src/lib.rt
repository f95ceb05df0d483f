//! The devices of a running program, behind the traits of `relay_outside`: UDP sockets, the system's clock,
//! keys from a ChaCha20 stream, standard input and output.
//! Sockets, clock and streams are the trusted edge: each is a few lines, counts its faults and tells nothing
//! of what it takes and gives; the ends of a port tell the address that they were opened for. Which sockets are
//! readable is a hint, on which nothing rests. It is proved which bytes of the seed's stream each key is, and which
//! lines a stream of known bytes gives.
#![tactic(auto)]

mod address;
mod clocks;
mod errors;
mod faults;
mod keys;
mod lines;
mod link;
mod ports;
mod readiness;
mod seed;
mod sink;
mod sockets;
mod stop;

pub use address::{addr_of, socket_addr};
pub use clocks::{ClockStart, SystemClock, SystemTimer};
pub use errors::passes_by_itself;
pub use keys::ChaChaKeys;
pub use lines::StdLines;
pub use link::{LinkFault, UdpLink};
pub use ports::{UdpIn, UdpMaker, UdpOut};
pub use readiness::Readiness;
pub use seed::read_seed;
pub use sink::StdSink;
pub use stop::StopPipe;
