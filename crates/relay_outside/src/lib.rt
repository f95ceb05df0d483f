//! The outside of the relay, as traits: sockets, ports, keys, time and lines.
//! Each trait says what its calls mean by a list of what was called and returned, and by a count of
//! faults.
//! Nothing here opens a socket: `outside_real` has the devices that do.
#![tactic(auto)]

mod address;
mod answers;
mod calls;
mod clocks;
mod failures;
mod gates;
mod keys;
mod lanes;
mod lines;
mod link;
mod memory;
mod ports;
mod settings;

pub use address::{Addr, Family, Ip};
pub use answers::{Failed, LineRead, OutOfMemory, Taken};
pub use calls::{CallList, Copied};
pub use clocks::{Clock, Timer};
pub use failures::Failing;
pub use gates::Gate;
pub use keys::{KeyAndSalt, KeyCall, KeySource};
pub use lanes::LaneShare;
pub use lines::{LineCall, LineGiven, LineSink, LineSource, WriteCall};
pub use link::{ControlLink, LinkCall, LinkGiven};
pub use memory::clock::{HandClock, HandTimer};
pub use memory::failing_ports::{MemoryIn, MemoryMaker, MemoryOut, MemoryPort};
pub use memory::gate::OpenGate;
pub use memory::keys::{KeyList, SteadyKeys};
pub use memory::lines::{MemoryLines, SteadyLines};
pub use memory::link::{LinkGift, MemoryLink, SteadyLink, datagram_call, last_sent_of, send_call};
pub use memory::ports::{Arrivals, Packet, SteadyIn, SteadyMaker, SteadyOut};
pub use memory::sink::{MemorySink, SteadySink};
pub use ports::{InCall, InEnd, InGiven, OutCall, OutEnd, PortCall, PortMaker};
pub use settings::{Config, Flags};
