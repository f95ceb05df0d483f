//! Reads a session description (RFC 8866): its lines, and its sections with their addresses and ports.
//! A description that this proxy can't serve is refused with the first cause and the line at fault.
//! Addresses of IPv4 and IPv6 are read from text and written as text here, for every crate that needs it.
#![tactic(auto)]

mod bytes;
mod fault;
mod group;
mod host;
mod law;
mod line;
mod part;
mod piece;
mod proto;
mod role;
mod sdp;
mod section;
mod summary;
mod written;

pub use bytes::{Bytes, OutOfMemory};
pub use fault::SdpFault;
pub use host::{Host, read_host, read_ipv4, read_ipv6};
pub use law::{first_fault_is_first, first_v6_is_first};
pub use part::MOST_SECTIONS;
pub use piece::read_number_up_to;
pub use proto::Proto;
pub use sdp::{Sdp, read};
pub use section::Section;
pub use written::{HostText, host_text};
