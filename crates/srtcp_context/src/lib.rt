//! SRTCP (RFC 3711 section 3.4): the cryptographic state of a stream of RTCP packets under one master key. An `InRtcp`
//! checks and opens received packets, an `OutRtcp` protects packets that are to be sent, counting from 0 for each source;
//! each keeps at most 32 sources, and stands for the plain list of the packets that it took or sent. A context is saved as
//! bytes, and what is loaded from them goes on where it stopped.
//!
//! Module `session` has the keys, `counts` the counts of sent packets, `inbound` and `outbound` the contexts, `laws` what
//! holds of protected packets and of saved contexts. `specs/Packets.antt` says what a protected packet is,
//! `specs/InboundPackets.antt` and `specs/OutboundPackets.antt` how one is judged, `specs/SavedRtcp.antt` how a context is saved.
#![tactic(auto)]

mod counts;
mod inbound;
mod laws;
mod outbound;
mod session;

pub use inbound::InRtcp;
pub use laws::{a_protected_packet_opens, saved_contexts_differ};
pub use outbound::OutRtcp;
