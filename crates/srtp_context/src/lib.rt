//! SRTP (RFC 3711): the cryptographic state of a stream of RTP packets under one master key. An `InRtp` checks and opens
//! received packets, an `OutRtp` protects packets that are to be sent; each keeps the indices of at most 32 sources, and
//! stands for the plain list of the packets that it took or sent. Neither takes memory, and neither can be cloned.
//! A context is saved as bytes, and what is loaded from them goes on where it stopped.
//!
//! Module `session` has the keys, `inbound` and `outbound` the contexts, `saved` their saved forms, `laws` what holds of protected
//! packets and of saved contexts. `specs/Packets.antt` says what a protected packet is, `specs/InboundPackets.antt` and
//! `specs/OutboundPackets.antt` how one is judged, `specs/SavedRtp.antt` how a context is saved.
#![tactic(auto)]

mod inbound;
mod laws;
mod outbound;
mod saved;
mod session;

pub use inbound::InRtp;
pub use laws::{a_protected_packet_opens, saved_contexts_differ};
pub use outbound::OutRtp;
