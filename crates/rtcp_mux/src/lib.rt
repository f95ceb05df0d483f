//! Whether a packet that came to a port for both RTP and RTCP is one or the other: the rule of RFC 5761, by which the two
//! halves of a media stream share one port. Only the second byte is looked at, which SRTP and SRTCP leave in the clear.
//!
//! Module `packet_type` reads the byte; `specs/PacketType.antt` says what it means.
#![tactic(auto)]

mod packet_type;

pub use packet_type::half_of;
