//! The heads of media packets: what a relay has to know of a packet before it can open, protect or send it. `rtp` reads
//! the head of an RTP packet, `rtcp` the SSRC of an RTCP packet, and `Half` says which of the two a packet is. Nothing
//! after the head is looked at; padding is not examined.
//!
//! Module `head` reads the bytes; `specs/Head.antt` says which bytes of a packet mean what (RFC 3550).
#![tactic(auto)]

mod head;

pub use head::{Half, RtpHead, rtcp, rtp};
