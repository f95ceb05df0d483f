//! What the other side of a media stream reports of its reception: the last report block of a plain RTCP packet, with the
//! loss and the jitter that it tells (RFC 3550 section 6.4).
//!
//! Module `block` reads one block, `part` the last block of one packet of a compound, and `compound` that of the whole.
//! `specs/Compound.antt` says which parts a compound packet has, `specs/ReportBlocks.antt` which blocks.
#![tactic(auto)]

mod block;
mod compound;
mod part;

pub use block::Block;
pub use compound::last_block;
