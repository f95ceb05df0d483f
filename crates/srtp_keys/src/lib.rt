//! The keys of SRTP (RFC 3711): message authentication, and what a master key becomes for one half
//! of a stream.
//!
//! `hmac` is HMAC-SHA1 (RFC 2104), and `MacKey` the same with the work on the key done once; `same_tags` compares tags.
//! `derive` makes the `Session` of a master key. A `DrawnKey` is a master key that this side drew; it
//! can't be copied, and is split into the one key for RTP and the one for RTCP.
#![tactic(auto)]

mod derivation;
mod faults;
mod mac;
mod master_key;

pub use derivation::{Session, derive};
pub use faults::{ProtectFault, UnprotectFault};
pub use mac::{MacKey, hmac, same_tags};
pub use master_key::{DrawnKey, RtcpKey, RtpKey};
