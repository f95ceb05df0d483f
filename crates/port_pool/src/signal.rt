use relay_outside::{Addr, Flags, KeyAndSalt};
use sdes_lines::Suite;

/// What an answer commits for one leg.
#[derive(Clone, Copy, PartialEq, Eq, Debug)]
pub struct LegSignal {
    /// Where the side expects RTP.
    pub rtp: Addr,
    /// Where the side expects RTCP (RFC 3605).
    pub rtcp: Addr,
    /// The flags of the side's last offer or answer.
    pub flags: Flags,
    /// The side asked for hold: nothing is sent to it (RFC 3264 section 8.4).
    pub hold: bool,
    /// The side takes RTCP at its RTP port (RFC 5761).
    pub mux: bool,
    /// The master key and salt, 30 bytes, and the suite under which the side sends (RFC 4568), where it sends SRTP.
    pub inbound: Option<(KeyAndSalt, Suite)>,
    /// The number of the drawn key under which packets are sent to the side, where they are sent as SRTP.
    pub outbound: Option<u64>,
}

/// What an answer commits for one section.
#[derive(Clone, Copy, PartialEq, Eq, Debug)]
pub enum SectionSignal {
    /// The section is taken, with side A's leg and then side B's.
    Commit(LegSignal, LegSignal),
    /// The section is rejected.
    Reject,
}
