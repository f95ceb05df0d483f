ghost use Rattle.std.specs.Prelude.{◌≡◌};
ghost use Rattle.sdp_text.specs.declared.fault.SdpFault.TheVariants.{OutOfMemory as out_of_memory};

use crate::bytes::OutOfMemory;

/// Why a description is refused. Lines count from 1.
#[derive(Clone, Copy, Debug, PartialEq, Eq)]
pub enum SdpFault {
    /// The line is malformed, or it is the `m=` line of an active section without an address or without a
    /// port for RTCP.
    Line(u32),
    /// The `c=` or `a=rtcp` line is in effect for an active section, and names no IPv4 or IPv6 address.
    Address(u32),
    /// The `m=` line of an active section asks for a number of ports other than one.
    PortCount(u32),
    /// There are that many sections, more than eight.
    TooManyMedia(u32),
    /// A section asks for DTLS-SRTP (`UDP/TLS/..`).
    Dtls,
    /// Out of memory.
    OutOfMemory,
}

impl From<OutOfMemory> for SdpFault {
    ghost from_gives = { λ _ fault. fault ≡ out_of_memory };

    fn from(_refused: OutOfMemory) -> SdpFault {
        SdpFault::OutOfMemory
    }
}
