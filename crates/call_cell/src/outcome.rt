ghost use Rattle.std.specs.Prelude.{◌≡◌};
ghost use Rattle.call_cell.specs.Protection.{refused_by, lost_by};

use port_pool::Holder;
use relay_outside::{Addr, Family};
use rtp_packet::Half;
use srtp_keys::{ProtectFault, UnprotectFault};

/// Why a packet is refused. Nothing but the cell's last moment changes.
#[derive(Clone, Copy, PartialEq, Eq, Debug)]
pub enum Refused {
    /// The leg that the packet was taken for has gone.
    Stale,
    /// No answer has committed the leg's section since the leg was added.
    NotAnswered,
    /// The packet has no head of RTP or RTCP (RFC 3550).
    Malformed,
    /// Another source was learned under `strict source`.
    WrongSource,
    /// The packet is too short for its authentication tag.
    Short,
    /// The authentication tag is wrong (RFC 3711 section 3.3).
    NotAuthentic,
    /// The packet's index is too old, or there is none.
    TooOld,
    /// The packet's index was taken before.
    Replayed,
    /// The packet is of a 33rd source under its key.
    TooManySources,
}

impl From<UnprotectFault> for Refused {
    ghost from_gives = { λ cause refused. refused ≡ refused_by cause };

    fn from(cause: UnprotectFault) -> Refused {
        match cause {
            UnprotectFault::Short => Refused::Short,
            UnprotectFault::NotAuthentic => Refused::NotAuthentic,
            UnprotectFault::TooOld => Refused::TooOld,
            UnprotectFault::Replayed => Refused::Replayed,
            UnprotectFault::TooManySources => Refused::TooManySources,
        }
    }
}

/// Why an accepted packet is not sent.
#[derive(Clone, Copy, PartialEq, Eq, Debug)]
pub enum Lost {
    /// The opposite leg is on hold, was never committed, or isn't there. Where both legs of a section are added together, neither of the last two comes.
    Hold,
    /// The index under which the packet would be sent is too old, or there is none.
    OutTooOld,
    /// A packet was sent under this index.
    IndexUsed,
    /// The packet is of a 33rd source under the key of the opposite leg.
    OutSources,
    /// The key of the opposite leg has no index left.
    KeySpent,
    /// The send failed. Its index stays used.
    /// It names its port, else nobody above the cell could count the sends of an end; the printed line of a script has none.
    SendFault {
        /// The family of the interface at which the local port is open.
        family: Family,
        /// The local port that it would have left by.
        port: u16,
    },
}

impl From<ProtectFault> for Lost {
    ghost from_gives = { λ cause lost. lost ≡ lost_by cause };

    fn from(cause: ProtectFault) -> Lost {
        match cause {
            ProtectFault::TooOld => Lost::OutTooOld,
            ProtectFault::IndexUsed => Lost::IndexUsed,
            ProtectFault::TooManySources => Lost::OutSources,
            ProtectFault::KeySpent => Lost::KeySpent,
        }
    }
}

/// A local UDP port, at the interface of a family. Both families have the same port numbers.
#[derive(Clone, Copy, PartialEq, Eq, Debug)]
pub struct LocalPort {
    /// The family of the interface at which the port is open.
    pub family: Family,
    /// The port, 0 to 65,535.
    pub port: u16,
}

/// Room for a packet from its take to its send: for the longest that is taken, and for what protection adds to it.
pub type PacketBuffer = [u8; 2_064];

/// What becomes of a received packet.
#[derive(Clone, Copy, PartialEq, Eq, Debug)]
pub enum Outcome {
    /// It is not accepted.
    Refused(Refused),
    /// It is accepted and not sent.
    Lost(Lost),
    /// It is sent.
    Sent {
        /// The family of the interface at which the local port is open.
        family: Family,
        /// The local port that it leaves by.
        port: u16,
        /// Where it goes.
        to: Addr,
        /// How many bytes are sent.
        len: usize,
    },
}

/// A packet that a leg received.
#[derive(Clone, Copy, PartialEq, Eq, Debug)]
pub struct Incoming {
    /// The leg that held the port when the packet was taken.
    pub holder: Holder,
    /// The half of the pair that it was taken at.
    pub half: Half,
    /// Where it came from.
    pub source: Addr,
    /// How many bytes it has, at most 2,000.
    pub len: usize,
}
