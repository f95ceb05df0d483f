ghost use Rattle.std.specs.Prelude.{◌≡◌, Some};
ghost use Rattle.call_cell.specs.Deeds.{kind_on, way_on};
ghost use Rattle.call_cell.specs.Heads.{head_of, half_of};

use port_pool::LegSignal;
use rtcp_mux::half_of;
use rtp_packet::{Half, RtpHead, rtcp, rtp};

/// What the head of a packet says. It is read once, and stays as it is when the packet is opened.
#[derive(Clone, Copy, Drop)]
pub(crate) enum Head {
    /// The head of an RTP packet.
    Rtp(RtpHead),
    /// The SSRC of the sender of an RTCP packet.
    Rtcp(u32),
}

impl Head {
    /// Whether it is the head of an RTP or of an RTCP packet.
    pub(crate) fn half(self) -> Half
        ensures { result ≡ half_of self }
    {
        match self {
            Head::Rtp(_) => Half::Rtp,
            Head::Rtcp(_) => Half::Rtcp,
        }
    }
}

/// A packet that a leg accepted.
#[derive(Clone, Copy, Drop)]
pub(crate) struct PlainPacket {
    /// How many bytes it has, opened.
    pub(crate) len: usize,
    /// Its head.
    pub(crate) head: Head,
}

/// The head of a packet of a half, where it has one.
pub(crate) fn read_head(half: Half, packet: &[u8]) -> Option<Head>
    ensures { result ≡ head_of half packet.now }
{
    match half {
        Half::Rtp => Some(Head::Rtp(rtp(packet)?)),
        Half::Rtcp => Some(Head::Rtcp(rtcp(packet)?)),
    }
}

/// Whether a packet is RTP or RTCP that a half of a leg took with that in force: where both come to its RTP port, the packet
/// type tells (RFC 5761 section 4). It stands in the clear, so that it is known before the packet is opened.
pub(crate) fn kind_on(signal: &LegSignal, half: Half, packet: &[u8]) -> Half
    ensures { result ≡ kind_on (Some signal.now) half packet.now }
{
    if !signal.mux {
        return half;
    }
    match half {
        Half::Rtp => half_of(packet),
        Half::Rtcp => Half::Rtcp,
    }
}

/// The half by which a packet of a kind leaves to a leg with that in force.
pub(crate) fn way_on(signal: &Option<LegSignal>, kind: Half) -> Half
    ensures { result ≡ way_on signal.now kind }
{
    let Some(signal) = signal else {
        return kind;
    };
    if signal.mux { Half::Rtp } else { kind }
}
