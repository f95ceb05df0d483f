ghost use Rattle.std.specs.Prelude.{◌≡◌};
ghost use Rattle.rtcp_mux.specs.PacketType.{half_of_packet};

use rtp_packet::Half;

/// The half of a packet that came to a port which RTP and RTCP share (RFC 5761 section 4): RTCP exactly where there is a
/// second byte and it is 192 to 223, RTP otherwise. So an RTP packet of payload type 64 to 95 with its marker bit set counts
/// as RTCP, which is why such a session uses none of these types. A packet of one byte, or of none, counts as RTP.
#[tactic(auto, unfolding(crate::specs::PacketType::half_of_packet))]
pub fn half_of(packet: &[u8]) -> Half
    ensures { result ≡ half_of_packet packet.now }
{
    match packet.get(1) {
        Some(192..=223) => Half::Rtcp,
        _ => Half::Rtp,
    }
}
