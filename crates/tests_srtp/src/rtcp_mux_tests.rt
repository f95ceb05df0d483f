use crate::cases::none_failed;
use rtcp_mux::half_of;
use rtp_packet::Half;

/// Packets at a port that RTP and RTCP share, by their second byte (RFC 5761 section 4).
const HALVES: &[(&[u8], Half)] = &[
    (b"\x80\xbf\x00\x01\x00\x00\x00\x07", Half::Rtp),
    (b"\x80\xc0\x00\x01\x00\x00\x00\x07", Half::Rtcp),
    (b"\x80\xdf\x00\x01\x00\x00\x00\x07", Half::Rtcp),
    (b"\x80\xe0\x00\x01\x00\x00\x00\x07", Half::Rtp),
    (b"\x00\xc8", Half::Rtcp),
    (b"\xc8", Half::Rtp),
    (b"", Half::Rtp),
];

fn other_half() -> Option<usize> {
    for (number, (packet, wanted)) in HALVES.iter().enumerate() {
        if half_of(packet) != *wanted {
            return Some(number);
        }
    }
    None
}

#[test]
fn halves_at_a_shared_port(rt: HostRuntime) {
    none_failed(&rt, "HALVES", other_half());
}
