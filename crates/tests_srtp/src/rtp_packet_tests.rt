use crate::cases::none_failed;
use rtp_packet::{Half, RtpHead, rtcp, rtp};

/// The source, the sequence number and the length of the head of a packet of RTP. The values stand in the packets at the
/// places of RFC 3550, figures of sections 5.1 and 5.3.1.
const HEADS: &[(&[u8], Option<(u32, u16, usize)>)] = &[
    (
        b"\x80\x00\x00\x64\x00\x00\x00\x00\x11\x11\x11\x11\x01",
        Some((0x1111_1111, 100, 12)),
    ),
    (
        b"\x80\x00\x00\x64\x00\x00\x00\x00\x11\x11\x11\x11",
        Some((0x1111_1111, 100, 12)),
    ),
    (b"\x80\x00\x00\x64\x00\x00\x00\x00\x11\x11\x11", None),
    // with two sources
    (
        b"\xa2\xe0\xff\xfe\x00\x00\x00\x00\x89\xab\xcd\xef\x00\x00\x00\x01\x00\x00\x00\x02",
        Some((0x89ab_cdef, 0xfffe, 20)),
    ),
    (
        b"\xa2\xe0\xff\xfe\x00\x00\x00\x00\x89\xab\xcd\xef\x00\x00\x00\x01\x00\x00\x00",
        None,
    ),
    // with an extension, with one that is cut, and with one that has no length
    (
        b"\x91\x08\x12\x34\x00\x00\x00\x00\x01\x02\x03\x04\x00\x00\x00\x01\xbe\xde\x00\x01\x10\xff\x00\x00\xd5",
        Some((0x0102_0304, 0x1234, 24)),
    ),
    (
        b"\x90\x08\x12\x34\x00\x00\x00\x00\x01\x02\x03\x04\xbe\xde\x00\x01\x10\xff\x00",
        None,
    ),
    (
        b"\x90\x08\x12\x34\x00\x00\x00\x00\x01\x02\x03\x04\xbe\xde\x00",
        None,
    ),
    // of version 1
    (b"\x40\x00\x00\x64\x00\x00\x00\x00\x11\x11\x11\x11", None),
];

fn head_of(packet: &[u8]) -> Option<(u32, u16, usize)> {
    let RtpHead { ssrc, seq, head } = rtp(packet)?;
    Some((ssrc, seq, head))
}

fn other_head() -> Option<usize> {
    for (number, (packet, wanted)) in HEADS.iter().enumerate() {
        if head_of(packet) != *wanted {
            return Some(number);
        }
    }
    None
}

#[test]
fn heads_of_rtp_packets(rt: HostRuntime) {
    none_failed(&rt, "HEADS", other_head());
}

/// The sender of a packet of RTCP, at the place of RFC 3550, figure of section 6.4.2.
const SENDERS: &[(&[u8], Option<u32>)] = &[
    (b"\x80\xc8\x00\x01\x22\x22\x22\x22", Some(0x2222_2222)),
    (b"\x81\xc9\x00\x07\x89\xab\xcd\xef\x00", Some(0x89ab_cdef)),
    (b"\xa0\xc0\x00\x01\x00\x00\x00\x07", Some(7)),
    (b"\x80\xdf\x00\x01\x00\x00\x00\x07", Some(7)),
    (b"\x80\xbf\x00\x01\x00\x00\x00\x07", None),
    (b"\x80\xe0\x00\x01\x00\x00\x00\x07", None),
    (b"\xc0\xc8\x00\x01\x00\x00\x00\x07", None),
    (b"\x80\xc8\x00\x01\x00\x00\x00", None),
    (b"", None),
];

fn other_sender() -> Option<usize> {
    for (number, (packet, wanted)) in SENDERS.iter().enumerate() {
        if rtcp(packet) != *wanted {
            return Some(number);
        }
    }
    None
}

#[test]
fn senders_of_rtcp_packets(rt: HostRuntime) {
    none_failed(&rt, "SENDERS", other_sender());
}

#[test]
fn halves_are_told_apart(rt: HostRuntime) {
    assert!(rt; Half::Rtp == Half::Rtp && Half::Rtp != Half::Rtcp);
}
