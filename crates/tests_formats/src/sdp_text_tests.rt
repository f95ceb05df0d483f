use crate::cases::none_failed;
use sdp_text::{Bytes, Host, Proto, SdpFault, Section, host_text, read, read_host};
use std::alloc::Global;

// An offer of audio, with addresses for documentation (RFC 5737).
const OFFER: &[u8] =
    b"v=0\r\no=alice 1 1 IN IP4 192.0.2.10\r\ns=-\r\nc=IN IP4 192.0.2.10\r\nt=0 0\r\nm=audio 6000 RTP/AVP 0 8\r\na=rtpmap:0 PCMU/8000\r\na=sendrecv\r\n";

// The same with line feeds alone, and none behind the last line.
const UNIX_OFFER: &[u8] =
    b"v=0\no=alice 1 1 IN IP4 192.0.2.10\ns=-\nc=IN IP4 192.0.2.10\nt=0 0\nm=audio 6000 RTP/AVP 0 8\na=rtpmap:0 PCMU/8000\na=sendrecv";

const OFFER_ADDRESS: Option<Host> = Some(Host::V4([192, 0, 2, 10]));

/// Texts, and the first cause for which each is refused, if any.
const FAULTS: &[(&[u8], Option<SdpFault>)] = &[
    (OFFER, None),
    (UNIX_OFFER, None),
    (
        b"v=0\r\no=alice 1 1 IN IP4 192.0.2.10\r\ns=-\r\nc=IN IP4 300.1.1.1\r\nt=0 0\r\nm=audio 6000 RTP/AVP 0 8\r\na=rtpmap:0 PCMU/8000\r\na=sendrecv\r\n",
        Some(SdpFault::Address(4)),
    ),
    (
        b"v=0\r\no=alice 1 1 IN IP4 192.0.2.10\r\ns=-\r\nc=IN IP6 1::2::3\r\nt=0 0\r\nm=audio 6000 RTP/AVP 0 8\r\na=rtpmap:0 PCMU/8000\r\na=sendrecv\r\n",
        Some(SdpFault::Address(4)),
    ),
    (
        b"v=0\r\no=alice 1 1 IN IP4 192.0.2.10\r\ns=-\r\nc=IN IP4 192.0.2.10\r\nt=0 0\r\nm=audio 6000/2 RTP/AVP 0 8\r\na=rtpmap:0 PCMU/8000\r\na=sendrecv\r\n",
        Some(SdpFault::PortCount(6)),
    ),
    (
        b"v=0\r\no=alice 1 1 IN IP4 192.0.2.10\r\ns=-\r\nc=IN IP4 192.0.2.10\r\nt=0 0\r\nm=audio 65535 RTP/AVP 0 8\r\na=rtpmap:0 PCMU/8000\r\na=sendrecv\r\n",
        Some(SdpFault::Line(6)),
    ),
    (
        b"v=0\r\no=alice 1 1 IN IP4 192.0.2.10\r\ns=-\r\nc=IN IP4 192.0.2.10\r\nt=0 0\r\nm=audio 6000 UDP/TLS/RTP/SAVPF 0 8\r\na=rtpmap:0 PCMU/8000\r\na=sendrecv\r\n",
        Some(SdpFault::Dtls),
    ),
    (
        b"v=0\r\no=alice 1 1 IN IP4 192.0.2.10\r\ns=-\r\nc=IN IP4 192.0.2.10\r\nt=0 0\r\nm=audio 6000 RTP/AVP 0 8\r\nm=audio 6000 RTP/AVP 0 8\r\nm=audio 6000 RTP/AVP 0 8\r\nm=audio 6000 RTP/AVP 0 8\r\nm=audio 6000 RTP/AVP 0 8\r\nm=audio 6000 RTP/AVP 0 8\r\nm=audio 6000 RTP/AVP 0 8\r\nm=audio 6000 RTP/AVP 0 8\r\nm=audio 6000 RTP/AVP 0 8\r\na=rtpmap:0 PCMU/8000\r\na=sendrecv\r\n",
        Some(SdpFault::TooManyMedia(9)),
    ),
    (b"", Some(SdpFault::Line(1))),
    (b"\r\n\r\n", Some(SdpFault::Line(1))),
    (
        b"v=0\r\nm=audio 6000 RTP/AVP 0\r\n",
        Some(SdpFault::Line(2)),
    ),
    (
        b"v=0\nc=IN IP4 300.1.1.1\nm=audio 6000 RTP/AVP 0\n",
        Some(SdpFault::Address(2)),
    ),
    (
        b"v=0\nc=IN IP6 1::2::3\nm=audio 6000 RTP/AVP 0\n",
        Some(SdpFault::Address(2)),
    ),
    (
        b"v=0\nc=IN IP4 1.2.3.4\nm=audio 6000/2 RTP/AVP 0\n",
        Some(SdpFault::PortCount(3)),
    ),
    (b"v=0\nc=IN IP4 1.2.3.4\nm=audio 6000/001 RTP/AVP 0\n", None),
    (
        b"v=0\nc=IN IP4 1.2.3.4\nm=audio 65535 RTP/AVP 0\n",
        Some(SdpFault::Line(3)),
    ),
    (
        b"v=0\nc=IN IP4 1.2.3.4\nm=audio 65535 RTP/AVP 0\na=rtcp:9\n",
        None,
    ),
    (
        b"v=0\nc=IN IP4 1.2.3.4\nm=audio 65536 RTP/AVP 0\n",
        Some(SdpFault::Line(3)),
    ),
    (b"v=0\nm=audio 0 RTP/AVP 0\n", None),
    (b"v=0\nm=image 4000 udptl t38\n", None),
    (b"v=0\n", None),
    (b"v=1\n", Some(SdpFault::Line(1))),
    (b"v=0\nS=x\n", Some(SdpFault::Line(2))),
    (b"v=0\n\ns=-\n", Some(SdpFault::Line(2))),
    (b"v=0\ns=-\n\n\r\n", None),
    (b"v=0\ns=-\r", Some(SdpFault::Line(2))),
    (b"v=0\ns=a\0b\n", Some(SdpFault::Line(2))),
    (b"v=0\no=- 1 1 IN IP4\n", Some(SdpFault::Line(2))),
    (b"v=0\no=-  1 IN IP4 h\n", Some(SdpFault::Line(2))),
    (b"v=0\nc=IN IP4\n", Some(SdpFault::Line(2))),
    (b"v=0\nc=IN IP4 1.2.3.4 x\n", Some(SdpFault::Line(2))),
    (b"v=0\nm=audio 9 RTP/AVP\n", Some(SdpFault::Line(2))),
    (b"v=0\nm=audio 9/ RTP/AVP 0\n", Some(SdpFault::Line(2))),
    (b"v=0\na=rtcp:0\n", Some(SdpFault::Line(2))),
    (b"v=0\na=rtcp:9 IN IP4\n", Some(SdpFault::Line(2))),
    (b"v=0\na=rtcp\n", None),
    (b"v=0\nm=a 9 UDP/TLS/RTP/SAVPF 0\n", Some(SdpFault::Dtls)),
    (b"v=0\nm=a 0 UDP/TLS/RTP/SAVPF 0\n", None),
    (
        b"v=0\nm=a 9 UDP/TLS/X 0\nm=a 9 RTP/AVP 0\n",
        Some(SdpFault::Line(3)),
    ),
    (
        b"v=0\nm=a 0 x 0\nm=a 0 x 0\nm=a 0 x 0\nm=a 0 x 0\nm=a 0 x 0\nm=a 0 x 0\nm=a 0 x 0\nm=a 0 x 0\n",
        None,
    ),
    (
        b"v=0\nm=a 0 x 0\nm=a 0 x 0\nm=a 0 x 0\nm=a 0 x 0\nm=a 0 x 0\nm=a 0 x 0\nm=a 0 x 0\nm=a 0 x 0\nm=a 0 x 0\n",
        Some(SdpFault::TooManyMedia(9)),
    ),
    (
        b"v=0\nc=IN IP4 h\nm=a 9/2 RTP/AVP 0\n",
        Some(SdpFault::Address(2)),
    ),
    (
        b"v=0\nm=a 9/2 RTP/AVP 0\nc=IN IP4 h\n",
        Some(SdpFault::PortCount(2)),
    ),
    (
        b"v=0\nm=a 9 RTP/AVP 0\nc=IN IP4 h\nc=IN IP4 1.2.3.4\n",
        Some(SdpFault::Address(3)),
    ),
    (
        b"v=0\nm=a 9 RTP/AVP 0\na=rtcp:8 IN IP4 h\nc=IN IP4 h\n",
        Some(SdpFault::Address(3)),
    ),
];

fn has_fault(alloc: Global, text: &[u8], want: Option<SdpFault>) -> bool {
    if text.len() >= 1 << 31 {
        return false;
    }
    match read(alloc, text) {
        Ok(_) => want.is_none(),
        Err(fault) => want == Some(fault),
    }
}

fn other_fault(alloc: Global) -> Option<usize> {
    for (number, (text, want)) in FAULTS.iter().enumerate() {
        if !has_fault(alloc, text, *want) {
            return Some(number);
        }
    }
    None
}

#[test]
fn refuses_for_the_first_cause(rt: HostRuntime) {
    none_failed(&rt, "FAULTS", other_fault(rt.alloc()));
}

/// The address of a section's own connection line, or of its line for RTCP.
const OWN_ADDRESS: Option<Host> = Some(Host::V4([203, 0, 113, 9]));

/// Texts, the number of a section of each, and what it signals.
const SECTIONS: &[(&[u8], usize, Section)] = &[
    (
        OFFER,
        0,
        Section {
            line: 6,
            port: 6000,
            proto: Proto::Avp,
            address: OFFER_ADDRESS,
            rtcp_port: 6001,
            rtcp_address: OFFER_ADDRESS,
            hold: false,
            mux: false,
        },
    ),
    (
        UNIX_OFFER,
        0,
        Section {
            line: 6,
            port: 6000,
            proto: Proto::Avp,
            address: OFFER_ADDRESS,
            rtcp_port: 6001,
            rtcp_address: OFFER_ADDRESS,
            hold: false,
            mux: false,
        },
    ),
    (
        b"v=0\nc=IN IP4 192.0.2.10\nm=audio 6000 RTP/AVP 0",
        0,
        Section {
            line: 3,
            port: 6000,
            proto: Proto::Avp,
            address: OFFER_ADDRESS,
            rtcp_port: 6001,
            rtcp_address: OFFER_ADDRESS,
            hold: false,
            mux: false,
        },
    ),
    (
        b"v=0\nc=IN IP4 192.0.2.10\nm=a 6000 RTP/AVP 0\nc=IN IP4 203.0.113.9\n",
        0,
        Section {
            line: 3,
            port: 6000,
            proto: Proto::Avp,
            address: OWN_ADDRESS,
            rtcp_port: 6001,
            rtcp_address: OWN_ADDRESS,
            hold: false,
            mux: false,
        },
    ),
    (
        b"v=0\nc=IN IP4 192.0.2.10\nm=a 6 RTP/AVP 0\nc=IN IP4 203.0.113.9\nm=a 8 RTP/AVP 0\n",
        1,
        Section {
            line: 5,
            port: 8,
            proto: Proto::Avp,
            address: OFFER_ADDRESS,
            rtcp_port: 9,
            rtcp_address: OFFER_ADDRESS,
            hold: false,
            mux: false,
        },
    ),
    (
        b"v=0\nc=IN IP4 0.0.0.0\nm=a 6 RTP/AVP 0\n",
        0,
        Section {
            line: 3,
            port: 6,
            proto: Proto::Avp,
            address: Some(Host::V4([0; 4])),
            rtcp_port: 7,
            rtcp_address: Some(Host::V4([0; 4])),
            hold: true,
            mux: false,
        },
    ),
    (
        b"v=0\nc=IN IP6 ::\nm=a 6 RTP/AVP 0\n",
        0,
        Section {
            line: 3,
            port: 6,
            proto: Proto::Avp,
            address: Some(Host::V6([0; 16])),
            rtcp_port: 7,
            rtcp_address: Some(Host::V6([0; 16])),
            hold: true,
            mux: false,
        },
    ),
    (
        b"v=0\nc=IN IP4 192.0.2.10\nm=a 6 RTP/SAVPF 0\na=rtcp:9 IN IP4 203.0.113.9\n",
        0,
        Section {
            line: 3,
            port: 6,
            proto: Proto::Savpf,
            address: OFFER_ADDRESS,
            rtcp_port: 9,
            rtcp_address: OWN_ADDRESS,
            hold: false,
            mux: false,
        },
    ),
    (
        b"v=0\nc=IN IP4 192.0.2.10\nm=a 6 RTP/SAVP 0\na=rtcp:9\na=rtcp:11\n",
        0,
        Section {
            line: 3,
            port: 6,
            proto: Proto::Savp,
            address: OFFER_ADDRESS,
            rtcp_port: 9,
            rtcp_address: OFFER_ADDRESS,
            hold: false,
            mux: false,
        },
    ),
    (
        b"v=0\nm=image 4000 udptl t38\n",
        0,
        Section {
            line: 2,
            port: 4000,
            proto: Proto::Other,
            address: None,
            rtcp_port: 4001,
            rtcp_address: None,
            hold: false,
            mux: false,
        },
    ),
    (
        b"v=0\nm=a 0 RTP/AVPF 0\n",
        0,
        Section {
            line: 2,
            port: 0,
            proto: Proto::Avpf,
            address: None,
            rtcp_port: 1,
            rtcp_address: None,
            hold: false,
            mux: false,
        },
    ),
    (
        b"v=0\na=rtcp-mux\nm=a 0 RTP/AVP 0\na=rtcp-mux:x\na=rtcp-mux-only\nm=a 0 RTP/AVP 0\na=rtcp-mux\n",
        0,
        Section {
            line: 3,
            port: 0,
            proto: Proto::Avp,
            address: None,
            rtcp_port: 1,
            rtcp_address: None,
            hold: false,
            mux: false,
        },
    ),
    (
        b"v=0\nm=a 0 RTP/AVP 0\ni=a\na=rtcp-mux\na=mid:0\nm=a 0 RTP/AVP 0\n",
        0,
        Section {
            line: 2,
            port: 0,
            proto: Proto::Avp,
            address: None,
            rtcp_port: 1,
            rtcp_address: None,
            hold: false,
            mux: true,
        },
    ),
];

fn has_section(alloc: Global, text: &[u8], index: usize, want: Section) -> bool {
    if text.len() >= 1 << 31 {
        return false;
    }
    match read(alloc, text) {
        Ok(sdp) => index < sdp.section_count() && sdp.section(index) == want,
        Err(_) => false,
    }
}

fn other_section(alloc: Global) -> Option<usize> {
    for (number, (text, index, want)) in SECTIONS.iter().enumerate() {
        if !has_section(alloc, text, *index, *want) {
            return Some(number);
        }
    }
    None
}

#[test]
fn tells_what_each_section_signals(rt: HostRuntime) {
    none_failed(&rt, "SECTIONS", other_section(rt.alloc()));
}

/// Texts, the number of lines, and one line with its number, from 0.
const LINES: &[(&[u8], usize, usize, &[u8])] = &[
    (OFFER, 8, 7, b"a=sendrecv"),
    (OFFER, 8, 0, b"v=0"),
    (UNIX_OFFER, 8, 0, b"v=0"),
    (UNIX_OFFER, 8, 5, b"m=audio 6000 RTP/AVP 0 8"),
    (UNIX_OFFER, 8, 7, b"a=sendrecv"),
    (b"v=0\ns=-\nt=0 0", 3, 2, b"t=0 0"),
    (b"v=0\r\ns=-\nt=0 0\r\n\n\r\n", 3, 1, b"s=-"),
];

fn has_line(alloc: Global, text: &[u8], count: usize, index: usize, line: &[u8]) -> bool {
    if text.len() >= 1 << 31 {
        return false;
    }
    match read(alloc, text) {
        Ok(sdp) => {
            sdp.line_count() == count && index < sdp.line_count() && sdp.line(index) == line
        }
        Err(_) => false,
    }
}

fn other_line(alloc: Global) -> Option<usize> {
    for (number, (text, count, index, line)) in LINES.iter().enumerate() {
        if !has_line(alloc, text, *count, *index, line) {
            return Some(number);
        }
    }
    None
}

#[test]
fn gives_lines_without_their_ends(rt: HostRuntime) {
    none_failed(&rt, "LINES", other_line(rt.alloc()));
}

/// Texts, and the first line of each with an address of IPv6 that is used.
const FIRST_V6: &[(&[u8], Option<u32>)] = &[
    (OFFER, None),
    (
        b"v=0\r\no=alice 1 1 IN IP4 192.0.2.10\r\ns=-\r\nc=IN IP6 2001:db8::1\r\nt=0 0\r\nm=audio 6000 RTP/AVP 0 8\r\na=rtpmap:0 PCMU/8000\r\na=sendrecv\r\n",
        Some(4),
    ),
    (b"v=0\nc=IN IP6 2001:db8::1\nm=a 6 RTP/AVP 0\n", Some(2)),
    (b"v=0\nc=IN IP6 2001:db8::1\nm=a 0 RTP/AVP 0\n", None),
    (
        b"v=0\nc=IN IP6 2001:db8::1\nm=a 6 RTP/AVP 0\nc=IN IP4 1.2.3.4\n",
        None,
    ),
    (
        b"v=0\nc=IN IP4 1.2.3.4\nm=a 6 RTP/AVP 0\na=rtcp:9 IN IP6 ::1\n",
        Some(4),
    ),
    (
        b"v=0\nm=a 6 RTP/AVP 0\na=rtcp:9 IN IP6 ::1\nc=IN IP6 ::1\n",
        Some(3),
    ),
];

fn has_first_v6(alloc: Global, text: &[u8], want: Option<u32>) -> bool {
    if text.len() >= 1 << 31 {
        return false;
    }
    match read(alloc, text) {
        Ok(sdp) => sdp.first_v6() == want,
        Err(_) => false,
    }
}

fn other_first_v6(alloc: Global) -> Option<usize> {
    for (number, (text, want)) in FIRST_V6.iter().enumerate() {
        if !has_first_v6(alloc, text, *want) {
            return Some(number);
        }
    }
    None
}

#[test]
fn names_the_first_line_with_an_ipv6_address(rt: HostRuntime) {
    none_failed(&rt, "FIRST_V6", other_first_v6(rt.alloc()));
}

const V6: [u8; 16] = [0x20, 1, 0x0d, 0xb8, 0, 0, 0, 0, 0, 1, 0, 0, 0, 0, 0, 1];

/// Families, texts of addresses, and what is read of each.
const ADDRESSES: &[(&[u8], &[u8], Option<Host>)] = &[
    (b"IP4", b"192.0.2.10", OFFER_ADDRESS),
    (
        b"IP4",
        b"010.001.000.0000255",
        Some(Host::V4([10, 1, 0, 255])),
    ),
    (b"IP4", b"256.0.0.1", None),
    (b"IP4", b"1.2.3", None),
    (b"IP4", b"1.2.3.4.5", None),
    (b"IP4", b"1..3.4", None),
    (b"IP4", b"1.2.3.-4", None),
    (b"IP4", b"example.net", None),
    (b"IP6", b"2001:DB8:0:0:1:0:0:1", Some(Host::V6(V6))),
    (b"IP6", b"2001:db8::1:0:0:1", Some(Host::V6(V6))),
    (b"IP6", b"::", Some(Host::V6([0; 16]))),
    (b"IP6", b"0:0:0:0:0:0:0:0", Some(Host::V6([0; 16]))),
    (
        b"IP6",
        b"1:2:3:4:5:6:7::",
        Some(Host::V6([0, 1, 0, 2, 0, 3, 0, 4, 0, 5, 0, 6, 0, 7, 0, 0])),
    ),
    (b"IP6", b"1:2:3:4:5:6:7::8", None),
    (b"IP6", b"1:2:3:4:5:6:7", None),
    (b"IP6", b"1:2:3:4:5:6:7:8:9", None),
    (b"IP6", b"1::2::3", None),
    (b"IP6", b":::", None),
    (b"IP6", b":1", None),
    (b"IP6", b"1:", None),
    (b"IP6", b"12345::", None),
    (b"IP6", b"::g", None),
    (b"IP6", b"fe80::1%eth0", None),
    (b"IP6", b"::ffff:192.0.2.10", None),
    (b"IP6", b"", None),
    (b"IP5", b"192.0.2.10", None),
];

fn other_address() -> Option<usize> {
    for (number, (family, text, want)) in ADDRESSES.iter().enumerate() {
        if read_host(family, text) != *want {
            return Some(number);
        }
    }
    None
}

#[test]
fn reads_addresses(rt: HostRuntime) {
    none_failed(&rt, "ADDRESSES", other_address());
}

/// Addresses, and how each is written. What is written is read as the same address.
const WRITTEN: &[(Host, &[u8])] = &[
    (Host::V4([192, 0, 2, 10]), b"192.0.2.10"),
    (Host::V4([0, 255, 99, 100]), b"0.255.99.100"),
    (Host::V6(V6), b"2001:db8::1:0:0:1"),
    (Host::V6([0; 16]), b"::"),
    (
        Host::V6([0, 0, 0, 0, 0, 0, 0, 0, 0, 0, 0, 0, 0, 0, 0, 1]),
        b"::1",
    ),
    (
        Host::V6([0, 1, 0, 0, 0, 0, 0, 0, 0, 0, 0, 0, 0, 0, 0, 0]),
        b"1::",
    ),
    (
        Host::V6([0x20, 1, 0x0d, 0xb8, 0, 0, 0, 1, 0, 1, 0, 1, 0, 1, 0, 1]),
        b"2001:db8:0:1:1:1:1:1",
    ),
    (
        Host::V6([0x20, 1, 0, 0, 0, 0, 0, 1, 0, 0, 0, 0, 0, 0, 0, 1]),
        b"2001:0:0:1::1",
    ),
    (
        Host::V6([
            0xab, 0xcd, 0xef, 1, 0x23, 0x45, 0x67, 0x89, 0xab, 0xcd, 0xef, 1, 0x23, 0x45, 0x67,
            0x89,
        ]),
        b"abcd:ef01:2345:6789:abcd:ef01:2345:6789",
    ),
];

fn is_written(host: &Host, want: &[u8]) -> bool {
    let family: &[u8] = match host {
        Host::V4(_) => b"IP4",
        Host::V6(_) => b"IP6",
    };
    host_text(host).as_slice() == want && read_host(family, want) == Some(*host)
}

fn other_written() -> Option<usize> {
    for (number, (host, want)) in WRITTEN.iter().enumerate() {
        if !is_written(host, want) {
            return Some(number);
        }
    }
    None
}

#[test]
fn writes_addresses(rt: HostRuntime) {
    none_failed(&rt, "WRITTEN", other_written());
}

#[test]
fn bytes_are_gathered(rt: HostRuntime) {
    let mut bytes = Bytes::new(rt.alloc());
    let Ok(()) = bytes.reserve(4) else {
        panic!(rt; "no memory");
    };
    bytes.push(b'c');
    bytes.extend(b"=IN");
    assert!(rt; bytes.as_slice() == b"c=IN".as_slice());
}
