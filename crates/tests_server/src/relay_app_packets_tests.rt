//! What becomes of packets in a run of `serve`.

use crate::relay_app_runs::{ANSWER, Case, OFFER, SERVING, check_case};
use crate::table_devices::TablePort;
use relay_outside::{Addr, Ip};

const ALICE: Addr = Addr {
    ip: Ip::V4([192, 0, 2, 10]),
    port: 6000,
};

const ALICE_RTCP: Addr = Addr {
    ip: Ip::V4([192, 0, 2, 10]),
    port: 6001,
};

const BOB: Addr = Addr {
    ip: Ip::V4([198, 51, 100, 20]),
    port: 7000,
};

const BOB_RTCP: Addr = Addr {
    ip: Ip::V4([198, 51, 100, 20]),
    port: 7001,
};

/// The interface of the proxy.
const HERE: Ip = Ip::V4([203, 0, 113, 1]);

/// One packet is taken after each of the two turns, and one at the end.
const TAKEN: Case = Case {
    asked: &[OFFER, ANSWER],
    ports: &[
        TablePort {
            at: Addr {
                ip: HERE,
                port: 30_000,
            },
            comes: &[],
            goes: &[
                (BOB, b"\x80\0\0\x02\0\0\0\0\x11\x11\x11\x11\x02"),
                (BOB, b"\x80\0\0\x03\0\0\0\0\x11\x11\x11\x11\x03"),
            ],
        },
        TablePort {
            at: Addr {
                ip: HERE,
                port: 30_002,
            },
            comes: &[
                (ALICE, b"\x80\0\0\x01\0\0\0\0\x11\x11\x11\x11\x01"),
                (ALICE, b"\x80\0\0\x02\0\0\0\0\x11\x11\x11\x11\x02"),
                (ALICE, b"\x80\0\0\x03\0\0\0\0\x11\x11\x11\x11\x03"),
            ],
            goes: &[],
        },
    ],
    relays: 3,
    reply: Some(
        b"2 d6:result2:ok3:sdp118:v=0\r\no=- 1 1 IN IP4 198.51.100.20\r\ns=-\r\nc=IN IP4 198.51.100.20\r\nt=0 0\r\nm=audio 30002 RTP/AVP 0\r\nc=IN IP4 203.0.113.1\r\ne",
    ),
    lines: &[b"turns 2 datagrams 2 replies 2 sent 2 refused 1 lost 0\n"],
    ..SERVING
};

#[test]
fn packets_are_relayed_once_a_call_is_answered(rt: HostRuntime) {
    check_case(&rt, rt.alloc(), 0, &TAKEN);
}

/// A call over the first pair of the range and the last, and three packets at each of their ports: for RTP and for RTCP, of the caller and of the
/// callee. Those that are taken after the offer are refused; those that are taken after the answer and at the end leave. The clock that hands
/// the moments of relays stands at 100,000, and the timer at 0.
const RANGE: Case = Case {
    words: &[
        "serve",
        "--interface=203.0.113.1",
        "--port-min=1025",
        "--port-max=1030",
        "--num-threads=0",
    ],
    asked: &[OFFER, ANSWER],
    clock: 100_000,
    ports: &[
        TablePort {
            at: Addr {
                ip: HERE,
                port: 1026,
            },
            comes: &[
                (BOB, b"\x80\0\0\x01\0\0\0\0\x22\x22\x22\x22bob 1"),
                (BOB, b"\x80\0\0\x02\0\0\0\0\x22\x22\x22\x22bob 2"),
                (BOB, b"\x80\0\0\x03\0\0\0\0\x22\x22\x22\x22bob 3"),
            ],
            goes: &[
                (BOB, b"\x80\0\0\x02\0\0\0\0\x11\x11\x11\x11alice 2"),
                (BOB, b"\x80\0\0\x03\0\0\0\0\x11\x11\x11\x11alice 3"),
            ],
        },
        TablePort {
            at: Addr {
                ip: HERE,
                port: 1027,
            },
            comes: &[
                (BOB_RTCP, b"\x80\xc8\0\x01\x22\x22\x22\x01"),
                (BOB_RTCP, b"\x80\xc8\0\x01\x22\x22\x22\x02"),
                (BOB_RTCP, b"\x80\xc8\0\x01\x22\x22\x22\x03"),
            ],
            goes: &[
                (BOB_RTCP, b"\x80\xc8\0\x01\x11\x11\x11\x02"),
                (BOB_RTCP, b"\x80\xc8\0\x01\x11\x11\x11\x03"),
            ],
        },
        TablePort {
            at: Addr {
                ip: HERE,
                port: 1028,
            },
            comes: &[
                (ALICE, b"\x80\0\0\x01\0\0\0\0\x11\x11\x11\x11alice 1"),
                (ALICE, b"\x80\0\0\x02\0\0\0\0\x11\x11\x11\x11alice 2"),
                (ALICE, b"\x80\0\0\x03\0\0\0\0\x11\x11\x11\x11alice 3"),
            ],
            goes: &[
                (ALICE, b"\x80\0\0\x02\0\0\0\0\x22\x22\x22\x22bob 2"),
                (ALICE, b"\x80\0\0\x03\0\0\0\0\x22\x22\x22\x22bob 3"),
            ],
        },
        TablePort {
            at: Addr {
                ip: HERE,
                port: 1029,
            },
            comes: &[
                (ALICE_RTCP, b"\x80\xc8\0\x01\x11\x11\x11\x01"),
                (ALICE_RTCP, b"\x80\xc8\0\x01\x11\x11\x11\x02"),
                (ALICE_RTCP, b"\x80\xc8\0\x01\x11\x11\x11\x03"),
            ],
            goes: &[
                (ALICE_RTCP, b"\x80\xc8\0\x01\x22\x22\x22\x02"),
                (ALICE_RTCP, b"\x80\xc8\0\x01\x22\x22\x22\x03"),
            ],
        },
    ],
    relays: 12,
    reply: Some(
        b"2 d6:result2:ok3:sdp117:v=0\r\no=- 1 1 IN IP4 198.51.100.20\r\ns=-\r\nc=IN IP4 198.51.100.20\r\nt=0 0\r\nm=audio 1028 RTP/AVP 0\r\nc=IN IP4 203.0.113.1\r\ne",
    ),
    lines: &[b"turns 2 datagrams 2 replies 2 sent 8 refused 4 lost 0\n"],
    ..SERVING
};

#[test]
fn packets_pass_at_both_ends_of_the_range(rt: HostRuntime) {
    check_case(&rt, rt.alloc(), 0, &RANGE);
}
