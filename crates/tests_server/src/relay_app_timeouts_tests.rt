//! Which calls a run of `serve` ends by itself.

use crate::relay_app_runs::{ANSWER, Case, OFFER, SERVING, check_cases};
use crate::table_devices::TablePort;
use relay_outside::{Addr, Ip};

const PING: &[u8] = b"3 d7:command4:pinge";

const DELETE: &[u8] = b"4 d7:call-id2:c17:command6:deletee";

/// A call that is not answered, and is deleted after a ping.
const OFFERED: Case = Case {
    words: &[
        "serve",
        "--interface=203.0.113.1",
        "--offer-timeout=5",
        "--num-threads=0",
    ],
    asked: &[OFFER, PING, DELETE],
    reply: Some(b"4 d6:result2:ok7:warning15:unknown call-ide"),
    lines: &[b"turns 3 datagrams 3 replies 3 sent 0 refused 0 lost 0\n"],
    ..SERVING
};

/// The same, where the call is there when it is deleted.
const OFFERED_STILL: Case = Case {
    reply: Some(b"4 d6:result2:oke"),
    ..OFFERED
};

/// The moments of the takes of the offer, of the ping and of the delete. The tick comes after the ping.
const OFFERS: &[Case] = &[
    Case {
        moments: &[7, 5_007, 5_007],
        ..OFFERED
    },
    Case {
        moments: &[7, 60_000, 60_000],
        ..OFFERED
    },
    // not due yet
    Case {
        moments: &[7, 5_006, 5_007],
        ..OFFERED_STILL
    },
    // the tick after the delete is too late
    Case {
        moments: &[7, 7, 5_007],
        ..OFFERED_STILL
    },
    // an hour where no word says another time
    Case {
        words: &["serve", "--interface=203.0.113.1", "--num-threads=0"],
        moments: &[7, 3_600_006, 3_600_007],
        ..OFFERED_STILL
    },
    Case {
        words: &["serve", "--interface=203.0.113.1", "--num-threads=0"],
        moments: &[7, 3_600_007, 3_600_007],
        ..OFFERED
    },
];

#[test]
fn an_offer_without_an_answer_ends(rt: HostRuntime) {
    check_cases(&rt, rt.alloc(), OFFERS);
}

/// A call that is answered, without a packet. Its offer would end after a second.
const ANSWERED: Case = Case {
    words: &[
        "serve",
        "--interface=203.0.113.1",
        "--timeout=3",
        "--offer-timeout=1",
        "--num-threads=0",
    ],
    asked: &[OFFER, ANSWER, PING, DELETE],
    reply: Some(b"4 d6:result2:ok7:warning15:unknown call-ide"),
    lines: &[b"turns 4 datagrams 4 replies 4 sent 0 refused 0 lost 0\n"],
    ..SERVING
};

/// The same, where the call is there when it is deleted.
const ANSWERED_STILL: Case = Case {
    reply: Some(b"4 d6:result2:oke"),
    ..ANSWERED
};

const ANSWERS: &[Case] = &[
    Case {
        moments: &[100_000, 100_000, 103_000, 103_000],
        ..ANSWERED
    },
    Case {
        moments: &[100_000, 100_000, 102_999, 103_000],
        ..ANSWERED_STILL
    },
    // a minute where no word says another time
    Case {
        words: &["serve", "--interface=203.0.113.1", "--num-threads=0"],
        moments: &[100_000, 100_000, 160_000, 160_000],
        ..ANSWERED
    },
    Case {
        words: &["serve", "--interface=203.0.113.1", "--num-threads=0"],
        moments: &[100_000, 100_000, 159_999, 160_000],
        ..ANSWERED_STILL
    },
];

#[test]
fn an_answered_call_without_packets_ends(rt: HostRuntime) {
    check_cases(&rt, rt.alloc(), ANSWERS);
}

const ALICE: Addr = Addr {
    ip: Ip::V4([192, 0, 2, 10]),
    port: 6000,
};

const BOB: Addr = Addr {
    ip: Ip::V4([198, 51, 100, 20]),
    port: 7000,
};

/// The interface of the proxy.
const HERE: Ip = Ip::V4([203, 0, 113, 1]);

/// A packet of the caller is relayed after the answer and one after the ping, both at the moment of the clock, after one that was refused.
const TALKED: Case = Case {
    clock: 102_000,
    ports: &[
        TablePort {
            at: Addr {
                ip: HERE,
                port: 30_000,
            },
            comes: &[],
            goes: &[
                (BOB, b"\x80\0\0\x02\0\0\0\0\x11\x11\x11\x11\x02"),
                (BOB, b"\x80\0\0\x03\0\0\0\0\x11\x11\x11\x11\x03"),
            ],
        },
        TablePort {
            at: Addr {
                ip: HERE,
                port: 30_002,
            },
            comes: &[
                (ALICE, b"\x80\0\0\x01\0\0\0\0\x11\x11\x11\x11\x01"),
                (ALICE, b"\x80\0\0\x02\0\0\0\0\x11\x11\x11\x11\x02"),
                (ALICE, b"\x80\0\0\x03\0\0\0\0\x11\x11\x11\x11\x03"),
            ],
            goes: &[],
        },
    ],
    relays: 3,
    lines: &[b"turns 4 datagrams 4 replies 4 sent 2 refused 1 lost 0\n"],
    ..ANSWERED
};

const PACKETS: &[Case] = &[
    Case {
        moments: &[100_000, 100_000, 104_999, 105_000],
        reply: Some(b"4 d6:result2:oke"),
        ..TALKED
    },
    Case {
        moments: &[100_000, 100_000, 105_000, 105_000],
        ..TALKED
    },
];

#[test]
fn a_packet_keeps_its_call(rt: HostRuntime) {
    check_cases(&rt, rt.alloc(), PACKETS);
}
