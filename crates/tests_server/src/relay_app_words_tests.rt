//! Which words are accepted, and what a run makes of them.

use crate::relay_app_runs::{Case, OFFER, REFUSED, REPLAYING, SERVING, check_case, check_cases};
use relay_outside::{Addr, Ip};

const INTERFACE: &str = "--interface=203.0.113.1";

const LOCAL: [u8; 4] = [127, 0, 0, 1];

/// Words of `serve` that are accepted, and the address and the port to which they bind the link.
const SERVED: &[(&[&str], [u8; 4], u16)] = &[
    // what is left out has its default
    (&["serve", INTERFACE], LOCAL, 2223),
    // each option may be given
    (
        &[
            "serve",
            "--max-sessions=77",
            "--offer-timeout=86400",
            "--timeout=1",
            "--turns=9",
            "--port-max=5101",
            "--listen-ng=192.0.2.5:7000",
            "--port-min=5000",
            INTERFACE,
        ],
        [192, 0, 2, 5],
        7000,
    ),
    (&["serve", "--interface=203.000.113.001"], LOCAL, 2223),
    (
        &[
            "serve",
            "--turns=1000000000000000",
            "--interface=0.0.0.0",
            "--listen-ng=255.255.255.255:65535",
        ],
        [255; 4],
        65_535,
    ),
    (&["serve", INTERFACE, "--listen-ng=127.0.0.1:0"], LOCAL, 0),
    // numbers within their limits
    (
        &["serve", INTERFACE, "--port-min=1024", "--port-max=65535"],
        LOCAL,
        2223,
    ),
    (
        &["serve", INTERFACE, "--port-min=1024", "--port-max=1025"],
        LOCAL,
        2223,
    ),
    (
        &["serve", INTERFACE, "--port-min=65534", "--port-max=65535"],
        LOCAL,
        2223,
    ),
    (
        &["serve", INTERFACE, "--port-min=30001", "--port-max=30003"],
        LOCAL,
        2223,
    ),
    (&["serve", INTERFACE, "--port-min=39998"], LOCAL, 2223),
    (&["serve", INTERFACE, "--port-max=30001"], LOCAL, 2223),
    (&["serve", INTERFACE, "--max-sessions=1"], LOCAL, 2223),
    (&["serve", INTERFACE, "--max-sessions=2048"], LOCAL, 2223),
    (
        &["serve", INTERFACE, "--timeout=86400", "--offer-timeout=1"],
        LOCAL,
        2223,
    ),
    (&["serve", INTERFACE, "--num-threads=0"], LOCAL, 2223),
    (&["serve", INTERFACE, "--num-threads=1"], LOCAL, 2223),
    (&["serve", INTERFACE, "--num-threads=16"], LOCAL, 2223),
    // a value as a word of its own
    (&["serve", "--interface", "203.0.113.1"], LOCAL, 2223),
    (&["serve", "--turns", "9", INTERFACE], LOCAL, 2223),
    // a leading zero, a plus
    (&["serve", INTERFACE, "--num-threads=00"], LOCAL, 2223),
    (&["serve", INTERFACE, "--num-threads=01"], LOCAL, 2223),
    (&["serve", INTERFACE, "--turns=01"], LOCAL, 2223),
    (&["serve", INTERFACE, "--port-min=01024"], LOCAL, 2223),
    (&["serve", INTERFACE, "--port-max=040000"], LOCAL, 2223),
    (&["serve", INTERFACE, "--max-sessions=01"], LOCAL, 2223),
    (&["serve", INTERFACE, "--port-min=+1024"], LOCAL, 2223),
];

/// Words of `replay` that are accepted.
const REPLAYED: &[&[&str]] = &[
    &["replay"],
    &["replay", INTERFACE],
    &[
        "replay",
        "--port-max=5101",
        "--seed=18446744073709551615",
        "--interface=198.51.100.7",
        "--port-min=5000",
        "--max-sessions=77",
    ],
    &["replay", "--seed=0"],
    &["replay", "--seed=1"],
    &["replay", "--seed=10"],
    &["replay", "--seed=4294967296"],
    &["replay", "--seed=18446744073709551615"],
    &["replay", "--seed", "7"],
    &["replay", "--seed=01"],
    &["replay", "--seed=00", "--port-min=30000"],
    &["replay", "--seed=01", "--port-min=30000"],
    &["replay", "--seed=+1", "--port-min=30000"],
];

/// Words that are refused: no command, no address, or a range of ports without a pair.
const OTHERS: &[&[&str]] = &[
    // no command, or another
    &[],
    &[""],
    &["Load"],
    &["loads"],
    &["Replay"],
    &["replays"],
    &["repla"],
    &[INTERFACE, "serve"],
    // no interface, or none of version 4
    &["serve", "--interface=203.0.113"],
    &["serve", "--interface=203.0.113.256"],
    &["serve", "--interface=203.0.113.1.1"],
    &["replay", "--interface=", "--port-min=30000"],
    &["replay", "--interface=2001:db8::1", "--port-min=30000"],
    // no address to listen at
    &["serve", INTERFACE, "--listen-ng=127.0.0.1"],
    &["serve", INTERFACE, "--listen-ng=127.0.0.1:65536"],
    // a range without an even port and the next one
    &["serve", INTERFACE, "--port-min=1025", "--port-max=1026"],
    &["serve", INTERFACE, "--port-min=30001", "--port-max=30001"],
    &["serve", INTERFACE, "--port-min=30002", "--port-max=30002"],
    &["serve", INTERFACE, "--port-min=65535", "--port-max=65535"],
    &["serve", INTERFACE, "--port-min=39999"],
    &["serve", INTERFACE, "--port-max=30000"],
    &["replay", "--port-min=39999", "--seed=1"],
    // the least above the greatest
    &["serve", INTERFACE, "--port-min=40000", "--port-max=30000"],
    &["serve", INTERFACE, "--port-min=30002", "--port-max=30001"],
    &["serve", INTERFACE, "--port-min=40001"],
];

/// Words that are refused as no options of their command.
const OPTIONS: &[&[&str]] = &[
    // no command, or another
    &["serve", INTERFACE, "serve"],
    &["replay", "replay", "--seed=1"],
    &["replay", "", "--seed=1"],
    &["load", "load", "--seed=1"],
    // no interface, or none of version 4
    &["serve"],
    &["serve", "--port-min=1024"],
    &["serve", "--interface"],
    // options of the other command
    &["serve", INTERFACE, "--seed=1"],
    &["replay", "--turns=1"],
    &["replay", "--turns=9", "--port-min=30000"],
    &["replay", "--listen-ng=127.0.0.1:2223", "--port-min=30000"],
    &["replay", "--calls=1"],
    &["load", INTERFACE],
    &["load", "--port-min=30000"],
    &["load", "--num-threads=1"],
    // out of limits
    &["serve", INTERFACE, "--num-threads"],
    &["serve", INTERFACE, "--num-threads="],
    &["serve", INTERFACE, "--num-threads=17"],
    &["serve", INTERFACE, "--num-threads=-1"],
    &["serve", INTERFACE, "--num-threads=0", "--num-threads=0"],
    &["replay", "--num-threads=0"],
    &["serve", INTERFACE, "--turns=0"],
    &["serve", INTERFACE, "--turns=1000000000000001"],
    &["serve", INTERFACE, "--port-min=1023"],
    &["serve", INTERFACE, "--port-min=65536"],
    &["serve", INTERFACE, "--port-max=1023"],
    &["serve", INTERFACE, "--port-max=65536"],
    &["serve", INTERFACE, "--max-sessions=0"],
    &["serve", INTERFACE, "--max-sessions=2049"],
    &["serve", INTERFACE, "--timeout=0"],
    &["serve", INTERFACE, "--timeout=86401"],
    &["serve", INTERFACE, "--offer-timeout=0"],
    &["serve", INTERFACE, "--offer-timeout=86401"],
    &["replay", "--port-min=1023", "--seed=1"],
    &["replay", "--max-sessions=2049", "--seed=1"],
    &["replay", "--seed=18446744073709551616", "--port-min=30000"],
    &[
        "replay",
        "--seed=99999999999999999999999999999999999999999",
        "--port-min=30000",
    ],
    &["load", "--calls=0"],
    &["load", "--calls=1001"],
    &["load", "--packets=0"],
    &["load", "--packets=1001"],
    &["load", "--lanes=0"],
    &["load", "--lanes=17"],
    &["load", "--lanes", "17"],
    &["load", "--seed=18446744073709551616"],
    // a leading zero, a sign, no digits
    &["serve", INTERFACE, "--port-max=40000 "],
    &["serve", INTERFACE, "--max-sessions=0x10"],
    &["serve", INTERFACE, "--port-min="],
    &["serve", INTERFACE, "--port-max="],
    &["serve", INTERFACE, "--max-sessions="],
    &["serve", INTERFACE, "--max-sessions"],
    &["replay", "--seed=-1", "--port-min=30000"],
    &["replay", "--seed=1 ", "--port-min=30000"],
    &["replay", "--seed=0x1", "--port-min=30000"],
    &["replay", "--seed=", "--port-min=30000"],
    &["replay", "--seed", "--port-min=30000"],
    &["load", "--calls=-1"],
    &["load", "--packets="],
    &["load", "--lanes"],
    // twice
    &["serve", INTERFACE, INTERFACE],
    &["serve", INTERFACE, "--port-min=30000", "--port-min=30000"],
    &["serve", INTERFACE, "--port-max=40000", "--port-max=40000"],
    &[
        "serve",
        INTERFACE,
        "--max-sessions=2048",
        "--max-sessions=2048",
    ],
    &["replay", INTERFACE, INTERFACE],
    &["replay", "--seed=1", "--seed=1"],
    &["load", "--calls=1", "--calls=1"],
    &["load", "--lanes=1", "--lanes", "1"],
];

#[test]
fn accepted_words_of_serve_bind_the_link(rt: HostRuntime) {
    for (place, (words, ip, port)) in SERVED.iter().enumerate() {
        let at = Addr {
            ip: Ip::V4(*ip),
            port: *port,
        };
        let case = Case {
            words: *words,
            bound: Some(at),
            ..SERVING
        };
        check_case(&rt, rt.alloc(), place, &case);
    }
}

#[test]
fn accepted_words_of_replay_read_the_script(rt: HostRuntime) {
    for (place, words) in REPLAYED.iter().enumerate() {
        let case = Case {
            words: *words,
            ..REPLAYING
        };
        check_case(&rt, rt.alloc(), place, &case);
    }
}

#[test]
fn other_words_print_the_usage(rt: HostRuntime) {
    for (place, words) in OTHERS.iter().enumerate() {
        let case = Case {
            words: *words,
            ..REFUSED
        };
        check_case(&rt, rt.alloc(), place, &case);
    }
}

#[test]
fn other_options_print_the_usage_and_what_is_wrong(rt: HostRuntime) {
    for (place, words) in OPTIONS.iter().enumerate() {
        let case = Case {
            words: *words,
            lines: &[b"usage: rtpengine", b"error: "],
            ..REFUSED
        };
        check_case(&rt, rt.alloc(), place, &case);
    }
}

/// The reply to an offer of one section, which needs two pairs of ports.
const OFFERED: &[Case] = &[
    Case {
        words: &["serve", INTERFACE],
        reply: Some(
            b"1 d6:result2:ok3:sdp112:v=0\r\no=- 1 1 IN IP4 192.0.2.10\r\ns=-\r\nc=IN IP4 192.0.2.10\r\nt=0 0\r\nm=audio 30000 RTP/AVP 0\r\nc=IN IP4 203.0.113.1\r\ne",
        ),
        ..ONE_OFFER
    },
    Case {
        words: &[
            "serve",
            "--interface=0.0.0.0",
            "--port-min=5000",
            "--port-max=5101",
        ],
        reply: Some(
            b"1 d6:result2:ok3:sdp107:v=0\r\no=- 1 1 IN IP4 192.0.2.10\r\ns=-\r\nc=IN IP4 192.0.2.10\r\nt=0 0\r\nm=audio 5000 RTP/AVP 0\r\nc=IN IP4 0.0.0.0\r\ne",
        ),
        ..ONE_OFFER
    },
    // the edges of the range
    Case {
        words: &["serve", INTERFACE, "--port-min=1024", "--port-max=65535"],
        reply: Some(
            b"1 d6:result2:ok3:sdp111:v=0\r\no=- 1 1 IN IP4 192.0.2.10\r\ns=-\r\nc=IN IP4 192.0.2.10\r\nt=0 0\r\nm=audio 1024 RTP/AVP 0\r\nc=IN IP4 203.0.113.1\r\ne",
        ),
        ..ONE_OFFER
    },
    Case {
        words: &["serve", INTERFACE, "--port-min=1024", "--port-max=1025"],
        ..NO_PAIR
    },
    Case {
        words: &["serve", INTERFACE, "--port-min=65534", "--port-max=65535"],
        ..NO_PAIR
    },
    Case {
        words: &["serve", INTERFACE, "--port-min=30001", "--port-max=30003"],
        ..NO_PAIR
    },
    Case {
        words: &["serve", INTERFACE, "--port-min=30001", "--port-max=30005"],
        reply: Some(
            b"1 d6:result2:ok3:sdp112:v=0\r\no=- 1 1 IN IP4 192.0.2.10\r\ns=-\r\nc=IN IP4 192.0.2.10\r\nt=0 0\r\nm=audio 30002 RTP/AVP 0\r\nc=IN IP4 203.0.113.1\r\ne",
        ),
        ..ONE_OFFER
    },
    Case {
        words: &["serve", INTERFACE, "--port-min=39998"],
        ..NO_PAIR
    },
    Case {
        words: &["serve", INTERFACE, "--port-min=39996"],
        reply: Some(
            b"1 d6:result2:ok3:sdp112:v=0\r\no=- 1 1 IN IP4 192.0.2.10\r\ns=-\r\nc=IN IP4 192.0.2.10\r\nt=0 0\r\nm=audio 39996 RTP/AVP 0\r\nc=IN IP4 203.0.113.1\r\ne",
        ),
        ..ONE_OFFER
    },
    Case {
        words: &["serve", INTERFACE, "--port-max=30001"],
        ..NO_PAIR
    },
];

const ONE_OFFER: Case = Case {
    asked: &[OFFER],
    lines: &[b"turns 1 datagrams 1 replies 1 sent 0 refused 0 lost 0\n"],
    ..SERVING
};

const NO_PAIR: Case = Case {
    reply: Some(b"1 d12:error-reason17:no free port pair6:result5:errore"),
    ..ONE_OFFER
};

#[test]
fn offers_get_the_ports_of_the_words(rt: HostRuntime) {
    check_cases(&rt, rt.alloc(), OFFERED);
}

/// Offers of more calls than one, and the reply to the last.
const LIVE: &[Case] = &[
    Case {
        words: &["serve", INTERFACE, "--max-sessions=1"],
        asked: &[
            OFFER,
            b"3 d7:call-id2:c27:command5:offer8:from-tag1:a3:sdp89:v=0\r\no=- 1 1 IN IP4 192.0.2.10\r\ns=-\r\nc=IN IP4 192.0.2.10\r\nt=0 0\r\nm=audio 6000 RTP/AVP 0\r\ne",
        ],
        reply: Some(b"3 d12:error-reason21:session limit reached6:result5:errore"),
        lines: &[b"turns 2 datagrams 2 replies 2 sent 0 refused 0 lost 0\n"],
        ..SERVING
    },
    Case {
        words: &["serve", INTERFACE, "--max-sessions=77"],
        offers: 77,
        reply: Some(
            b"1_0076 d6:result2:ok3:sdp112:v=0\r\no=- 1 1 IN IP4 192.0.2.10\r\ns=-\r\nc=IN IP4 192.0.2.10\r\nt=0 0\r\nm=audio 30304 RTP/AVP 0\r\nc=IN IP4 203.0.113.1\r\ne",
        ),
        lines: &[b"turns 77 datagrams 77 replies 77 sent 0 refused 0 lost 0\n"],
        ..SERVING
    },
    Case {
        words: &["serve", INTERFACE, "--max-sessions=77"],
        offers: 78,
        reply: Some(b"1_0077 d12:error-reason21:session limit reached6:result5:errore"),
        lines: &[b"turns 78 datagrams 78 replies 78 sent 0 refused 0 lost 0\n"],
        ..SERVING
    },
    // beside 2,048 live calls 4,096 replies are kept
    Case {
        words: &["serve", INTERFACE, "--max-sessions=2048"],
        offers: 4096,
        reply: Some(b"1_4095 d12:error-reason21:session limit reached6:result5:errore"),
        lines: &[b"turns 4096 datagrams 4096 replies 4096 sent 0 refused 0 lost 0\n"],
        ..SERVING
    },
];

#[test]
fn as_many_calls_are_live_as_the_words_say(rt: HostRuntime) {
    check_cases(&rt, rt.alloc(), LIVE);
}

/// What the words of a replay say: the interface, the first port, and the first two keys of the seed's ChaCha20 stream stand in the reply to an
/// offer; and how many calls may be live.
const REPLIES: &[Case] = &[
    Case {
        words: &["replay"],
        lines: &[
            b"reply 192.0.2.9:5060 t:1 d6:result2:ok3:sdp281:v=0\\x0d\\x0ao=- 1 1 IN IP4 192.0.2.10\\x0d\\x0as=-\\x0d\\x0ac=IN IP4 192.0.2.10\\x0d\\x0at=0 0\\x0d\\x0am=audio 30000 RTP/SAVP 0\\x0d\\x0ac=IN IP4 203.0.113.1\\x0d\\x0aa=crypto:1 AES_CM_128_HMAC_SHA1_80 inline:xdMKfOHsEZN4yE9IfXdahULxPs4jipRV6CKeiI3o\\x0d\\x0aa=crypto:2 AES_CM_128_HMAC_SHA1_32 inline:Ketj0KF6W5mbUtoivkAj6wdiClT2+mrYc3tx6wRk\\x0d\\x0ae\n",
        ],
        ..ONE_REPLY
    },
    Case {
        words: &[
            "replay",
            "--port-max=5101",
            "--seed=18446744073709551615",
            "--interface=198.51.100.7",
            "--port-min=5000",
            "--max-sessions=77",
        ],
        lines: &[
            b"reply 192.0.2.9:5060 t:1 d6:result2:ok3:sdp281:v=0\\x0d\\x0ao=- 1 1 IN IP4 192.0.2.10\\x0d\\x0as=-\\x0d\\x0ac=IN IP4 192.0.2.10\\x0d\\x0at=0 0\\x0d\\x0am=audio 5000 RTP/SAVP 0\\x0d\\x0ac=IN IP4 198.51.100.7\\x0d\\x0aa=crypto:1 AES_CM_128_HMAC_SHA1_80 inline:P6Lua9pTQeskQor8KuU2OAmSI/M7tE5D89X+nEpN\\x0d\\x0aa=crypto:2 AES_CM_128_HMAC_SHA1_32 inline:+30H0vlfNDquUVaWfdgb1DX9WCY+j6Q8NFysBagu\\x0d\\x0ae\n",
        ],
        ..ONE_REPLY
    },
    Case {
        words: &["replay", "--seed=0"],
        lines: &[
            b"reply 192.0.2.9:5060 t:1 d6:result2:ok3:sdp281:v=0\\x0d\\x0ao=- 1 1 IN IP4 192.0.2.10\\x0d\\x0as=-\\x0d\\x0ac=IN IP4 192.0.2.10\\x0d\\x0at=0 0\\x0d\\x0am=audio 30000 RTP/SAVP 0\\x0d\\x0ac=IN IP4 203.0.113.1\\x0d\\x0aa=crypto:1 AES_CM_128_HMAC_SHA1_80 inline:drjgraDxPZBAXWrlU4a9KL3SGbigje0aqDbvzIt3\\x0d\\x0aa=crypto:2 AES_CM_128_HMAC_SHA1_32 inline:2kFZfFFXSI13JOA/uNhKN2pDuPQVGKEcw4e2abLu\\x0d\\x0ae\n",
        ],
        ..ONE_REPLY
    },
    Case {
        words: &["replay", "--seed=1"],
        lines: &[
            b"reply 192.0.2.9:5060 t:1 d6:result2:ok3:sdp281:v=0\\x0d\\x0ao=- 1 1 IN IP4 192.0.2.10\\x0d\\x0as=-\\x0d\\x0ac=IN IP4 192.0.2.10\\x0d\\x0at=0 0\\x0d\\x0am=audio 30000 RTP/SAVP 0\\x0d\\x0ac=IN IP4 203.0.113.1\\x0d\\x0aa=crypto:1 AES_CM_128_HMAC_SHA1_80 inline:xdMKfOHsEZN4yE9IfXdahULxPs4jipRV6CKeiI3o\\x0d\\x0aa=crypto:2 AES_CM_128_HMAC_SHA1_32 inline:Ketj0KF6W5mbUtoivkAj6wdiClT2+mrYc3tx6wRk\\x0d\\x0ae\n",
        ],
        ..ONE_REPLY
    },
    Case {
        words: &["replay", "--seed=10"],
        lines: &[
            b"reply 192.0.2.9:5060 t:1 d6:result2:ok3:sdp281:v=0\\x0d\\x0ao=- 1 1 IN IP4 192.0.2.10\\x0d\\x0as=-\\x0d\\x0ac=IN IP4 192.0.2.10\\x0d\\x0at=0 0\\x0d\\x0am=audio 30000 RTP/SAVP 0\\x0d\\x0ac=IN IP4 203.0.113.1\\x0d\\x0aa=crypto:1 AES_CM_128_HMAC_SHA1_80 inline:+tFFgyV6t7SP0VnhKo6LzOUqx9AP8r196j3PSMBe\\x0d\\x0aa=crypto:2 AES_CM_128_HMAC_SHA1_32 inline:fRVIEDjV8rPowOS2sRMXGk1qFBZAWz83ebW/o7f0\\x0d\\x0ae\n",
        ],
        ..ONE_REPLY
    },
    Case {
        words: &["replay", "--seed=4294967296"],
        lines: &[
            b"reply 192.0.2.9:5060 t:1 d6:result2:ok3:sdp281:v=0\\x0d\\x0ao=- 1 1 IN IP4 192.0.2.10\\x0d\\x0as=-\\x0d\\x0ac=IN IP4 192.0.2.10\\x0d\\x0at=0 0\\x0d\\x0am=audio 30000 RTP/SAVP 0\\x0d\\x0ac=IN IP4 203.0.113.1\\x0d\\x0aa=crypto:1 AES_CM_128_HMAC_SHA1_80 inline:zvO4teocn1oa/KdrVjfLP6T3hIjZ9AGhwbI7lahi\\x0d\\x0aa=crypto:2 AES_CM_128_HMAC_SHA1_32 inline:FPwbm6w/N/SHIdOmCydNPYKfMMlxTKRpvdVkyON4\\x0d\\x0ae\n",
        ],
        ..ONE_REPLY
    },
    Case {
        words: &["replay", "--seed=18446744073709551615"],
        lines: &[
            b"reply 192.0.2.9:5060 t:1 d6:result2:ok3:sdp281:v=0\\x0d\\x0ao=- 1 1 IN IP4 192.0.2.10\\x0d\\x0as=-\\x0d\\x0ac=IN IP4 192.0.2.10\\x0d\\x0at=0 0\\x0d\\x0am=audio 30000 RTP/SAVP 0\\x0d\\x0ac=IN IP4 203.0.113.1\\x0d\\x0aa=crypto:1 AES_CM_128_HMAC_SHA1_80 inline:P6Lua9pTQeskQor8KuU2OAmSI/M7tE5D89X+nEpN\\x0d\\x0aa=crypto:2 AES_CM_128_HMAC_SHA1_32 inline:+30H0vlfNDquUVaWfdgb1DX9WCY+j6Q8NFysBagu\\x0d\\x0ae\n",
        ],
        ..ONE_REPLY
    },
    Case {
        words: &["replay", "--max-sessions=1"],
        script: &[
            b"ng 192.0.2.9:5060 t:3 d7:call-id2:c27:command5:offer8:from-tag1:a3:sdp89:v=0\\r\\no=- 1 1 IN IP4 192.0.2.10\\r\\ns=-\\r\\nc=IN IP4 192.0.2.10\\r\\nt=0 0\\r\\nm=audio 6000 RTP/AVP 0\\r\\ne",
            SECURED,
        ],
        lines: &[
            b"reply 192.0.2.9:5060 t:3 d6:result2:ok3:sdp112:v=0\\x0d\\x0ao=- 1 1 IN IP4 192.0.2.10\\x0d\\x0as=-\\x0d\\x0ac=IN IP4 192.0.2.10\\x0d\\x0at=0 0\\x0d\\x0am=audio 30000 RTP/AVP 0\\x0d\\x0ac=IN IP4 203.0.113.1\\x0d\\x0ae\n",
            b"reply 192.0.2.9:5060 t:1 d12:error-reason21:session limit reached6:result5:errore\n",
        ],
        ..REPLAYING
    },
];

const ONE_REPLY: Case = Case {
    script: &[SECURED],
    ..REPLAYING
};

/// An offer for whose other side SRTP is written.
const SECURED: &[u8] =
    b"ng 192.0.2.9:5060 t:1 d7:call-id2:c17:command5:offer8:from-tag1:a3:sdp89:v=0\\r\\no=- 1 1 IN IP4 192.0.2.10\\r\\ns=-\\r\\nc=IN IP4 192.0.2.10\\r\\nt=0 0\\r\\nm=audio 6000 RTP/AVP 0\\r\\n18:transport protocol8:RTP/SAVPe";

#[test]
fn a_replay_has_the_settings_of_its_words(rt: HostRuntime) {
    check_cases(&rt, rt.alloc(), REPLIES);
}
