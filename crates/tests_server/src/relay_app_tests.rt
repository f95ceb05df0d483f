use crate::relay_app_runs::{ANSWER, Case, OFFER, SERVING, check_cases};
use relay_app::Status;
use relay_outside::{Addr, Ip};

/// Datagrams and their replies.
const REPLIED: &[Case] = &[
    Case {
        asked: &[b"5323_1 d7:command4:pinge"],
        reply: Some(b"5323_1 d6:result4:ponge"),
        ..ASKED_ONCE
    },
    Case {
        asked: &[b"1 d7:command3:fooe"],
        reply: Some(b"1 d12:error-reason20:unrecognized command6:result5:errore"),
        ..ASKED_ONCE
    },
    Case {
        asked: &[b"2 d3:fooe"],
        reply: Some(b"2 d12:error-reason20:malformed dictionary6:result5:errore"),
        ..ASKED_ONCE
    },
    Case {
        asked: &[b"3 de"],
        reply: Some(b"3 d12:error-reason10:no command6:result5:errore"),
        ..ASKED_ONCE
    },
    Case {
        asked: &[b"4 d7:command5:querye"],
        reply: Some(b"4 d12:error-reason29:missing or wrong key: call-id6:result5:errore"),
        ..ASKED_ONCE
    },
    Case {
        asked: &[
            b"6 d7:call-id2:c17:command5:offer8:from-tag1:a7:replacel6:origin18:session connectione3:sdp129:v=0\r\no=alice 1 1 IN IP4 192.0.2.10\r\ns=-\r\nc=IN IP4 192.0.2.10\r\nt=0 0\r\nm=audio 6000 RTP/AVP 0 8\r\na=rtpmap:0 PCMU/8000\r\na=sendrecv\r\ne",
        ],
        reply: Some(
            b"6 d6:result2:ok3:sdp154:v=0\r\no=alice 1 1 IN IP4 203.0.113.1\r\ns=-\r\nc=IN IP4 203.0.113.1\r\nt=0 0\r\nm=audio 30000 RTP/AVP 0 8\r\nc=IN IP4 203.0.113.1\r\na=rtpmap:0 PCMU/8000\r\na=sendrecv\r\ne",
        ),
        ..ASKED_ONCE
    },
    Case {
        asked: &[b"7 d7:call-id2:c17:command6:deletee"],
        reply: Some(b"7 d6:result2:ok7:warning15:unknown call-ide"),
        ..ASKED_ONCE
    },
    Case {
        asked: &[b"5 d7:command4:liste"],
        reply: Some(b"5 d5:callsle6:result2:oke"),
        ..ASKED_ONCE
    },
    Case {
        asked: &[b"8 d7:call-id2:c17:command5:querye"],
        reply: Some(b"8 d12:error-reason15:unknown call-id6:result5:errore"),
        ..ASKED_ONCE
    },
];

/// A run in which one datagram gets a reply.
const ASKED_ONCE: Case = Case {
    lines: &[b"turns 1 datagrams 1 replies 1 sent 0 refused 0 lost 0\n"],
    ..SERVING
};

#[test]
fn each_datagram_gets_its_reply(rt: HostRuntime) {
    check_cases(&rt, rt.alloc(), REPLIED);
}

/// Three datagrams with one cookie, of which the first is a ping, and the moments of their takes. The reply to the third is that to the
/// first, or its own.
const TIMED: &[Case] = &[
    Case {
        moments: &[0, 0, 59_999],
        ..KEPT
    },
    Case {
        moments: &[0, 59_999, 60_000],
        ..ANEW
    },
    Case {
        moments: &[7, 60_006, 60_006],
        ..KEPT
    },
    Case {
        moments: &[7, 0, 60_007],
        ..ANEW
    },
    Case {
        moments: &[60_000, 0, 119_999],
        ..KEPT
    },
];

const KEPT: Case = Case {
    asked: &[
        b"5 d7:command4:pinge",
        b"5 d7:command3:fooe",
        b"5 d7:command3:fooe",
    ],
    reply: Some(b"5 d6:result4:ponge"),
    lines: &[b"turns 3 datagrams 3 replies 3 sent 0 refused 0 lost 0\n"],
    ..SERVING
};

const ANEW: Case = Case {
    reply: Some(b"5 d12:error-reason20:unrecognized command6:result5:errore"),
    ..KEPT
};

#[test]
fn the_timer_gives_one_moment_for_each_take(rt: HostRuntime) {
    check_cases(&rt, rt.alloc(), TIMED);
}

/// Datagrams without a frame.
const SILENT: &[Case] = &[
    Case {
        asked: &[b"abc"],
        ..UNANSWERED
    },
    Case {
        asked: &[b""],
        ..UNANSWERED
    },
    Case {
        asked: &[b" d7:command4:pinge"],
        ..UNANSWERED
    },
];

/// A run in which one datagram gets no reply.
const UNANSWERED: Case = Case {
    lines: &[b"turns 1 datagrams 1 replies 0 sent 0 refused 0 lost 0\n"],
    ..SERVING
};

#[test]
fn a_datagram_without_a_frame_gets_silence(rt: HostRuntime) {
    check_cases(&rt, rt.alloc(), SILENT);
}

/// Ten pings, of which the turns don't reach the last.
const SPENT: &[Case] = &[
    Case {
        words: &[
            "serve",
            "--turns=1",
            "--interface=203.0.113.1",
            "--listen-ng=127.0.0.1:7000",
        ],
        lines: &[b"turns 1 datagrams 1 replies 1 sent 0 refused 0 lost 0\n"],
        ..PINGED
    },
    Case {
        words: &[
            "serve",
            "--turns=9",
            "--interface=203.0.113.1",
            "--listen-ng=127.0.0.1:7000",
        ],
        lines: &[b"turns 9 datagrams 9 replies 9 sent 0 refused 0 lost 0\n"],
        ..PINGED
    },
];

const PING: &[u8] = b"5323_1 d7:command4:pinge";

const PINGED: Case = Case {
    asked: &[PING; 10],
    status: Status::TurnsSpent,
    bound: Some(Addr {
        ip: Ip::V4([127, 0, 0, 1]),
        port: 7000,
    }),
    reply: Some(b"5323_1 d6:result4:ponge"),
    ..SERVING
};

#[test]
fn the_turns_are_spent(rt: HostRuntime) {
    check_cases(&rt, rt.alloc(), SPENT);
}

/// A ping, where the link is bound by its first call, asked by its second and replies by its third.
const FAULTY: &[Case] = &[
    // a bind that fails prints no line
    Case {
        link_fails: 1,
        status: Status::ControlFault,
        bound: None,
        reply: None,
        lines: &[],
        ..ONE_PING
    },
    Case {
        link_fails: 2,
        status: Status::ControlFault,
        reply: None,
        lines: &[b"turns 0 datagrams 0 replies 0 sent 0 refused 0 lost 0\n"],
        ..ONE_PING
    },
    Case {
        link_fails: 3,
        reply: None,
        lines: &[b"turns 1 datagrams 1 replies 0 sent 0 refused 0 lost 0\n"],
        ..ONE_PING
    },
    Case {
        write_fails: 1,
        status: Status::PrintFault,
        ..ONE_PING
    },
    Case {
        link_fails: 2,
        write_fails: 1,
        status: Status::PrintFault,
        reply: None,
        lines: &[b"turns 0 datagrams 0 replies 0 sent 0 refused 0 lost 0\n"],
        ..ONE_PING
    },
];

const ONE_PING: Case = Case {
    asked: &[PING],
    reply: Some(b"5323_1 d6:result4:ponge"),
    ..ASKED_ONCE
};

#[test]
fn faults_end_the_run_or_are_counted_out(rt: HostRuntime) {
    check_cases(&rt, rt.alloc(), FAULTY);
}

/// An answered call, and a third take that fails: the run ends, and closes the ports of the call.
const FAILING_THIRD_TAKE: &[Case] = &[Case {
    asked: &[OFFER, ANSWER],
    link_fails: 6,
    status: Status::ControlFault,
    reply: Some(
        b"2 d6:result2:ok3:sdp118:v=0\r\no=- 1 1 IN IP4 198.51.100.20\r\ns=-\r\nc=IN IP4 198.51.100.20\r\nt=0 0\r\nm=audio 30002 RTP/AVP 0\r\nc=IN IP4 203.0.113.1\r\ne",
    ),
    lines: &[b"turns 2 datagrams 2 replies 2 sent 0 refused 0 lost 0\n"],
    ..SERVING
}];

#[test]
fn a_failing_take_ends_the_run_with_its_calls(rt: HostRuntime) {
    check_cases(&rt, rt.alloc(), FAILING_THIRD_TAKE);
}

const NUMBERS: &[(Status, u8)] = &[
    (Status::Ok, 0),
    (Status::Usage, 2),
    (Status::ControlFault, 3),
    (Status::PrintFault, 4),
    (Status::OutOfMemory, 5),
    (Status::ScriptFault, 6),
    (Status::TurnsSpent, 7),
    (Status::ScriptRead, 8),
];

#[test]
fn statuses_have_their_numbers(rt: HostRuntime) {
    for (status, number) in NUMBERS {
        assert!(rt; status.number() == *number);
    }
}
