//! A server over devices of tables, from its start to its close. Its replies to other datagrams are shown by scripts, which
//! `check_scripts` plays.

use crate::relay_app_runs::OFFER;
use crate::table_devices::{SameKey, TableLink, TablePort, TablePorts};
use ng_server::{ControlTurn, Desk, Server};
use relay_outside::{Addr, Config, Ip};
use std::alloc::Global;
use std::process::Abort;
use std::sync::Wait;

const HERE: Ip = Ip::V4([203, 0, 113, 1]);

const CONFIG: Config = Config {
    interface: HERE,
    interface6: None,
    port_min: 30_000,
    port_max: 40_000,
    timeout_ms: 60_000,
    offer_timeout_ms: 3_600_000,
    max_sessions: 16,
};

const ASKED: &[&[u8]] = &[
    b"1 d7:call-id2:c17:command5:offer8:from-tag1:a3:sdp93:v=0\r\no=alice 1 1 IN IP4 192.0.2.10\r\ns=-\r\nc=IN IP4 192.0.2.10\r\nt=0 0\r\nm=audio 6000 RTP/AVP 0\r\ne",
];

const OFFERED: &[u8] =
    b"1 d6:result2:ok3:sdp116:v=0\r\no=alice 1 1 IN IP4 192.0.2.10\r\ns=-\r\nc=IN IP4 192.0.2.10\r\nt=0 0\r\nm=audio 30000 RTP/AVP 0\r\nc=IN IP4 203.0.113.1\r\ne";

/// The ports that are opened, in this order.
const OPENED: &[TablePort] = &[
    TablePort {
        at: Addr {
            ip: HERE,
            port: 30_000,
        },
        comes: &[],
        goes: &[],
    },
    TablePort {
        at: Addr {
            ip: HERE,
            port: 30_001,
        },
        comes: &[],
        goes: &[],
    },
    TablePort {
        at: Addr {
            ip: HERE,
            port: 30_002,
        },
        comes: &[],
        goes: &[],
    },
    TablePort {
        at: Addr {
            ip: HERE,
            port: 30_003,
        },
        comes: &[],
        goes: &[],
    },
];

/// The result of a server's first turn, how many ports were opened and closed then, and how many calls its stop ends.
fn served<R: Wait + Abort>(
    rt: &R,
    alloc: Global,
    link: &mut TableLink,
    ports: &mut TablePorts,
) -> (ControlTurn, Option<(u64, u64)>, usize) {
    let Ok(mut desk) = Desk::new(alloc) else {
        panic!(rt; "no memory");
    };
    let Ok((server, mut hand)) = Server::start(alloc, CONFIG) else {
        panic!(rt; "no memory");
    };
    let turn = server.control_turn(
        rt,
        alloc,
        &mut hand,
        &mut desk,
        link,
        ports,
        &mut SameKey,
        0,
    );
    let counts = ports.counts();
    let ended = server.stop(rt, &mut hand, &mut desk, ports);
    drop(server.close(hand));
    (turn, counts, ended)
}

#[test]
fn a_stop_closes_the_ports_of_an_offer(rt: HostRuntime) {
    let mut link = TableLink::new(ASKED, 0, Some(OFFERED), 0);
    let mut ports = TablePorts::new(OPENED);
    let (turn, counts, ended) = served(&rt, rt.alloc(), &mut link, &mut ports);
    assert!(rt; turn == ControlTurn::Replied && link.is_answered());
    assert!(rt; counts == Some((4, 0)), "its ports were opened");
    assert!(rt; ended == 1, "the call ended");
    assert!(rt; ports.counts() == Some((4, 4)), "its ports were closed");
}

#[test]
fn a_call_without_an_answer_ends_a_timeout_after_its_offer(rt: HostRuntime) {
    let Ok(mut desk) = Desk::new(rt.alloc()) else {
        panic!(rt; "no memory");
    };
    let Ok((server, mut hand)) = Server::start(rt.alloc(), CONFIG) else {
        panic!(rt; "no memory");
    };
    let mut link = TableLink::new(&[OFFER], 0, None, 0);
    let mut ports = TablePorts::new(OPENED);
    server.control_turn(
        &rt,
        rt.alloc(),
        &mut hand,
        &mut desk,
        &mut link,
        &mut ports,
        &mut SameKey,
        0,
    );
    let young = server.timer_turn(&rt, &mut hand, &mut desk, &mut ports, 3_599_999);
    let counts = ports.counts();
    let old = server.timer_turn(&rt, &mut hand, &mut desk, &mut ports, 3_600_000);
    let later = server.timer_turn(&rt, &mut hand, &mut desk, &mut ports, 3_600_001);
    drop(server.close(hand));
    assert!(rt;
        young == 0 && counts == Some((4, 0)),
        "its ports are open still"
    );
    assert!(rt;
        old == 1 && ports.counts() == Some((4, 4)),
        "its ports were closed"
    );
    assert!(rt; later == 0, "it has ended");
}
