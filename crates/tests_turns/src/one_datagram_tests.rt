//! A call from its offer to its delete, over devices in memory.
ghost use Rattle.std.specs.Prelude.{◌≡◌};
ghost use Rattle.turn_table.specs.Hands.{parts};
ghost use Rattle.board_turns.specs.Between.{IsBetween};

use crate::first_relay::{CONFIG, QuietRelay};
use crate::quiet_devices::{Mute, OneAsked, QuietPorts, SameKey};
use ng_server::{ControlTurn, Desk, Server};
use std::alloc::Global;
use std::process::Abort;
use std::sync::Wait;
use turn_table::Hand;

/// What the proxy asks in turn, and the replies to it.
const ASKED: &[(&[u8], &[u8])] = &[
    (OFFER, OFFERED),
    // again, with the same cookie
    (OFFER, OFFERED),
    (ANSWER, ANSWERED),
    (b"2_2 d7:call-id4:call7:command5:querye", REPORTED),
    (
        b"2_3 d7:command4:liste",
        b"2_3 d5:callsl4:calle6:result2:oke",
    ),
    // an unknown call, and no call at all
    (
        b"2_4 d7:call-id1:x7:command5:querye",
        b"2_4 d12:error-reason15:unknown call-id6:result5:errore",
    ),
    (
        b"2_5 d7:command4:list5:limiti0ee",
        b"2_5 d5:callsle6:result2:oke",
    ),
    (
        b"3_1 d7:call-id4:call7:command6:deletee",
        b"3_1 d6:result2:oke",
    ),
    (
        b"4_1 d7:call-id4:call7:command6:deletee",
        b"4_1 d6:result2:ok7:warning15:unknown call-ide",
    ),
    // deletes of a call that never was
    (
        b"5_1 d7:call-id1:x7:command6:deletee",
        b"5_1 d6:result2:ok7:warning15:unknown call-ide",
    ),
    (
        b"5_2 d7:call-id1:x7:command6:delete5:flagsl5:fatalee",
        b"5_2 d12:error-reason15:unknown call-id6:result5:errore",
    ),
];

const OFFER: &[u8] =
    b"1_1 d7:call-id4:call7:command5:offer8:from-tag5:alice7:replacel6:origin18:session connectione3:sdp129:v=0\r\no=alice 1 1 IN IP4 192.0.2.10\r\ns=-\r\nc=IN IP4 192.0.2.10\r\nt=0 0\r\nm=audio 6000 RTP/AVP 0 8\r\na=rtpmap:0 PCMU/8000\r\na=sendrecv\r\ne";

const OFFERED: &[u8] =
    b"1_1 d6:result2:ok3:sdp154:v=0\r\no=alice 1 1 IN IP4 203.0.113.1\r\ns=-\r\nc=IN IP4 203.0.113.1\r\nt=0 0\r\nm=audio 30000 RTP/AVP 0 8\r\nc=IN IP4 203.0.113.1\r\na=rtpmap:0 PCMU/8000\r\na=sendrecv\r\ne";

const ANSWER: &[u8] =
    b"2_1 d7:call-id4:call7:command6:answer8:from-tag5:alice7:replacel6:origin18:session connectione3:sdp97:v=0\r\no=bob 2 2 IN IP4 198.51.100.20\r\ns=-\r\nc=IN IP4 198.51.100.20\r\nt=0 0\r\nm=audio 7000 RTP/AVP 0\r\n6:to-tag3:bobe";

const ANSWERED: &[u8] =
    b"2_1 d6:result2:ok3:sdp116:v=0\r\no=bob 2 2 IN IP4 203.0.113.1\r\ns=-\r\nc=IN IP4 203.0.113.1\r\nt=0 0\r\nm=audio 30002 RTP/AVP 0\r\nc=IN IP4 203.0.113.1\r\ne";

const REPORTED: &[u8] =
    b"2_2 d7:createdi0e11:last signali0e6:result2:ok4:tagsd5:aliced6:mediasld4:RTCPd8:acceptedi0e4:senti0ee3:RTPd8:acceptedi0e4:senti0ee8:endpointd7:address10:192.0.2.104:porti6000ee5:indexi1e10:local porti30002e8:protocol7:RTP/AVPeee3:bobd6:mediasld4:RTCPd8:acceptedi0e4:senti0ee3:RTPd8:acceptedi0e4:senti0ee8:endpointd7:address13:198.51.100.204:porti7000ee5:indexi1e10:local porti30000e8:protocol7:RTP/AVPeeeee";

/// Whether a datagram of the proxy gets just this reply.
fn is_answered<R: Wait + Abort>(
    rt: &R,
    alloc: Global,
    server: &Server<QuietPorts>,
    hand: &mut Hand<QuietRelay>,
    desk: &mut Desk<Mute>,
    datagram: &[u8],
    want: &[u8],
) -> bool
    requires between { IsBetween server.now.config server.now.turns hand.old }
    ensures parts { parts hand.new ≡ parts hand.old }
    ensures between { IsBetween server.now.config server.now.turns hand.new }
{
    let mut link = OneAsked::new(datagram, want);
    let turn = server.control_turn(
        rt,
        alloc,
        hand,
        desk,
        &mut link,
        &mut QuietPorts,
        &mut SameKey,
        0,
    );
    turn == ControlTurn::Replied && link.is_replied()
}

#[test]
fn a_call_is_offered_answered_and_deleted(rt: HostRuntime) {
    let Ok(mut desk) = Desk::new(rt.alloc()) else {
        panic!(rt; "no memory");
    };
    let Ok((server, mut hand)) = Server::start(rt.alloc(), CONFIG) else {
        panic!(rt; "no memory");
    };
    for (place, (ask, want)) in ASKED.iter().enumerate() {
        let is_so = is_answered(&rt, rt.alloc(), &server, &mut hand, &mut desk, *ask, *want);
        assert!(rt; is_so, "datagram {place}");
    }
    drop(server.close(hand));
}
