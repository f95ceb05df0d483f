use control_messages::{
    Request, done_datagram, error_datagram, pong_datagram, reply_room, value_datagram,
    warned_datagram, write_described, write_error,
};
use ng_bencode::{Text, Value};
use ng_command::KeyName;
use ng_reply::{ErrorCode, SdpPart};
use relay_outside::{Addr, Ip, OutOfMemory};

/// A request whose body is bencode.
const PLAIN: Request<'static> = Request {
    source: Addr {
        ip: Ip::V4([192, 0, 2, 9]),
        port: 5060,
    },
    cookie: b"5323_0",
    body: b"",
    too_long: false,
};

/// A request whose body is JSON.
const JSON: Request<'static> = Request {
    source: Addr {
        ip: Ip::V4([192, 0, 2, 9]),
        port: 5060,
    },
    cookie: b"5323_0",
    body: b"{",
    too_long: false,
};

/// Whether this is the reply that was made.
fn is_told(reply: Result<Text, OutOfMemory>, want: &[u8]) -> bool {
    match reply {
        Ok(text) => text.as_slice() == want,
        Err(_) => false,
    }
}

#[test]
fn short_replies_are_their_bytes(rt: HostRuntime) {
    let alloc = rt.alloc();
    let pong = pong_datagram(
        alloc,
        &Request {
            cookie: b"5323_1",
            ..PLAIN
        },
    );
    assert!(rt; is_told(pong, b"5323_1 d6:result4:ponge"));
    let done = done_datagram(
        alloc,
        &Request {
            cookie: b"5323_2",
            ..PLAIN
        },
    );
    assert!(rt; is_told(done, b"5323_2 d6:result2:oke"));
    let warned = warned_datagram(
        alloc,
        &Request {
            cookie: b"5323_3",
            ..PLAIN
        },
        ErrorCode::E9,
    );
    assert!(rt; is_told(warned, b"5323_3 d6:result2:ok7:warning15:unknown call-ide"));
    let value = value_datagram(
        alloc,
        &Request {
            cookie: b"5323_7",
            ..PLAIN
        },
        &Value::int(9),
    );
    assert!(rt; is_told(value, b"5323_7 i9e"));
    let error = error_datagram(
        alloc,
        &Request {
            cookie: b"5323_4",
            ..PLAIN
        },
        ErrorCode::E4(KeyName::CallId),
    );
    assert!(rt;
        is_told(
            error,
            b"5323_4 d12:error-reason29:missing or wrong key: call-id6:result5:errore"
        )
    );
    let Ok(kept) = Text::copy_of(alloc, b"5323_4") else {
        panic!(rt; "no memory");
    };
    assert!(rt; kept.as_slice() == b"5323_4".as_slice());
}

#[test]
fn short_replies_to_json_are_json(rt: HostRuntime) {
    let alloc = rt.alloc();
    let pong = pong_datagram(
        alloc,
        &Request {
            cookie: b"5323_1",
            ..JSON
        },
    );
    assert!(rt; is_told(pong, b"5323_1 {\"result\":\"pong\"}"));
    let error = error_datagram(
        alloc,
        &Request {
            cookie: b"5323_4",
            ..JSON
        },
        ErrorCode::E2,
    );
    assert!(rt;
        is_told(
            error,
            b"5323_4 {\"error-reason\":\"no command\",\"result\":\"error\"}"
        )
    );
}

#[test]
fn a_reply_is_written_into_its_room(rt: HostRuntime) {
    let request = Request {
        cookie: b"5323_5",
        ..PLAIN
    };
    let Ok(mut room) = reply_room(rt.alloc(), &request, 1000) else {
        panic!(rt; "no memory");
    };
    write_described(&request, b"v=0\r\no=x", &mut room);
    assert!(rt; room.as_slice() == b"5323_5 d6:result2:ok3:sdp8:v=0\r\no=xe".as_slice());
    let request = Request {
        cookie: b"5323_6",
        ..PLAIN
    };
    let Ok(mut room) = reply_room(rt.alloc(), &request, 0) else {
        panic!(rt; "no memory");
    };
    write_error(&request, ErrorCode::E7(SdpPart::Media(9)), &mut room);
    assert!(rt;
        room.as_slice()
            == b"5323_6 d12:error-reason24:unsupported SDP: media 96:result5:errore".as_slice()
    );
    let request = Request {
        cookie: b"5323_7",
        ..JSON
    };
    let Ok(mut room) = reply_room(rt.alloc(), &request, 8) else {
        panic!(rt; "no memory");
    };
    write_described(&request, b"v=0\r\no=x", &mut room);
    assert!(rt;
        room.as_slice() == b"5323_7 {\"result\":\"ok\",\"sdp\":\"v=0\\r\\no=x\"}".as_slice()
    );
}
