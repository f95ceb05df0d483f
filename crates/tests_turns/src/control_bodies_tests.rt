//! Bodies and descriptions, and what is read of them.

ghost use Rattle.std.specs.Prelude.{◌<◌, ◌^◌, length};

use control_messages::*;
use ng_command::{Command, KeyName};
use ng_reply::{ErrorCode, SdpPart};
use relay_outside::{Config, Family, Ip};
use std::alloc::Global;

const CONFIG: Config = Config {
    interface: Ip::V4([203, 0, 113, 1]),
    interface6: None,
    port_min: 30000,
    port_max: 30003,
    timeout_ms: 60000,
    offer_timeout_ms: 60000,
    max_sessions: 1,
};

const V4: &[u8] =
    b"v=0\r\no=- 1 1 IN IP4 192.0.2.10\r\ns=-\r\nc=IN IP4 192.0.2.10\r\nt=0 0\r\nm=audio 4000 RTP/AVP 0\r\n";

const V6: &[u8] =
    b"v=0\r\no=- 1 1 IN IP4 192.0.2.10\r\ns=-\r\nc=IN IP6 2001:db8::1\r\nt=0 0\r\nm=audio 4000 RTP/AVP 0\r\n";

fn error_of(command: &Result<Command, ErrorCode>) -> Option<ErrorCode> {
    match command {
        Ok(_) => None,
        Err(code) => Some(*code),
    }
}

/// What a body says: whether it is a dictionary, and the error that comes in place of a command. `None`: there was no memory.
fn said(alloc: Global, text: &[u8]) -> Option<(bool, Option<ErrorCode>)> {
    match read_body(alloc, text) {
        Ok(body) => Some((body.dictionary.is_some(), error_of(&body.command))),
        Err(_) => None,
    }
}

/// Whether a body is a dictionary that asks for a ping.
fn is_ping(alloc: Global, text: &[u8]) -> bool {
    match read_body(alloc, text) {
        Ok(body) => body.dictionary.is_some() && matches!(&body.command, Ok(Command::Ping)),
        Err(_) => false,
    }
}

/// Bodies, whether each is a dictionary, and the error that comes in place of its command.
const BODIES: &[(&[u8], bool, ErrorCode)] = &[
    (b"ping", false, ErrorCode::E1),
    (b"le", false, ErrorCode::E1),
    (b"d7:command4:pongE", false, ErrorCode::E1),
    (b"d7:command5:querye", true, ErrorCode::E4(KeyName::CallId)),
    (b"{\"command\":\"ping\"", false, ErrorCode::E1),
    (b"{\"command\":null}", false, ErrorCode::E1),
    (
        b"{\"command\":\"query\"}",
        true,
        ErrorCode::E4(KeyName::CallId),
    ),
];

#[test]
fn a_body_is_read_once(rt: HostRuntime) {
    assert!(rt; is_ping(rt.alloc(), b"d7:command4:pinge"));
    assert!(rt; is_ping(rt.alloc(), b"{\"command\":\"ping\"}"));
    for (place, (text, is_dictionary, code)) in BODIES.iter().enumerate() {
        let is_so = said(rt.alloc(), *text) == Some((*is_dictionary, Some(*code)));
        assert!(rt; is_so, "body {place}");
    }
}

/// How many sections a description has, or the error by which it is refused.
fn sections(
    alloc: Global,
    config: &Config,
    family: Option<Family>,
    text: &[u8],
) -> Result<usize, Option<ErrorCode>>
    requires { length text.now < 2 ^ 31 }
{
    match read_description(alloc, config, family, text) {
        Ok(sdp) => Ok(sdp.section_count()),
        Err(DescriptionFault::Error(code)) => Err(Some(code)),
        Err(_) => Err(None),
    }
}

#[test]
fn a_description_needs_an_address_of_its_version(rt: HostRuntime) {
    let both = Config {
        interface6: Some(Ip::V6([0; 16])),
        ..CONFIG
    };
    let refused = Err(Some(ErrorCode::E7(SdpPart::Line(4))));
    let malformed = Err(Some(ErrorCode::E6(2)));
    assert!(rt; sections(rt.alloc(), &CONFIG, None, V4) == Ok(1));
    assert!(rt; sections(rt.alloc(), &both, None, V6) == Ok(1));
    assert!(rt; sections(rt.alloc(), &CONFIG, None, V6) == refused);
    assert!(rt; sections(rt.alloc(), &both, None, b"v=0\r\nx\r\n") == malformed);
}

#[test]
fn a_family_needs_an_address_of_it(rt: HostRuntime) {
    let both = Config {
        interface6: Some(Ip::V6([0; 16])),
        ..CONFIG
    };
    let refused = Err(Some(ErrorCode::E5(KeyName::AddressFamily)));
    let misplaced = Err(Some(ErrorCode::E7(SdpPart::Line(4))));
    let v6 = Some(Family::V6);
    assert!(rt; sections(rt.alloc(), &CONFIG, v6, V4) == refused);
    assert!(rt; sections(rt.alloc(), &CONFIG, v6, V6) == refused);
    assert!(rt; sections(rt.alloc(), &CONFIG, v6, b"v=0\r\nx\r\n") == refused);
    assert!(rt; sections(rt.alloc(), &CONFIG, Some(Family::V4), V4) == Ok(1));
    assert!(rt; sections(rt.alloc(), &CONFIG, Some(Family::V4), V6) == misplaced);
    assert!(rt; sections(rt.alloc(), &both, v6, V4) == Ok(1));
    assert!(rt; sections(rt.alloc(), &both, v6, b"v=0\r\nx\r\n") == Err(Some(ErrorCode::E6(2))));
}
