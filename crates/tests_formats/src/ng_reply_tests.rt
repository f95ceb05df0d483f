ghost use Rattle.std.specs.Prelude.{◌≤◌};
ghost use Rattle.ng_bencode.specs.Tree.{depth, tree_of};

use crate::cases::none_failed;
use ng_bencode::{Text, Value, encode};
use ng_command::KeyName;
use ng_reply::{
    ErrorCode, SdpPart, done, fixed_error, fixed_json_error, pong, sdp_json_into, sdp_json_len,
    sdp_reply_into, sdp_reply_len, warned,
};
use std::alloc::Global;

/// Whether this is the reply with the error to the cookie `5323_1`.
fn is_told(code: ErrorCode, reply: &[u8]) -> bool {
    let mut out = [0; 512];
    let len = fixed_error(b"5323_1", code, &mut out);
    &out[..len] == reply
}

/// Errors, and the reply with each.
const ERRORS: &[(ErrorCode, &[u8])] = &[
    (
        ErrorCode::E1,
        b"5323_1 d12:error-reason20:malformed dictionary6:result5:errore",
    ),
    (
        ErrorCode::E2,
        b"5323_1 d12:error-reason10:no command6:result5:errore",
    ),
    (
        ErrorCode::E3,
        b"5323_1 d12:error-reason20:unrecognized command6:result5:errore",
    ),
    (
        ErrorCode::E4(KeyName::CallId),
        b"5323_1 d12:error-reason29:missing or wrong key: call-id6:result5:errore",
    ),
    (
        ErrorCode::E4(KeyName::TransportProtocol),
        b"5323_1 d12:error-reason40:missing or wrong key: transport protocol6:result5:errore",
    ),
    (
        ErrorCode::E4(KeyName::DeleteDelay),
        b"5323_1 d12:error-reason34:missing or wrong key: delete delay6:result5:errore",
    ),
    (
        ErrorCode::E4(KeyName::AddressFamily),
        b"5323_1 d12:error-reason36:missing or wrong key: address family6:result5:errore",
    ),
    (
        ErrorCode::E5(KeyName::AddressFamily),
        b"5323_1 d12:error-reason34:unsupported option: address family6:result5:errore",
    ),
    (
        ErrorCode::E5(KeyName::Ice),
        b"5323_1 d12:error-reason23:unsupported option: ICE6:result5:errore",
    ),
    (
        ErrorCode::E5(KeyName::Tls),
        b"5323_1 d12:error-reason27:unsupported option: UDP/TLS6:result5:errore",
    ),
    (
        ErrorCode::E6(1),
        b"5323_1 d12:error-reason21:malformed SDP: line 16:result5:errore",
    ),
    (
        ErrorCode::E6(4294967295),
        b"5323_1 d12:error-reason30:malformed SDP: line 42949672956:result5:errore",
    ),
    (
        ErrorCode::E7(SdpPart::Line(6)),
        b"5323_1 d12:error-reason23:unsupported SDP: line 66:result5:errore",
    ),
    (
        ErrorCode::E7(SdpPart::Media(9)),
        b"5323_1 d12:error-reason24:unsupported SDP: media 96:result5:errore",
    ),
    (
        ErrorCode::E8,
        b"5323_1 d12:error-reason16:no usable crypto6:result5:errore",
    ),
    (
        ErrorCode::E9,
        b"5323_1 d12:error-reason15:unknown call-id6:result5:errore",
    ),
    (
        ErrorCode::E10,
        b"5323_1 d12:error-reason11:unknown tag6:result5:errore",
    ),
    (
        ErrorCode::E11,
        b"5323_1 d12:error-reason28:offer open on the other side6:result5:errore",
    ),
    (
        ErrorCode::E12,
        b"5323_1 d12:error-reason19:media count differs6:result5:errore",
    ),
    (
        ErrorCode::E13,
        b"5323_1 d12:error-reason17:no free port pair6:result5:errore",
    ),
    (
        ErrorCode::E14,
        b"5323_1 d12:error-reason21:session limit reached6:result5:errore",
    ),
    (
        ErrorCode::E15,
        b"5323_1 d12:error-reason10:port fault6:result5:errore",
    ),
    (
        ErrorCode::E16,
        b"5323_1 d12:error-reason16:key source fault6:result5:errore",
    ),
    (
        ErrorCode::E17,
        b"5323_1 d12:error-reason13:out of memory6:result5:errore",
    ),
    (
        ErrorCode::E18,
        b"5323_1 d12:error-reason17:datagram too long6:result5:errore",
    ),
    (
        ErrorCode::E19,
        b"5323_1 d12:error-reason14:call is ending6:result5:errore",
    ),
    (
        ErrorCode::E20,
        b"5323_1 d12:error-reason22:address family differs6:result5:errore",
    ),
];

fn other_reply() -> Option<usize> {
    for (number, (code, reply)) in ERRORS.iter().enumerate() {
        if !is_told(*code, reply) {
            return Some(number);
        }
    }
    None
}

#[test]
fn each_error_has_its_text(rt: HostRuntime) {
    none_failed(&rt, "ERRORS", other_reply());
}

fn is_spelled(alloc: Global, reply: &Value, want: &[u8]) -> bool
    requires { depth (tree_of reply.now) ≤ 16 }
{
    match encode(alloc, reply) {
        Ok(text) => text.as_slice() == want,
        Err(_) => false,
    }
}

#[test]
fn a_success_is_spelled_with_its_keys_in_order(rt: HostRuntime) {
    let Ok(reply) = pong(rt.alloc()) else {
        panic!(rt; "no memory");
    };
    assert!(rt; is_spelled(rt.alloc(), &reply, b"d6:result4:ponge"));
    let Ok(reply) = done(rt.alloc()) else {
        panic!(rt; "no memory");
    };
    assert!(rt; is_spelled(rt.alloc(), &reply, b"d6:result2:oke"));
    let Ok(reply) = warned(rt.alloc(), ErrorCode::E9) else {
        panic!(rt; "no memory");
    };
    let want = b"d6:result2:ok7:warning15:unknown call-ide";
    assert!(rt; is_spelled(rt.alloc(), &reply, want));
}

#[test]
fn a_description_is_written_behind_what_stands_there(rt: HostRuntime) {
    let mut out = Text::new(rt.alloc());
    let Ok(()) = out.reserve(2) else {
        panic!(rt; "no memory");
    };
    out.extend(b"7 ");
    let sdp = b"v=0\r\no=x";
    let len = sdp_reply_len(sdp.len());
    assert!(rt; len == 29);
    let Ok(()) = out.reserve(len) else {
        panic!(rt; "no memory");
    };
    sdp_reply_into(sdp, &mut out);
    assert!(rt; out.as_slice() == b"7 d6:result2:ok3:sdp8:v=0\r\no=xe".as_slice());
}

#[test]
fn replies_in_json_are_written_without_memory(rt: HostRuntime) {
    let mut out = Text::new(rt.alloc());
    let sdp = b"v=0\r\no=\"";
    let len = sdp_json_len(sdp.len());
    assert!(rt; len == 112);
    let Ok(()) = out.reserve(len) else {
        panic!(rt; "no memory");
    };
    sdp_json_into(sdp, &mut out);
    let want = b"{\"result\":\"ok\",\"sdp\":\"v=0\\r\\no=\\\"\"}";
    assert!(rt; out.as_slice() == want.as_slice());
    let mut datagram = [0; 512];
    let len = fixed_json_error(b"6", ErrorCode::E6(12), &mut datagram);
    let want = b"6 {\"error-reason\":\"malformed SDP: line 12\",\"result\":\"error\"}";
    assert!(rt; &datagram[..len] == want.as_slice());
    let len = fixed_json_error(b"6", ErrorCode::E19, &mut datagram);
    let want = b"6 {\"error-reason\":\"call is ending\",\"result\":\"error\"}";
    assert!(rt; &datagram[..len] == want.as_slice());
    let len = fixed_json_error(b"6", ErrorCode::E20, &mut datagram);
    let want = b"6 {\"error-reason\":\"address family differs\",\"result\":\"error\"}";
    assert!(rt; &datagram[..len] == want.as_slice());
    let len = fixed_json_error(b"6", ErrorCode::E5(KeyName::AddressFamily), &mut datagram);
    let want = b"6 {\"error-reason\":\"unsupported option: address family\",\"result\":\"error\"}";
    assert!(rt; &datagram[..len] == want.as_slice());
}
