use crate::cases::none_failed;
use ng_frame::{join, one_frame, split};
use std::alloc::Global;

/// Datagrams, their cookies and their bodies.
const FRAMES: &[(&[u8], &[u8], &[u8])] = &[
    (b"5323_1 d7:command4:pinge", b"5323_1", b"d7:command4:pinge"),
    (b"a  b c", b"a", b" b c"),
    (b"a ", b"a", b""),
];

/// Whether the datagram is split like this and joined again.
fn is_frame(alloc: Global, datagram: &[u8], cookie: &[u8], body: &[u8]) -> bool {
    let Some((front, rest)) = split(datagram) else {
        return false;
    };
    front == cookie && rest == body && is_joined(alloc, front, rest, datagram)
}

fn is_joined(alloc: Global, front: &[u8], rest: &[u8], datagram: &[u8]) -> bool {
    match join(alloc, front, rest) {
        Ok(joined) => joined.as_slice() == datagram,
        Err(_) => false,
    }
}

fn other_frame(alloc: Global) -> Option<usize> {
    for (number, (datagram, cookie, body)) in FRAMES.iter().enumerate() {
        if !is_frame(alloc, datagram, cookie, body) {
            return Some(number);
        }
    }
    None
}

const NO_FRAMES: &[&[u8]] = &[b"abc", b"", b" d7:command4:pinge", b" "];

fn frame_of_none() -> Option<usize> {
    for (number, datagram) in NO_FRAMES.iter().enumerate() {
        if split(datagram).is_some() {
            return Some(number);
        }
    }
    None
}

#[test]
fn a_datagram_is_taken_apart_and_put_together(rt: HostRuntime) {
    none_failed(&rt, "FRAMES", other_frame(rt.alloc()));
    none_failed(&rt, "NO_FRAMES", frame_of_none());
    one_frame();
}

/// Whether a datagram whose cookie has this many bytes is a frame, or isn't.
fn is_framed(alloc: Global, len: usize, framed: bool) -> bool {
    let Ok(cookie) = Vec::from_elem(alloc, b'c', len) else {
        return false;
    };
    match join(alloc, cookie.as_slice(), b"de") {
        Ok(datagram) => split(datagram.as_slice()).is_some() == framed,
        Err(_) => false,
    }
}

#[test]
fn a_cookie_has_at_most_255_bytes(rt: HostRuntime) {
    assert!(rt; is_framed(rt.alloc(), 1, true));
    assert!(rt; is_framed(rt.alloc(), 255, true));
    assert!(rt; is_framed(rt.alloc(), 256, false));
    assert!(rt; is_framed(rt.alloc(), 16000, false));
}
