//! The datagrams of a call: its offer, its answer and its delete.

use relay_outside::{Addr, Ip, LinkGift};
use std::alloc::Global;

/// The proxy that sends them.
const PROXY: Addr = Addr {
    ip: Ip::V4([192, 0, 2, 1]),
    port: 5060,
};

/// What stands after the call-id in an offer of one audio section.
const OFFER: &[u8] =
    b"7:command5:offer8:from-tag5:alice7:replacel6:origin18:session connectione3:sdp129:v=0\r\no=alice 1 1 IN IP4 192.0.2.10\r\ns=-\r\nc=IN IP4 192.0.2.10\r\nt=0 0\r\nm=audio 6000 RTP/AVP 0 8\r\na=rtpmap:0 PCMU/8000\r\na=sendrecv\r\ne";

/// The same of its answer.
const ANSWER: &[u8] =
    b"7:command6:answer8:from-tag5:alice7:replacel6:origin18:session connectione3:sdp97:v=0\r\no=bob 2 2 IN IP4 198.51.100.20\r\ns=-\r\nc=IN IP4 198.51.100.20\r\nt=0 0\r\nm=audio 7000 RTP/AVP 0\r\n6:to-tag3:bobe";

/// The same of its delete.
const DELETE: &[u8] = b"7:command6:deletee";

/// The six last digits of a number.
fn digits(number: u32) -> [u8; 6] {
    let mut text = [b'0'; 6];
    let mut rest = number;
    for place in 0..6 {
        text[5 - place] = b'0' + (rest % 10) as u8;
        rest /= 10;
    }
    text
}

/// A datagram about a call: a cookie that begins with this letter, the call-id, and the rest of the command.
fn datagram(alloc: Global, letter: u8, call: u32, rest: &[u8]) -> Option<LinkGift> {
    let digits = digits(call);
    let mut bytes = Vec::new(alloc);
    bytes.push(letter).ok()?;
    bytes.extend_from_slice(&digits).ok()?;
    bytes.extend_from_slice(b" d7:call-id6:").ok()?;
    bytes.extend_from_slice(&digits).ok()?;
    bytes.extend_from_slice(rest).ok()?;
    LinkGift::datagram(alloc, PROXY, bytes.as_slice()).ok()
}

/// Adds the offer, the answer and the delete of a call.
pub(crate) fn put_call(alloc: Global, gifts: &mut Vec<LinkGift>, call: u32) -> Option<()> {
    gifts.push(datagram(alloc, b'o', call, OFFER)?).ok()?;
    gifts.push(datagram(alloc, b'a', call, ANSWER)?).ok()?;
    gifts.push(datagram(alloc, b'd', call, DELETE)?).ok()?;
    Some(())
}
