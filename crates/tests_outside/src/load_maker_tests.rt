ghost use Rattle.std.specs.Prelude.{◌≡◌};

use load_maker::{LoadIn, LoadMaker, signals};
use relay_outside::{Addr, InEnd, Ip, OutEnd, PortMaker};

const HERE: Addr = Addr {
    ip: Ip::V4([203, 0, 113, 1]),
    port: 30_000,
};

/// Where the sides of call 2 send from.
const A: Addr = Addr {
    ip: Ip::V4([192, 0, 2, 10]),
    port: 10_004,
};

const B: Addr = Addr {
    ip: Ip::V4([198, 51, 100, 20]),
    port: 10_004,
};

const PLAIN_OFFER: &[u8] =
    b"d7:call-id6:load-17:command5:offer8:from-tag1:a3:sdp130:v=0\r\no=alice 1 1 IN IP4 192.0.2.10\r\ns=-\r\nc=IN IP4 192.0.2.10\r\nt=0 0\r\nm=audio 10002 RTP/AVP 0 8\r\na=rtpmap:0 PCMU/8000\r\na=sendrecv\r\ne";

const PLAIN_ANSWER: &[u8] =
    b"d7:call-id6:load-17:command6:answer8:from-tag1:a3:sdp98:v=0\r\no=bob 2 2 IN IP4 198.51.100.20\r\ns=-\r\nc=IN IP4 198.51.100.20\r\nt=0 0\r\nm=audio 10002 RTP/AVP 0\r\n6:to-tag1:be";

const OFFER: &[u8] =
    b"d7:call-id6:load-27:command5:offer8:from-tag1:a3:sdp130:v=0\r\no=alice 1 1 IN IP4 192.0.2.10\r\ns=-\r\nc=IN IP4 192.0.2.10\r\nt=0 0\r\nm=audio 10004 RTP/AVP 0 8\r\na=rtpmap:0 PCMU/8000\r\na=sendrecv\r\n18:transport protocol8:RTP/SAVPe";

const ANSWER: &[u8] =
    b"d7:call-id6:load-27:command6:answer8:from-tag1:a3:sdp183:v=0\r\no=bob 2 2 IN IP4 198.51.100.20\r\ns=-\r\nc=IN IP4 198.51.100.20\r\nt=0 0\r\nm=audio 10004 RTP/SAVP 0\r\na=crypto:1 AES_CM_128_HMAC_SHA1_80 inline:AgICAgICAgICAgICAgICAgICAgICAgICAgICAgIC\r\n6:to-tag1:be";

// Packets of call 2. Those of side B were protected by a program over Python's hmac and an AES written after FIPS 197, which gives the
// vectors of FIPS 197 and of RFC 3711, appendix B.3.
const FIRST_FROM_B: &[u8] =
    b"\x80\x00\x00\x01\x00\x00\x00\x00\x80\x00\x00\x02\x65\x12\x86\x90\xb1\x8d\xa3\x70\x29\x58\xf9\xeb\x46\x2e\x83\xbf\x49\x50\x52\x2f\x57\xea\x5b\x07\x01\x76\xdc\x7b\xd7\xda";

const SECOND_FROM_B: &[u8] =
    b"\x80\x00\x00\x02\x00\x00\x00\x00\x80\x00\x00\x02\x29\x1b\x6b\xc9\xda\xc3\xcb\xf9\x08\xf6\xb1\x3d\xba\x7d\xc0\xba\x63\x26\x76\x0d\x1a\xf0\xa6\x58\x57\x9e\x02\x7b\x5c\x0b";

const FIRST_FROM_A: &[u8] =
    b"\x80\x00\x00\x01\x00\x00\x00\x00\x00\x00\x00\x02\x03\x03\x03\x03\x03\x03\x03\x03\x03\x03\x03\x03\x03\x03\x03\x03\x03\x03\x03\x03";

const SECOND_FROM_A: &[u8] =
    b"\x80\x00\x00\x02\x00\x00\x00\x00\x00\x00\x00\x02\x04\x04\x04\x04\x04\x04\x04\x04\x04\x04\x04\x04\x04\x04\x04\x04\x04\x04\x04\x04";

/// Whether the next take gives this packet.
fn gives(end: &mut LoadIn, source: Addr, packet: &[u8]) -> bool
    ensures { end.new.log.at ≡ end.old.log.at }
{
    let mut buf = [0; 64];
    match end.take(&mut buf) {
        Ok(Some((from, len))) => from == source && &buf[..len] == packet,
        _ => false,
    }
}

/// Whether the next take gives nothing.
fn is_at_its_end(end: &mut LoadIn) -> bool
    ensures { end.new.log.at ≡ end.old.log.at }
{
    let mut buf = [0; 64];
    end.take(&mut buf) == Ok(None)
}

#[test]
fn a_plain_and_a_protected_call_are_signalled(rt: HostRuntime) {
    let Ok(plain) = signals(rt.alloc(), 1, false) else {
        panic!(rt; "memory");
    };
    assert!(rt; plain.offer.as_slice() == PLAIN_OFFER);
    assert!(rt; plain.answer.as_slice() == PLAIN_ANSWER);
    let Ok(protected) = signals(rt.alloc(), 2, true) else {
        panic!(rt; "memory");
    };
    assert!(rt; protected.offer.as_slice() == OFFER);
    assert!(rt; protected.answer.as_slice() == ANSWER);
}

#[test]
fn each_side_sends_its_packets_to_its_own_pair(rt: HostRuntime) {
    let mut maker = LoadMaker::new(rt.alloc(), 2);
    maker.begin_call(2);
    let Ok((mut receiving, mut sending)) = maker.open(HERE) else {
        panic!(rt; "not opened");
    };
    assert!(rt; gives(&mut receiving, B, FIRST_FROM_B));
    assert!(rt; gives(&mut receiving, B, SECOND_FROM_B));
    assert!(rt; is_at_its_end(&mut receiving));
    assert!(rt; sending.send(B, FIRST_FROM_A).is_ok());
    maker.close(HERE, receiving, sending);
    let Ok((mut receiving, sending)) = maker.open(HERE) else {
        panic!(rt; "not opened for RTCP");
    };
    assert!(rt; is_at_its_end(&mut receiving));
    maker.close(HERE, receiving, sending);
    let Ok((mut receiving, sending)) = maker.open(HERE) else {
        panic!(rt; "not opened for the other side");
    };
    assert!(rt; gives(&mut receiving, A, FIRST_FROM_A));
    assert!(rt; gives(&mut receiving, A, SECOND_FROM_A));
    assert!(rt; is_at_its_end(&mut receiving));
    maker.close(HERE, receiving, sending);
    assert!(rt; maker.tells());
}
