// Vectors of RFC 2202 and RFC 3711, and the keys of a draw.

use crate::cases::none_failed;
use rtp_packet::Half;
use srtp_keys::{DrawnKey, MacKey, Session, derive, hmac, same_tags};

/// Master key and master salt of RFC 3711, appendix B.3.
const MASTER: [u8; 30] =
    *b"\xe1\xf9\x7a\x0d\x3e\x01\x8b\xe0\xd6\x4f\xa3\x2c\x06\xde\x41\x39\x0e\xc6\x75\xad\x49\x8a\xfe\xeb\xb6\x96\x0b\x3a\xab\xe6";

/// A key, a text and their code, of RFC 2202.
const CODES: &[(&[u8], &[u8], &[u8; 20])] = &[
    (
        &[0x0b; 20],
        b"Hi There",
        b"\xb6\x17\x31\x86\x55\x05\x72\x64\xe2\x8b\xc0\xb6\xfb\x37\x8c\x8e\xf1\x46\xbe\x00",
    ),
    (
        b"Jefe",
        b"what do ya want for nothing?",
        b"\xef\xfc\xdf\x6a\xe5\xeb\x2f\xa2\xd2\x74\x16\xd5\xf1\x84\xdf\x9c\x25\x9a\x7c\x79",
    ),
    (
        &[0xaa; 20],
        &[0xdd; 50],
        b"\x12\x5d\x73\x42\xb9\xac\x11\xcd\x91\xa3\x9a\xf4\x8a\xa1\x7b\x4f\x63\xf1\x75\xd3",
    ),
    (
        b"\x01\x02\x03\x04\x05\x06\x07\x08\x09\x0a\x0b\x0c\x0d\x0e\x0f\x10\x11\x12\x13\x14\x15\x16\x17\x18\x19",
        &[0xcd; 50],
        b"\x4c\x90\x07\xf4\x02\x62\x50\xc6\xbc\x84\x14\xf9\xbf\x50\xc8\x6c\x2d\x72\x35\xda",
    ),
    (
        &[0x0c; 20],
        b"Test With Truncation",
        b"\x4c\x1a\x03\x42\x4b\x55\xe0\x7f\xe7\xf2\x7b\xe1\xd5\x8b\xb9\x32\x4a\x9a\x5a\x04",
    ),
    (
        &[0xaa; 80],
        b"Test Using Larger Than Block-Size Key - Hash Key First",
        b"\xaa\x4a\xe5\xe1\x52\x72\xd0\x0e\x95\x70\x56\x37\xce\x8a\x3b\x55\xed\x40\x21\x12",
    ),
    (
        &[0xaa; 80],
        b"Test Using Larger Than Block-Size Key and Larger Than One Block-Size Data",
        b"\xe8\xe9\x9d\x0f\x45\x23\x7d\x78\x6d\x6b\xba\xa7\x96\x5c\x78\x08\xbb\xff\x1a\x91",
    ),
];

/// Whether this is the code of the text as a whole, and in two parts wherever it is cut.
fn is_code(key: &[u8], text: &[u8], code: &[u8; 20]) -> bool {
    if key.len() >= 1000 || text.len() >= 1000 || hmac(key, text, b"") != *code {
        return false;
    }
    for cut in 0..text.len() {
        if hmac(key, &text[..cut], &text[cut..]) != *code {
            return false;
        }
    }
    true
}

fn other_code() -> Option<usize> {
    for (number, (key, text, code)) in CODES.iter().enumerate() {
        if !is_code(key, text, code) {
            return Some(number);
        }
    }
    None
}

#[test]
fn codes_are_those_of_rfc_2202(rt: HostRuntime) {
    none_failed(&rt, "CODES", other_code());
}

#[test]
fn a_ready_key_gives_the_same_codes(rt: HostRuntime) {
    let expected =
        b"\x4c\x1a\x03\x42\x4b\x55\xe0\x7f\xe7\xf2\x7b\xe1\xd5\x8b\xb9\x32\x4a\x9a\x5a\x04";
    let key = MacKey::new(&[0x0c; 20]);
    assert!(rt; key.tag(b"Test With Truncation", b"") == *expected);
    assert!(rt; key.tag(b"Test With ", b"Truncation") == *expected);
}

/// Whether these are a session's key of codes, its salt, and its cipher's block of zeros.
#[test]
fn tags_are_compared_in_each_byte(rt: HostRuntime) {
    assert!(rt; same_tags(b"0123456789", b"0123456789"));
    assert!(rt; !same_tags(b"0123456789", b"1123456789") && !same_tags(b"0123", b"0124"));
}

fn is_session(session: &Session, auth: &[u8; 20], salt: &[u8; 14], block: &[u8; 16]) -> bool {
    session.auth == *auth && session.salt == *salt && session.cipher.block([0; 16]) == *block
}

#[test]
fn sessions_are_those_of_rfc_3711(rt: HostRuntime) {
    // appendix B.3; E(encryption key, 0) by OpenSSL
    let rtp = derive(&MASTER, Half::Rtp);
    assert!(rt;
        is_session(
            &rtp,
            b"\xce\xbe\x32\x1f\x6f\xf7\x71\x6b\x6f\xd4\xab\x49\xaf\x25\x6a\x15\x6d\x38\xba\xa4",
            b"\x30\xcb\xbc\x08\x86\x3d\x8c\x85\xd4\x9d\xb3\x4a\x9a\xe1",
            b"\xeb\xca\x69\xdc\xcd\x10\x65\xf4\x4a\x77\xbf\x11\x79\x00\x7e\x4d"
        )
    );
    // labels 3 to 5, by OpenSSL
    let rtcp = derive(&MASTER, Half::Rtcp);
    assert!(rt;
        is_session(
            &rtcp,
            b"\x8d\x54\x53\x4f\xeb\x49\xae\x8e\x79\x93\xa6\xbd\x0b\x84\x4f\xc3\x23\xa9\x3d\xfd",
            b"\x95\x81\xc7\xad\x87\xb3\xe5\x30\xbf\x3e\x44\x54\xa8\xb3",
            b"\x03\xe7\xd4\xf1\x63\x87\x87\x81\xdb\x80\x21\x48\x17\x6d\x9d\x69"
        )
    );
}

#[test]
fn a_drawn_key_is_split(rt: HostRuntime) {
    let key = DrawnKey::from_draw(7, MASTER);
    assert!(rt; key.number() == 7);
    let (rtp, rtcp) = key.split();
    assert!(rt; rtp.number() == 7 && rtcp.number() == 7);
    assert!(rt; rtp.into_bytes() == MASTER);
    assert!(rt; rtcp.into_bytes() == MASTER);
}
