//! Lines of RFC 4568 and RFC 3711, and of the narrowed grammar's edges.

use crate::cases::none_failed;
use sdes_lines::*;

// RFC 3711 appendix B.3: the master key and the master salt
const RFC_3711: [u8; 30] =
    *b"\xe1\xf9\x7a\x0d\x3e\x01\x8b\xe0\xd6\x4f\xa3\x2c\x06\xde\x41\x39\x0e\xc6\x75\xad\x49\x8a\xfe\xeb\xb6\x96\x0b\x3a\xab\xe6";

// the keys of the examples of RFC 4568, decoded by another implementation of base64
const RFC_4568_A: [u8; 30] =
    *b"\x3d\x2d\x6e\x40\x25\x5e\x78\x21\x42\x6a\x75\x66\x72\x39\x29\x3f\x2c\x23\x35\x68\x5c\x60\x3d\x26\x5d\x7b\x71\x69\x50\x51";

const RFC_4568_B: [u8; 30] =
    *b"\x37\x30\x78\x77\x50\x48\x35\x40\x2f\x2c\x4c\x3a\x53\x31\x77\x59\x22\x7e\x3d\x27\x45\x70\x67\x54\x25\x28\x69\x5f\x56\x63";

const RFC_4568_C: [u8; 30] =
    *b"\x77\x44\x66\x76\x67\x26\x54\x2b\x29\x78\x47\x37\x40\x66\x62\x35\x6a\x55\x2c\x52\x61\x41\x7d\x5c\x7c\x70\x30\x25\x2a\x23";

/// Lines, and what is read of each.
const USABLE: &[(&[u8], CryptoLine)] = &[
    (
        b"a=crypto:1 AES_CM_128_HMAC_SHA1_80 inline:4fl6DT4Bi+DWT6MsBt5BOQ7Gda1Jiv7rtpYLOqvm",
        CryptoLine {
            tag: 1,
            suite: Suite::Tag80,
            key: RFC_3711,
        },
    ),
    (
        b"a=crypto:1 AES_CM_128_HMAC_SHA1_80 inline:d0RmdmcmVCspeEc3QGZiNWpVLFJhQX1cfHAwJSoj|2^20",
        CryptoLine {
            tag: 1,
            suite: Suite::Tag80,
            key: RFC_4568_C,
        },
    ),
    (
        b"a=crypto:2 AES_CM_128_HMAC_SHA1_32 inline:NzB4d1BINUAvLEw6UzF3WSJ+PSdFcGdUJShpX1Zj|1048576",
        CryptoLine {
            tag: 2,
            suite: Suite::Tag32,
            key: RFC_4568_B,
        },
    ),
    (
        b"a=crypto:0 AES_CM_128_HMAC_SHA1_32 inline:PS1uQCVeeCFCanVmcjkpPywjNWhcYD0mXXtxaVBR  ",
        CryptoLine {
            tag: 0,
            suite: Suite::Tag32,
            key: RFC_4568_A,
        },
    ),
    (
        b"a=crypto:999999999 AES_CM_128_HMAC_SHA1_80 inline:4fl6DT4Bi+DWT6MsBt5BOQ7Gda1Jiv7rtpYLOqvm|2^48 ",
        CryptoLine {
            tag: 999999999,
            suite: Suite::Tag80,
            key: RFC_3711,
        },
    ),
    (
        b"a=crypto:10 AES_CM_128_HMAC_SHA1_80 inline:4fl6DT4Bi+DWT6MsBt5BOQ7Gda1Jiv7rtpYLOqvm|007",
        CryptoLine {
            tag: 10,
            suite: Suite::Tag80,
            key: RFC_3711,
        },
    ),
];

fn other_usable() -> Option<usize> {
    for (number, (text, line)) in USABLE.iter().enumerate() {
        if usable(text) != Some(*line) {
            return Some(number);
        }
    }
    None
}

#[test]
fn usable_lines_are_read(rt: HostRuntime) {
    none_failed(&rt, "USABLE", other_usable());
}

const OTHER_LINES: &[&[u8]] = &[
    b"",
    b"a=crypto:",
    b"a=crypto:1 AES_CM_128_HMAC_SHA1_80 inline:",
    b"a=crypto:1 AES_CM_128_HMAC_SHA1_80 inline:PS1uQCVeeCFCanVmcjkpPywjNWhcYD0mXXtxaVBR|2^20|1:4",
    b"a=crypto:1 AES_CM_128_HMAC_SHA1_32 inline:NzB4d1BINUAvLEw6UzF3WSJ+PSdFcGdUJShpX1Zj|1:32",
    b"a=crypto:1 AES_CM_128_HMAC_SHA1_80 inline:4fl6DT4Bi+DWT6MsBt5BOQ7Gda1Jiv7rtpYLOqvm KDR=0",
    b"a=crypto:1 AES_CM_128_HMAC_SHA1_80 inline:4fl6DT4Bi+DWT6MsBt5BOQ7Gda1Jiv7rtpYLOqvm UNENCRYPTED_SRTP",
    b"a=crypto:1 AES_CM_128_HMAC_SHA1_80 inline:4fl6DT4Bi+DWT6MsBt5BOQ7Gda1Jiv7rtpYLOqvm FEC_ORDER=FEC_SRTP",
    b"a=crypto:1 AES_CM_128_HMAC_SHA1_80 inline:4fl6DT4Bi+DWT6MsBt5BOQ7Gda1Jiv7rtpYLOqvm;inline:PS1uQCVeeCFCanVmcjkpPywjNWhcYD0mXXtxaVBR",
    b"a=crypto:1 F8_128_HMAC_SHA1_80 inline:4fl6DT4Bi+DWT6MsBt5BOQ7Gda1Jiv7rtpYLOqvm",
    b"a=crypto:1 AES_256_CM_HMAC_SHA1_80 inline:4fl6DT4Bi+DWT6MsBt5BOQ7Gda1Jiv7rtpYLOqvm",
    b"a=crypto:1 aes_cm_128_hmac_sha1_80 inline:4fl6DT4Bi+DWT6MsBt5BOQ7Gda1Jiv7rtpYLOqvm",
    b"a=crypto:1 AES_CM_128_HMAC_SHA1_8 inline:4fl6DT4Bi+DWT6MsBt5BOQ7Gda1Jiv7rtpYLOqvm",
    b"a=crypto:1 AES_CM_128_HMAC_SHA1_80x inline:4fl6DT4Bi+DWT6MsBt5BOQ7Gda1Jiv7rtpYLOqvm",
    b"a=crypto:01 AES_CM_128_HMAC_SHA1_80 inline:4fl6DT4Bi+DWT6MsBt5BOQ7Gda1Jiv7rtpYLOqvm",
    b"a=crypto:00 AES_CM_128_HMAC_SHA1_80 inline:4fl6DT4Bi+DWT6MsBt5BOQ7Gda1Jiv7rtpYLOqvm",
    b"a=crypto:1000000000 AES_CM_128_HMAC_SHA1_80 inline:4fl6DT4Bi+DWT6MsBt5BOQ7Gda1Jiv7rtpYLOqvm",
    b"a=crypto:+1 AES_CM_128_HMAC_SHA1_80 inline:4fl6DT4Bi+DWT6MsBt5BOQ7Gda1Jiv7rtpYLOqvm",
    b"a=crypto:1x AES_CM_128_HMAC_SHA1_80 inline:4fl6DT4Bi+DWT6MsBt5BOQ7Gda1Jiv7rtpYLOqvm",
    b"a=crypto: AES_CM_128_HMAC_SHA1_80 inline:4fl6DT4Bi+DWT6MsBt5BOQ7Gda1Jiv7rtpYLOqvm",
    b"a=crypto:1  AES_CM_128_HMAC_SHA1_80 inline:4fl6DT4Bi+DWT6MsBt5BOQ7Gda1Jiv7rtpYLOqvm",
    b"a=crypto:1\tAES_CM_128_HMAC_SHA1_80 inline:4fl6DT4Bi+DWT6MsBt5BOQ7Gda1Jiv7rtpYLOqvm",
    b"a=crypto:1 AES_CM_128_HMAC_SHA1_80  inline:4fl6DT4Bi+DWT6MsBt5BOQ7Gda1Jiv7rtpYLOqvm",
    b"a=crypto:1 AES_CM_128_HMAC_SHA1_80 Inline:4fl6DT4Bi+DWT6MsBt5BOQ7Gda1Jiv7rtpYLOqvm",
    b"a=Crypto:1 AES_CM_128_HMAC_SHA1_80 inline:4fl6DT4Bi+DWT6MsBt5BOQ7Gda1Jiv7rtpYLOqvm",
    b" a=crypto:1 AES_CM_128_HMAC_SHA1_80 inline:4fl6DT4Bi+DWT6MsBt5BOQ7Gda1Jiv7rtpYLOqvm",
    b"a=crypto:1 AES_CM_128_HMAC_SHA1_80 inline:4fl6DT4Bi+DWT6MsBt5BOQ7Gda1Jiv7rtpYLOqv",
    b"a=crypto:1 AES_CM_128_HMAC_SHA1_80 inline:4fl6DT4Bi+DWT6MsBt5BOQ7Gda1Jiv7rtpYLOqvmA",
    b"a=crypto:1 AES_CM_128_HMAC_SHA1_80 inline:4fl6DT4Bi+DWT6MsBt5BOQ7Gda1Jiv7rtpYLOqv=",
    b"a=crypto:1 AES_CM_128_HMAC_SHA1_80 inline:4fl6DT4Bi+DWT6MsBt5BOQ7Gda1Jiv7rtpYLOq==",
    b"a=crypto:1 AES_CM_128_HMAC_SHA1_80 inline:AAAAAAAAAAAAAAAAAAAAAAAAAAAAAAAAAAAAAAA=",
    b"a=crypto:1 AES_CM_128_HMAC_SHA1_80 inline:AAAAAAAAAAAAAAAAAAAAAAAAAAAAAAAAAAAAAA==",
    b"a=crypto:1 AES_CM_128_HMAC_SHA1_80 inline:4fl6DT4Bi+DWT6MsBt5B Q7Gda1Jiv7rtpYLOqvm",
    b"a=crypto:1 AES_CM_128_HMAC_SHA1_80 inline:4fl6DT4Bi-DWT6MsBt5BOQ7Gda1Jiv7rtpYLOqvm",
    b"a=crypto:1 AES_CM_128_HMAC_SHA1_80 inline:4fl6DT4Bi+DWT6MsBt5BOQ7Gda1Jiv7rtpYLOqvm|",
    b"a=crypto:1 AES_CM_128_HMAC_SHA1_80 inline:4fl6DT4Bi+DWT6MsBt5BOQ7Gda1Jiv7rtpYLOqvm|2^",
    b"a=crypto:1 AES_CM_128_HMAC_SHA1_80 inline:4fl6DT4Bi+DWT6MsBt5BOQ7Gda1Jiv7rtpYLOqvm|3^20",
    b"a=crypto:1 AES_CM_128_HMAC_SHA1_80 inline:4fl6DT4Bi+DWT6MsBt5BOQ7Gda1Jiv7rtpYLOqvm|2^20x",
    b"a=crypto:1 AES_CM_128_HMAC_SHA1_80 inline:4fl6DT4Bi+DWT6MsBt5BOQ7Gda1Jiv7rtpYLOqvm|-1",
    b"a=crypto:1 AES_CM_128_HMAC_SHA1_80 inline:4fl6DT4Bi+DWT6MsBt5BOQ7Gda1Jiv7rtpYLOqvm |2^20",
    b"a=crypto:1 AES_CM_128_HMAC_SHA1_80 inline:4fl6DT4Bi+DWT6MsBt5BOQ7Gda1Jiv7rtpYLOqvm|2^2 0",
    b"a=crypto:1 AES_CM_128_HMAC_SHA1_80 inline:4fl6DT4Bi+DWT6MsBt5BOQ7Gda1Jiv7rtpYLOqvm\t",
    b"a=crypto:1 AES_CM_128_HMAC_SHA1_80 inline:4fl6DT4Bi+DWT6MsBt5BOQ7Gda1Jiv7rtpYLOqvm\r",
];

fn not_passed_over() -> Option<usize> {
    for (number, text) in OTHER_LINES.iter().enumerate() {
        if usable(text).is_some() {
            return Some(number);
        }
    }
    None
}

#[test]
fn other_lines_are_passed_over(rt: HostRuntime) {
    none_failed(&rt, "OTHER_LINES", not_passed_over());
}

/// Lines, and how each is written.
const WRITTEN: &[(CryptoLine, &[u8])] = &[
    (
        CryptoLine {
            tag: 1,
            suite: Suite::Tag80,
            key: RFC_3711,
        },
        b"a=crypto:1 AES_CM_128_HMAC_SHA1_80 inline:4fl6DT4Bi+DWT6MsBt5BOQ7Gda1Jiv7rtpYLOqvm",
    ),
    (
        CryptoLine {
            tag: 2,
            suite: Suite::Tag32,
            key: RFC_4568_B,
        },
        b"a=crypto:2 AES_CM_128_HMAC_SHA1_32 inline:NzB4d1BINUAvLEw6UzF3WSJ+PSdFcGdUJShpX1Zj",
    ),
    (
        CryptoLine {
            tag: 0,
            suite: Suite::Tag80,
            key: RFC_4568_A,
        },
        b"a=crypto:0 AES_CM_128_HMAC_SHA1_80 inline:PS1uQCVeeCFCanVmcjkpPywjNWhcYD0mXXtxaVBR",
    ),
    (
        CryptoLine {
            tag: 999999999,
            suite: Suite::Tag32,
            key: [1; 30],
        },
        b"a=crypto:999999999 AES_CM_128_HMAC_SHA1_32 inline:AQEBAQEBAQEBAQEBAQEBAQEBAQEBAQEBAQEBAQEB",
    ),
];

/// Whether the line is written like this, with nothing after it, and is read back.
fn is_written(line: &CryptoLine, text: &[u8]) -> bool {
    let mut out = [b'#'; 96];
    if line.tag > 999_999_999 {
        return false;
    }
    let length = write_line(line, &mut out);
    &out[..length] == text
        && out[length..].iter().all(|byte| *byte == b'#')
        && usable(&out[..length]) == Some(*line)
}

fn other_written() -> Option<usize> {
    for (number, (line, text)) in WRITTEN.iter().enumerate() {
        if !is_written(line, text) {
            return Some(number);
        }
    }
    None
}

#[test]
fn lines_are_written(rt: HostRuntime) {
    none_failed(&rt, "WRITTEN", other_written());
    written_line_is_usable();
}
