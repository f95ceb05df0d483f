use crate::cases::none_failed;
use rtp_packet::rtp;
use sdes_lines::Suite;
use srtp_context::{InRtp, OutRtp};
use srtp_keys::{DrawnKey, ProtectFault, UnprotectFault};
use std::process::Abort;
use std::test::Fail;

// The master key and salt of RFC 3711, appendix B.3.
const MASTER: &[u8; 30] =
    b"\xe1\xf9\x7a\x0d\x3e\x01\x8b\xe0\xd6\x4f\xa3\x2c\x06\xde\x41\x39\x0e\xc6\x75\xad\x49\x8a\xfe\xeb\xb6\x96\x0b\x3a\xab\xe6";

fn outbound(suite: Suite) -> OutRtp {
    let (key, _) = DrawnKey::from_draw(0, *MASTER).split();
    OutRtp::new(key, suite)
}

/// Whether a packet of this many bytes is protected with this result; not where the call's conditions don't hold.
fn is_protected(
    context: &mut OutRtp,
    buf: &mut [u8; 64],
    len: usize,
    wanted: Result<(usize, u64), ProtectFault>,
) -> bool {
    len <= 54 && rtp(&buf[..len]).is_some() && context.protect(buf, len) == wanted
}

fn is_unprotected(
    context: &mut InRtp,
    buf: &mut [u8; 64],
    len: usize,
    wanted: Result<usize, UnprotectFault>,
) -> bool {
    len <= 64 && rtp(&buf[..len]).is_some() && context.unprotect(buf, len) == wanted
}

fn buffer(packet: &[u8]) -> [u8; 64] {
    let mut buf = [0; 64];
    if packet.len() <= 64 {
        buf[..packet.len()].copy_from_slice(packet);
    }
    buf
}

// A packet of 12 bytes.
fn bare(ssrc: u8, seq: u16) -> [u8; 64] {
    let mut buf = [0; 64];
    buf[0] = 0x80;
    buf[2] = (seq / 256) as u8;
    buf[3] = (seq % 256) as u8;
    buf[11] = ssrc;
    buf
}

const PLAIN: &[u8] =
    b"\x80\x0f\x12\x34\xde\xca\xfb\xad\xca\xfe\xba\xbe\xab\xab\xab\xab\xab\xab\xab\xab\xab\xab\xab\xab\xab\xab\xab\xab";

/// Packets, and how they are protected. The first packet is that of libsrtp's own test (test/srtp_driver.c,
/// srtp_validate); the others were computed by a program over OpenSSL's AES and HMAC (Python's package cryptography 48),
/// which gives the first one too.
const PROTECTED: &[(Suite, &[u8], &[u8])] = &[
    (
        Suite::Tag80,
        PLAIN,
        b"\x80\x0f\x12\x34\xde\xca\xfb\xad\xca\xfe\xba\xbe\x4e\x55\xdc\x4c\xe7\x99\x78\xd8\x8c\xa4\xd2\x15\x94\x9d\x24\x02\xb7\x8d\x6a\xcc\x99\xea\x17\x9b\x8d\xbb",
    ),
    (
        Suite::Tag32,
        PLAIN,
        b"\x80\x0f\x12\x34\xde\xca\xfb\xad\xca\xfe\xba\xbe\x4e\x55\xdc\x4c\xe7\x99\x78\xd8\x8c\xa4\xd2\x15\x94\x9d\x24\x02\xb7\x8d\x6a\xcc",
    ),
    (
        Suite::Tag80,
        b"\x92\x08\x12\x34\x00\x00\x00\x00\xca\xfe\xba\xbe\x00\x00\x00\x01\x00\x00\x00\x02\xbe\xde\x00\x01\x10\xff\x00\x00hello",
        b"\x92\x08\x12\x34\x00\x00\x00\x00\xca\xfe\xba\xbe\x00\x00\x00\x01\x00\x00\x00\x02\xbe\xde\x00\x01\x10\xff\x00\x00\x8d\x9b\x1b\x8b\x23\x5e\xf5\xa8\xa2\xf8\x1d\x78\xef\xa2\x60",
    ),
    (
        Suite::Tag80,
        b"\x80\x0f\x12\x34\xde\xca\xfb\xad\xca\xfe\xba\xbe",
        b"\x80\x0f\x12\x34\xde\xca\xfb\xad\xca\xfe\xba\xbe\x77\x3c\x2e\x1c\xd9\x1d\x59\x0d\x16\xe5",
    ),
];

fn is_protected_as(buf: &mut [u8; 64], suite: Suite, packet: &[u8], wanted: &[u8]) -> bool {
    let answer = Ok((wanted.len(), 0x1234));
    is_protected(&mut outbound(suite), buf, packet.len(), answer) && *buf == buffer(wanted)
}

fn is_opened_as(buf: &mut [u8; 64], suite: Suite, packet: &[u8], len: usize) -> bool {
    let answer = Ok(packet.len());
    is_unprotected(&mut InRtp::new(MASTER, suite), buf, len, answer)
        && packet.len() <= 64
        && &buf[..packet.len()] == packet
}

fn other_protected() -> Option<usize> {
    for (number, (suite, packet, wanted)) in PROTECTED.iter().enumerate() {
        let mut buf = buffer(packet);
        let holds = is_protected_as(&mut buf, *suite, packet, wanted)
            && is_opened_as(&mut buf, *suite, packet, wanted.len());
        if !holds {
            return Some(number);
        }
    }
    None
}

#[test]
fn packets_of_other_implementations(rt: HostRuntime) {
    none_failed(&rt, "PROTECTED", other_protected());
}

fn is_number_sent(sender: &mut OutRtp, seq: u16) -> bool {
    let mut buf = bare(0xbe, seq);
    buf[8] = 0xca;
    buf[9] = 0xfe;
    buf[10] = 0xba;
    is_protected(sender, &mut buf, 12, Ok((22, seq as u64)))
}

// The same packet one cycle later, with the roll-over counter 1.
#[test]
fn the_rollover_counter_is_authenticated(rt: HostRuntime) {
    let mut sender = outbound(Suite::Tag80);
    assert!(rt; is_number_sent(&mut sender, 0x1234));
    assert!(rt; is_number_sent(&mut sender, 0x9000));
    assert!(rt; is_number_sent(&mut sender, 0xf000));
    let mut buf = buffer(PLAIN);
    assert!(rt; is_protected(&mut sender, &mut buf, 28, Ok((38, 0x11234))));
    let wanted =
        b"\x80\x0f\x12\x34\xde\xca\xfb\xad\xca\xfe\xba\xbe\x17\x92\x65\xc8\xbf\x30\x3e\x4c\x24\xe7\x27\x9f\x73\x9b\xb5\xa6\xf8\xb3\x91\x6f\xd6\x70\x05\x7b\xf1\xdc";
    assert!(rt; buf == buffer(wanted));
}

/// Numbers that are sent in turn, and the result of each.
const WRAPPING: &[(u16, Result<(usize, u64), ProtectFault>)] = &[
    (65_534, Ok((16, 65_534))),
    (65_535, Ok((16, 65_535))),
    (0, Ok((16, 65_536))),
    (65_535, Err(ProtectFault::IndexUsed)),
];

const LATE: &[(u16, Result<(usize, u64), ProtectFault>)] = &[
    (0, Ok((16, 0))),
    (65_535, Err(ProtectFault::TooOld)),
    (0, Err(ProtectFault::IndexUsed)),
];

fn other_answer(answers: &[(u16, Result<(usize, u64), ProtectFault>)]) -> Option<usize> {
    let mut sender = outbound(Suite::Tag32);
    for (number, (seq, wanted)) in answers.iter().enumerate() {
        let mut buf = bare(1, *seq);
        if !is_protected(&mut sender, &mut buf, 12, *wanted) {
            return Some(number);
        }
    }
    None
}

#[test]
fn wrapping_and_late_numbers(rt: HostRuntime) {
    none_failed(&rt, "WRAPPING", other_answer(WRAPPING));
    none_failed(&rt, "LATE", other_answer(LATE));
}

#[test]
fn refusals_change_nothing(rt: HostRuntime) {
    let mut sender = outbound(Suite::Tag80);
    let mut receiver = InRtp::new(MASTER, Suite::Tag80);
    let mut buf = bare(1, 500);
    assert!(rt; is_protected(&mut sender, &mut buf, 12, Ok((22, 500))));
    let whole = buf;
    assert!(rt; is_unprotected(&mut receiver, &mut buf, 21, Err(UnprotectFault::Short)));
    // The last byte of the tag counts in the suite of 80 bits.
    buf[21] ^= 1;
    let flipped = buf;
    assert!(rt;
        is_unprotected(
            &mut receiver,
            &mut buf,
            22,
            Err(UnprotectFault::NotAuthentic)
        )
    );
    assert!(rt; buf == flipped);
    buf = whole;
    assert!(rt; is_unprotected(&mut receiver, &mut buf, 22, Ok(12)));
    buf = whole;
    assert!(rt; is_unprotected(&mut receiver, &mut buf, 22, Err(UnprotectFault::Replayed)));
    assert!(rt; buf == whole);
    // A packet exactly 128 behind is too old, one 127 behind is taken.
    let mut other = outbound(Suite::Tag80);
    let mut exactly = bare(1, 372);
    let mut inside = bare(1, 373);
    assert!(rt; is_protected(&mut other, &mut exactly, 12, Ok((22, 372))));
    assert!(rt; is_protected(&mut other, &mut inside, 12, Ok((22, 373))));
    assert!(rt; is_unprotected(&mut receiver, &mut exactly, 22, Err(UnprotectFault::TooOld)));
    assert!(rt; is_unprotected(&mut receiver, &mut inside, 22, Ok(12)));
}

/// Whether a packet of the source goes from the one to the other.
fn goes_through(sender: &mut OutRtp, receiver: &mut InRtp, ssrc: u8) -> bool {
    let mut buf = bare(ssrc, 7);
    is_protected(sender, &mut buf, 12, Ok((22, 7)))
        && is_unprotected(receiver, &mut buf, 22, Ok(12))
}

/// The first of 32 sources whose packet doesn't go through.
fn lost_source(sender: &mut OutRtp, receiver: &mut InRtp) -> Option<usize> {
    for ssrc in 0..32u8 {
        if !goes_through(sender, receiver, ssrc) {
            return Some(ssrc as usize);
        }
    }
    None
}

#[test]
fn thirty_two_sources_and_one_more(rt: HostRuntime) {
    let mut sender = outbound(Suite::Tag80);
    let mut receiver = InRtp::new(MASTER, Suite::Tag80);
    none_failed(&rt, "the sources", lost_source(&mut sender, &mut receiver));
    let mut buf = bare(32, 7);
    assert!(rt; is_protected(&mut sender, &mut buf, 12, Err(ProtectFault::TooManySources)));
    assert!(rt; buf == bare(32, 7));
    assert!(rt; is_protected(&mut outbound(Suite::Tag80), &mut buf, 12, Ok((22, 7))));
    assert!(rt;
        is_unprotected(
            &mut receiver,
            &mut buf,
            22,
            Err(UnprotectFault::TooManySources)
        )
    );
    let mut first = bare(0, 7);
    assert!(rt; is_protected(&mut sender, &mut first, 12, Err(ProtectFault::IndexUsed)));
}

#[test]
fn memory_of_a_context(rt: HostRuntime) -> std::io::Result<()> {
    let size = std::mem::size_of::<InRtp>();
    println!(rt; "a context of 32 sources takes {size} bytes")?;
    assert!(rt; size <= 2_048);
    Ok(())
}

fn is_long_protected(buf: &mut [u8; 2064]) -> bool {
    rtp(&buf[..2000]).is_some() && outbound(Suite::Tag80).protect(buf, 2000) == Ok((2010, 0x1234))
}

fn is_long_unprotected(buf: &mut [u8; 2064]) -> bool {
    rtp(&buf[..2010]).is_some() && InRtp::new(MASTER, Suite::Tag80).unprotect(buf, 2010) == Ok(2000)
}

fn fronts_are_alike(one: &[u8; 2064], other: &[u8; 2064]) -> bool {
    one[..2000] == other[..2000]
}

// The bytes were computed as those above.
#[test]
fn a_packet_of_2000_bytes(rt: HostRuntime) {
    let mut buf = [0u8; 2064];
    buf[..12].copy_from_slice(b"\x80\x0f\x12\x34\xde\xca\xfb\xad\xca\xfe\xba\xbe");
    for place in 12..2000usize {
        buf[place] = ((place - 12) * 7 % 256) as u8;
    }
    let plain = buf;
    assert!(rt; is_long_protected(&mut buf));
    assert!(rt;
        &buf[1994..2010]
            == b"\x62\xed\x45\xf3\x30\xeb\x24\x03\x9d\x60\x38\xb1\x5b\x9a\x7c\x95".as_slice()
    );
    assert!(rt; is_long_unprotected(&mut buf));
    assert!(rt; fronts_are_alike(&buf, &plain));
}

// The index of a number by whole lists: of the numbers that end in it the nearest to the greatest noted, if that is none
// below zero, not noted and less than 128 behind.
fn by_whole_list(noted: &[u64], seq: u64) -> Result<u64, ProtectFault> {
    let Some(top) = noted.iter().copied().max() else {
        return Ok(seq);
    };
    let mut nearest = seq;
    for cycle in 1..8u64 {
        let candidate = (cycle * 65_536).wrapping_add(seq);
        let own = candidate / 65_536 == top / 65_536;
        let (here, best) = (candidate.abs_diff(top), nearest.abs_diff(top));
        if here < best || here == best && own {
            nearest = candidate;
        }
    }
    let below_zero = top.wrapping_add(65_536).wrapping_sub(seq);
    if below_zero < nearest.abs_diff(top) || nearest.wrapping_add(128) <= top {
        return Err(ProtectFault::TooOld);
    }
    if noted.iter().any(|index| *index == nearest) {
        return Err(ProtectFault::IndexUsed);
    }
    Ok(nearest)
}

/// The next of numbers that look drawn.
fn next_draw(draw: u64) -> u64 {
    draw.wrapping_mul(6_364_136_223_846_793_005)
        .wrapping_add(1_442_695_040_888_963_407)
}

/// A step of up to 899 numbers, or none at each fourth step.
fn step_length(step: u32, draw: u64) -> u64 {
    if step % 4 != 1 { (draw >> 33) % 900 } else { 0 }
}

/// How late the packet of a step is: up to 1,199 numbers at each third step.
fn lateness(step: u32, draw: u64) -> u64 {
    if step % 3 == 0 {
        (draw >> 50) % 1200
    } else {
        0
    }
}

/// Whether a packet of this number is sent with the index, or refused for the cause, of the whole lists.
fn is_sent_as(sender: &mut OutRtp, seq: u64, wanted: Result<u64, ProtectFault>) -> bool {
    let mut buf = bare(1, (seq % 65_536) as u16);
    match wanted {
        Ok(index) => is_protected(sender, &mut buf, 12, Ok((16, index))),
        Err(cause) => is_protected(sender, &mut buf, 12, Err(cause)),
    }
}

// Steps of up to 899 numbers, packets up to 1,199 late and some sent twice, over more than three cycles.
#[test]
fn three_cycles_against_whole_lists(rt: HostRuntime) {
    let mut sender = outbound(Suite::Tag32);
    let mut noted = Vec::new(rt.alloc());
    let mut refused = 0u32;
    let mut front = 0u64;
    let mut draw = 1u64;
    for step in 0..640u32 {
        draw = next_draw(draw);
        front = front.wrapping_add(step_length(step, draw));
        let seq = front.saturating_sub(lateness(step, draw)) % 65_536;
        let wanted = by_whole_list(&noted, seq);
        assert!(rt; is_sent_as(&mut sender, seq, wanted), "step {step}");
        match wanted {
            Ok(index) => {
                let Ok(()) = noted.push(index) else {
                    panic!(rt; "no memory");
                };
            }
            Err(_) => refused = refused.wrapping_add(1),
        }
    }
    assert!(rt; front > 196_608 && refused > 20);
}

// A sender that has sent two packets, with a new cycle of sequence numbers between them.
fn sender_after_a_cycle(rt: &impl Abort) -> OutRtp {
    let mut context = outbound(Suite::Tag32);
    assert!(rt; is_protected(&mut context, &mut bare(1, 65_535), 12, Ok((16, 65_535))));
    assert!(rt; is_protected(&mut context, &mut bare(1, 0), 12, Ok((16, 65_536))));
    context
}

#[test]
fn a_saved_sender_goes_on(rt: HostRuntime) -> Result<(), Fail> {
    let mut unbroken = sender_after_a_cycle(&rt);
    let saved = sender_after_a_cycle(&rt).save();
    let mut loaded = OutRtp::load(&saved).ok_or("a sender is loaded")?;
    let mut used = bare(1, 65_535);
    assert!(rt; is_protected(&mut loaded, &mut used, 12, Err(ProtectFault::IndexUsed)));
    let mut wanted = bare(1, 1);
    let mut sent = bare(1, 1);
    assert!(rt; is_protected(&mut unbroken, &mut wanted, 12, Ok((16, 65_537))));
    assert!(rt; is_protected(&mut loaded, &mut sent, 12, Ok((16, 65_537))));
    assert!(rt; sent == wanted);
    Ok(())
}

#[test]
fn a_saved_receiver_goes_on(rt: HostRuntime) -> Result<(), Fail> {
    let mut sender = outbound(Suite::Tag80);
    let mut context = InRtp::new(MASTER, Suite::Tag80);
    let mut first = bare(1, 7);
    assert!(rt; is_protected(&mut sender, &mut first, 12, Ok((22, 7))));
    let mut next = bare(1, 8);
    assert!(rt; is_protected(&mut sender, &mut next, 12, Ok((22, 8))));
    let mut opened = first;
    assert!(rt; is_unprotected(&mut context, &mut opened, 22, Ok(12)));
    let saved = context.save();
    let mut loaded = InRtp::load(&saved).ok_or("a receiver is loaded")?;
    assert!(rt; is_unprotected(&mut loaded, &mut first, 22, Err(UnprotectFault::Replayed)));
    assert!(rt; is_unprotected(&mut loaded, &mut next, 22, Ok(12)));
    let mut other = saved;
    other[50] = 5;
    assert!(rt; InRtp::load(&other).is_none());
    Ok(())
}
