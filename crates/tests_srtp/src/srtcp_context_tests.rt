use crate::cases::none_failed;
use rtp_packet::rtcp;
use srtcp_context::{InRtcp, OutRtcp};
use srtp_keys::{DrawnKey, ProtectFault, UnprotectFault};
use std::test::Fail;

// The master key and salt of RFC 3711, appendix B.3.
const MASTER: &[u8; 30] =
    b"\xe1\xf9\x7a\x0d\x3e\x01\x8b\xe0\xd6\x4f\xa3\x2c\x06\xde\x41\x39\x0e\xc6\x75\xad\x49\x8a\xfe\xeb\xb6\x96\x0b\x3a\xab\xe6";

const PLAIN: &[u8; 24] =
    b"\x81\xc8\x00\x0b\xca\xfe\xba\xbe\xab\xab\xab\xab\xab\xab\xab\xab\xab\xab\xab\xab\xab\xab\xab\xab";

fn outbound() -> OutRtcp {
    let (_, key) = DrawnKey::from_draw(0, *MASTER).split();
    OutRtcp::new(key)
}

/// Whether a packet of this many bytes is protected with this result; not where the call's conditions don't hold.
fn is_protected(
    context: &mut OutRtcp,
    buf: &mut [u8; 64],
    len: usize,
    wanted: Result<(usize, u64), ProtectFault>,
) -> bool {
    len <= 50 && rtcp(&buf[..len]).is_some() && context.protect(buf, len) == wanted
}

fn is_unprotected(
    context: &mut InRtcp,
    buf: &mut [u8; 64],
    len: usize,
    wanted: Result<usize, UnprotectFault>,
) -> bool {
    len <= 64 && rtcp(&buf[..len]).is_some() && context.unprotect(buf, len) == wanted
}

fn buffer(packet: &[u8]) -> [u8; 64] {
    let mut buf = [0; 64];
    if packet.len() <= 64 {
        buf[..packet.len()].copy_from_slice(packet);
    }
    buf
}

fn is_plain(buf: &[u8; 64]) -> bool {
    &buf[..24] == PLAIN.as_slice()
}

// A sender report without a block and without its report's fields: 8 bytes.
fn bare(ssrc: u8) -> [u8; 64] {
    let mut buf = [0; 64];
    buf[0] = 0x80;
    buf[1] = 200;
    buf[3] = 1;
    buf[7] = ssrc;
    buf
}

/// Packets, and what is sent of them to other implementations. Computed by a program over OpenSSL's AES and HMAC (Python's
/// package cryptography 48), which also gives the packet of libsrtp's own test below.
const SENT: &[(&[u8], &[u8])] = &[
    (
        PLAIN,
        b"\x81\xc8\x00\x0b\xca\xfe\xba\xbe\xb1\x9c\x21\x9a\x08\x6b\x6c\x7a\xe6\x1d\x8e\x0b\xfe\xb4\xbe\x3f\x80\x00\x00\x00\x56\x31\xd6\xcf\xc9\x06\xcd\xb3\x0f\x41",
    ),
    (
        b"\x80\xc8\x00\x01\x22\x22\x22\x22",
        b"\x80\xc8\x00\x01\x22\x22\x22\x22\x80\x00\x00\x00\x2c\x84\x2e\xbf\x8c\x60\xf8\x15\xdb\x9e",
    ),
];

fn is_sent(packet: &[u8], wanted: &[u8]) -> bool {
    let mut buf = buffer(packet);
    let answer = Ok((wanted.len(), 0));
    is_protected(&mut outbound(), &mut buf, packet.len(), answer) && buf == buffer(wanted)
}

fn other_sent() -> Option<usize> {
    for (number, (packet, wanted)) in SENT.iter().enumerate() {
        if !is_sent(packet, wanted) {
            return Some(number);
        }
    }
    None
}

#[test]
fn packets_sent_to_other_implementations(rt: HostRuntime) {
    none_failed(&rt, "SENT", other_sent());
}

/// The first is that of libsrtp's own test (test/srtp_driver.c, srtp_validate), whose index is 1; then index 0, and indices
/// 0 and 5 without the E bit, computed as above.
const TAKEN: &[&[u8]] = &[
    b"\x81\xc8\x00\x0b\xca\xfe\xba\xbe\x71\x28\x03\x5b\xe4\x87\xb9\xbd\xbe\xf8\x90\x41\xf9\x77\xa5\xa8\x80\x00\x00\x01\x99\x3e\x08\xcd\x54\xd6\xc1\x23\x07\x98",
    b"\x81\xc8\x00\x0b\xca\xfe\xba\xbe\xb1\x9c\x21\x9a\x08\x6b\x6c\x7a\xe6\x1d\x8e\x0b\xfe\xb4\xbe\x3f\x80\x00\x00\x00\x56\x31\xd6\xcf\xc9\x06\xcd\xb3\x0f\x41",
    b"\x81\xc8\x00\x0b\xca\xfe\xba\xbe\xab\xab\xab\xab\xab\xab\xab\xab\xab\xab\xab\xab\xab\xab\xab\xab\x00\x00\x00\x00\x21\x3f\x5f\x12\xb3\x15\x76\x2f\x07\x9d",
    b"\x81\xc8\x00\x0b\xca\xfe\xba\xbe\xab\xab\xab\xab\xab\xab\xab\xab\xab\xab\xab\xab\xab\xab\xab\xab\x00\x00\x00\x05\x87\xfa\x5c\xd2\x18\x16\xde\x7c\x9c\x8c",
];

fn is_taken(packet: &[u8]) -> bool {
    let mut buf = buffer(packet);
    is_unprotected(&mut InRtcp::new(MASTER), &mut buf, 38, Ok(24)) && is_plain(&buf)
}

fn is_not_authentic(packet: &[u8], changed: usize) -> bool {
    let mut buf = buffer(packet);
    if changed >= 64 {
        return false;
    }
    buf[changed] ^= 0x80;
    let answer = Err(UnprotectFault::NotAuthentic);
    is_unprotected(&mut InRtcp::new(MASTER), &mut buf, 38, answer)
}

/// The E bit and the index are authenticated, and so is the last byte of the tag.
fn other_taken() -> Option<usize> {
    for (number, packet) in TAKEN.iter().enumerate() {
        let taken = is_taken(packet)
            && is_not_authentic(packet, 24)
            && is_not_authentic(packet, 27)
            && is_not_authentic(packet, 37);
        if !taken {
            return Some(number);
        }
    }
    None
}

#[test]
fn packets_of_other_implementations(rt: HostRuntime) {
    none_failed(&rt, "TAKEN", other_taken());
}

/// Whether a first packet of the source goes from the one to the other.
fn goes_through(sender: &mut OutRtcp, receiver: &mut InRtcp, ssrc: u8) -> bool {
    let mut buf = bare(ssrc);
    is_protected(sender, &mut buf, 8, Ok((22, 0)))
        && is_unprotected(receiver, &mut buf, 22, Ok(8))
        && buf[..8] == bare(ssrc)[..8]
}

/// The first of 32 sources whose packet doesn't go through.
fn lost_source(sender: &mut OutRtcp, receiver: &mut InRtcp) -> Option<usize> {
    for ssrc in 0..32u8 {
        if !goes_through(sender, receiver, ssrc) {
            return Some(ssrc as usize);
        }
    }
    None
}

#[test]
fn sources_count_from_zero_and_none_goes(rt: HostRuntime) {
    let mut sender = outbound();
    let mut receiver = InRtcp::new(MASTER);
    none_failed(&rt, "the sources", lost_source(&mut sender, &mut receiver));
    let mut buf = bare(32);
    assert!(rt; is_protected(&mut sender, &mut buf, 8, Err(ProtectFault::TooManySources)));
    assert!(rt; buf == bare(32));
    assert!(rt; is_protected(&mut outbound(), &mut buf, 8, Ok((22, 0))));
    assert!(rt;
        is_unprotected(
            &mut receiver,
            &mut buf,
            22,
            Err(UnprotectFault::TooManySources)
        )
    );
    let mut again = bare(0);
    assert!(rt; is_protected(&mut sender, &mut again, 8, Ok((22, 1))));
    let copy = again;
    assert!(rt; is_unprotected(&mut receiver, &mut again, 21, Err(UnprotectFault::Short)));
    assert!(rt; is_unprotected(&mut receiver, &mut again, 22, Ok(8)));
    again = copy;
    assert!(rt; is_unprotected(&mut receiver, &mut again, 22, Err(UnprotectFault::Replayed)));
    assert!(rt; again == copy);
}

/// Packets 1, 2 and 129 of the 130 of one source; the number of the first that isn't protected with its index.
fn late_packets(sender: &mut OutRtcp, kept: &mut [[u8; 64]; 3]) -> Option<usize> {
    for index in 0..130u64 {
        let mut buf = bare(1);
        if !is_protected(sender, &mut buf, 8, Ok((22, index))) {
            return Some(index as usize);
        }
        match index {
            1 => kept[0] = buf,
            2 => kept[1] = buf,
            129 => kept[2] = buf,
            _ => {}
        }
    }
    None
}

// Indices 0 to 129 are sent and 129 is taken first: 1 lies exactly 128 behind it.
#[test]
fn late_indices(rt: HostRuntime) {
    let mut kept = [bare(1); 3];
    none_failed(&rt, "the indices", late_packets(&mut outbound(), &mut kept));
    let mut receiver = InRtcp::new(MASTER);
    assert!(rt; is_unprotected(&mut receiver, &mut kept[2], 22, Ok(8)));
    assert!(rt; is_unprotected(&mut receiver, &mut kept[0], 22, Err(UnprotectFault::TooOld)));
    assert!(rt; is_unprotected(&mut receiver, &mut kept[1], 22, Ok(8)));
}

#[test]
fn memory_of_contexts(rt: HostRuntime) -> std::io::Result<()> {
    let inbound = std::mem::size_of::<InRtcp>();
    let outbound = std::mem::size_of::<OutRtcp>();
    println!(rt; "a context of 32 sources takes {inbound} bytes inbound and {outbound} outbound")?;
    assert!(rt; inbound <= 2_048 && outbound <= 1_024);
    Ok(())
}

#[test]
fn saved_contexts_go_on(rt: HostRuntime) -> Result<(), Fail> {
    let mut sender = outbound();
    let mut first = bare(1);
    assert!(rt; is_protected(&mut sender, &mut first, 8, Ok((22, 0))));
    let mut sender = OutRtcp::load(&sender.save()).ok_or("a sender is loaded")?;
    let mut next = bare(1);
    assert!(rt; is_protected(&mut sender, &mut next, 8, Ok((22, 1))));
    let mut receiver = InRtcp::new(MASTER);
    let mut opened = first;
    assert!(rt; is_unprotected(&mut receiver, &mut opened, 22, Ok(8)));
    let mut receiver = InRtcp::load(&receiver.save()).ok_or("a receiver is loaded")?;
    assert!(rt; is_unprotected(&mut receiver, &mut first, 22, Err(UnprotectFault::Replayed)));
    assert!(rt; is_unprotected(&mut receiver, &mut next, 22, Ok(8)));
    Ok(())
}
