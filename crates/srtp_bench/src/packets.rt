ghost use Rattle.std.specs.Prelude.{◌≤◌};

use crate::{BATCH, Times, moment};
use rtp_packet::rtp;
use sdes_lines::Suite;
use srtp_context::{InRtp, OutRtp};
use srtp_keys::DrawnKey;
use std::alloc::Global;
use std::time::CpuClock;

/// A master key of 16 bytes with a master salt of 14 after it (RFC 3711 appendix B.3).
const MASTER: [u8; 30] = [
    0xe1, 0xf9, 0x7a, 0x0d, 0x3e, 0x01, 0x8b, 0xe0, 0xd6, 0x4f, 0xa3, 0x2c, 0x06, 0xde, 0x41, 0x39,
    0x0e, 0xc6, 0x75, 0xad, 0x49, 0x8a, 0xfe, 0xeb, 0xb6, 0x96, 0x0b, 0x3a, 0xab, 0xe6,
];

/// A packet in a room for the longest.
#[derive(Drop)]
struct Packet {
    bytes: [u8; 2064],
    len: usize,
}

/// The first 12 bytes of a packet without a number: version 2, and an SSRC.
const HEAD: [u8; 12] = [0x80, 0, 0, 0, 0, 0, 0, 0, 0x11, 0x11, 0x11, 0x11];

fn make_packet(size: usize) -> Packet {
    let mut bytes = [0x5a; 2064];
    bytes[..12].copy_from_slice(&HEAD);
    Packet { bytes, len: size }
}

/// The packets of a round, without numbers.
fn make_packets(alloc: Global, size: usize) -> Option<Vec<Packet>> {
    let mut packets = Vec::new(alloc);
    for _ in 0..BATCH {
        packets.push(make_packet(size)).ok()?;
    }
    Some(packets)
}

/// Gives the packets numbers from here on, and returns the next number.
fn count_on(packets: &mut [Packet], next: u16) -> u16 {
    let mut next = next;
    for packet in packets.iter_mut() {
        packet.bytes[2..4].copy_from_slice(&next.to_be_bytes());
        next = next.wrapping_add(1);
    }
    next
}

/// Protects the packet of this size in its room.
fn protect(context: &mut OutRtp, packet: &mut Packet, size: usize) -> Option<()>
    requires { size ≤ 2000 }
{
    if rtp(&packet.bytes[..size]).is_none() {
        return None;
    }
    let (len, _) = context.protect(&mut packet.bytes, size).ok()?;
    packet.len = len;
    Some(())
}

fn protect_all(context: &mut OutRtp, packets: &mut [Packet], size: usize) -> Option<()>
    requires { size ≤ 2000 }
{
    for packet in packets.iter_mut() {
        protect(context, packet, size)?;
    }
    Some(())
}

/// Opens the protected packet in its room.
fn open(context: &mut InRtp, packet: &mut Packet) -> Option<()> {
    let len = packet.len;
    if len > 2064 || rtp(&packet.bytes[..len]).is_none() {
        return None;
    }
    packet.len = context.unprotect(&mut packet.bytes, len).ok()?;
    Some(())
}

fn open_all(context: &mut InRtp, packets: &mut [Packet]) -> Option<()> {
    for packet in packets.iter_mut() {
        open(context, packet)?;
    }
    Some(())
}

/// The time that protecting takes, and opening what was protected.
pub(crate) fn time(
    clock: &impl CpuClock,
    alloc: Global,
    size: usize,
    rounds: usize,
) -> Option<Times>
    requires { size ≤ 2000 }
{
    let (key, _) = DrawnKey::from_draw(0, MASTER).split();
    let mut sender = OutRtp::new(key, Suite::Tag80);
    let mut receiver = InRtp::new(&MASTER, Suite::Tag80);
    let mut packets = make_packets(alloc, size)?;
    let mut next = 0;
    let mut times = Times::new();
    for _ in 0..rounds {
        next = count_on(packets.as_mut_slice(), next);
        let begin = moment(clock)?;
        protect_all(&mut sender, packets.as_mut_slice(), size)?;
        let between = moment(clock)?;
        open_all(&mut receiver, packets.as_mut_slice())?;
        times.add(begin, between, moment(clock)?);
    }
    Some(times)
}
