//! The RTP packets of one side of a call.
ghost use Rattle.std.specs.Prelude.{◌≡◌, ◌+◌, ◌≤◌, ◌++◌, length, take, IsSome, Some};
ghost use Rattle.rtp_packet.specs.declared.head.RtpHead.{RtpHead};
ghost use Rattle.rtp_packet.specs.Head.{rtp_head};
ghost use Rattle.sdes_lines.specs.declared.crypto_line.Suite.TheVariants.{Tag80};
ghost use Rattle.srtp_context.specs.Packets.{protect};
ghost use Rattle.load_maker.specs.Packets.{side_source, ssrc_of, is_protected, plain_packet, packet};

use crate::sdp::{answer_key, media_port};
use port_pool::Side;
use relay_outside::{Addr, Ip, KeyAndSalt};
use sdes_lines::Suite;
use srtp_context::OutRtp;
use srtp_keys::DrawnKey;

/// How long a packet is before it is protected: 12 bytes of head and 20 of payload.
const PLAIN: usize = 32;

/// How long a packet is at most: an authentication tag has 10 bytes.
pub(crate) const ROOM: usize = 42;

/// The packets of one side of a call.
#[derive(Clone, Copy, PartialEq, Eq)]
pub(crate) struct Stream {
    /// The call, from 1.
    pub(crate) call: u32,
    /// The side that sends them.
    pub(crate) side: Side,
}

impl Stream {
    /// The address that the side signals, from which it sends.
    pub(crate) fn source(self) -> Addr
        requires { self.call ≤ 1000 }
        ensures { result ≡ side_source self.call self.side }
    {
        let port = media_port(self.call);
        match self.side {
            Side::A => Addr {
                ip: Ip::V4([192, 0, 2, 10]),
                port,
            },
            Side::B => Addr {
                ip: Ip::V4([198, 51, 100, 20]),
                port,
            },
        }
    }

    /// The packets' synchronization source.
    fn ssrc(self) -> u32
        requires { self.call ≤ 1000 }
        ensures { result ≡ ssrc_of self.call self.side }
    {
        match self.side {
            Side::A => self.call,
            Side::B => 0x8000_0000 + self.call,
        }
    }

    /// Whether the packets are protected.
    fn is_protected(self) -> bool
        ensures { result ≡ is_protected self.call self.side }
    {
        match self.side {
            Side::A => false,
            Side::B => self.call % 2 == 0,
        }
    }

    /// Writes a packet, by its number from 1, at the front of the buffer, and returns its length.
    pub(crate) fn write(self, number: u32, out: &mut [u8; ROOM]) -> usize
        requires call { self.call ≤ 1000 }
        requires number { number ≤ 1000 }
        ensures within { result ≤ 42 }
        ensures written { take result out.new ≡ packet self.call self.side number }
    {
        self.write_plain(number, out);
        if !self.is_protected() {
            return PLAIN;
        }
        seal(answer_key(self.call), out)
    }

    /// Writes a packet that isn't protected yet.
    fn write_plain(self, number: u32, out: &mut [u8; ROOM])
        requires call { self.call ≤ 1000 }
        requires number { number ≤ 1000 }
        ensures written { take 32 out.new ≡ plain_packet self.call self.side number }
        ensures head { rtp_head (take 32 out.new) ≡ Some (record { ssrc = ssrc_of self.call self.side; seq = number; head = 12 }) }
    {
        let payload = ((self.call + number) % 256) as u8;
        let at = put(out, 0, &[0x80, 0]);
        let at = put(out, at, &(number as u16).to_be_bytes());
        let at = put(out, at, &[0; 4]);
        let at = put(out, at, &self.ssrc().to_be_bytes());
        let _ = put(out, at, &[payload; 20]);
    }
}

/// Writes bytes at a place, and returns the place after them.
fn put(out: &mut [u8; ROOM], at: usize, bytes: &[u8]) -> usize
    requires { at + length bytes.now ≤ 42 }
    ensures place { result ≡ at + length bytes.now }
    ensures front { take result out.new ≡ take at out.old ++ bytes.now }
{
    out[at..at + bytes.len()].copy_from_slice(bytes);
    at + bytes.len()
}

/// Protects the packet at the front of the buffer as the first one under this key, so that its index is its sequence number, and
/// returns its length then.
/// Each packet has a context of its own, so that an end keeps no more than a count; the derivation of its session keys is work
/// of the load and not of the relay.
fn seal(key: KeyAndSalt, out: &mut [u8; ROOM]) -> usize
    requires { IsSome (rtp_head (take 32 out.old)) }
    ensures within { result ≤ 42 }
    ensures sealed { (found : RtpHead) → rtp_head (take 32 out.old) ≡ Some found → take result out.new ≡ protect key Tag80 (take 32 out.old) found.seq }
{
    let (key, _) = DrawnKey::from_draw(0, key).split();
    let mut context = OutRtp::new(key, Suite::Tag80);
    let Ok(sent) = context.protect(out, PLAIN) else {
        unreachable!();
    };
    sent.0
}
