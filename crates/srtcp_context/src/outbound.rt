ghost use Rattle.std.specs.Prelude.{ℕ, [], ◌≡◌, ◌+◌, ◌<◌, ◌≤◌, ◌^◌, List, Some, length, take, IsSome, IfOk, OnErr};
ghost use Rattle.rtp_packet.specs.Head.{rtcp_ssrc};
ghost use Rattle.srtp_sources.specs.Notes.{Note};
ghost use Rattle.srtcp_context.specs.OutboundPackets.{rtcp_wrapping};

use crate::counts::Counts;
use crate::session::RtcpSession;
use rtp_packet::rtcp;
use srtp_keys::{ProtectFault, RtcpKey};
use srtp_sources::{part_at, put_part};

/// One more than the greatest index.
const INDICES: u32 = 2_147_483_648;

/// The state of RTCP packets that are sent under one master key. It can't be cloned, so that no index is used twice.
#[derive(Drop)]
pub struct OutRtcp {
    session: RtcpSession,
    counts: Counts,
}

impl OutRtcp {
    ghost use Rattle.srtcp_context.specs.Contexts.{OutRtcpFor, WrapsRtcpTo};
    ghost use Rattle.std.specs.Prelude.{IfSome, IfNone};
    ghost use Rattle.srtcp_context.specs.declared.outbound.OutRtcp.{OutRtcp};
    ghost use Rattle.srtcp_context.specs.SavedRtcp.{FitsOutRtcp, saved_out_rtcp};

    /// The bytes of the saved form.
    pub const SAVED: usize = 307;

    /// The context of a drawn key, which has protected no packet.
    pub fn new(key: RtcpKey) -> OutRtcp
        ensures { OutRtcpFor key.bytes result [] }
    {
        OutRtcp {
            session: RtcpSession::new(&key.into_bytes()),
            counts: Counts::new(),
        }
    }

    /// The saved form, which spends the context: the keys of the session, and how many packets each source has sent. It has no
    /// master key in it, and is as secret as one.
    pub fn save(self) -> [u8; OutRtcp::SAVED]
        ensures fits { FitsOutRtcp self }
        ensures saved { result ≡ saved_out_rtcp self }
    {
        let OutRtcp { session, counts } = self;
        let mut bytes = [0; OutRtcp::SAVED];
        put_part(&mut bytes, 0, &session.save());
        put_part(&mut bytes, 50, &counts.save());
        bytes
    }

    /// The context of a saved form; None where it is that of no context.
    pub fn load(bytes: &[u8; OutRtcp::SAVED]) -> Option<OutRtcp>
        ensures some { IfSome result (λ context. FitsOutRtcp context × (saved_out_rtcp context ≡ bytes.now)) }
        ensures none { IfNone result ((context : OutRtcp) → FitsOutRtcp context → saved_out_rtcp context ≡ bytes.now → ⊥) }
    {
        let session = RtcpSession::load(&part_at(bytes, 0));
        let counts = Counts::load(&part_at(bytes, 50))?;
        Some(OutRtcp { session, counts })
    }

    /// Protects in place the packet in the buffer's first `len` bytes, and returns the length of the protected packet and
    /// the index that it used. Index and tag take 14 bytes after the packet.
    ///
    /// The indices of a source count from 0; a new source must have room, and the index must be below 2^31 (RFC 3711
    /// sections 3.4 and 9.2). After a refusal nothing has changed.
    ///
    /// Too many sources is told before a spent key; for RTP the two never hold together. Freshness isn't asked: the index
    /// is the number of packets that were protected before.
    pub fn protect(&mut self, buf: &mut [u8], len: usize) -> Result<(usize, u64), ProtectFault>
        requires room { len + 14 ≤ length buf.old }
        requires size { len < 2 ^ 31 }
        requires packet { IsSome (rtcp_ssrc (take len buf.old)) }
        ensures fits { IfOk result (λ sent. sent.0 ≡ len + 14) }
        ensures refused { OnErr result ((self.new ≡ self.old) × (buf.new ≡ buf.old)) }
        ensures wraps { (master : List ℕ) (notes : List Note) → OutRtcpFor master self.old notes → WrapsRtcpTo (rtcp_wrapping master notes (take len buf.old)) master notes self.old self.new buf.old buf.new result }
    {
        let Some(ssrc) = rtcp(&buf[..len]) else {
            unreachable!();
        };
        self.protect_with_ssrc(buf, len, ssrc)
    }

    /// Does what `protect` does, with the SSRC of the packet's sender, which the caller has read.
    pub fn protect_with_ssrc(
        &mut self,
        buf: &mut [u8],
        len: usize,
        ssrc: u32,
    ) -> Result<(usize, u64), ProtectFault>
        requires room { len + 14 ≤ length buf.old }
        requires size { len < 2 ^ 31 }
        requires head { rtcp_ssrc (take len buf.old) ≡ Some ssrc }
        ensures fits { IfOk result (λ sent. sent.0 ≡ len + 14) }
        ensures refused { OnErr result ((self.new ≡ self.old) × (buf.new ≡ buf.old)) }
        ensures wraps { (master : List ℕ) (notes : List Note) → OutRtcpFor master self.old notes → WrapsRtcpTo (rtcp_wrapping master notes (take len buf.old)) master notes self.old self.new buf.old buf.new result }
    {
        let sender = self.counts.find(ssrc);
        if !self.counts.has_room(sender) {
            return Err(ProtectFault::TooManySources);
        }
        let next = self.counts.next(sender);
        if next >= INDICES {
            return Err(ProtectFault::KeySpent);
        }
        // The packet is sent: from here on nothing is refused.
        self.counts.advance(sender, next);
        let size = self.session.wrap(buf, len, ssrc, next);
        Ok((size, u64::from(next)))
    }
}
