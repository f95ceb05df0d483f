ghost use Rattle.std.specs.Prelude.{ℕ, [], ◌≡◌, ◌<◌, ◌≤◌, ◌^◌, List, Some, length, take, IsSome, IfOk, OnErr};
ghost use Rattle.rtp_packet.specs.Head.{rtcp_ssrc};
ghost use Rattle.srtp_sources.specs.Notes.{Note};
ghost use Rattle.srtcp_context.specs.InboundPackets.{rtcp_opening};

use crate::session::{RtcpSession, read_word};
use relay_outside::KeyAndSalt;
use rtp_packet::rtcp;
use srtp_keys::UnprotectFault;
use srtp_sources::{Sources, part_at, put_part};

/// The bytes of the shortest SRTCP packet: 8 that stay clear, 4 with the index, 10 of the tag.
const SHORTEST: usize = 22;

/// The bit above the index.
const ENCIPHERED: u32 = 2_147_483_648;

/// The state of received RTCP packets under one master key. It can't be cloned.
#[derive(Drop)]
pub struct InRtcp {
    session: RtcpSession,
    sources: Sources,
}

impl InRtcp {
    ghost use Rattle.srtcp_context.specs.Contexts.{InRtcpFor, OpensRtcpTo};
    ghost use Rattle.std.specs.Prelude.{IfSome, IfNone};
    ghost use Rattle.srtcp_context.specs.declared.inbound.InRtcp.{InRtcp};
    ghost use Rattle.srtcp_context.specs.SavedRtcp.{FitsInRtcp, saved_in_rtcp};

    /// The bytes of the saved form.
    pub const SAVED: usize = 979;

    /// The context of a master key of 16 bytes with a master salt of 14 after it, which has taken no packet.
    pub fn new(key: &KeyAndSalt) -> InRtcp
        ensures { InRtcpFor key.now result [] }
    {
        InRtcp {
            session: RtcpSession::new(key),
            sources: Sources::new(),
        }
    }

    /// The saved form: the keys of the session, and the indices of each source. It has no master key in it, and is as secret as
    /// one.
    pub fn save(self) -> [u8; InRtcp::SAVED]
        ensures fits { FitsInRtcp self }
        ensures saved { result ≡ saved_in_rtcp self }
    {
        let InRtcp { session, sources } = self;
        let mut bytes = [0; InRtcp::SAVED];
        put_part(&mut bytes, 0, &session.save());
        put_part(&mut bytes, 50, &sources.save());
        bytes
    }

    /// The context of a saved form; None where it is that of no context.
    pub fn load(bytes: &[u8; InRtcp::SAVED]) -> Option<InRtcp>
        ensures some { IfSome result (λ context. FitsInRtcp context × (saved_in_rtcp context ≡ bytes.now)) }
        ensures none { IfNone result ((context : InRtcp) → FitsInRtcp context → saved_in_rtcp context ≡ bytes.now → ⊥) }
    {
        let session = RtcpSession::load(&part_at(bytes, 0));
        let sources = Sources::load(&part_at(bytes, 50))?;
        Some(InRtcp { session, sources })
    }

    /// Checks and opens in place the packet in the buffer's first `len` bytes, and returns the length of the plain packet.
    ///
    /// The checks are, in this order and before any byte changes: its length, its tag, the index that it carries against
    /// those of its source, and the number of sources (RFC 3711 section 3.4). A packet without the E bit is checked alike
    /// and taken as it is. After a refusal nothing has changed.
    pub fn unprotect(&mut self, buf: &mut [u8], len: usize) -> Result<usize, UnprotectFault>
        requires held { len ≤ length buf.old }
        requires size { len < 2 ^ 31 }
        requires packet { IsSome (rtcp_ssrc (take len buf.old)) }
        ensures fits { IfOk result (λ size. size ≤ len) }
        ensures refused { OnErr result ((self.new ≡ self.old) × (buf.new ≡ buf.old)) }
        ensures opens { (master : List ℕ) (notes : List Note) → InRtcpFor master self.old notes → OpensRtcpTo (rtcp_opening master notes (take len buf.old)) master notes self.old self.new buf.old buf.new result }
    {
        let Some(ssrc) = rtcp(&buf[..len]) else {
            unreachable!();
        };
        self.unprotect_with_ssrc(buf, len, ssrc)
    }

    /// Does what `unprotect` does, with the SSRC of the packet's sender, which the caller has read, and which is that of the
    /// plain packet's too.
    pub fn unprotect_with_ssrc(
        &mut self,
        buf: &mut [u8],
        len: usize,
        ssrc: u32,
    ) -> Result<usize, UnprotectFault>
        requires held { len ≤ length buf.old }
        requires size { len < 2 ^ 31 }
        requires head { rtcp_ssrc (take len buf.old) ≡ Some ssrc }
        ensures fits { IfOk result (λ size. size ≤ len) }
        ensures head { IfOk result (λ size. rtcp_ssrc (take size buf.new) ≡ Some ssrc) }
        ensures refused { OnErr result ((self.new ≡ self.old) × (buf.new ≡ buf.old)) }
        ensures opens { (master : List ℕ) (notes : List Note) → InRtcpFor master self.old notes → OpensRtcpTo (rtcp_opening master notes (take len buf.old)) master notes self.old self.new buf.old buf.new result }
    {
        if len < SHORTEST {
            return Err(UnprotectFault::Short);
        }
        if !self.session.is_authentic(&buf[..len]) {
            return Err(UnprotectFault::NotAuthentic);
        }
        let word = read_word(&buf[..len]);
        let index = u64::from(word % ENCIPHERED);
        let source = self.sources.find(ssrc);
        self.sources.take(source, index)?;
        // The packet is taken: from here on nothing is refused.
        Ok(self.session.open(buf, len, ssrc))
    }
}
