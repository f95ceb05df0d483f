ghost use Rattle.std.specs.Prelude.{ℕ, [], ◌≡◌, ◌<◌, ◌≤◌, ◌^◌, List, Some, length, take, IsSome, IfOk, OnErr};
ghost use Rattle.rtp_packet.specs.Head.{rtp_head};
ghost use Rattle.sdes_lines.specs.declared.crypto_line.Suite.{Suite};
ghost use Rattle.srtp_sources.specs.Notes.{Note};
ghost use Rattle.srtp_context.specs.InboundPackets.{opening};

use crate::saved::{load_rtp, save_rtp};
use crate::session::{RtpSession, tag_size};
use relay_outside::KeyAndSalt;
use replay_window::Near;
use rtp_packet::{RtpHead, rtp};
use sdes_lines::Suite;
use srtp_keys::UnprotectFault;
use srtp_sources::Sources;

/// The state of received RTP packets under one master key. It can't be cloned.
#[derive(Drop)]
pub struct InRtp {
    session: RtpSession,
    sources: Sources,
}

impl InRtp {
    ghost use Rattle.srtp_context.specs.Contexts.{InRtpFor, OpensRtpTo};
    ghost use Rattle.std.specs.Prelude.{IfSome, IfNone};
    ghost use Rattle.srtp_context.specs.declared.inbound.InRtp.{InRtp};
    ghost use Rattle.srtp_context.specs.SavedRtp.{FitsInRtp, saved_in_rtp};

    /// The bytes of the saved form.
    pub const SAVED: usize = 980;

    /// The context of a master key of 16 bytes with a master salt of 14 after it, which has taken no packet.
    pub fn new(key: &KeyAndSalt, suite: Suite) -> InRtp
        ensures { InRtpFor key.now suite result [] }
    {
        InRtp {
            session: RtpSession::new(key, suite),
            sources: Sources::new(),
        }
    }

    /// The saved form: the keys of the session, the suite, and the indices of each source. It has no master key in it, and is as
    /// secret as one.
    pub fn save(self) -> [u8; InRtp::SAVED]
        ensures fits { FitsInRtp self }
        ensures saved { result ≡ saved_in_rtp self }
    {
        let InRtp { session, sources } = self;
        save_rtp(&session, sources)
    }

    /// The context of a saved form; None where it is that of no context.
    pub fn load(bytes: &[u8; InRtp::SAVED]) -> Option<InRtp>
        ensures some { IfSome result (λ context. FitsInRtp context × (saved_in_rtp context ≡ bytes.now)) }
        ensures none { IfNone result ((context : InRtp) → FitsInRtp context → saved_in_rtp context ≡ bytes.now → ⊥) }
    {
        let (session, sources) = load_rtp(bytes)?;
        Some(InRtp { session, sources })
    }

    /// Checks and opens in place the packet in the buffer's first `len` bytes, and returns the length of the plain packet.
    ///
    /// The checks are, in this order and before any byte changes: its length, its tag, its index against those of its
    /// source, and the number of sources (RFC 3711 section 3.3). After a refusal nothing has changed.
    pub fn unprotect(&mut self, buf: &mut [u8], len: usize) -> Result<usize, UnprotectFault>
        requires held { len ≤ length buf.old }
        requires size { len < 2 ^ 31 }
        requires packet { IsSome (rtp_head (take len buf.old)) }
        ensures fits { IfOk result (λ size. size ≤ len) }
        ensures refused { OnErr result ((self.new ≡ self.old) × (buf.new ≡ buf.old)) }
        ensures opens { (master : List ℕ) (suite : Suite) (notes : List Note) → InRtpFor master suite self.old notes → OpensRtpTo (opening master suite notes (take len buf.old)) master suite notes self.old self.new buf.old buf.new result }
    {
        let Some(found) = rtp(&buf[..len]) else {
            unreachable!();
        };
        self.unprotect_with_head(buf, len, found)
    }

    /// Does what `unprotect` does, with the packet's head, which the caller has read, and which is that of the plain packet too.
    pub fn unprotect_with_head(
        &mut self,
        buf: &mut [u8],
        len: usize,
        found: RtpHead,
    ) -> Result<usize, UnprotectFault>
        requires held { len ≤ length buf.old }
        requires size { len < 2 ^ 31 }
        requires head { rtp_head (take len buf.old) ≡ Some found }
        ensures fits { IfOk result (λ size. size ≤ len) }
        ensures head { IfOk result (λ size. rtp_head (take size buf.new) ≡ Some found) }
        ensures refused { OnErr result ((self.new ≡ self.old) × (buf.new ≡ buf.old)) }
        ensures opens { (master : List ℕ) (suite : Suite) (notes : List Note) → InRtpFor master suite self.old notes → OpensRtpTo (opening master suite notes (take len buf.old)) master suite notes self.old self.new buf.old buf.new result }
    {
        if len < found.head + tag_size(self.session.suite) {
            return Err(UnprotectFault::Short);
        }
        let source = self.sources.find(found.ssrc);
        // The tag is over the roll-over counter too, so it is checked for an index.
        let index = match self.sources.near_of(source, found.seq) {
            Near::At(index) => index,
            Near::Below => return Err(UnprotectFault::TooOld),
            Near::Beyond => return Err(UnprotectFault::TooOld),
        };
        if !self.session.is_authentic(&buf[..len], index) {
            return Err(UnprotectFault::NotAuthentic);
        }
        self.sources.take(source, index)?;
        // The packet is taken: from here on nothing is refused.
        Ok(self.session.open(buf, len, found, index))
    }
}
