ghost use Rattle.std.specs.Prelude.{ℕ, [], ◌≡◌, ◌+◌, ◌<◌, ◌≤◌, ◌^◌, List, Some, length, take, IsSome, IfOk, OnErr};
ghost use Rattle.rtp_packet.specs.Head.{rtp_head};
ghost use Rattle.sdes_lines.specs.declared.crypto_line.Suite.{Suite};
ghost use Rattle.srtp_sources.specs.Notes.{Note};
ghost use Rattle.srtp_context.specs.OutboundPackets.{wrapping};

use crate::saved::{load_rtp, save_rtp};
use crate::session::RtpSession;
use replay_window::{Fresh, Near};
use rtp_packet::{RtpHead, rtp};
use sdes_lines::Suite;
use srtp_keys::{ProtectFault, RtpKey};
use srtp_sources::Sources;

/// The state of RTP packets that are sent under one master key. It can't be cloned, so that no index is used twice.
#[derive(Drop)]
pub struct OutRtp {
    session: RtpSession,
    sources: Sources,
}

impl OutRtp {
    ghost use Rattle.srtp_context.specs.Contexts.{OutRtpFor, WrapsRtpTo};
    ghost use Rattle.std.specs.Prelude.{IfSome, IfNone};
    ghost use Rattle.srtp_context.specs.declared.outbound.OutRtp.{OutRtp};
    ghost use Rattle.srtp_context.specs.SavedRtp.{FitsOutRtp, saved_out_rtp};

    /// The bytes of the saved form.
    pub const SAVED: usize = 980;

    /// The context of a drawn key, which has protected no packet.
    pub fn new(key: RtpKey, suite: Suite) -> OutRtp
        ensures { OutRtpFor key.bytes suite result [] }
    {
        OutRtp {
            session: RtpSession::new(&key.into_bytes(), suite),
            sources: Sources::new(),
        }
    }

    /// The saved form, which spends the context: the keys of the session, the suite, and the indices of each source. It has no
    /// master key in it, and is as secret as one.
    pub fn save(self) -> [u8; OutRtp::SAVED]
        ensures fits { FitsOutRtp self }
        ensures saved { result ≡ saved_out_rtp self }
    {
        let OutRtp { session, sources } = self;
        save_rtp(&session, sources)
    }

    /// The context of a saved form; None where it is that of no context.
    pub fn load(bytes: &[u8; OutRtp::SAVED]) -> Option<OutRtp>
        ensures some { IfSome result (λ context. FitsOutRtp context × (saved_out_rtp context ≡ bytes.now)) }
        ensures none { IfNone result ((context : OutRtp) → FitsOutRtp context → saved_out_rtp context ≡ bytes.now → ⊥) }
    {
        let (session, sources) = load_rtp(bytes)?;
        Some(OutRtp { session, sources })
    }

    /// Protects in place the packet in the buffer's first `len` bytes, and returns the length of the protected packet and
    /// the index that it used. The tag takes at most 10 bytes after the packet.
    ///
    /// The index is the nearest to the greatest that the source used; it may not be too old or used before, a new source
    /// must have room, and the key must not be spent (RFC 3711 sections 3.3.1 and 9.2). After a refusal nothing has
    /// changed.
    pub fn protect(&mut self, buf: &mut [u8], len: usize) -> Result<(usize, u64), ProtectFault>
        requires room { len + 10 ≤ length buf.old }
        requires size { len < 2 ^ 31 }
        requires packet { IsSome (rtp_head (take len buf.old)) }
        ensures fits { IfOk result (λ sent. sent.0 ≤ len + 10) }
        ensures refused { OnErr result ((self.new ≡ self.old) × (buf.new ≡ buf.old)) }
        ensures wraps { (master : List ℕ) (suite : Suite) (notes : List Note) → OutRtpFor master suite self.old notes → WrapsRtpTo (wrapping master suite notes (take len buf.old)) master suite notes self.old self.new buf.old buf.new result }
    {
        let Some(found) = rtp(&buf[..len]) else {
            unreachable!();
        };
        self.protect_with_head(buf, len, found)
    }

    /// Does what `protect` does, with the packet's head, which the caller has read.
    pub fn protect_with_head(
        &mut self,
        buf: &mut [u8],
        len: usize,
        found: RtpHead,
    ) -> Result<(usize, u64), ProtectFault>
        requires room { len + 10 ≤ length buf.old }
        requires size { len < 2 ^ 31 }
        requires head { rtp_head (take len buf.old) ≡ Some found }
        ensures fits { IfOk result (λ sent. sent.0 ≤ len + 10) }
        ensures refused { OnErr result ((self.new ≡ self.old) × (buf.new ≡ buf.old)) }
        ensures wraps { (master : List ℕ) (suite : Suite) (notes : List Note) → OutRtpFor master suite self.old notes → WrapsRtpTo (wrapping master suite notes (take len buf.old)) master suite notes self.old self.new buf.old buf.new result }
    {
        let source = self.sources.find(found.ssrc);
        let index = match self.sources.near_of(source, found.seq) {
            Near::At(index) => index,
            Near::Below => return Err(ProtectFault::TooOld),
            Near::Beyond => return Err(ProtectFault::KeySpent),
        };
        match self.sources.fresh_of(source, index) {
            Fresh::Yes => {}
            Fresh::TooOld => return Err(ProtectFault::TooOld),
            Fresh::Used => return Err(ProtectFault::IndexUsed),
        }
        if !self.sources.has_room_for(source) {
            return Err(ProtectFault::TooManySources);
        }
        // The packet is sent: from here on nothing is refused.
        self.sources.note_for(source, index);
        let size = self.session.wrap(buf, len, found, index);
        Ok((size, index))
    }
}
