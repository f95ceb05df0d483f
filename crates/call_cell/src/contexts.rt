ghost use Rattle.std.specs.Prelude.{ℕ, ◌≡◌, ◌+◌, ◌≤◌, [], List, Some, take, IfOk};
ghost use Rattle.rtp_packet.specs.Head.{rtp_head, rtcp_ssrc};
ghost use Rattle.sdes_lines.specs.declared.crypto_line.Suite.{Suite};
ghost use Rattle.rtp_packet.specs.declared.head.Half.TheVariants.{Rtp, Rtcp};
ghost use Rattle.srtp_sources.specs.Notes.{Note};
ghost use Rattle.port_pool.specs.Signals.{NewKey};
ghost use Rattle.call_cell.specs.Protection.{opened_under, wrapped_under};
ghost use Rattle.call_cell.specs.Heads.{half_of, IsHead};

use crate::heads::Head;
use crate::outcome::{Lost, PacketBuffer, Refused};
use relay_outside::KeyAndSalt;
use rtp_packet::RtpHead;
use sdes_lines::Suite;
use srtcp_context::{InRtcp, OutRtcp};
use srtp_context::{InRtp, OutRtp};
use srtp_keys::DrawnKey;

/// The state of what a leg sends under one key: of its RTP and of its RTCP packets.
#[derive(Drop)]
pub struct Inbound {
    /// That of its RTP packets.
    pub rtp: InRtp,
    /// That of its RTCP packets.
    pub rtcp: InRtcp,
}

impl Inbound {
    ghost use Rattle.call_cell.specs.Contexts.{InboundFor, InboundOpensTo};

    /// The contexts of a master key of 16 bytes with a master salt of 14 after it, which have taken no packet.
    pub(crate) fn new(key: &KeyAndSalt, suite: Suite) -> Inbound
        ensures { InboundFor (key.now, suite) result [] }
    {
        Inbound {
            rtp: InRtp::new(key, suite),
            rtcp: InRtcp::new(key),
        }
    }

    /// Checks and opens in place an RTP packet with this head.
    fn unprotect_rtp(
        &mut self,
        buf: &mut PacketBuffer,
        len: usize,
        found: RtpHead,
    ) -> Result<usize, Refused>
        requires held { len ≤ 2064 }
        requires head { rtp_head (take len buf.old) ≡ Some found }
        ensures fits { IfOk result (λ size. size ≤ len) }
        ensures head { IfOk result (λ size. rtp_head (take size buf.new) ≡ Some found) }
        ensures opens { (key : List ℕ × Suite) (notes : List Note) → InboundFor key self.old notes → InboundOpensTo (opened_under key notes Rtp (take len buf.old)) key notes self.old self.new buf.new result }
    {
        let size = self.rtp.unprotect_with_head(buf, len, found)?;
        Ok(size)
    }

    /// Checks and opens in place an RTCP packet of this sender.
    fn unprotect_rtcp(
        &mut self,
        buf: &mut PacketBuffer,
        len: usize,
        ssrc: u32,
    ) -> Result<usize, Refused>
        requires held { len ≤ 2064 }
        requires head { rtcp_ssrc (take len buf.old) ≡ Some ssrc }
        ensures fits { IfOk result (λ size. size ≤ len) }
        ensures head { IfOk result (λ size. rtcp_ssrc (take size buf.new) ≡ Some ssrc) }
        ensures opens { (key : List ℕ × Suite) (notes : List Note) → InboundFor key self.old notes → InboundOpensTo (opened_under key notes Rtcp (take len buf.old)) key notes self.old self.new buf.new result }
    {
        let size = self.rtcp.unprotect_with_ssrc(buf, len, ssrc)?;
        Ok(size)
    }

    /// Checks and opens in place the packet with this head in the buffer's first `len` bytes, and returns the length of the
    /// plain packet, which has the same head. After a refusal nothing has changed.
    pub(crate) fn unprotect(
        &mut self,
        head: Head,
        buf: &mut PacketBuffer,
        len: usize,
    ) -> Result<usize, Refused>
        requires held { len ≤ 2064 }
        requires head { IsHead head (take len buf.old) }
        ensures fits { IfOk result (λ size. size ≤ len) }
        ensures head { IfOk result (λ size. IsHead head (take size buf.new)) }
        ensures opens { (key : List ℕ × Suite) (notes : List Note) → InboundFor key self.old notes → InboundOpensTo (opened_under key notes (half_of head) (take len buf.old)) key notes self.old self.new buf.new result }
    {
        match head {
            Head::Rtp(found) => self.unprotect_rtp(buf, len, found),
            Head::Rtcp(ssrc) => self.unprotect_rtcp(buf, len, ssrc),
        }
    }
}

/// The state of what is sent under one drawn key: of the RTP and of the RTCP packets. It can't be cloned.
#[derive(Drop)]
pub struct Outbound {
    /// The number of the key's draw.
    pub number: u64,
    /// That of the RTP packets.
    pub rtp: OutRtp,
    /// That of the RTCP packets.
    pub rtcp: OutRtcp,
}

impl Outbound {
    ghost use Rattle.call_cell.specs.Contexts.{OutboundFor, OutboundWrapsTo};

    /// The contexts of a drawn key, which have protected no packet.
    pub(crate) fn new(key: DrawnKey, suite: Suite) -> Outbound
        ensures { (new : NewKey) → new.number ≡ key.number → new.bytes ≡ key.bytes → new.suite ≡ suite → OutboundFor new result [] }
    {
        let number = key.number();
        let (rtp, rtcp) = key.split();
        Outbound {
            number,
            rtp: OutRtp::new(rtp, suite),
            rtcp: OutRtcp::new(rtcp),
        }
    }

    /// The number of the key's draw.
    pub(crate) fn number(&self) -> u64
        ensures { result ≡ self.now.number }
    {
        self.number
    }

    /// Protects in place an RTP packet with this head.
    fn protect_rtp(
        &mut self,
        buf: &mut PacketBuffer,
        len: usize,
        found: RtpHead,
    ) -> Result<usize, Lost>
        requires held { len ≤ 2000 }
        requires head { rtp_head (take len buf.old) ≡ Some found }
        ensures fits { IfOk result (λ size. size ≤ 2064) }
        ensures number { self.new.number ≡ self.old.number }
        ensures wraps { (key : NewKey) (notes : List Note) → OutboundFor key self.old notes → OutboundWrapsTo (wrapped_under key notes Rtp (take len buf.old)) key notes self.old self.new buf.new result }
    {
        let (size, _) = self.rtp.protect_with_head(buf, len, found)?;
        Ok(size)
    }

    /// Protects in place an RTCP packet of this sender.
    fn protect_rtcp(&mut self, buf: &mut PacketBuffer, len: usize, ssrc: u32) -> Result<usize, Lost>
        requires held { len ≤ 2000 }
        requires head { rtcp_ssrc (take len buf.old) ≡ Some ssrc }
        ensures fits { IfOk result (λ size. size ≤ 2064) }
        ensures number { self.new.number ≡ self.old.number }
        ensures wraps { (key : NewKey) (notes : List Note) → OutboundFor key self.old notes → OutboundWrapsTo (wrapped_under key notes Rtcp (take len buf.old)) key notes self.old self.new buf.new result }
    {
        let (size, _) = self.rtcp.protect_with_ssrc(buf, len, ssrc)?;
        Ok(size)
    }

    /// Protects in place the packet with this head in the buffer's first `len` bytes, and returns the length of the protected
    /// packet. After a refusal nothing has changed.
    pub(crate) fn protect(
        &mut self,
        head: Head,
        buf: &mut PacketBuffer,
        len: usize,
    ) -> Result<usize, Lost>
        requires held { len ≤ 2000 }
        requires head { IsHead head (take len buf.old) }
        ensures fits { IfOk result (λ size. size ≤ 2064) }
        ensures number { self.new.number ≡ self.old.number }
        ensures wraps { (key : NewKey) (notes : List Note) → OutboundFor key self.old notes → OutboundWrapsTo (wrapped_under key notes (half_of head) (take len buf.old)) key notes self.old self.new buf.new result }
    {
        match head {
            Head::Rtp(found) => self.protect_rtp(buf, len, found),
            Head::Rtcp(ssrc) => self.protect_rtcp(buf, len, ssrc),
        }
    }
}
