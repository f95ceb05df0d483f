ghost use Rattle.std.specs.Prelude.{◌≡◌, is_ok};

use crate::outcome::Lost;
use rtp_packet::Half;

/// How many packets of each half a leg accepted from its side and sent to it since it came, or 2^64 - 1 where there were more.
#[derive(Clone, Copy)]
pub struct Counts {
    /// RTP packets accepted from its side.
    pub rtp_accepted: u64,
    /// RTP packets sent to it.
    pub rtp_sent: u64,
    /// RTCP packets accepted from its side.
    pub rtcp_accepted: u64,
    /// RTCP packets sent to it.
    pub rtcp_sent: u64,
}

impl Counts {
    ghost use Rattle.call_cell.specs.Counts.{no_counts, more_accepted, one_sent, more_sent};

    /// No packet yet.
    pub(crate) fn new() -> Counts
        ensures { result ≡ no_counts }
    {
        Counts {
            rtp_accepted: 0,
            rtp_sent: 0,
            rtcp_accepted: 0,
            rtcp_sent: 0,
        }
    }

    /// Counts an accepted packet of a half.
    pub(crate) fn accept(&mut self, half: Half)
        ensures { self.new ≡ more_accepted half self.old }
    {
        match half {
            Half::Rtp => self.rtp_accepted = self.rtp_accepted.saturating_add(1),
            Half::Rtcp => self.rtcp_accepted = self.rtcp_accepted.saturating_add(1),
        }
    }

    /// Counts a packet of a half that was sent.
    fn send(&mut self, half: Half)
        ensures { self.new ≡ one_sent half self.old }
    {
        match half {
            Half::Rtp => self.rtp_sent = self.rtp_sent.saturating_add(1),
            Half::Rtcp => self.rtcp_sent = self.rtcp_sent.saturating_add(1),
        }
    }

    /// Counts a packet of a half by what became of it on its way out: one that was lost isn't sent.
    pub(crate) fn finish(&mut self, half: Half, sent: &Result<usize, Lost>)
        ensures { self.new ≡ more_sent half (is_ok sent.now) self.old }
    {
        if sent.is_ok() {
            self.send(half);
        }
    }
}
