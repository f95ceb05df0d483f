//! Out ends that tell of which port they are.
ghost use Rattle.std.specs.Prelude.{ℕ, None};

use crate::configs::CONFIG;
use relay_outside::{Addr, Failed, OutEnd};

/// The out end of a port, which sends nothing.
#[derive(Drop)]
pub(crate) struct PortEnd {
    /// The address of the pair's port for RTP.
    pub at: Addr,
}

impl OutEnd for PortEnd {
    ghost log = { λ end. record { at = end.at; calls = None } };

    ghost faults = { λ end. 0 };

    fn send(&mut self, _to: Addr, _bytes: &[u8]) -> Result<(), Failed> {
        Ok(())
    }
}

/// The address of a pair's port for RTP, and its ends for RTP and for RTCP.
pub(crate) type LegEnds = (Addr, PortEnd, PortEnd);

/// Those of this port at the interface of version 4.
pub(crate) fn ends_at(port: u16) -> LegEnds {
    let at = Addr {
        ip: CONFIG.interface,
        port,
    };
    (at, PortEnd { at }, PortEnd { at })
}
