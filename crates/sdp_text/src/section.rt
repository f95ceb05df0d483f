ghost use Rattle.std.specs.Prelude.{◌↔◌, IsTrue};

use crate::host::Host;
use crate::proto::Proto;

/// What a section signals: an `m=` line with the lines up to the next one.
#[derive(Clone, Copy, Debug, PartialEq, Eq)]
pub struct Section {
    /// The number of its `m=` line, from 1.
    pub line: u32,
    /// The port for RTP. 0 means that the section is rejected or not used (RFC 3264 section 6).
    pub port: u16,
    /// The protocol. A section is active where this is one of the four of RTP and the port isn't 0.
    pub proto: Proto,
    /// The address for RTP: of its first `c=` line, else of the first one of the session. An active section
    /// always has one.
    pub address: Option<Host>,
    /// The port for RTCP: of its first `a=rtcp` line (RFC 3605), else the next one; 0 where none follows.
    pub rtcp_port: u16,
    /// The address for RTCP: of its first `a=rtcp` line, else that for RTP.
    pub rtcp_address: Option<Host>,
    /// Whether the address is `0.0.0.0` or `::`, which means hold (RFC 3264 section 8.4).
    pub hold: bool,
    /// Whether one of its lines is `a=rtcp-mux`: RTP and RTCP share the port for RTP (RFC 5761 section 5.1.1).
    pub mux: bool,
}

impl Section {
    ghost use Rattle.sdp_text.specs.Descriptions.{IsActive};

    /// Whether it carries RTP: its protocol is one of the four, and its port isn't 0.
    pub fn is_active(&self) -> bool
        ensures { IsTrue result ↔ IsActive self.now }
    {
        self.port != 0 && !matches!(self.proto, Proto::Other)
    }
}
