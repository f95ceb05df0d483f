//! What a dialog keeps of the last accepted offer, by which its answers are judged.

use crate::leg::DialogSection;
use ng_bencode::Text;
use ng_command::Options;
use port_pool::Side;
use sdes_lines::CryptoLine;
use sdp_text::{MOST_SECTIONS, Proto, Section};

/// A section of the last offer.
#[derive(Clone, Copy, Debug, PartialEq, Eq)]
pub struct MadeSection {
    /// What the offer signals.
    pub section: Section,
    /// Its first usable crypto line.
    pub line: Option<CryptoLine>,
    /// The profile that it was written with to the other side.
    pub written: Proto,
    /// The crypto lines that the other side was offered.
    pub lines: [Option<CryptoLine>; 2],
}

impl MadeSection {
    /// A section that isn't there.
    pub(crate) const NONE: MadeSection = MadeSection {
        section: Section {
            line: 0,
            port: 0,
            proto: Proto::Other,
            address: None,
            rtcp_port: 0,
            rtcp_address: None,
            hold: false,
            mux: false,
        },
        line: None,
        written: Proto::Other,
        lines: [None, None],
    };
}

/// The last accepted offer.
#[derive(Drop)]
pub struct LastOffer {
    /// The tag of the side that made it.
    pub from_tag: Text,
    /// The side that made it.
    pub maker: Side,
    /// How it is to be served.
    pub options: Options,
    /// How many sections it has, at most 8.
    pub count: usize,
    /// Its sections.
    pub sections: [MadeSection; MOST_SECTIONS],
}

/// What the sections of a dialog become by an offer, with the offer itself: the last one from then on.
#[derive(Drop)]
pub(crate) struct OfferedNext {
    /// The offer.
    pub last: LastOffer,
    /// The sections.
    pub sections: [DialogSection; MOST_SECTIONS],
}
