//! RTP and RTCP on one port (RFC 5761 section 5.1.1).

ghost use Rattle.std.specs.Prelude.{◌≡◌};
ghost use Rattle.offer_answer.specs.Mux.{mux_on, mux_taken, mux_back};

use crate::offered_section::is_active;
use ng_command::Options;
use sdp_text::Section;

/// Whether `a=rtcp-mux` is written to the side that answers, by the offer's options and its section.
pub(crate) fn mux_on(options: &Options, offered: &Section) -> bool
    ensures { result ≡ mux_on options.now offered.now }
{
    is_active(offered) && !options.mux_demux && (offered.mux || options.mux_offer)
}

/// Whether that side was offered it and takes it up in its section of the answer.
pub(crate) fn mux_taken(options: &Options, offered: &Section, answered: &Section) -> bool
    ensures { result ≡ mux_taken options.now offered.now answered.now }
{
    mux_on(options, offered) && answered.mux
}

/// Whether `a=rtcp-mux` is written back to the side that made the offer, in a section that isn't rejected.
pub(crate) fn mux_back(options: &Options, offered: &Section, answered: &Section) -> bool
    ensures { result ≡ mux_back options.now offered.now answered.now }
{
    let is_agreed = mux_taken(options, offered, answered);
    offered.mux && (is_agreed || options.mux_demux || options.mux_accept)
}
