//! The families of addresses and legs.

ghost use Rattle.std.specs.Prelude.{◌≡◌};
ghost use Rattle.offer_answer.specs.Families.{rtp_family, rtcp_family, family_by, misfits};

use crate::answered_section::is_same;
use crate::signals::signalled;
use ng_command::Options;
use port_pool::Side;
use relay_outside::Family;
use sdp_text::Section;

fn rtp_family(options: &Options, section: &Section) -> Family
    ensures { result ≡ rtp_family options.now section.now }
{
    signalled(options.source, section.address).family()
}

fn rtcp_family(options: &Options, section: &Section) -> Family
    ensures { result ≡ rtcp_family options.now section.now }
{
    signalled(options.source, section.rtcp_address).family()
}

/// The family of a new leg of this side, by the section of an offer that comes from `maker`.
pub(crate) fn family_by(options: &Options, section: &Section, maker: Side, side: Side) -> Family
    ensures { result ≡ family_by options.now section.now maker side }
{
    let own = rtp_family(options, section);
    if is_same(side, maker) {
        own
    } else {
        options.family.unwrap_or(own)
    }
}

/// Whether an address of the section is of another family than the leg of its side or, without a leg, than the other address. Sections
/// on hold are exempt.
pub(crate) fn misfits(leg: Option<Family>, options: &Options, section: &Section) -> bool
    ensures { result ≡ misfits leg options.now section.now }
{
    let rtp = rtp_family(options, section);
    let family = leg.unwrap_or(rtp);
    !section.hold && (rtp != family || rtcp_family(options, section) != family)
}
