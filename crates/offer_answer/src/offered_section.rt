//! A section of an offer, with what the dialog keeps of it.

ghost use Rattle.std.specs.Prelude.{◌≡◌, ◌<◌, ◌&&◌, ◌∷◌, [], ◌++◌, List, Bool, not, is_none, OnOk, length, slice_index_or, if◌then◌else◌};
ghost use Rattle.relay_outside.specs.declared.settings.Config.{Config};
ghost use Rattle.sdp_text.specs.Parts.{is_rtp_proto};
ghost use Rattle.port_pool.specs.Signals.{other_side};
ghost use Rattle.offer_answer.specs.Rounds.{Round, OfferAsk};
ghost use Rattle.offer_answer.specs.Sections.{is_active};
ghost use Rattle.offer_answer.specs.Families.{misfits};
ghost use Rattle.offer_answer.specs.Profiles.{is_srtp};
ghost use Rattle.offer_answer.specs.Dialogs.{DialogFor, leg_at, no_state};
ghost use Rattle.offer_answer.specs.Shapes.{is_active_at};
ghost use Rattle.offer_answer.specs.Offers.{ReadsOffer, OfferedFor, written_over, missing, offerers_keys, others_keys, keys_asked, legs_asked};

use crate::dialog::Dialog;
use crate::families::{family_by, misfits};
use crate::leg::{DialogSection, Leg};
use ng_command::Options;
use port_pool::Side;
use relay_outside::{Family, OutOfMemory};
use sdes_lines::{CryptoLine, Suite};
use sdp_edit::choose;
use sdp_text::{Proto, Sdp, Section};

/// A section of an offer, with what the dialog keeps of it.
#[derive(Clone, Copy, Debug, PartialEq, Eq)]
pub(crate) struct OfferedSection {
    /// What the offer signals.
    pub section: Section,
    /// Its first usable crypto line.
    pub line: Option<CryptoLine>,
    /// What the dialog keeps.
    pub kept: DialogSection,
}

/// A section that isn't there.
const NO_SECTION: Section = Section {
    line: 0,
    port: 0,
    proto: Proto::Other,
    address: None,
    rtcp_port: 0,
    rtcp_address: None,
    hold: false,
    mux: false,
};

/// Whether the profile is SRTP.
pub(crate) fn is_srtp(profile: Proto) -> bool
    ensures { result ≡ is_srtp profile }
{
    matches!(profile, Proto::Savp | Proto::Savpf)
}

fn is_rtp(profile: Proto) -> bool
    ensures { result ≡ is_rtp_proto profile }
{
    !matches!(profile, Proto::Other)
}

/// The other side.
pub(crate) fn other_side(side: Side) -> Side
    ensures { result ≡ other_side side }
{
    match side {
        Side::A => Side::B,
        Side::B => Side::A,
    }
}

/// The profile that is written over a section's own.
/// A section that isn't active follows the same rule; its port is 0.
pub(crate) fn written_over(transport: Option<Proto>, in_force: Option<Proto>, own: Proto) -> Proto
    ensures { result ≡ written_over transport in_force own }
{
    if !is_rtp(own) {
        return own;
    }
    match (transport, in_force) {
        (Some(asked), _) => asked,
        (None, Some(kept)) => kept,
        (None, None) => own,
    }
}

/// Whether a section is active.
pub(crate) fn is_active(section: &Section) -> bool
    ensures { result ≡ is_active section.now }
{
    section.port != 0 && is_rtp(section.proto)
}

/// A section of an offer, by its number from 0, with what the dialog keeps of it.
pub(crate) fn offered_section(dialog: &Dialog, sdp: &Sdp, section: usize) -> OfferedSection
    requires { section < 8 }
    ensures offered { (config : Config) (rounds : List Round) (ask : OfferAsk) → DialogFor config dialog.now rounds → ReadsOffer sdp.now ask →
        OfferedFor config rounds ask section result }
    ensures kept { result.kept ≡ slice_index_or dialog.now.sections section no_state }
    ensures active { is_active result.section ≡ is_active_at sdp.now section }
{
    let kept = dialog.section(section);
    if section < sdp.section_count() {
        OfferedSection {
            section: sdp.section(section),
            line: choose(sdp, section),
            kept,
        }
    } else {
        OfferedSection {
            section: NO_SECTION,
            line: None,
            kept,
        }
    }
}

impl OfferedSection {
    /// Whether it is active and has no pairs.
    pub(crate) fn is_new(&self) -> bool
        ensures { result ≡ (is_active self.now.section && not self.now.kept.has_pairs) }
    {
        is_active(&self.section) && !self.kept.has_pairs
    }

    /// Whether it is active, and an address of it doesn't fit the leg of the side that offers it.
    pub(crate) fn misfits(&self, options: &Options, side: Side) -> bool
        ensures { result ≡ (is_active self.now.section && misfits (leg_at self.now.kept side).family options.now self.now.section) }
    {
        is_active(&self.section) && misfits(self.kept.leg(side).family, options, &self.section)
    }

    /// Adds the legs that the section demands pairs for, where it is new, for an offer that comes from `side`. The first one, which the
    /// reply names, is the other side's.
    pub(crate) fn push_legs(
        &self,
        legs: &mut Vec<(u8, Side, Family)>,
        options: &Options,
        section: u8,
        side: Side,
    ) -> Result<(), OutOfMemory>
        ensures { OnOk result (legs.new.items ≡ legs.old.items ++ legs_asked self.now options.now section side) }
    {
        if !self.is_new() {
            return Ok(());
        }
        let other = other_side(side);
        let asked = family_by(options, &self.section, side, other);
        let own = family_by(options, &self.section, side, side);
        legs.push((section, other, asked))?;
        legs.push((section, side, own))?;
        Ok(())
    }

    /// Whether it is active with SRTP and has no usable crypto line.
    pub(crate) fn lacks_line(&self) -> bool
        ensures { result ≡ (is_active self.now.section && (is_srtp self.now.section.proto && is_none self.now.line)) }
    {
        is_active(&self.section) && is_srtp(self.section.proto) && self.line.is_none()
    }

    /// Whether the offer drops its pairs.
    pub(crate) fn is_dropped(&self) -> bool
        ensures { result ≡ (self.now.kept.has_pairs && not self.now.kept.is_committed && not (is_active self.now.section)) }
    {
        self.kept.has_pairs && !self.kept.is_committed && !is_active(&self.section)
    }

    /// Whether an answer has committed the pairs that it has.
    pub(crate) fn is_committed(&self) -> bool
        ensures { result ≡ (self.now.kept.has_pairs && self.now.kept.is_committed) }
    {
        self.kept.has_pairs && self.kept.is_committed
    }

    fn offerers_keys(
        &self,
        keys: &mut Vec<(u8, Side, Suite)>,
        section: u8,
        side: Side,
    ) -> Result<(), OutOfMemory>
        ensures { OnOk result (keys.new.items ≡ keys.old.items ++ offerers_keys self.now section side) }
    {
        let leg = self.kept.leg(side);
        match self.line {
            Some(line) if is_srtp(self.section.proto) => push_missing(
                keys, &leg, section, side, line.suite,
            ),
            _ => Ok(()),
        }
    }

    fn others_keys(
        &self,
        keys: &mut Vec<(u8, Side, Suite)>,
        transport: Option<Proto>,
        section: u8,
        side: Side,
    ) -> Result<(), OutOfMemory>
        ensures { OnOk result (keys.new.items ≡ keys.old.items ++ others_keys self.now transport section side) }
    {
        let leg = self.kept.leg(side);
        let written = written_over(transport, leg.in_force, self.section.proto);
        if is_srtp(written) && leg.key_in_force.is_none() {
            push_both_missing(keys, &leg, section, side)
        } else {
            Ok(())
        }
    }

    /// Adds the keys that the section demands, in the order of draws, for an offer that comes from `side`.
    /// No key is in force on a leg that isn't committed, or whose last commit has a profile without SRTP.
    /// Where it is offered SRTP again, both lines are written and only what is missing is drawn: one key
    /// alone, where the leg had been the offerer's with the other suite.
    pub(crate) fn push_keys(
        &self,
        keys: &mut Vec<(u8, Side, Suite)>,
        transport: Option<Proto>,
        section: u8,
        side: Side,
    ) -> Result<(), OutOfMemory>
        ensures { OnOk result (keys.new.items ≡ keys.old.items ++ keys_asked self.now transport section side) }
    {
        if !is_active(&self.section) {
            return Ok(());
        }
        self.offerers_keys(keys, section, side)?;
        self.others_keys(keys, transport, section, other_side(side))
    }
}

fn push_missing(
    keys: &mut Vec<(u8, Side, Suite)>,
    leg: &Leg,
    section: u8,
    side: Side,
    suite: Suite,
) -> Result<(), OutOfMemory>
    ensures { OnOk result (keys.new.items ≡ keys.old.items ++ missing leg.now section side (suite ∷ [])) }
{
    if leg.key_for(suite).is_some() {
        return Ok(());
    }
    keys.push((section, side, suite))?;
    Ok(())
}

fn push_both_missing(
    keys: &mut Vec<(u8, Side, Suite)>,
    leg: &Leg,
    section: u8,
    side: Side,
) -> Result<(), OutOfMemory>
    ensures { OnOk result (keys.new.items ≡ keys.old.items ++ missing leg.now section side (Suite.Tag80 ∷ Suite.Tag32 ∷ [])) }
{
    push_missing(keys, leg, section, side, Suite::Tag80)?;
    push_missing(keys, leg, section, side, Suite::Tag32)
}
