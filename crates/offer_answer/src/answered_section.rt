//! A section of an answer, with what the dialog keeps of it.

ghost use Rattle.std.specs.Prelude.{◌≡◌, ◌<◌, ◌&&◌, List, Option, is_none};
ghost use Rattle.relay_outside.specs.declared.settings.Config.{Config};
ghost use Rattle.port_pool.specs.Signals.{side_eq};
ghost use Rattle.offer_answer.specs.Rounds.{Round, AnswerAsk};
ghost use Rattle.offer_answer.specs.Sides.{MadeOffer};
ghost use Rattle.offer_answer.specs.Sections.{is_active};
ghost use Rattle.offer_answer.specs.Families.{misfits};
ghost use Rattle.offer_answer.specs.Profiles.{is_srtp, is_srtp_leg};
ghost use Rattle.offer_answer.specs.Keys.{chosen_in, last_lines};
ghost use Rattle.offer_answer.specs.Dialogs.{DialogFor, leg_at};
ghost use Rattle.sdes_lines.specs.declared.crypto_line.CryptoLine.{CryptoLine};
ghost use Rattle.offer_answer.specs.declared.answered_section.AnsweredSection.{AnsweredSection};
ghost use Rattle.offer_answer.specs.AnswerShapes.{TakesLine, AnsweredNow};
ghost use Rattle.offer_answer.specs.Answers.{IsLast, ReadsAnswer, AnsweredAt, line_committed, key_for_line};

use crate::dialog::Dialog;
use crate::families::misfits;
use crate::last_offer::{LastOffer, MadeSection};
use crate::leg::{DialogSection, DrawnKey, Leg};
use crate::offered_section::{is_active, is_srtp};
use crate::rejected_sections::{made_section, section_in};
use ng_command::Options;
use port_pool::Side;
use sdes_lines::CryptoLine;
use sdp_edit::choose_among;
use sdp_text::{Proto, Sdp, Section};

/// A section of an answer, with what the dialog keeps of it.
#[derive(Clone, Copy, Debug, PartialEq, Eq)]
pub(crate) struct AnsweredSection {
    /// What the answer signals.
    pub section: Section,
    /// The offered crypto line that it takes up.
    pub line: Option<CryptoLine>,
    /// What the offer said of it.
    pub made: MadeSection,
    /// What the dialog keeps of it.
    pub kept: DialogSection,
}

pub(crate) fn is_same(side: Side, other: Side) -> bool
    ensures { result ≡ side_eq side other }
{
    matches!((side, other), (Side::A, Side::A) | (Side::B, Side::B))
}

fn is_srtp_leg(profile: Option<Proto>) -> bool
    ensures { result ≡ is_srtp_leg profile }
{
    match profile {
        Some(profile) => is_srtp(profile),
        None => false,
    }
}

/// The crypto line of a section of an answer that takes up one of the offered lines.
fn taken_line(sdp: &Sdp, section: usize, offered: &[Option<CryptoLine>; 2]) -> Option<CryptoLine>
    ensures heard { (rounds : List Round) (ask : AnswerAsk) → ReadsAnswer sdp.now rounds ask → offered.now ≡ last_lines rounds section →
        result ≡ chosen_in ask.chosen section }
    ensures taken { TakesLine sdp.now section offered.now result }
    ensures only { (other : Option CryptoLine) → TakesLine sdp.now section offered.now other → other ≡ result }
{
    if section < sdp.section_count() {
        choose_among(sdp, section, offered)
    } else {
        None
    }
}

/// A section of an answer, by its number from 0, with what the dialog and its last offer keep of it.
pub(crate) fn answered_section(
    dialog: &Dialog,
    last: &LastOffer,
    sdp: &Sdp,
    section: usize,
) -> AnsweredSection
    requires { section < 8 }
    ensures answered { (config : Config) (rounds : List Round) (offer : MadeOffer) (ask : AnswerAsk) → DialogFor config dialog.now rounds →
        IsLast rounds offer last.now → ReadsAnswer sdp.now rounds ask → AnsweredAt config rounds offer ask section result }
    ensures now { AnsweredNow dialog.now last.now sdp.now section result }
    ensures only { (other : AnsweredSection) → AnsweredNow dialog.now last.now sdp.now section other → other ≡ result }
{
    let made = made_section(last, section);
    let line = taken_line(sdp, section, &made.lines);
    AnsweredSection {
        section: section_in(sdp, section),
        line,
        made,
        kept: dialog.section(section),
    }
}

/// The leg's key for the suite of a crypto line.
fn key_for_line(leg: &Leg, line: Option<CryptoLine>) -> Option<DrawnKey>
    ensures { result ≡ key_for_line leg.now line }
{
    match line {
        Some(line) => leg.key_for(line.suite),
        None => None,
    }
}

impl AnsweredSection {
    /// Whether it is active, and an address of it doesn't fit the leg of the side that answers.
    pub(crate) fn misfits(&self, options: &Options, side: Side) -> bool
        ensures { result ≡ (is_active self.now.section && misfits (leg_at self.now.kept side).family options.now self.now.section) }
    {
        is_active(&self.section) && misfits(self.kept.leg(side).family, options, &self.section)
    }

    /// Whether it is used, was offered with SRTP, and takes up none of the offered crypto lines.
    pub(crate) fn takes_no_line(&self) -> bool
        ensures { result ≡ (is_active self.now.made.section && is_active self.now.section && is_srtp self.now.made.written && is_none self.now.line) }
    {
        is_active(&self.made.section)
            && is_active(&self.section)
            && is_srtp(self.made.written)
            && self.line.is_none()
    }

    /// The crypto line by which the answer commits a side's leg, where the side `maker` made the offer: the one that the leg's
    /// side chose. None where the leg's profile isn't SRTP.
    /// A line in a section whose profile isn't SRTP asks for no key and commits none: for an answer that is the profile
    /// written to its side, whatever its own section says.
    pub(crate) fn committed_line(&self, maker: Side, side: Side) -> Option<CryptoLine>
        ensures { result ≡ line_committed self.now maker side }
    {
        if !is_srtp_leg(self.kept.leg(side).offered) {
            return None;
        }
        if is_same(side, maker) {
            self.made.line
        } else {
            self.line
        }
    }

    /// The key under which packets are then sent to that side.
    pub(crate) fn committed_key(&self, maker: Side, side: Side) -> Option<DrawnKey>
        ensures { result ≡ key_for_line (leg_at self.now.kept side) (line_committed self.now maker side) }
    {
        let line = self.committed_line(maker, side);
        key_for_line(&self.kept.leg(side), line)
    }
}
