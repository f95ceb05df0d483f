//! What a dialog becomes by an offer, before its pairs are leased and its keys drawn.

ghost use Rattle.std.specs.Prelude.{◌≡◌, ◌≤◌, ◌<◌, ◌||◌, ◌∷◌, ◌&&◌, ℕ, List, [], length, IfOk, Some, not, if◌then◌else◌, slice_index_or};
ghost use Rattle.relay_outside.specs.declared.settings.Config.{Config};
ghost use Rattle.sdp_text.specs.Descriptions.{sections_in};
ghost use Rattle.offer_answer.specs.Rounds.{Round, Offered, OfferAsk};
ghost use Rattle.offer_answer.specs.Sides.{offerer};
ghost use Rattle.offer_answer.specs.Sections.{is_active};
ghost use Rattle.offer_answer.specs.Families.{family_by};
ghost use Rattle.offer_answer.specs.Profiles.{profile_offered};
ghost use Rattle.offer_answer.specs.Dialogs.{DialogFor, leg_at, no_state};
ghost use Rattle.offer_answer.specs.LastOffers.{no_made};
ghost use Rattle.offer_answer.specs.Offers.{ReadsOffer, AsksOffer, OfferedFor};
ghost use Rattle.offer_answer.specs.Shapes.{leg_shape, no_leg_shape, section_shape, shape_in, shape_of, is_active_at, shape_after};
ghost use Rattle.offer_answer.specs.Nexts.{LegNext, SectionNext, MadeNext, NextFor};

use crate::dialog::Dialog;
use crate::families::family_by;
use crate::last_offer::{LastOffer, MadeSection, OfferedNext};
use crate::leg::{DialogSection, Leg};
use crate::offered_section::{
    OfferedSection, is_active, offered_section, other_side, written_over,
};
use ng_bencode::Text;
use ng_command::{OfferIn, Options};
use port_pool::Side;
use relay_outside::{Family, OutOfMemory};
use sdp_text::{MOST_SECTIONS, Proto, Sdp};
use std::alloc::Global;

impl OfferedSection {
    /// The profile that a leg has by an offer that comes from `maker` and asks for the protocol `transport`: the offerer's its
    /// own, the other side's the one that is written to it.
    pub(crate) fn profile(&self, side: Side, transport: Option<Proto>, maker: Side) -> Proto
        ensures { (config : Config) (rounds : List Round) (ask : OfferAsk) (section : ℕ) → OfferedFor config rounds ask section self.now →
            transport ≡ ask.options.transport → maker ≡ offerer rounds ask →
            Some result ≡ profile_offered (Offered ask [] [] ∷ rounds) section side }
    {
        if side == maker {
            self.section.proto
        } else {
            written_over(transport, self.kept.leg(side).in_force, self.section.proto)
        }
    }

    /// The family of a leg that the offer doesn't drop: a new leg gets one, and others keep theirs.
    fn family_after(&self, side: Side, options: &Options, maker: Side) -> Option<Family>
        ensures { result ≡ (if is_active self.now.section && not self.now.kept.has_pairs
            then Some (family_by options.now self.now.section maker side) else (leg_at self.now.kept side).family) }
    {
        if self.is_new() {
            Some(family_by(options, &self.section, maker, side))
        } else {
            self.kept.leg(side).family
        }
    }

    /// A leg after the offer: where the offer drops the section, only its profile is left.
    fn leg_after(&self, side: Side, options: &Options, maker: Side) -> Leg
        ensures next { (config : Config) (rounds : List Round) (ask : OfferAsk) (section : ℕ) → OfferedFor config rounds ask section self.now →
            options.now ≡ ask.options → maker ≡ offerer rounds ask → LegNext config rounds ask [] [] section side result }
        ensures shape { leg_shape result
            ≡ (if self.now.kept.has_pairs && not self.now.kept.is_committed && not (is_active self.now.section) then no_leg_shape else leg_shape (leg_at self.now.kept side)) }
    {
        let offered = Some(self.profile(side, options.transport, maker));
        if self.is_dropped() {
            Leg {
                offered,
                ..Leg::NONE
            }
        } else {
            Leg {
                family: self.family_after(side, options, maker),
                offered,
                ..self.kept.leg(side)
            }
        }
    }

    /// Whether the section has pairs after the offer.
    fn has_pairs_after(&self) -> bool
        ensures { result ≡ (is_active self.now.section || (self.now.kept.has_pairs && self.now.kept.is_committed)) }
    {
        is_active(&self.section) || self.is_committed()
    }

    /// The section after the offer, without its new ports and keys.
    fn after(&self, options: &Options, maker: Side) -> DialogSection
        ensures next { (config : Config) (rounds : List Round) (ask : OfferAsk) (section : ℕ) → OfferedFor config rounds ask section self.now →
            options.now ≡ ask.options → maker ≡ offerer rounds ask → SectionNext config rounds ask [] [] section result }
        ensures shape { section_shape result ≡ shape_after (is_active self.now.section) (section_shape self.now.kept) }
    {
        DialogSection {
            has_pairs: self.has_pairs_after(),
            is_committed: self.is_committed(),
            a: self.leg_after(Side::A, options, maker),
            b: self.leg_after(Side::B, options, maker),
        }
    }

    /// What is kept of the section as one of the last offer, without the lines that the other side is offered.
    fn made(&self, transport: Option<Proto>, maker: Side) -> MadeSection
        ensures { (config : Config) (rounds : List Round) (ask : OfferAsk) (section : ℕ) → OfferedFor config rounds ask section self.now →
            transport ≡ ask.options.transport → maker ≡ offerer rounds ask → MadeNext rounds ask section result }
    {
        MadeSection {
            section: self.section,
            line: self.line,
            written: self.profile(other_side(maker), transport, maker),
            lines: [None, None],
        }
    }
}

/// The sections after an offer that comes from `maker`.
fn sections_after(
    dialog: &Dialog,
    sdp: &Sdp,
    options: &Options,
    maker: Side,
) -> [DialogSection; MOST_SECTIONS]
    ensures next { (config : Config) (rounds : List Round) (ask : OfferAsk) → DialogFor config dialog.now rounds → ReadsOffer sdp.now ask →
        options.now ≡ ask.options → maker ≡ offerer rounds ask →
        (section : ℕ) → section < 8 → SectionNext config rounds ask [] [] section (slice_index_or result section no_state) }
    ensures shapes { (section : ℕ) → section < 8 → shape_in result section ≡ shape_after (is_active_at sdp.now section) (shape_of dialog.now section) }
{
    let mut sections = [DialogSection::NONE; MOST_SECTIONS];
    for index in 0..MOST_SECTIONS {
        sections[index] = offered_section(dialog, sdp, index).after(options, maker);
    }
    sections
}

/// The sections of an offer that comes from `maker`, as they are kept.
fn made_sections(
    dialog: &Dialog,
    sdp: &Sdp,
    transport: Option<Proto>,
    maker: Side,
) -> [MadeSection; MOST_SECTIONS]
    ensures { (config : Config) (rounds : List Round) (ask : OfferAsk) → DialogFor config dialog.now rounds → ReadsOffer sdp.now ask →
        transport ≡ ask.options.transport → maker ≡ offerer rounds ask →
        (section : ℕ) → section < 8 → MadeNext rounds ask section (slice_index_or result section no_made) }
{
    let mut sections = [MadeSection::NONE; MOST_SECTIONS];
    for index in 0..MOST_SECTIONS {
        sections[index] = offered_section(dialog, sdp, index).made(transport, maker);
    }
    sections
}

/// What the dialog becomes by an offer that comes from `side`, without the offer's new ports and keys.
pub(crate) fn next_of_offer(
    alloc: Global,
    dialog: &Dialog,
    input: &OfferIn,
    sdp: &Sdp,
    side: Side,
) -> Result<OfferedNext, OutOfMemory>
    ensures few { IfOk result (λ next. next.last.count ≤ 8) }
    ensures next { (config : Config) (rounds : List Round) (ask : OfferAsk) → DialogFor config dialog.now rounds → AsksOffer input.now sdp.now ask →
        side ≡ offerer rounds ask → IfOk result (λ next. NextFor config rounds ask [] [] next) }
    ensures shapes { IfOk result (λ next. (section : ℕ) → section < 8 →
        shape_in next.sections section ≡ shape_after (is_active_at sdp.now section) (shape_of dialog.now section)) }
    ensures count { IfOk result (λ next. next.last.count ≡ length (sections_in sdp.now)) }
{
    let Ok(from_tag) = Text::copy_of(alloc, input.from_tag.as_slice()) else {
        return Err(OutOfMemory);
    };
    let transport = input.options.transport;
    let made = made_sections(dialog, sdp, transport, side);
    let sections = sections_after(dialog, sdp, &input.options, side);
    Ok(OfferedNext {
        last: LastOffer {
            from_tag,
            maker: side,
            options: input.options,
            count: sdp.section_count(),
            sections: made,
        },
        sections,
    })
}
