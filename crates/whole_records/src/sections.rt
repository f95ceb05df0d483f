//! The sections of a dialog, each with the legs of a cell.

ghost use Rattle.std.specs.Prelude.{◌≡◌, ◌↔◌, ◌<◌, ◌≤◌, ◌&&◌, ◌+◌, true, false, None, IsTrue, IfSome, drop, length, position};
ghost use Rattle.offer_answer.specs.Shapes.{section_shape, leg_shape};
ghost use Rattle.call_shapes.specs.Agreement.{CountsAgree, stands_on, side_of_shape};
ghost use Rattle.whole_records.specs.SavedShapes.{saved_leg_shape, saved_dialog_shape, saved_offered_count};
ghost use Rattle.whole_records.specs.RecordParts.{SideHolds, SectionsHold, IsAmong};

use crate::legs::keeps_leg;
use call_cell::LegSaved;
use offer_answer::{DialogSaved, DialogSection, LastOffer, Leg};
use port_pool::Side;
use relay_outside::Config;
use sdp_text::MOST_SECTIONS;

/// Whether the leg is the one of this section on this side.
fn stands_on(leg: &LegSaved, section: u8, side: Side) -> bool
    ensures { result ≡ stands_on section side (saved_leg_shape leg.now) }
{
    leg.holder.section == section && leg.holder.side == side
}

/// The place of the first leg of a section on a side.
fn place_on(legs: &[LegSaved], section: u8, side: Side) -> Option<usize>
    ensures place { result ≡ position (λ leg. stands_on section side (saved_leg_shape leg)) legs.now }
    ensures within { IfSome result (λ place. place < length legs.now) }
{
    legs.iter().position(|leg| stands_on(leg, section, side))
}

/// The legs behind the one at this place.
fn legs_after(legs: &[LegSaved], place: usize) -> &[LegSaved]
    requires { place < length legs.now }
    ensures { result.now ≡ drop (place + 1) legs.now }
{
    &legs[place + 1..]
}

/// What is kept of the leg on a side.
fn kept_leg(kept: &DialogSection, side: Side) -> Leg
    ensures { leg_shape result ≡ side_of_shape (section_shape kept.now) side }
{
    match side {
        Side::A => kept.a,
        Side::B => kept.b,
    }
}

/// Whether the section has no pairs and the leg no key.
fn is_bare(kept: &DialogSection, leg: &Leg) -> bool
    ensures { IsTrue result ↔ ((kept.now.has_pairs ≡ false) × ((leg_shape leg.now).long_key ≡ None) × ((leg_shape leg.now).short_key ≡ None)) }
{
    if kept.has_pairs {
        return false;
    }
    leg.long_key.is_none() && leg.short_key.is_none()
}

/// Whether on this side a section with pairs has just one leg, as it is kept, and one without has none, and no key.
fn side_holds(
    config: &Config,
    kept: &DialogSection,
    legs: &[LegSaved],
    section: u8,
    side: Side,
) -> bool
    ensures { IsTrue result ↔ SideHolds config.now (section_shape kept.now) legs.now section side }
{
    let leg = kept_leg(kept, side);
    let Some(place) = place_on(legs, section, side) else {
        return is_bare(kept, &leg);
    };
    if !kept.has_pairs {
        return false;
    }
    if place_on(legs_after(legs, place), section, side).is_some() {
        return false;
    }
    keeps_leg(config, &leg, kept.is_committed, &legs[place])
}

/// Whether this holds on both sides of each section.
pub(crate) fn sections_hold(config: &Config, dialog: &DialogSaved, legs: &[LegSaved]) -> bool
    ensures { IsTrue result ↔ SectionsHold config.now (saved_dialog_shape dialog.now) legs.now }
{
    for section in 0..MOST_SECTIONS {
        let kept = &dialog.sections[section];
        if !side_holds(config, kept, legs, section as u8, Side::A) {
            return false;
        }
        if !side_holds(config, kept, legs, section as u8, Side::B) {
            return false;
        }
    }
    true
}

/// How many sections the last offer has, 0 where there is none.
fn offered_count(last: &Option<LastOffer>) -> usize
    ensures { result ≡ saved_offered_count last.now }
{
    match last {
        None => 0,
        Some(last) => last.count,
    }
}

/// Whether a section with pairs is among so many offered ones, and a committed one among so many committed ones.
fn is_among(kept: &DialogSection, section: usize, offered: usize, committed: usize) -> bool
    ensures { IsTrue result ↔ IsAmong (section_shape kept.now) section offered committed }
{
    if kept.has_pairs && section >= offered {
        return false;
    }
    !kept.has_pairs || !kept.is_committed || section < committed
}

/// Whether the sections with pairs are among those of the last offer, and the committed ones among those of the last committed one.
pub(crate) fn counts_agree(dialog: &DialogSaved) -> bool
    ensures { IsTrue result ↔ CountsAgree (saved_dialog_shape dialog.now) }
{
    let offered = offered_count(&dialog.last_offer);
    let committed = dialog.committed_count;
    if offered > MOST_SECTIONS || committed > offered {
        return false;
    }
    for place in 0..MOST_SECTIONS {
        if !is_among(&dialog.sections[place], place, offered, committed) {
            return false;
        }
    }
    true
}
