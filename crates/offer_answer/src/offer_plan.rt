//! How an offer is judged, and what it demands.

ghost use Rattle.std.specs.Prelude.{◌≡◌, ◌<◌, ◌&&◌, ◌++◌, ◌∷◌, [], ◌≤◌, ℕ, List, Bool, Option, Some, None, length, map, filter, OnOk, IfOk, IfNone, slice_index_or, true, false, not};
ghost use Rattle.std.specs.List.{list_any};
ghost use Rattle.histories.specs.Words.{In, has};
ghost use Rattle.relay_outside.specs.declared.settings.Config.{Config};
ghost use Rattle.sdp_text.specs.Descriptions.{sections_in};
ghost use Rattle.offer_answer.specs.Rounds.{Round, OfferAsk, KeyPlace};
ghost use Rattle.offer_answer.specs.Sides.{is_tag_of, is_some_sides, offerer};
ghost use Rattle.offer_answer.specs.Sections.{active_sections, is_active_in};
ghost use Rattle.offer_answer.specs.Demands.{new_legs, new_keys, is_dropped, dropped_sections};
ghost use Rattle.offer_answer.specs.Faults.{is_strangers, misfits_offerer, lacks_line};
ghost use Rattle.offer_answer.specs.Plan.{offer_fault};
ghost use Rattle.offer_answer.specs.Dialogs.{DialogFor};
ghost use Rattle.offer_answer.specs.Plans.{OfferAnswered};
ghost use Rattle.offer_answer.specs.Texts.{interface_host};
ghost use Rattle.offer_answer.specs.Edits.{IsEditReserved, widest_len};
ghost use Rattle.offer_answer.specs.Widths.{WritesFrom};
ghost use Rattle.offer_answer.specs.Shapes.{shape_of, is_active_at, is_dropped_from, is_demanded, OfferShapes};
ghost use Rattle.offer_answer.specs.OfferPlaces.{ArePairsOfSections, AreKeysOfLegs, AsksKey, OfferPlaces, offered_count_after};
ghost use Rattle.offer_answer.specs.Offers.{ReadsOffer, AsksOffer, leg_asked, key_asked, fault_code};

use crate::dialog::Dialog;
use crate::fault::OaFault;
use crate::last_offer::LastOffer;
use crate::next_offer::next_of_offer;
use crate::offer_text::{host_of_ip, reserved_edit, widest_len};
use crate::offered_section::{offered_section, other_side};
use crate::plan::{Next, Plan};
use ng_command::{OfferIn, Options};
use port_pool::{Side, Signal};
use relay_outside::{Config, Family, OutOfMemory};
use sdes_lines::Suite;
use sdp_edit::Edit;
use sdp_text::{MOST_SECTIONS, Proto, Sdp};
use std::alloc::Global;

fn is_tag_of(dialog: &Dialog, side: Side, tag: &[u8]) -> bool
    ensures { (config : Config) (rounds : List Round) → DialogFor config dialog.now rounds → result ≡ is_tag_of rounds side tag.now }
{
    match dialog.tag(side) {
        Some(own) => own == tag,
        None => false,
    }
}

pub(crate) fn is_some_sides(dialog: &Dialog, tag: &[u8]) -> bool
    ensures { (config : Config) (rounds : List Round) → DialogFor config dialog.now rounds → result ≡ is_some_sides rounds tag.now }
{
    is_tag_of(dialog, Side::A, tag) || is_tag_of(dialog, Side::B, tag)
}

/// The side that makes an offer.
fn offerer(dialog: &Dialog, tag: &[u8]) -> Side
    ensures { (config : Config) (rounds : List Round) (ask : OfferAsk) → DialogFor config dialog.now rounds → ask.from_tag ≡ tag.now →
        result ≡ offerer rounds ask }
{
    if is_tag_of(dialog, Side::B, tag) {
        Side::B
    } else {
        Side::A
    }
}

fn is_strangers(dialog: &Dialog, tag: &[u8]) -> bool
    ensures { (config : Config) (rounds : List Round) (ask : OfferAsk) → DialogFor config dialog.now rounds → ask.from_tag ≡ tag.now →
        result ≡ is_strangers rounds ask }
{
    dialog.is_begun() && !is_some_sides(dialog, tag)
}

fn lacks_lines(dialog: &Dialog, sdp: &Sdp) -> bool
    ensures { (config : Config) (rounds : List Round) (ask : OfferAsk) → DialogFor config dialog.now rounds → ReadsOffer sdp.now ask →
        result ≡ list_any (lacks_line ask) (active_sections ask.sdp) }
{
    for index in 0..sdp.section_count() {
        if offered_section(dialog, sdp, index).lacks_line() {
            return true;
        }
    }
    false
}

/// Whether an address of an active section doesn't fit the leg of the side that offers it, in an offer with these options.
fn misfits(dialog: &Dialog, options: &Options, sdp: &Sdp, side: Side) -> bool
    ensures { (config : Config) (rounds : List Round) (ask : OfferAsk) → DialogFor config dialog.now rounds → ReadsOffer sdp.now ask →
        options.now ≡ ask.options → side ≡ offerer rounds ask → result ≡ list_any (misfits_offerer rounds ask) (active_sections ask.sdp) }
{
    for index in 0..sdp.section_count() {
        if offered_section(dialog, sdp, index).misfits(options, side) {
            return true;
        }
    }
    false
}

/// The first fault of an offer.
fn fault_of(dialog: &Dialog, input: &OfferIn, sdp: &Sdp) -> Option<OaFault>
    ensures fault { (config : Config) (rounds : List Round) (ask : OfferAsk) → DialogFor config dialog.now rounds → AsksOffer input.now sdp.now ask →
        offer_fault rounds ask ≡ fault_code result }
    ensures enough { IfNone result (dialog.now.committed_count ≤ length (sections_in sdp.now)) }
{
    if is_strangers(dialog, input.from_tag.as_slice()) {
        return Some(OaFault::UnknownTag);
    }
    if sdp.section_count() < dialog.committed_count() {
        return Some(OaFault::MediaCount);
    }
    let side = offerer(dialog, input.from_tag.as_slice());
    if misfits(dialog, &input.options, sdp, side) {
        return Some(OaFault::Family);
    }
    if lacks_lines(dialog, sdp) {
        return Some(OaFault::NoCrypto);
    }
    None
}

/// The legs that pairs are demanded for, by an offer from `side` with these options.
fn demanded_legs(
    alloc: Global,
    dialog: &Dialog,
    sdp: &Sdp,
    options: &Options,
    side: Side,
) -> Result<Vec<(u8, Side, Family)>, OutOfMemory>
    ensures legs { (config : Config) (rounds : List Round) (ask : OfferAsk) → DialogFor config dialog.now rounds → ReadsOffer sdp.now ask →
        options.now ≡ ask.options → side ≡ offerer rounds ask → IfOk result (λ legs. map leg_asked legs.items ≡ new_legs rounds ask) }
    ensures sections { IfOk result (λ legs. (section : ℕ) →
        is_demanded (map leg_asked legs.items) section ≡ (is_active_at sdp.now section && not (shape_of dialog.now section).has_pairs)) }
    ensures pairs { IfOk result (λ legs. ArePairsOfSections (map leg_asked legs.items)) }
{
    let mut legs = Vec::new(alloc);
    for index in 0..sdp.section_count() {
        let offered = offered_section(dialog, sdp, index);
        offered.push_legs(&mut legs, options, index as u8, side)?;
    }
    Ok(legs)
}

/// The legs and suites that keys are demanded for, by an offer from `side` that asks for the protocol `transport`.
fn demanded_keys(
    alloc: Global,
    dialog: &Dialog,
    sdp: &Sdp,
    transport: Option<Proto>,
    side: Side,
) -> Result<Vec<(u8, Side, Suite)>, OutOfMemory>
    ensures keys { (config : Config) (rounds : List Round) (ask : OfferAsk) → DialogFor config dialog.now rounds → ReadsOffer sdp.now ask →
        transport ≡ ask.options.transport → side ≡ offerer rounds ask → IfOk result (λ keys. map key_asked keys.items ≡ new_keys rounds ask) }
    ensures places { IfOk result (λ keys. AreKeysOfLegs (map key_asked keys.items)) }
    ensures asked { IfOk result (λ keys. (key : KeyPlace) → In key (map key_asked keys.items) → AsksKey sdp.now dialog.now key) }
{
    let mut keys = Vec::new(alloc);
    for index in 0..sdp.section_count() {
        let offered = offered_section(dialog, sdp, index);
        offered.push_keys(&mut keys, transport, index as u8, side)?;
    }
    Ok(keys)
}

fn is_dropped(dialog: &Dialog, sdp: &Sdp, section: usize) -> bool
    requires { section < 8 }
    ensures dropped { (config : Config) (rounds : List Round) (ask : OfferAsk) → DialogFor config dialog.now rounds → ReadsOffer sdp.now ask →
        result ≡ is_dropped rounds ask section }
    ensures shape { result ≡ is_dropped_from (is_active_at sdp.now section) (shape_of dialog.now section) }
{
    offered_section(dialog, sdp, section).is_dropped()
}

fn dropped(dialog: &Dialog, sdp: &Sdp) -> [bool; MOST_SECTIONS]
    ensures dropped { (config : Config) (rounds : List Round) (ask : OfferAsk) → DialogFor config dialog.now rounds → ReadsOffer sdp.now ask →
        (section : ℕ) → slice_index_or result section false ≡ has (dropped_sections rounds ask) section }
    ensures shapes { (section : ℕ) → section < 8 →
        slice_index_or result section false ≡ is_dropped_from (is_active_at sdp.now section) (shape_of dialog.now section) }
    ensures within { (section : ℕ) → slice_index_or result section false ≡ true → section < 8 }
{
    [
        is_dropped(dialog, sdp, 0),
        is_dropped(dialog, sdp, 1),
        is_dropped(dialog, sdp, 2),
        is_dropped(dialog, sdp, 3),
        is_dropped(dialog, sdp, 4),
        is_dropped(dialog, sdp, 5),
        is_dropped(dialog, sdp, 6),
        is_dropped(dialog, sdp, 7),
    ]
}

/// What becomes of an offer's description before its ports and keys are known, and how long it can be.
fn offer_writing(
    alloc: Global,
    config: &Config,
    last: &LastOffer,
    sdp: &Sdp,
) -> Result<(Edit, usize), OutOfMemory>
    requires { last.now.count ≤ 8 }
    ensures { IfOk result (λ writing. IsEditReserved (interface_host config.now) last.now.options last.now.count writing.0
        × (writing.1 ≡ widest_len config.now last.now sdp.now)) }
{
    let edit = reserved_edit(
        alloc,
        host_of_ip(config.interface),
        &last.options,
        last.count,
    )?;
    let len = widest_len(alloc, config, last, sdp)?;
    Ok((edit, len))
}

/// The plan of an offer, or its first fault (RFC 3264 section 5, RFC 4568). The dialog stays as it is.
pub fn offer(
    alloc: Global,
    config: &Config,
    dialog: &Dialog,
    input: &OfferIn,
    sdp: &Sdp,
) -> Result<Plan, OaFault>
    ensures answered { (rounds : List Round) (ask : OfferAsk) → DialogFor config.now dialog.now rounds → AsksOffer input.now sdp.now ask →
        OfferAnswered config.now rounds ask result }
    ensures shapes { IfOk result (λ plan. OfferShapes plan dialog.now plan.next) }
    ensures writes { IfOk result (λ plan. WritesFrom plan sdp.now) }
    ensures counted { IfOk result (λ plan. offered_count_after dialog.now plan.next ≡ length (sections_in sdp.now)) }
    ensures places { IfOk result (λ plan. OfferPlaces plan dialog.now) }
{
    if let Some(fault) = fault_of(dialog, input, sdp) {
        return Err(fault);
    }
    let side = offerer(dialog, input.from_tag.as_slice());
    let legs = demanded_legs(alloc, dialog, sdp, &input.options, side)?;
    let key_places = demanded_keys(alloc, dialog, sdp, input.options.transport, side)?;
    let next = next_of_offer(alloc, dialog, input, sdp, side)?;
    let (edit, reply_len) = offer_writing(alloc, config, &next.last, sdp)?;
    let signal = Signal::new(alloc)?;
    Ok(Plan {
        legs,
        key_places,
        dropped: dropped(dialog, sdp),
        config: *config,
        edit,
        reply_len,
        signal,
        next: Next::Offer(next),
    })
}
