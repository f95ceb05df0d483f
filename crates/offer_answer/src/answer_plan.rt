//! How an answer is judged, and what it commits.

ghost use Rattle.std.specs.Prelude.{◌≡◌, ◌≤◌, ◌&&◌, ◌==◌, List, length, true, Some, None, IfNone, IfOk, IfErr};
ghost use Rattle.std.specs.List.{list_any};
ghost use Rattle.std.specs.Str.{bytes_eq};
ghost use Rattle.relay_outside.specs.declared.settings.Config.{Config};
ghost use Rattle.sdp_text.specs.Descriptions.{sections_in};
ghost use Rattle.offer_answer.specs.Rounds.{Round, AnswerAsk};
ghost use Rattle.offer_answer.specs.Sides.{MadeOffer, is_some_sides, last_offer};
ghost use Rattle.offer_answer.specs.Sections.{section_count, all_sections, active_sections};
ghost use Rattle.offer_answer.specs.Faults.{may_answer, misfits_answerer, takes_no_line, fault_of_answer_to};
ghost use Rattle.offer_answer.specs.Plan.{answer_fault};
ghost use Rattle.offer_answer.specs.Dialogs.{DialogFor};
ghost use Rattle.offer_answer.specs.LastOffers.{LastFor};
ghost use Rattle.offer_answer.specs.Offers.{fault_code, plan_code};
ghost use Rattle.offer_answer.specs.Plans.{AnswerAnswered};
ghost use Rattle.offer_answer.specs.Widths.{WritesFrom};
ghost use Rattle.offer_answer.specs.AnswerShapes.{AnswerShapes};
ghost use Rattle.offer_answer.specs.OfferPlaces.{AnswerCounts, AnswersSections};
ghost use Rattle.offer_answer.specs.Answers.{IsLast, ReadsAnswer, AsksAnswer};

use crate::answer_text::answer_sections;
use crate::answered_section::answered_section;
use crate::dialog::Dialog;
use crate::fault::OaFault;
use crate::last_offer::LastOffer;
use crate::next_answer::next_of_answer;
use crate::offer_plan::is_some_sides;
use crate::offered_section::other_side;
use crate::plan::{Next, Plan};
use crate::signals::answer_signal;
use ng_command::{AnswerIn, Options};
use relay_outside::Config;
use sdp_edit::edit_len;
use sdp_text::{MOST_SECTIONS, Sdp};
use std::alloc::Global;

/// Whether the to-tag may answer the from-tag: any other tag until both sides are settled, and then the other side's alone.
fn may_answer(dialog: &Dialog, from_tag: &[u8], to_tag: &[u8]) -> bool
    ensures { (config : Config) (rounds : List Round) (ask : AnswerAsk) → DialogFor config dialog.now rounds → ask.from_tag ≡ from_tag.now →
        ask.to_tag ≡ to_tag.now → result ≡ may_answer rounds ask }
{
    if to_tag == from_tag {
        return false;
    }
    if dialog.is_settled() {
        return is_some_sides(dialog, to_tag);
    }
    true
}

/// Whether an answer may have these tags.
fn are_known(dialog: &Dialog, from_tag: &[u8], to_tag: &[u8]) -> bool
    ensures { (config : Config) (rounds : List Round) (ask : AnswerAsk) → DialogFor config dialog.now rounds → ask.from_tag ≡ from_tag.now →
        ask.to_tag ≡ to_tag.now → result ≡ (is_some_sides rounds ask.from_tag && may_answer rounds ask) }
{
    is_some_sides(dialog, from_tag) && may_answer(dialog, from_tag, to_tag)
}

/// Whether the last offer has this from-tag.
/// A side's tag is settled once it has offered, so this asks whether the last offer is its side's.
fn is_offerers(last: &LastOffer, from_tag: &[u8]) -> bool
    ensures { (offer : MadeOffer) (ask : AnswerAsk) → LastFor offer last.now → ask.from_tag ≡ from_tag.now →
        result ≡ bytes_eq ask.from_tag offer.ask.from_tag }
{
    from_tag == last.from_tag.as_slice()
}

/// Whether the answer has as many sections as the last offer.
fn has_as_many(last: &LastOffer, sdp: &Sdp) -> bool
    ensures counted { (rounds : List Round) (offer : MadeOffer) (ask : AnswerAsk) → LastFor offer last.now → ReadsAnswer sdp.now rounds ask →
        result ≡ (section_count ask.sdp == section_count offer.ask.sdp) }
    ensures same { result ≡ true → AnswersSections last.now sdp.now }
{
    sdp.section_count() == last.count
}

/// Whether an address of an active section doesn't fit the leg of the side that answers, in an answer with these options.
/// It is asked of each section that is active in the answer, also where the answer rejects it.
fn misfits(dialog: &Dialog, last: &LastOffer, options: &Options, sdp: &Sdp) -> bool
    ensures { (config : Config) (rounds : List Round) (offer : MadeOffer) (ask : AnswerAsk) → DialogFor config dialog.now rounds →
        IsLast rounds offer last.now → ReadsAnswer sdp.now rounds ask → options.now ≡ ask.options →
        result ≡ list_any (misfits_answerer rounds offer ask) (active_sections ask.sdp) }
{
    let side = other_side(last.maker);
    for index in 0..sdp.section_count() {
        if answered_section(dialog, last, sdp, index).misfits(options, side) {
            return true;
        }
    }
    false
}

/// Whether some section that was offered with SRTP takes up none of the offered crypto lines.
/// It is asked of each section that is active in offer and answer, also where its pairs have gone.
fn takes_no_line(dialog: &Dialog, last: &LastOffer, sdp: &Sdp) -> bool
    ensures { (config : Config) (rounds : List Round) (offer : MadeOffer) (ask : AnswerAsk) → DialogFor config dialog.now rounds →
        IsLast rounds offer last.now → ReadsAnswer sdp.now rounds ask →
        result ≡ list_any (takes_no_line offer ask) (all_sections ask.sdp) }
{
    for index in 0..sdp.section_count() {
        if answered_section(dialog, last, sdp, index).takes_no_line() {
            return true;
        }
    }
    false
}

/// The first fault of an answer to this offer.
fn fault_of_answer_to(
    dialog: &Dialog,
    last: &LastOffer,
    from_tag: &[u8],
    options: &Options,
    sdp: &Sdp,
) -> Option<OaFault>
    ensures fault { (config : Config) (rounds : List Round) (offer : MadeOffer) (ask : AnswerAsk) → DialogFor config dialog.now rounds →
        IsLast rounds offer last.now → ask.from_tag ≡ from_tag.now → options.now ≡ ask.options → ReadsAnswer sdp.now rounds ask →
        fault_of_answer_to rounds offer ask ≡ fault_code result }
    ensures same { IfNone result (AnswersSections last.now sdp.now) }
{
    if !is_offerers(last, from_tag) {
        return Some(OaFault::OtherSide);
    }
    if !has_as_many(last, sdp) {
        return Some(OaFault::MediaCount);
    }
    if misfits(dialog, last, options, sdp) {
        return Some(OaFault::Family);
    }
    if takes_no_line(dialog, last, sdp) {
        return Some(OaFault::NoCrypto);
    }
    None
}

/// The last offer, to which an answer belongs, or the first fault of the answer.
fn answered_offer<'a>(
    dialog: &'a Dialog,
    input: &AnswerIn,
    sdp: &Sdp,
) -> Result<&'a LastOffer, OaFault>
    ensures fault { (config : Config) (rounds : List Round) (ask : AnswerAsk) → DialogFor config dialog.now rounds →
        AsksAnswer input.now sdp.now rounds ask → IfErr result (λ fault. answer_fault rounds ask ≡ plan_code fault) }
    ensures offer { (config : Config) (rounds : List Round) (ask : AnswerAsk) → DialogFor config dialog.now rounds →
        AsksAnswer input.now sdp.now rounds ask →
        IfOk result (λ last. (answer_fault rounds ask ≡ None) × ((offer : MadeOffer) × IsLast rounds offer last.now)) }
    ensures kept { IfOk result (λ last. dialog.now.last_offer ≡ Some last.now) }
    ensures same { IfOk result (λ last. AnswersSections last.now sdp.now) }
{
    let from_tag = input.from_tag.as_slice();
    if !are_known(dialog, from_tag, input.to_tag.as_slice()) {
        return Err(OaFault::UnknownTag);
    }
    let Some(last) = dialog.last_offer() else {
        return Err(OaFault::UnknownTag);
    };
    match fault_of_answer_to(dialog, last, from_tag, &input.options, sdp) {
        Some(fault) => Err(fault),
        None => Ok(last),
    }
}

/// The plan of an answer, or its first fault (RFC 3264 section 6, RFC 4568). It demands no pair and no key. The dialog stays as
/// it is.
pub fn answer(
    alloc: Global,
    config: &Config,
    dialog: &Dialog,
    input: &AnswerIn,
    sdp: &Sdp,
) -> Result<Plan, OaFault>
    ensures answered { (rounds : List Round) (ask : AnswerAsk) → DialogFor config.now dialog.now rounds → AsksAnswer input.now sdp.now rounds ask →
        AnswerAnswered config.now rounds ask sdp.now result }
    ensures shapes { IfOk result (λ plan. AnswerShapes plan dialog.now plan.next) }
    ensures writes { IfOk result (λ plan. WritesFrom plan sdp.now) }
    ensures counts { IfOk result (λ plan. AnswerCounts plan dialog.now) }
{
    let last = answered_offer(dialog, input, sdp)?;
    let next = next_of_answer(alloc, dialog, last, input, sdp)?;
    let signal = answer_signal(alloc, dialog, last, &input.options, sdp)?;
    let edit = answer_sections(alloc, config, dialog, last, &input.options, sdp)?;
    let reply_len = edit_len(sdp, &edit);
    Ok(Plan {
        legs: Vec::new(alloc),
        key_places: Vec::new(alloc),
        dropped: [false; MOST_SECTIONS],
        config: *config,
        edit,
        reply_len,
        signal,
        next: Next::Answer(next),
    })
}
