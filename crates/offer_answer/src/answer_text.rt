//! What an answer writes to the offerer.

ghost use Rattle.std.specs.Prelude.{◌≡◌, ◌<◌, ◌∷◌, [], ◌&&◌, not, List, Some, None, IfOk, if◌then◌else◌, option_and_then, slice_index_or};
ghost use Rattle.relay_outside.specs.declared.settings.Config.{Config};
ghost use Rattle.sdp_text.specs.Lines.{lines_of};
ghost use Rattle.sdp_edit.specs.EditedText.{KeysHaveTags, HaveTags, edited};
ghost use Rattle.offer_answer.specs.Rounds.{Round, AnswerAsk};
ghost use Rattle.offer_answer.specs.Sides.{MadeOffer, last_offer};
ghost use Rattle.offer_answer.specs.Keys.{no_lines};
ghost use Rattle.offer_answer.specs.Profiles.{is_srtp};
ghost use Rattle.offer_answer.specs.Mux.{mux_back};
ghost use Rattle.offer_answer.specs.Texts.{answer_section};
ghost use Rattle.offer_answer.specs.Plan.{OfferRead, answer_text};
ghost use Rattle.offer_answer.specs.Dialogs.{DialogFor, leg_at, no_state};
ghost use Rattle.offer_answer.specs.LastOffers.{LastFor};
ghost use Rattle.offer_answer.specs.Edits.{line_back};

use crate::dialog::Dialog;
use crate::last_offer::{LastOffer, MadeSection};
use crate::leg::Leg;
use crate::mux::mux_back;
use crate::offer_text::{host_of_ip, made_at, reserved_edit, session_host, written_host};
use crate::offered_section::is_srtp;
use crate::rejected_sections::{is_rejected, section_in};
use ng_command::Options;
use relay_outside::{Config, OutOfMemory};
use sdes_lines::CryptoLine;
use sdp_edit::{Edit, SectionEdit};
use sdp_text::{Sdp, Section};
use std::alloc::Global;

/// The greatest tag of a usable line (RFC 4568 section 9.1).
const GREATEST_TAG: u32 = 999_999_999;

/// The line that answers a chosen one: the leg's key for its suite, with its tag.
fn line_back(leg: &Leg, line: &CryptoLine) -> Option<CryptoLine>
    ensures line { result ≡ line_back leg.now line.now }
    ensures tags { KeysHaveTags (result ∷ []) }
{
    let drawn = leg.key_for(line.suite)?;
    let key = drawn.bytes;
    Some(CryptoLine {
        tag: line.tag.min(GREATEST_TAG),
        suite: drawn.suite,
        key,
    })
}

/// The port of the offerer's leg, where the section isn't rejected.
fn port_back(leg: &Leg, is_rejected: bool) -> u16
    ensures { result ≡ (if is_rejected then 0 else leg.now.port) }
{
    if is_rejected { 0 } else { leg.port }
}

fn chosen_back(leg: &Leg, line: Option<CryptoLine>) -> Option<CryptoLine>
    ensures line { result ≡ option_and_then (line_back leg.now) line }
    ensures tags { KeysHaveTags (result ∷ []) }
{
    match line {
        Some(line) => line_back(leg, &line),
        None => None,
    }
}

/// The crypto lines of an answer's section: the one that answers the chosen line, where the section isn't rejected and the offerer
/// has SRTP.
fn lines_back(made: &MadeSection, leg: &Leg, is_rejected: bool) -> [Option<CryptoLine>; 2]
    ensures lines { result ≡ (if not is_rejected && is_srtp made.now.section.proto
        then option_and_then (line_back leg.now) made.now.line ∷ None ∷ [] else no_lines) }
    ensures tags { KeysHaveTags result }
{
    if !is_rejected && is_srtp(made.section.proto) {
        [chosen_back(leg, made.line), None]
    } else {
        [None, None]
    }
}

/// Whether a section of an answer is written with `a=rtcp-mux`, by the offer's options and section. A rejected one never is.
fn answered_mux(options: &Options, offered: &Section, answered: &Section, is_rejected: bool) -> bool
    ensures { result ≡ (not is_rejected && mux_back options.now offered.now answered.now) }
{
    !is_rejected && mux_back(options, offered, answered)
}

/// The offerer's leg of a section.
fn makers_leg(dialog: &Dialog, last: &LastOffer, section: usize) -> Leg
    requires { section < 8 }
    ensures { result ≡ leg_at (slice_index_or dialog.now.sections section no_state) last.now.maker }
{
    dialog.section(section).leg(last.maker)
}

/// A rejected section gets the offerer's protocol, too; where that is none of the four, the answer's own text stays.
fn answered_section(
    config: &Config,
    dialog: &Dialog,
    last: &LastOffer,
    sdp: &Sdp,
    section: usize,
) -> SectionEdit
    requires { section < 8 }
    ensures edit { (rounds : List Round) (offer : MadeOffer) (ask : AnswerAsk) → DialogFor config.now dialog.now rounds →
        last_offer rounds ≡ Some offer → LastFor offer last.now → OfferRead offer.ask → lines_of ask.sdp ≡ sdp.now →
        result ≡ answer_section config.now rounds offer ask section }
    ensures tags { KeysHaveTags result.crypto }
{
    let made = made_at(last, section);
    let leg = makers_leg(dialog, last, section);
    let is_rejected = is_rejected(dialog, last, sdp, section);
    let port = port_back(&leg, is_rejected);
    let answered = section_in(sdp, section);
    SectionEdit {
        port,
        proto: made.section.proto,
        address: written_host(config, port, leg.family),
        mux: answered_mux(&last.options, &made.section, &answered, is_rejected),
        crypto: lines_back(&made, &leg, is_rejected),
    }
}

/// The edit that writes an answer to the last offer, for a description with as many sections as the offer's (RFC 3264 section 6).
pub(crate) fn answer_sections(
    alloc: Global,
    config: &Config,
    dialog: &Dialog,
    last: &LastOffer,
    options: &Options,
    sdp: &Sdp,
) -> Result<Edit, OutOfMemory>
    ensures text { (rounds : List Round) (offer : MadeOffer) (ask : AnswerAsk) → DialogFor config.now dialog.now rounds →
        last_offer rounds ≡ Some offer → LastFor offer last.now → OfferRead offer.ask → ask.options ≡ options.now → lines_of ask.sdp ≡ sdp.now →
        IfOk result (λ edit. edited sdp.now edit ≡ answer_text config.now rounds ask) }
    ensures tags { IfOk result (λ edit. HaveTags edit.sections.list) }
{
    let interface = host_of_ip(config.interface);
    let mut edit = reserved_edit(alloc, interface, options, sdp.section_count())?;
    for index in 0..sdp.section_count() {
        edit.sections
            .push(answered_section(config, dialog, last, sdp, index));
    }
    edit.address = session_host(config, edit.sections.as_slice());
    Ok(edit)
}
