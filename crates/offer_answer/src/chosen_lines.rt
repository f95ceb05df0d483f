//! The crypto lines that are chosen in a description.

ghost use Rattle.std.specs.Prelude.{◌≡◌, ◌<◌, [], List};
ghost use Rattle.relay_outside.specs.declared.settings.Config.{Config};
ghost use Rattle.sdp_text.specs.Lines.{lines_of};
ghost use Rattle.offer_answer.specs.Rounds.{Round, OfferAsk, AnswerAsk};
ghost use Rattle.offer_answer.specs.Keys.{no_lines, last_lines};
ghost use Rattle.offer_answer.specs.Plan.{OfferRead, AnswerRead};
ghost use Rattle.offer_answer.specs.Dialogs.{DialogFor};

use crate::dialog::Dialog;
use crate::rejected_sections::made_section;
use sdes_lines::CryptoLine;
use sdp_edit::{choose, choose_among};
use sdp_text::{MOST_SECTIONS, Sdp};
use std::marker::Model;

/// The crypto line that is chosen in each section of a description, `None` where none can be used, in the order of the sections,
/// at most 8.
///
/// Contracts see it as the list of them.
///
/// They stand in a round for every section, whatever its protocol, so that they are a function of the description; a section has
/// one first usable line at most.
#[derive(Drop)]
pub struct ChosenLines {
    /// The lines that are chosen, section by section, and `None` after them.
    lines: [Option<CryptoLine>; MOST_SECTIONS],
    /// How many sections there are, at most 8.
    count: usize,
}

impl Model for ChosenLines {
    ghost use Rattle.std.specs.Prelude.{◌≤◌, List, Option, take};
    ghost use Rattle.sdes_lines.specs.declared.crypto_line.CryptoLine.{CryptoLine};

    ghost Value = { List (Option CryptoLine) };

    ghost view = { λ h. take h.count h.lines };

    ghost invariant = { λ h. h.count ≤ 8 };
}

impl ChosenLines {
    /// No lines, as where there is no description.
    pub fn none() -> ChosenLines
        ensures { result ≡ [] }
    {
        ChosenLines {
            lines: [None; MOST_SECTIONS],
            count: 0,
        }
    }

    /// The lines that are chosen in the description of an offer: the first usable one of each section (RFC 4568 section 5.1.2).
    pub fn of_offer(sdp: &Sdp) -> ChosenLines
        ensures { (ask : OfferAsk) → lines_of ask.sdp ≡ sdp.now → ask.chosen ≡ result → OfferRead ask }
    {
        let count = sdp.section_count();
        let mut lines = [None; MOST_SECTIONS];
        for section in 0..count {
            lines[section] = choose(sdp, section);
        }
        ChosenLines { lines, count }
    }

    /// The lines, section by section.
    pub fn lines(&self) -> &[Option<CryptoLine>]
        ensures { result.now ≡ self.now }
    {
        &self.lines[..self.count]
    }
}

impl Dialog {
    /// The crypto lines that the answering side was offered in a section, by its number from 0.
    fn last_lines(&self, section: usize) -> [Option<CryptoLine>; 2]
        requires { section < 8 }
        ensures { (config : Config) (rounds : List Round) → DialogFor config self.now rounds → result ≡ last_lines rounds section }
    {
        match self.last_offer() {
            Some(last) => made_section(last, section).lines,
            None => [None, None],
        }
    }

    /// The lines that are chosen in the description of an answer to the last offer: the first usable one of each section whose tag
    /// and suite are those of a line that its side was offered (RFC 4568 section 5.1.2). None before the first offer.
    pub fn hear(&self, sdp: &Sdp) -> ChosenLines
        ensures { (config : Config) (rounds : List Round) (ask : AnswerAsk) → DialogFor config self.now rounds →
            lines_of ask.sdp ≡ sdp.now → ask.chosen ≡ result → AnswerRead rounds ask }
    {
        let count = sdp.section_count();
        let mut lines = [None; MOST_SECTIONS];
        for section in 0..count {
            lines[section] = choose_among(sdp, section, &self.last_lines(section));
        }
        ChosenLines { lines, count }
    }
}
