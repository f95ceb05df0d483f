//! Which sections an answer rejects.

ghost use Rattle.std.specs.Prelude.{◌≡◌, ◌<◌, List, slice_get, slice_index_or, unwrap_or};
ghost use Rattle.relay_outside.specs.declared.settings.Config.{Config};
ghost use Rattle.sdp_text.specs.Lines.{lines_of};
ghost use Rattle.sdp_text.specs.Descriptions.{sections_in};
ghost use Rattle.offer_answer.specs.Rounds.{Round, AnswerAsk};
ghost use Rattle.offer_answer.specs.Sides.{MadeOffer};
ghost use Rattle.offer_answer.specs.Sections.{no_section};
ghost use Rattle.offer_answer.specs.Signals.{is_rejected_by};
ghost use Rattle.offer_answer.specs.Dialogs.{DialogFor};
ghost use Rattle.offer_answer.specs.LastOffers.{no_made};
ghost use Rattle.offer_answer.specs.Answers.{IsLast};
ghost use Rattle.offer_answer.specs.Shapes.{shape_of};
ghost use Rattle.offer_answer.specs.AnswerShapes.{refuses_section};

use crate::dialog::Dialog;
use crate::last_offer::{LastOffer, MadeSection};
use crate::offered_section::is_active;
use sdp_text::{Sdp, Section};

/// What is kept of a section of the last offer, by its number from 0.
pub(crate) fn made_section(last: &LastOffer, section: usize) -> MadeSection
    requires { section < 8 }
    ensures { result ≡ slice_index_or last.now.sections section no_made }
{
    last.sections[section]
}

/// What a section of a description signals, by its number from 0. One that isn't there is as one that isn't used.
pub(crate) fn section_in(sdp: &Sdp, section: usize) -> Section
    ensures { result ≡ unwrap_or (slice_get (sections_in sdp.now) section) no_section }
{
    if section < sdp.section_count() {
        sdp.section(section)
    } else {
        MadeSection::NONE.section
    }
}

/// Whether an answer rejects a section: it isn't active in the offer or in the answer, or its pairs have gone (RFC 3264
/// section 6). Sections count from 0.
pub(crate) fn is_rejected(dialog: &Dialog, last: &LastOffer, sdp: &Sdp, section: usize) -> bool
    requires { section < 8 }
    ensures shape { result ≡ refuses_section last.now sdp.now section (shape_of dialog.now section) }
    ensures rejected { (config : Config) (rounds : List Round) (offer : MadeOffer) (ask : AnswerAsk) → DialogFor config dialog.now rounds →
        IsLast rounds offer last.now → lines_of ask.sdp ≡ sdp.now → result ≡ is_rejected_by rounds ask section }
{
    let offered = made_section(last, section).section;
    let answered = section_in(sdp, section);
    let has_pairs = dialog.section(section).has_pairs;
    !(is_active(&offered) && is_active(&answered) && has_pairs)
}
