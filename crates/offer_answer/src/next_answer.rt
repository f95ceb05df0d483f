//! What a dialog becomes by an answer.

ghost use Rattle.std.specs.Prelude.{◌≡◌, ◌<◌, ℕ, List, ◌∷◌, true, false, IfOk, option_map, slice_index_or};
ghost use Rattle.relay_outside.specs.declared.settings.Config.{Config};
ghost use Rattle.offer_answer.specs.Rounds.{Round, Answered, AnswerAsk};
ghost use Rattle.offer_answer.specs.Sides.{MadeOffer};
ghost use Rattle.offer_answer.specs.Sections.{most_sections};
ghost use Rattle.offer_answer.specs.Keys.{committed_key};
ghost use Rattle.offer_answer.specs.Signals.{is_rejected_by};
ghost use Rattle.offer_answer.specs.Dialogs.{DialogFor, SectionFor, LegFor, drawn_for_leg, no_state};
ghost use Rattle.offer_answer.specs.Shapes.{key_shape, leg_shape, no_leg_shape, section_shape, bare_shape, shape_in, shape_of};
ghost use Rattle.offer_answer.specs.AnswerShapes.{with_key_in_force, refuses_section, shape_taken, NextShape};
ghost use Rattle.offer_answer.specs.Answers.{IsLast, ReadsAnswer, AsksAnswer, AnsweredAt, AnsweredFor};

use crate::answered_section::{AnsweredSection, answered_section};
use crate::dialog::Dialog;
use crate::last_offer::LastOffer;
use crate::leg::{DialogSection, DrawnKey, Leg};
use crate::rejected_sections::is_rejected;
use ng_bencode::Text;
use ng_command::AnswerIn;
use port_pool::Side;
use relay_outside::OutOfMemory;
use sdp_text::{MOST_SECTIONS, Sdp};
use std::alloc::Global;

/// What a dialog becomes by an answer.
#[derive(Drop)]
pub(crate) struct AnsweredNext {
    /// The tag of the side that answers.
    pub to_tag: Text,
    /// How many sections the committed offer has.
    pub count: usize,
    /// The sections.
    pub sections: [DialogSection; MOST_SECTIONS],
}

/// A leg whose section was rejected: of it only the profile stays that the last offer gave it.
fn rejected_leg(leg: &Leg) -> Leg
    ensures shape { leg_shape result ≡ no_leg_shape }
    ensures next { (config : Config) (rounds : List Round) (ask : AnswerAsk) (section : ℕ) (side : Side) → LegFor config rounds section side leg.now →
        is_rejected_by rounds ask section ≡ true → LegFor config (Answered ask ∷ rounds) section side result }
{
    Leg {
        offered: leg.offered,
        ..Leg::NONE
    }
}

/// A leg that was committed with this key: the profile that the last offer gave it is in force.
fn committed_leg(leg: &Leg, key: Option<DrawnKey>) -> Leg
    ensures shape { leg_shape result ≡ with_key_in_force (option_map key_shape key) (leg_shape leg.now) }
    ensures next { (config : Config) (rounds : List Round) (ask : AnswerAsk) (section : ℕ) (side : Side) → LegFor config rounds section side leg.now →
        is_rejected_by rounds ask section ≡ false → option_map (drawn_for_leg section side) key ≡ committed_key rounds ask section side →
        LegFor config (Answered ask ∷ rounds) section side result }
{
    Leg {
        in_force: leg.offered,
        key_in_force: key,
        ..*leg
    }
}

/// A section that was rejected.
fn rejected_section(kept: &DialogSection) -> DialogSection
    ensures shape { section_shape result ≡ bare_shape }
    ensures next { (config : Config) (rounds : List Round) (ask : AnswerAsk) (section : ℕ) → SectionFor config rounds section kept.now →
        is_rejected_by rounds ask section ≡ true → SectionFor config (Answered ask ∷ rounds) section result }
{
    DialogSection {
        a: rejected_leg(&kept.a),
        b: rejected_leg(&kept.b),
        ..DialogSection::NONE
    }
}

/// A section that was committed.
fn committed_section(answered: &AnsweredSection, last: &LastOffer) -> DialogSection
    ensures shape { section_shape result ≡ shape_taken answered.now last.now.maker }
    ensures next { (config : Config) (rounds : List Round) (offer : MadeOffer) (ask : AnswerAsk) (section : ℕ) →
        AnsweredAt config rounds offer ask section answered.now → IsLast rounds offer last.now → is_rejected_by rounds ask section ≡ false →
        SectionFor config (Answered ask ∷ rounds) section result }
{
    let kept = &answered.kept;
    let key_a = answered.committed_key(last.maker, Side::A);
    let key_b = answered.committed_key(last.maker, Side::B);
    DialogSection {
        has_pairs: true,
        is_committed: true,
        a: committed_leg(&kept.a, key_a),
        b: committed_leg(&kept.b, key_b),
    }
}

fn next_section(dialog: &Dialog, last: &LastOffer, sdp: &Sdp, section: usize) -> DialogSection
    requires { section < 8 }
    ensures shape { NextShape (refuses_section last.now sdp.now section (shape_of dialog.now section)) dialog.now last.now sdp.now section (section_shape result) }
    ensures next { (config : Config) (rounds : List Round) (offer : MadeOffer) (ask : AnswerAsk) → DialogFor config dialog.now rounds →
        IsLast rounds offer last.now → ReadsAnswer sdp.now rounds ask → SectionFor config (Answered ask ∷ rounds) section result }
{
    if is_rejected(dialog, last, sdp, section) {
        return rejected_section(&dialog.section(section));
    }
    let answered = answered_section(dialog, last, sdp, section);
    committed_section(&answered, last)
}

fn next_sections(dialog: &Dialog, last: &LastOffer, sdp: &Sdp) -> [DialogSection; MOST_SECTIONS]
    ensures shapes { (section : ℕ) → section < 8 →
        NextShape (refuses_section last.now sdp.now section (shape_of dialog.now section)) dialog.now last.now sdp.now section (shape_in result section) }
    ensures next { (config : Config) (rounds : List Round) (offer : MadeOffer) (ask : AnswerAsk) → DialogFor config dialog.now rounds →
        IsLast rounds offer last.now → ReadsAnswer sdp.now rounds ask →
        (section : ℕ) → section < most_sections → SectionFor config (Answered ask ∷ rounds) section (slice_index_or result section no_state) }
{
    [
        next_section(dialog, last, sdp, 0),
        next_section(dialog, last, sdp, 1),
        next_section(dialog, last, sdp, 2),
        next_section(dialog, last, sdp, 3),
        next_section(dialog, last, sdp, 4),
        next_section(dialog, last, sdp, 5),
        next_section(dialog, last, sdp, 6),
        next_section(dialog, last, sdp, 7),
    ]
}

/// What the dialog becomes by an answer to its last offer.
pub(crate) fn next_of_answer(
    alloc: Global,
    dialog: &Dialog,
    last: &LastOffer,
    input: &AnswerIn,
    sdp: &Sdp,
) -> Result<AnsweredNext, OutOfMemory>
    ensures shapes { IfOk result (λ next. (section : ℕ) → section < 8 →
        NextShape (refuses_section last.now sdp.now section (shape_of dialog.now section)) dialog.now last.now sdp.now section (shape_in next.sections section)) }
    ensures next { (config : Config) (rounds : List Round) (offer : MadeOffer) (ask : AnswerAsk) → DialogFor config dialog.now rounds →
        IsLast rounds offer last.now → AsksAnswer input.now sdp.now rounds ask → IfOk result (AnsweredFor config rounds ask) }
    ensures count { IfOk result (λ next. next.count ≡ last.now.count) }
{
    let Ok(to_tag) = Text::copy_of(alloc, input.to_tag.as_slice()) else {
        return Err(OutOfMemory);
    };
    Ok(AnsweredNext {
        to_tag,
        count: last.count,
        sections: next_sections(dialog, last, sdp),
    })
}
