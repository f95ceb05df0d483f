//! The dialog of a call.

ghost use Rattle.std.specs.Prelude.{◌≡◌, ◌<◌, ℕ, List, [], ◌∷◌, length, replicate, IfOk, MatchOption, None, Some, if◌then◌else◌, slice_get, slice_index_or};
ghost use Rattle.relay_outside.specs.declared.settings.Config.{Config};
ghost use Rattle.port_pool.specs.declared.holder.Holder.{Holder};
ghost use Rattle.port_pool.specs.Signals.{NewKey};
ghost use Rattle.offer_answer.specs.Rounds.{Round, Offered, Answered, OfferAsk, AnswerAsk};
ghost use Rattle.offer_answer.specs.Sides.{MadeOffer, last_offer};
ghost use Rattle.offer_answer.specs.Plan as plan;
ghost use Rattle.offer_answer.specs.Dialogs.{DialogFor, Awaits, no_state};
ghost use Rattle.offer_answer.specs.PortsAndKeys.{AreDemandedLegs, FilledFor};
ghost use Rattle.offer_answer.specs.Answers.{IsLast, AnsweredFor};
ghost use Rattle.offer_answer.specs.Plans.{OfferFilled, AnswerNext};
ghost use Rattle.offer_answer.specs.AnswerShapes.{ShapeAnswered, AnswerShapes};
ghost use Rattle.offer_answer.specs.Shapes.{shape_of, shape_offered, offered_count, FilledShapes};
ghost use Rattle.offer_answer.specs.OfferPlaces.{TakesCounts};

use crate::last_offer::{LastOffer, OfferedNext};
use crate::leg::DialogSection;
use crate::next_answer::AnsweredNext;
use crate::plan::{Next, Plan};
use ng_bencode::Text;
use port_pool::Side;
use relay_outside::OutOfMemory;
use sdp_text::{MOST_SECTIONS, Proto};
use std::alloc::Global;

/// The state that the accepted offers and answers of a call lead to: all that the next one is judged by.
///
/// Contracts see it as a summary of lists of rounds: it stands for each list that leads to this state.
/// Its rounds are under one configuration, since a port follows from the number of its pair and the range.
#[derive(Drop)]
pub struct Dialog {
    /// The tag of the side that makes the first offer.
    pub(crate) first_tag: Text,
    /// Whether that offer was accepted.
    pub(crate) is_begun: bool,
    /// The tag of the side that answers it.
    pub(crate) answering_tag: Option<Text>,
    /// Whether an answer was committed.
    pub(crate) has_answer: bool,
    /// Whether an offer followed the first answer.
    pub(crate) is_settled: bool,
    /// How many sections the last committed offer has.
    pub(crate) committed_count: usize,
    /// The last offer.
    pub(crate) last_offer: Option<LastOffer>,
    /// The sections.
    pub(crate) sections: [DialogSection; MOST_SECTIONS],
}

impl Dialog {
    /// The dialog of a call before its first offer, which will come from the side with this tag.
    pub fn new(alloc: Global, from_tag: &Text) -> Result<Dialog, OutOfMemory>
        ensures stands { IfOk result (λ dialog. (config : Config) → DialogFor config dialog []) }
        ensures awaits { IfOk result (λ dialog. Awaits dialog from_tag.now.list) }
    {
        let Ok(first_tag) = Text::copy_of(alloc, from_tag.as_slice()) else {
            return Err(OutOfMemory);
        };
        Ok(Dialog {
            first_tag,
            is_begun: false,
            answering_tag: None,
            has_answer: false,
            is_settled: false,
            committed_count: 0,
            last_offer: None,
            sections: [DialogSection::NONE; MOST_SECTIONS],
        })
    }

    /// The tag of a side, where it has one.
    pub fn tag(&self, side: Side) -> Option<&[u8]>
        ensures { (config : Config) (rounds : List Round) → DialogFor config self.now rounds →
            MatchOption result (plan.tag rounds side ≡ None) (λ tag. plan.tag rounds side ≡ Some tag.now) }
    {
        match side {
            Side::A => self.first_offerer(),
            Side::B => self.answerer(),
        }
    }

    fn first_offerer(&self) -> Option<&[u8]>
        ensures { (config : Config) (rounds : List Round) → DialogFor config self.now rounds →
            MatchOption result (plan.tag rounds Side.A ≡ None) (λ tag. plan.tag rounds Side.A ≡ Some tag.now) }
    {
        if self.is_begun {
            Some(self.first_tag.as_slice())
        } else {
            None
        }
    }

    fn answerer(&self) -> Option<&[u8]>
        ensures { (config : Config) (rounds : List Round) → DialogFor config self.now rounds →
            MatchOption result (plan.tag rounds Side.B ≡ None) (λ tag. plan.tag rounds Side.B ≡ Some tag.now) }
    {
        match &self.answering_tag {
            Some(tag) => Some(tag.as_slice()),
            None => None,
        }
    }

    /// What is kept of a section, by its number from 0.
    pub(crate) fn section(&self, section: usize) -> DialogSection
        requires { section < 8 }
        ensures { result ≡ slice_index_or self.now.sections section no_state }
    {
        self.sections[section]
    }

    /// The profile in force on a section's leg; none where the section isn't committed. Sections count from 0.
    pub fn protocol(&self, section: usize, side: Side) -> Option<Proto>
        ensures { (config : Config) (rounds : List Round) → DialogFor config self.now rounds →
            result ≡ plan.protocol rounds section side }
    {
        if section < MOST_SECTIONS {
            self.section(section).leg(side).in_force
        } else {
            None
        }
    }

    /// Whether an offer was accepted.
    pub(crate) fn is_begun(&self) -> bool
        ensures { result ≡ self.now.is_begun }
    {
        self.is_begun
    }

    /// How many sections the last committed offer has, 0 before the first answer.
    pub(crate) fn committed_count(&self) -> usize
        ensures { result ≡ self.now.committed_count }
    {
        self.committed_count
    }

    /// Takes an offer in. Before its first offer the dialog awaits one from the side with the first tag.
    pub(crate) fn apply_offer(&mut self, next: OfferedNext)
        ensures stands { (config : Config) (rounds : List Round) (ask : OfferAsk) (ports : List ℕ) (keys : List NewKey) (legs : List Holder) →
            DialogFor config self.old rounds → Awaits self.old ask.from_tag → FilledFor config rounds ask ports keys next →
            AreDemandedLegs config rounds ask ports legs → DialogFor config self.new (Offered ask legs keys ∷ rounds) }
        ensures sections { self.new.sections ≡ next.sections }
        ensures offered { offered_count self.new ≡ next.last.count }
        ensures committed { self.new.committed_count ≡ self.old.committed_count }
    {
        let OfferedNext { last, sections } = next;
        self.is_begun = true;
        self.is_settled = self.has_answer;
        self.last_offer = Some(last);
        self.sections = sections;
    }

    /// Whether an offer followed the first answer.
    pub(crate) fn is_settled(&self) -> bool
        ensures { result ≡ self.now.is_settled }
    {
        self.is_settled
    }

    /// The last offer, where there is one.
    pub(crate) fn last_offer(&self) -> Option<&LastOffer>
        ensures stands { (config : Config) (rounds : List Round) → DialogFor config self.now rounds →
            MatchOption result (last_offer rounds ≡ None) (λ last. (offer : MadeOffer) × IsLast rounds offer last.now) }
        ensures kept { MatchOption result (self.now.last_offer ≡ None) (λ last. self.now.last_offer ≡ Some last.now) }
    {
        match &self.last_offer {
            Some(last) => Some(last),
            None => None,
        }
    }

    /// Gives the answering side this tag, unless both sides are settled.
    fn name_answerer(&mut self, tag: Text)
        ensures { self.new ≡ record self.old { answering_tag = if self.old.is_settled then self.old.answering_tag else Some tag } }
    {
        if !self.is_settled {
            self.answering_tag = Some(tag);
        }
    }

    /// Takes an answer in. It takes no memory.
    pub(crate) fn apply_answer(&mut self, next: AnsweredNext)
        ensures sections { self.new.sections ≡ next.sections }
        ensures stands { (config : Config) (rounds : List Round) (ask : AnswerAsk) → DialogFor config self.old rounds → AnsweredFor config rounds ask next →
            DialogFor config self.new (Answered ask ∷ rounds) }
        ensures offered { self.new.last_offer ≡ self.old.last_offer }
        ensures committed { self.new.committed_count ≡ next.count }
    {
        let AnsweredNext {
            to_tag,
            count,
            sections,
        } = next;
        self.name_answerer(to_tag);
        self.has_answer = true;
        self.committed_count = count;
        self.sections = sections;
    }

    /// Takes in the plan that was made from this dialog: that of an offer once it is filled, that of an answer. It takes no memory.
    pub fn apply(&mut self, plan: Plan)
        ensures offered { (config : Config) (rounds : List Round) (ask : OfferAsk) (ports : List ℕ) (keys : List NewKey) (legs : List Holder) →
            DialogFor config self.old rounds → Awaits self.old ask.from_tag → OfferFilled config rounds ask ports keys plan.next →
            AreDemandedLegs config rounds ask ports legs → DialogFor config self.new (Offered ask legs keys ∷ rounds) }
        ensures answered { (config : Config) (rounds : List Round) (ask : AnswerAsk) → DialogFor config self.old rounds →
            AnswerNext config rounds ask plan.next → DialogFor config self.new (Answered ask ∷ rounds) }
        ensures shapes { (made : Plan) (ports : List ℕ) (keys : List NewKey) → FilledShapes made self.old ports keys plan.next →
            (section : ℕ) → section < 8 → shape_of self.new section ≡ shape_offered made ports keys section (shape_of self.old section) }
        ensures answered_shapes { (made : Plan) → AnswerShapes made self.old plan.next →
            (section : ℕ) → section < 8 → ShapeAnswered (slice_get made.signal section) (shape_of self.old section) (shape_of self.new section) }
        ensures counts { TakesCounts self.old plan.next self.new }
    {
        match plan.into_next() {
            Next::Offer(next) => self.apply_offer(next),
            Next::Answer(next) => self.apply_answer(next),
        }
    }
}
