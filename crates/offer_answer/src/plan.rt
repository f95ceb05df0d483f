//! What an offer or an answer demands, writes and commits.

ghost use Rattle.std.specs.Prelude.{◌≡◌, ◌<◌, ◌≤◌, ◌+◌, ◌^◌, ◌++◌, ℕ, List, length, Some, option_map, slice_get};
ghost use Rattle.histories.specs.Words.{has};
ghost use Rattle.relay_outside.specs.declared.settings.Config.{Config};
ghost use Rattle.sdp_text.specs.Lines.{lines_of};
ghost use Rattle.port_pool.specs.Signals.{NewKey};
ghost use Rattle.offer_answer.specs.Rounds.{Round, OfferAsk, AnswerAsk, NewLeg, Demand};
ghost use Rattle.offer_answer.specs.Plan.{demand, offer_text, answer_text};
ghost use Rattle.offer_answer.specs.Offers.{PlanFor, key_asked, legs_demanded, pairs_demanded, key_count};
ghost use Rattle.offer_answer.specs.Laws.{new_leg_place};
ghost use Rattle.offer_answer.specs.Plans.{OfferNext, OfferFilled, OfferPlan, AnswerNext, AnswerPlan};
ghost use Rattle.offer_answer.specs.Nexts.{numbered_keys};
ghost use Rattle.offer_answer.specs.Widths.{KeepsOffer, WritesNext, WritesFrom};
ghost use Rattle.offer_answer.specs.AnswerShapes.{AnswerShapes};
ghost use Rattle.offer_answer.specs.OfferPlaces.{OfferPlaces, AnswerCounts, SameCounts};
ghost use Rattle.offer_answer.specs.Shapes.{OfferShapes, FilledShapes, SamePlaces, keys_demanded};
ghost use Rattle.offer_answer.specs.declared.dialog.Dialog.{Dialog};

use crate::last_offer::OfferedNext;
use crate::next_answer::AnsweredNext;
use crate::offer_text::write_offer;
use port_pool::{Side, Signal};
use relay_outside::{Config, Family, KeyAndSalt};
use sdes_lines::Suite;
use sdp_edit::{Edit, edit_into};
use sdp_text::{Bytes, MOST_SECTIONS, Sdp};

/// What the dialog becomes by what was planned.
#[derive(Drop)]
pub(crate) enum Next {
    /// By an offer.
    Offer(OfferedNext),
    /// By an answer.
    Answer(AnsweredNext),
}

/// What an offer or an answer demands, and what it makes of the dialog and of its description.
#[derive(Drop)]
pub struct Plan {
    /// The legs that pairs are demanded for, in the order of leases.
    pub(crate) legs: Vec<(u8, Side, Family)>,
    /// The legs and suites that keys are demanded for, in the order of draws.
    pub(crate) key_places: Vec<(u8, Side, Suite)>,
    /// Which sections' legs the offer drops.
    pub(crate) dropped: [bool; MOST_SECTIONS],
    /// The configuration, whose interfaces' addresses are written into the description.
    pub(crate) config: Config,
    /// What becomes of the description: of an offer its sections are written when it is filled, of an answer it is whole.
    pub(crate) edit: Edit,
    /// How long the written description can be.
    pub(crate) reply_len: usize,
    /// What an answer commits; of an offer nothing.
    pub(crate) signal: Signal,
    /// What the dialog becomes by it.
    pub(crate) next: Next,
}

impl Plan {
    /// How many pairs it demands.
    pub fn pairs(&self) -> usize
        ensures count { result ≡ pairs_demanded self.now }
        ensures demanded { (asked : Demand) → PlanFor self.now asked → result ≡ length asked.pairs }
    {
        self.legs.len()
    }

    /// How many keys it demands.
    pub fn keys(&self) -> usize
        ensures count { result ≡ key_count self.now }
        ensures demanded { (asked : Demand) → PlanFor self.now asked → result ≡ length asked.keys }
    {
        self.key_places.len()
    }

    /// The section, from 0, and the side of the leg that a pair is for. The index counts from 0, in the order of leases.
    pub fn pair_leg(&self, index: usize) -> (u8, Side)
        requires { index < pairs_demanded self.now }
        ensures { (asked : Demand) → PlanFor self.now asked → option_map new_leg_place (slice_get asked.pairs index) ≡ Some result }
    {
        let (section, side, _) = self.legs[index];
        (section, side)
    }

    /// The family of the leg that a pair is for. The index counts from 0, in the order of leases.
    pub fn pair_family(&self, index: usize) -> Family
        requires { index < pairs_demanded self.now }
        ensures own { option_map (λ (leg : NewLeg). leg.family) (slice_get (legs_demanded self.now) index) ≡ Some result }
        ensures demanded { (asked : Demand) → PlanFor self.now asked →
            option_map (λ (leg : NewLeg). leg.family) (slice_get asked.pairs index) ≡ Some result }
    {
        let (_, _, family) = self.legs[index];
        family
    }

    /// The section, from 0, and the side of the leg that a key is for, and its suite. The index counts from 0, in the order
    /// of draws.
    pub fn key_leg(&self, index: usize) -> (u8, Side, Suite)
        requires { index < key_count self.now }
        ensures { (asked : Demand) → PlanFor self.now asked → slice_get asked.keys index ≡ Some (key_asked result) }
    {
        self.key_places[index]
    }

    /// Whether the offer drops the legs of a section. Sections count from 0.
    pub fn drops(&self, section: usize) -> bool
        ensures { (asked : Demand) → PlanFor self.now asked → result ≡ has asked.dropped section }
    {
        section < MOST_SECTIONS && self.dropped[section]
    }

    /// What the dialog becomes by it.
    pub(crate) fn into_next(self) -> Next
        ensures { result ≡ self.next }
    {
        let Plan {
            legs: _,
            key_places: _,
            dropped: _,
            config: _,
            edit: _,
            reply_len: _,
            signal: _,
            next,
        } = self;
        next
    }

    /// How many bytes the description that is written can have.
    pub fn reply_len(&self) -> usize
        ensures { result ≡ self.now.reply_len }
    {
        self.reply_len
    }

    /// What an answer commits, section by section.
    pub fn signal(&self) -> &Signal
        ensures { result.now ≡ self.now.signal }
    {
        &self.signal
    }

    /// Puts in the RTP ports of the leased pairs and the drawn keys, each as many and in the order as they are demanded. The keys
    /// have the numbers from `first_key` on.
    fn put(&mut self, ports: &[u16], first_key: u64, keys: &[KeyAndSalt])
        requires ports { length ports.now ≡ pairs_demanded self.old }
        requires keys { length keys.now ≡ key_count self.old }
        requires first { first_key ≤ 2 ^ 63 }
        ensures rest { self.new ≡ record self.old { next = self.new.next } }
        ensures kept { KeepsOffer self.old.next self.new.next }
        ensures filled { (config : Config) (rounds : List Round) (ask : OfferAsk) → PlanFor self.old (demand rounds ask) →
            OfferNext config rounds ask self.old.next →
            OfferFilled config rounds ask ports.now (numbered_keys first_key keys.now (demand rounds ask).keys) self.new.next }
        ensures shapes { (dialog : Dialog) → OfferShapes self.old dialog self.old.next →
            FilledShapes self.old dialog ports.now (numbered_keys first_key keys.now (keys_demanded self.old)) self.new.next }
        ensures answered_shapes { (dialog : Dialog) → AnswerShapes self.old dialog self.old.next → AnswerShapes self.old dialog self.new.next }
    {
        match &mut self.next {
            Next::Offer(next) => {
                next.put_ports(self.legs.as_slice(), ports);
                next.put_keys(self.key_places.as_slice(), first_key, keys);
            }
            Next::Answer(_) => {}
        }
    }

    /// Writes the description after what `out` holds.
    fn write(&mut self, sdp: &Sdp, out: &mut Bytes)
        requires made { WritesFrom self.old sdp.now }
        requires room { self.old.reply_len ≤ out.old.spare }
        ensures rest { self.new ≡ record self.old { edit = self.new.edit } }
        ensures next { self.new.next ≡ self.old.next }
        ensures demands { (asked : Demand) → PlanFor self.old asked → PlanFor self.new asked }
        ensures signal { self.new.signal ≡ self.old.signal }
        ensures offered { (config : Config) (rounds : List Round) (ask : OfferAsk) (ports : List ℕ) (keys : List NewKey) →
            OfferFilled config rounds ask ports keys self.old.next → self.old.config ≡ config → lines_of ask.sdp ≡ sdp.now →
            out.new.list ≡ out.old.list ++ offer_text config rounds ask ports keys }
        ensures answered { (config : Config) (rounds : List Round) (ask : AnswerAsk) → AnswerPlan config rounds ask sdp.now self.old →
            out.new.list ≡ out.old.list ++ answer_text config rounds ask }
        ensures within { length out.new.list ≤ length out.old.list + self.old.reply_len }
        ensures spare { length out.old.list + out.old.spare ≤ length out.new.list + out.new.spare }
    {
        match &self.next {
            Next::Offer(next) => write_offer(next, &self.config, &mut self.edit, sdp, out),
            Next::Answer(_) => edit_into(sdp, &self.edit, out),
        }
    }

    /// Writes the description for the other side after what `out` holds, with these RTP ports and keys, each as many and in the
    /// order as they are demanded; the keys have the numbers from `first_key` on. It needs the description from which the plan
    /// was made, and spare room of `reply_len`. It takes no memory.
    pub fn fill(
        &mut self,
        sdp: &Sdp,
        ports: &[u16],
        first_key: u64,
        keys: &[KeyAndSalt],
        out: &mut Bytes,
    )
        requires ports { length ports.now ≡ pairs_demanded self.old }
        requires keys { length keys.now ≡ key_count self.old }
        requires first { first_key ≤ 2 ^ 63 }
        requires made { WritesFrom self.old sdp.now }
        requires room { self.old.reply_len ≤ out.old.spare }
        ensures demands { (asked : Demand) → PlanFor self.old asked → PlanFor self.new asked }
        ensures signal { self.new.signal ≡ self.old.signal }
        ensures filled { (config : Config) (rounds : List Round) (ask : OfferAsk) → OfferPlan config rounds ask self.old →
            OfferFilled config rounds ask ports.now (numbered_keys first_key keys.now (demand rounds ask).keys) self.new.next }
        ensures offered { (config : Config) (rounds : List Round) (ask : OfferAsk) → OfferPlan config rounds ask self.old → lines_of ask.sdp ≡ sdp.now →
            out.new.list ≡ out.old.list ++ offer_text config rounds ask ports.now (numbered_keys first_key keys.now (demand rounds ask).keys) }
        ensures answered { (config : Config) (rounds : List Round) (ask : AnswerAsk) → AnswerPlan config rounds ask sdp.now self.old →
            AnswerNext config rounds ask self.new.next × (out.new.list ≡ out.old.list ++ answer_text config rounds ask) }
        ensures kept { SamePlaces self.old self.new }
        ensures answered_shapes { (dialog : Dialog) → AnswerShapes self.old dialog self.old.next → AnswerShapes self.old dialog self.new.next }
        ensures shapes { (dialog : Dialog) → OfferShapes self.old dialog self.old.next →
            FilledShapes self.old dialog ports.now (numbered_keys first_key keys.now (keys_demanded self.old)) self.new.next }
        ensures within { length out.new.list ≤ length out.old.list + self.old.reply_len }
        ensures spare { length out.old.list + out.old.spare ≤ length out.new.list + out.new.spare }
        ensures counts { SameCounts self.old.next self.new.next }
        ensures places { (dialog : Dialog) → OfferPlaces self.old dialog → OfferPlaces self.new dialog }
        ensures answer_counts { (dialog : Dialog) → AnswerCounts self.old dialog → AnswerCounts self.new dialog }
    {
        self.put(ports, first_key, keys);
        self.write(sdp, out);
    }
}
