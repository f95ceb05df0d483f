//! The leased ports and the drawn keys of an offer, put into what the dialog becomes by it.

ghost use Rattle.std.specs.Prelude.{◌≡◌, ◌<◌, ◌≤◌, ◌^◌, ◌&&◌, ◌==◌, ◌∷◌, [], ℕ, List, length, map, filter, unwrap_or, option_map, slice_index_or};
ghost use Rattle.histories.specs.Words.{or_else};
ghost use Rattle.relay_outside.specs.declared.settings.Config.{Config};
ghost use Rattle.port_pool.specs.Signals.{NewKey, side_eq, suite_eq, other_side};
ghost use Rattle.offer_answer.specs.Rounds.{Round, OfferAsk};
ghost use Rattle.offer_answer.specs.Sides.{offerer};
ghost use Rattle.offer_answer.specs.Keys.{is_for, key_among, offered_lines};
ghost use Rattle.offer_answer.specs.Demands.{new_legs, new_keys};
ghost use Rattle.offer_answer.specs.Texts.{new_port};
ghost use Rattle.offer_answer.specs.Laws.{key_place};
ghost use Rattle.offer_answer.specs.Dialogs.{drawn_for_leg, no_state};
ghost use Rattle.offer_answer.specs.LastOffers.{MadeFor, no_made};
ghost use Rattle.offer_answer.specs.Offers.{leg_asked, key_asked};
ghost use Rattle.offer_answer.specs.PortsAndKeys.{FilledFor};
ghost use Rattle.offer_answer.specs.Widths.{SameMade, SameOffer};
ghost use Rattle.offer_answer.specs.Shapes.{leg_shape, section_shape, shape_in, leg_with_new, shape_with_new};
ghost use Rattle.offer_answer.specs.Nexts.{LegNext, SectionNext, MadeNext, NextFor, numbered_keys, carrying};

use crate::last_offer::{MadeSection, OfferedNext};
use crate::leg::{DialogSection, DrawnKey, Leg};
use crate::offered_section::{is_active, is_srtp, other_side};
use port_pool::Side;
use relay_outside::{Family, KeyAndSalt};
use sdes_lines::{CryptoLine, Suite};
use sdp_text::MOST_SECTIONS;

// The ports.

fn is_leg(leg: (u8, Side, Family), section: usize, side: Side) -> bool
    ensures { result ≡ (leg.0 == section && side_eq leg.1 side) }
{
    leg.0 as usize == section && leg.1 == side
}

/// The port of a leg that a pair was demanded for.
fn port_of(legs: &[(u8, Side, Family)], ports: &[u16], section: usize, side: Side) -> Option<u16>
    requires { length legs.now ≡ length ports.now }
    ensures { result ≡ new_port (map leg_asked legs.now) ports.now section side }
{
    for index in 0..legs.len() {
        if is_leg(legs[index], section, side) {
            return Some(ports[index]);
        }
    }
    None
}

fn leg_with_port(leg: Leg, port: Option<u16>) -> Leg
    ensures { result ≡ record leg { port = unwrap_or port leg.port } }
{
    match port {
        Some(port) => Leg { port, ..leg },
        None => leg,
    }
}

fn section_with_ports(
    kept: DialogSection,
    section: usize,
    legs: &[(u8, Side, Family)],
    ports: &[u16],
) -> DialogSection
    requires { length legs.now ≡ length ports.now }
    ensures next { (config : Config) (rounds : List Round) (ask : OfferAsk) (keys : List NewKey) → map leg_asked legs.now ≡ new_legs rounds ask →
        SectionNext config rounds ask [] keys section kept → SectionNext config rounds ask ports.now keys section result }
    ensures shape { section_shape result ≡ shape_with_new (map leg_asked legs.now) ports.now [] section (section_shape kept) }
{
    DialogSection {
        a: leg_with_port(kept.a, port_of(legs, ports, section, Side::A)),
        b: leg_with_port(kept.b, port_of(legs, ports, section, Side::B)),
        ..kept
    }
}

fn sections_with_ports(
    kept: &[DialogSection; MOST_SECTIONS],
    legs: &[(u8, Side, Family)],
    ports: &[u16],
) -> [DialogSection; MOST_SECTIONS]
    requires { length legs.now ≡ length ports.now }
    ensures next { (config : Config) (rounds : List Round) (ask : OfferAsk) (keys : List NewKey) → map leg_asked legs.now ≡ new_legs rounds ask →
        ((section : ℕ) → section < 8 → SectionNext config rounds ask [] keys section (slice_index_or kept.now section no_state)) →
        (section : ℕ) → section < 8 → SectionNext config rounds ask ports.now keys section (slice_index_or result section no_state) }
    ensures shapes { (section : ℕ) → section < 8 → shape_in result section ≡ shape_with_new (map leg_asked legs.now) ports.now [] section (shape_in kept.now section) }
{
    let mut sections = [DialogSection::NONE; MOST_SECTIONS];
    for index in 0..MOST_SECTIONS {
        sections[index] = section_with_ports(kept[index], index, legs, ports);
    }
    sections
}

// The keys.

fn is_place(place: (u8, Side, Suite), section: usize, side: Side, suite: Suite) -> bool
    ensures { result ≡ ((place.0 == section && side_eq place.1 side) && suite_eq place.2 suite) }
{
    place.0 as usize == section && place.1 == side && place.2 == suite
}

/// The key that was drawn for a leg and a suite. The keys have the numbers from `first_key` on.
fn key_of(
    places: &[(u8, Side, Suite)],
    first_key: u64,
    keys: &[KeyAndSalt],
    section: usize,
    side: Side,
    suite: Suite,
) -> Option<DrawnKey>
    requires same { length places.now ≡ length keys.now }
    requires first { first_key ≤ 2 ^ 63 }
    ensures { option_map (drawn_for_leg section side) result
        ≡ key_among (filter (is_for section side) (numbered_keys first_key keys.now (map key_asked places.now))) suite }
{
    for index in 0..places.len() {
        if is_place(places[index], section, side, suite) {
            let bytes = keys[index];
            return Some(DrawnKey {
                number: first_key + index as u64,
                suite,
                bytes,
            });
        }
    }
    None
}

fn newer(drawn: Option<DrawnKey>, kept: Option<DrawnKey>) -> Option<DrawnKey>
    ensures { result ≡ or_else drawn kept }
{
    match drawn {
        Some(key) => Some(key),
        None => kept,
    }
}

fn leg_with_keys(
    leg: Leg,
    section: usize,
    side: Side,
    places: &[(u8, Side, Suite)],
    first_key: u64,
    keys: &[KeyAndSalt],
) -> Leg
    requires same { length places.now ≡ length keys.now }
    requires first { first_key ≤ 2 ^ 63 }
    ensures next { (config : Config) (rounds : List Round) (ask : OfferAsk) (ports : List ℕ) → LegNext config rounds ask ports [] section side leg →
        LegNext config rounds ask ports (numbered_keys first_key keys.now (map key_asked places.now)) section side result }
    ensures shape { leg_shape result ≡ leg_with_new [] [] (numbered_keys first_key keys.now (map key_asked places.now)) section side (leg_shape leg) }
{
    let long = key_of(places, first_key, keys, section, side, Suite::Tag80);
    let short = key_of(places, first_key, keys, section, side, Suite::Tag32);
    Leg {
        long_key: newer(long, leg.long_key),
        short_key: newer(short, leg.short_key),
        ..leg
    }
}

fn section_with_keys(
    kept: DialogSection,
    section: usize,
    places: &[(u8, Side, Suite)],
    first_key: u64,
    keys: &[KeyAndSalt],
) -> DialogSection
    requires same { length places.now ≡ length keys.now }
    requires first { first_key ≤ 2 ^ 63 }
    ensures next { (config : Config) (rounds : List Round) (ask : OfferAsk) (ports : List ℕ) → SectionNext config rounds ask ports [] section kept →
        SectionNext config rounds ask ports (numbered_keys first_key keys.now (map key_asked places.now)) section result }
    ensures shape { section_shape result ≡ shape_with_new [] [] (numbered_keys first_key keys.now (map key_asked places.now)) section (section_shape kept) }
{
    DialogSection {
        a: leg_with_keys(kept.a, section, Side::A, places, first_key, keys),
        b: leg_with_keys(kept.b, section, Side::B, places, first_key, keys),
        ..kept
    }
}

fn sections_with_keys(
    kept: &[DialogSection; MOST_SECTIONS],
    places: &[(u8, Side, Suite)],
    first_key: u64,
    keys: &[KeyAndSalt],
) -> [DialogSection; MOST_SECTIONS]
    requires same { length places.now ≡ length keys.now }
    requires first { first_key ≤ 2 ^ 63 }
    ensures next { (config : Config) (rounds : List Round) (ask : OfferAsk) (ports : List ℕ) →
        ((section : ℕ) → section < 8 → SectionNext config rounds ask ports [] section (slice_index_or kept.now section no_state)) →
        (section : ℕ) → section < 8 →
        SectionNext config rounds ask ports (numbered_keys first_key keys.now (map key_asked places.now)) section (slice_index_or result section no_state) }
    ensures shapes { (section : ℕ) → section < 8 →
        shape_in result section ≡ shape_with_new [] [] (numbered_keys first_key keys.now (map key_asked places.now)) section (shape_in kept.now section) }
{
    let mut sections = [DialogSection::NONE; MOST_SECTIONS];
    for index in 0..MOST_SECTIONS {
        sections[index] = section_with_keys(kept[index], index, places, first_key, keys);
    }
    sections
}

// The crypto lines.

/// The line with this tag that carries a key.
fn line_of(tag: u32, key: Option<DrawnKey>) -> Option<CryptoLine>
    ensures { result ≡ option_map (carrying tag) key }
{
    let key = key?;
    let bytes = key.bytes;
    Some(CryptoLine {
        tag,
        suite: key.suite,
        key: bytes,
    })
}

/// The lines that the other side is offered in a section, by its leg (RFC 4568 section 5.1.1).
fn lines_for(made: &MadeSection, leg: &Leg) -> [Option<CryptoLine>; 2]
    ensures { (config : Config) (rounds : List Round) (ask : OfferAsk) (ports : List ℕ) (keys : List NewKey) (section : ℕ) →
        MadeNext rounds ask section made.now → LegNext config rounds ask ports keys section (other_side (offerer rounds ask)) leg.now →
        result ≡ offered_lines rounds ask keys section }
{
    if !is_active(&made.section) || !is_srtp(made.written) {
        return [None, None];
    }
    match leg.key_in_force {
        Some(key) => [line_of(1, Some(key)), None],
        None => [line_of(1, leg.long_key), line_of(2, leg.short_key)],
    }
}

fn with_lines(made: MadeSection, leg: &Leg) -> MadeSection
    ensures made { (config : Config) (rounds : List Round) (ask : OfferAsk) (ports : List ℕ) (keys : List NewKey) (section : ℕ) →
        MadeNext rounds ask section made → LegNext config rounds ask ports keys section (other_side (offerer rounds ask)) leg.now →
        MadeFor (record { ask = ask; keys = keys; before = rounds }) section result }
    ensures same { SameMade made result }
{
    let lines = lines_for(&made, leg);
    MadeSection { lines, ..made }
}

/// The sections of an offer with the lines that the other side is offered, by what the sections are after it.
fn sections_with_lines(
    offered: &[MadeSection; MOST_SECTIONS],
    side: Side,
    sections: &[DialogSection; MOST_SECTIONS],
) -> [MadeSection; MOST_SECTIONS]
    ensures same { (section : ℕ) → section < 8 → SameMade (slice_index_or offered.now section no_made) (slice_index_or result section no_made) }
    ensures made { (config : Config) (rounds : List Round) (ask : OfferAsk) (ports : List ℕ) (keys : List NewKey) → side ≡ other_side (offerer rounds ask) →
        ((section : ℕ) → section < 8 → MadeNext rounds ask section (slice_index_or offered.now section no_made)) →
        ((section : ℕ) → section < 8 → SectionNext config rounds ask ports keys section (slice_index_or sections.now section no_state)) →
        (section : ℕ) → section < 8 →
        MadeFor (record { ask = ask; keys = keys; before = rounds }) section (slice_index_or result section no_made) }
{
    let mut made = [MadeSection::NONE; MOST_SECTIONS];
    for index in 0..MOST_SECTIONS {
        made[index] = with_lines(offered[index], &sections[index].leg(side));
    }
    made
}

impl OfferedNext {
    /// Puts in the RTP ports of the pairs that were leased for these legs, which are the demanded ones, in the order of leases.
    pub(crate) fn put_ports(&mut self, legs: &[(u8, Side, Family)], ports: &[u16])
        requires { length legs.now ≡ length ports.now }
        ensures last { self.new.last ≡ self.old.last }
        ensures next { (config : Config) (rounds : List Round) (ask : OfferAsk) (keys : List NewKey) → NextFor config rounds ask [] keys self.old →
            map leg_asked legs.now ≡ new_legs rounds ask → NextFor config rounds ask ports.now keys self.new }
        ensures shapes { (section : ℕ) → section < 8 →
            shape_in self.new.sections section ≡ shape_with_new (map leg_asked legs.now) ports.now [] section (shape_in self.old.sections section) }
    {
        let sections = sections_with_ports(&self.sections, legs, ports);
        self.sections = sections;
    }

    fn put_drawn(&mut self, places: &[(u8, Side, Suite)], first_key: u64, keys: &[KeyAndSalt])
        requires same { length places.now ≡ length keys.now }
        requires first { first_key ≤ 2 ^ 63 }
        ensures last { self.new.last ≡ self.old.last }
        ensures next { (config : Config) (rounds : List Round) (ask : OfferAsk) (ports : List ℕ) → NextFor config rounds ask ports [] self.old →
            NextFor config rounds ask ports (numbered_keys first_key keys.now (map key_asked places.now)) self.new }
        ensures shapes { (section : ℕ) → section < 8 → shape_in self.new.sections section
            ≡ shape_with_new [] [] (numbered_keys first_key keys.now (map key_asked places.now)) section (shape_in self.old.sections section) }
    {
        let sections = sections_with_keys(&self.sections, places, first_key, keys);
        self.sections = sections;
    }

    /// Puts in the lines that the other side is offered, once the keys have been put in.
    fn put_lines(&mut self)
        ensures same { SameOffer self.old.last self.new.last }
        ensures filled { (config : Config) (rounds : List Round) (ask : OfferAsk) (ports : List ℕ) (keys : List NewKey) →
            NextFor config rounds ask ports keys self.old → map key_place keys ≡ new_keys rounds ask → FilledFor config rounds ask ports keys self.new }
        ensures sections { self.new.sections ≡ self.old.sections }
    {
        let side = other_side(self.last.maker);
        let sections = sections_with_lines(&self.last.sections, side, &self.sections);
        self.last.sections = sections;
    }

    /// Puts in the keys that were drawn for these legs and suites, which are the demanded ones, in the order of draws, and the
    /// crypto lines that the other side is offered. The keys have the numbers from `first_key` on. The ports were put in before.
    pub(crate) fn put_keys(
        &mut self,
        places: &[(u8, Side, Suite)],
        first_key: u64,
        keys: &[KeyAndSalt],
    )
        requires same { length places.now ≡ length keys.now }
        requires first { first_key ≤ 2 ^ 63 }
        ensures same { SameOffer self.old.last self.new.last }
        ensures filled { (config : Config) (rounds : List Round) (ask : OfferAsk) (ports : List ℕ) → NextFor config rounds ask ports [] self.old →
            map key_asked places.now ≡ new_keys rounds ask →
            FilledFor config rounds ask ports (numbered_keys first_key keys.now (new_keys rounds ask)) self.new }
        ensures shapes { (section : ℕ) → section < 8 → shape_in self.new.sections section
            ≡ shape_with_new [] [] (numbered_keys first_key keys.now (map key_asked places.now)) section (shape_in self.old.sections section) }
    {
        self.put_drawn(places, first_key, keys);
        self.put_lines();
    }
}
