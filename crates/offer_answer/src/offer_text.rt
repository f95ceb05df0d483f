//! What an offer writes to the other side.

ghost use Rattle.std.specs.Prelude.{◌≡◌, ◌+◌, ◌<◌, ◌≤◌, ◌^◌, ◌++◌, ◌∷◌, [], ℕ, List, Some, None, length, option_map, replicate, slice_index_or, IfOk, if◌then◌else◌};
ghost use Rattle.relay_outside.specs.declared.settings.Config.{Config};
ghost use Rattle.sdp_text.specs.Lines.{lines_of};
ghost use Rattle.sdp_edit.specs.EditedText.{KeysHaveTags, HaveTags};
ghost use Rattle.sdp_edit.specs.Widths.{IsHostWithin, IsLineWithin, AreLinesWithin, IsSectionWithin, AreSectionsWithin};
ghost use Rattle.port_pool.specs.Signals.{NewKey};
ghost use Rattle.offer_answer.specs.Rounds.{Round, OfferAsk};
ghost use Rattle.offer_answer.specs.Keys.{no_lines};
ghost use Rattle.offer_answer.specs.Texts.{host_of_ip, interface_host, written_host, session_host};
ghost use Rattle.offer_answer.specs.Plan.{offer_text};
ghost use Rattle.offer_answer.specs.PortsAndKeys.{FilledFor};
ghost use Rattle.offer_answer.specs.Edits.{IsEditReserved, under_tag, tagged_lines, has_lines, made_at, port_written, family_written, section_written, sections_written, longest_host, any_line, widest_at, widest_sections, widest_len};

use crate::last_offer::{LastOffer, MadeSection, OfferedNext};
use crate::mux::mux_on;
use crate::offered_section::{is_active, is_srtp, other_side};
use ng_command::Options;
use relay_outside::{Config, Family, Ip, OutOfMemory};
use sdes_lines::{CryptoLine, Suite};
use sdp_edit::{Edit, SectionEdit, SectionEdits, edit_into, edit_len};
use sdp_text::{Bytes, Host, Sdp, host_text};
use std::alloc::Global;

/// The address as it stands in descriptions.
pub(crate) fn host_of_ip(interface: Ip) -> Host
    ensures { result ≡ host_of_ip interface }
{
    match interface {
        Ip::V4(bytes) => Host::V4(bytes),
        Ip::V6(bytes) => Host::V6(bytes),
    }
}

/// The address that is written with a port, where its leg is of this family.
pub(crate) fn written_host(config: &Config, port: u16, family: Option<Family>) -> Host
    ensures host { result ≡ written_host config.now port family }
    ensures within { IsHostWithin result (longest_host config.now) }
{
    if port == 0 {
        host_of_ip(config.interface)
    } else {
        host_of_ip(config.interface_of(family.unwrap_or(Family::V4)))
    }
}

/// The address that is written before the first section: that of the first one with a port other than 0.
pub(crate) fn session_host(config: &Config, sections: &[SectionEdit]) -> Host
    ensures { result ≡ session_host config.now sections.now }
{
    for index in 0..sections.len() {
        if sections[index].port != 0 {
            return sections[index].address;
        }
    }
    host_of_ip(config.interface)
}

/// An edit without sections, with capacity for this many.
pub(crate) fn reserved_edit(
    alloc: Global,
    address: Host,
    options: &Options,
    count: usize,
) -> Result<Edit, OutOfMemory>
    ensures { IfOk result (λ edit. IsEditReserved address options.now count edit) }
{
    let mut sections = SectionEdits::new(alloc);
    if sections.reserve(count).is_err() {
        return Err(OutOfMemory);
    }
    Ok(Edit {
        address,
        replace_origin: options.replace_origin,
        replace_session: options.replace_session,
        sections,
    })
}

fn tagged(line: Option<CryptoLine>, tag: u32) -> Option<CryptoLine>
    ensures line { result ≡ option_map (under_tag tag) line }
    ensures within { IsLineWithin result (Some (any_line tag)) }
{
    let line = line?;
    let key = line.key;
    Some(CryptoLine {
        tag,
        suite: line.suite,
        key,
    })
}

/// Whether crypto lines are written in the section.
fn has_lines(made: &MadeSection) -> bool
    ensures { result ≡ has_lines made.now }
{
    is_active(&made.section) && is_srtp(made.written)
}

fn offered_lines(made: &MadeSection) -> [Option<CryptoLine>; 2]
    ensures lines { result ≡ (if has_lines made.now then tagged_lines made.now.lines else no_lines) }
    ensures within { AreLinesWithin result (if has_lines made.now then Some (any_line 1) ∷ Some (any_line 2) ∷ [] else no_lines) }
    ensures tags { KeysHaveTags result }
{
    if has_lines(made) {
        [tagged(made.lines[0], 1), tagged(made.lines[1], 2)]
    } else {
        [None, None]
    }
}

/// A section of the last offer, by its number from 0.
pub(crate) fn made_at(last: &LastOffer, section: usize) -> MadeSection
    requires { section < 8 }
    ensures { result ≡ made_at last.now section }
{
    last.sections[section]
}

/// The port of the other side's leg, where the section is active.
fn offered_port(next: &OfferedNext, section: usize) -> u16
    requires { section < 8 }
    ensures { result ≡ port_written next.now section }
{
    if is_active(&made_at(&next.last, section).section) {
        next.sections[section].leg(other_side(next.last.maker)).port
    } else {
        0
    }
}

/// The family of the other side's leg.
fn offered_family(next: &OfferedNext, section: usize) -> Option<Family>
    requires { section < 8 }
    ensures { result ≡ family_written next.now section }
{
    next.sections[section]
        .leg(other_side(next.last.maker))
        .family
}

fn offered_edit(config: &Config, next: &OfferedNext, section: usize) -> SectionEdit
    requires { section < 8 }
    ensures edit { result ≡ section_written config.now next.now section }
    ensures within { IsSectionWithin result (widest_at (longest_host config.now) next.now.last section) }
    ensures tags { KeysHaveTags result.crypto }
{
    let made = made_at(&next.last, section);
    let port = offered_port(next, section);
    SectionEdit {
        port,
        proto: made.written,
        address: written_host(config, port, offered_family(next, section)),
        mux: mux_on(&next.last.options, &made.section),
        crypto: offered_lines(&made),
    }
}

/// Adds what is written of each section of the offer.
fn push_offered(sections: &mut SectionEdits, config: &Config, next: &OfferedNext)
    requires few { next.now.last.count ≤ 8 }
    requires room { next.now.last.count ≤ sections.old.spare }
    ensures sections { sections.new.list ≡ sections.old.list ++ sections_written config.now next.now }
    ensures within { AreSectionsWithin (sections_written config.now next.now) (widest_sections (longest_host config.now) next.now.last) }
    ensures tags { HaveTags (sections_written config.now next.now) }
{
    for index in 0..next.last.count {
        sections.push(offered_edit(config, next, index));
    }
}

/// Writes the offer after what `out` holds, once its ports and keys are in. The edit is a reserved one.
pub(crate) fn write_offer(
    next: &OfferedNext,
    config: &Config,
    edit: &mut Edit,
    sdp: &Sdp,
    out: &mut Bytes,
)
    requires few { next.now.last.count ≤ 8 }
    requires reserved { IsEditReserved (interface_host config.now) next.now.last.options next.now.last.count edit.old }
    requires room { widest_len config.now next.now.last sdp.now ≤ out.old.spare }
    ensures text { (rounds : List Round) (ask : OfferAsk) (ports : List ℕ) (keys : List NewKey) →
        FilledFor config.now rounds ask ports keys next.now → lines_of ask.sdp ≡ sdp.now →
        out.new.list ≡ out.old.list ++ offer_text config.now rounds ask ports keys }
    ensures within { length out.new.list ≤ length out.old.list + widest_len config.now next.now.last sdp.now }
    ensures spare { length out.old.list + out.old.spare ≤ length out.new.list + out.new.spare }
{
    push_offered(&mut edit.sections, config, next);
    edit.address = session_host(config, edit.sections.as_slice());
    edit_into(sdp, edit, out);
}

/// The line that is as long as any with this tag.
fn any_line(tag: u32) -> CryptoLine
    ensures { result ≡ any_line tag }
{
    CryptoLine {
        tag,
        suite: Suite::Tag80,
        key: [0; 30],
    }
}

fn widest_lines(made: &MadeSection) -> [Option<CryptoLine>; 2]
    ensures lines { result ≡ (if has_lines made.now then Some (any_line 1) ∷ Some (any_line 2) ∷ [] else no_lines) }
    ensures tags { KeysHaveTags result }
{
    if has_lines(made) {
        [Some(any_line(1)), Some(any_line(2))]
    } else {
        [None, None]
    }
}

/// The address of an interface with the longest text.
fn longest_host(config: &Config) -> Host
    ensures { result ≡ longest_host config.now }
{
    let first = host_of_ip(config.interface);
    let second = host_of_ip(config.interface_of(Family::V6));
    if host_text(&first).as_slice().len() <= host_text(&second).as_slice().len() {
        second
    } else {
        first
    }
}

fn widest_at(host: Host, last: &LastOffer, section: usize) -> SectionEdit
    requires { section < 8 }
    ensures edit { result ≡ widest_at host last.now section }
    ensures tags { KeysHaveTags result.crypto }
{
    let made = made_at(last, section);
    SectionEdit {
        port: u16::MAX,
        proto: made.written,
        address: host,
        mux: mux_on(&last.options, &made.section),
        crypto: widest_lines(&made),
    }
}

fn push_widest(sections: &mut SectionEdits, host: Host, last: &LastOffer)
    requires few { last.now.count ≤ 8 }
    requires room { last.now.count ≤ sections.old.spare }
    ensures sections { sections.new.list ≡ sections.old.list ++ widest_sections host last.now }
    ensures tags { HaveTags (widest_sections host last.now) }
{
    for index in 0..last.count {
        sections.push(widest_at(host, last, index));
    }
}

/// How long the text of an offer can be, by its sections and the profiles that they are written with: whatever ports are leased
/// and keys are drawn, and at whichever interface the ports are.
pub(crate) fn widest_len(
    alloc: Global,
    config: &Config,
    last: &LastOffer,
    sdp: &Sdp,
) -> Result<usize, OutOfMemory>
    requires { last.now.count ≤ 8 }
    ensures len { IfOk result (λ len. len ≡ widest_len config.now last.now sdp.now) }
    ensures small { IfOk result (λ len. len < 2 ^ 40) }
{
    let host = longest_host(config);
    let mut edit = reserved_edit(alloc, host, &last.options, last.count)?;
    push_widest(&mut edit.sections, host, last);
    Ok(edit_len(sdp, &edit))
}
