//! What an answer commits.

ghost use Rattle.std.specs.Prelude.{◌≡◌, ◌<◌, ℕ, List, IfOk, option_map, length, slice_index_or};
ghost use Rattle.relay_outside.specs.declared.settings.Config.{Config};
ghost use Rattle.port_pool.specs.Signals.{NewKey};
ghost use Rattle.offer_answer.specs.Rounds.{Round, AnswerAsk};
ghost use Rattle.offer_answer.specs.Sides.{MadeOffer};
ghost use Rattle.offer_answer.specs.Signals.{ip_of, signalled, line_key, leg_signal, side_signal, section_signal};
ghost use Rattle.offer_answer.specs.Plan.{signal};
ghost use Rattle.offer_answer.specs.Dialogs.{DialogFor, drawn_for_leg};
ghost use Rattle.sdp_text.specs.Descriptions.{sections_in};
ghost use Rattle.port_pool.specs.declared.signal.SectionSignal.{SectionSignal};
ghost use Rattle.offer_answer.specs.Shapes.{shape_of};
ghost use Rattle.offer_answer.specs.AnswerShapes.{refuses_section, SignalsLeg, SignalShape};
ghost use Rattle.offer_answer.specs.Answers.{IsLast, ReadsAnswer, AnsweredAt};

use crate::answered_section::{AnsweredSection, answered_section, is_same};
use crate::dialog::Dialog;
use crate::last_offer::LastOffer;
use crate::leg::DrawnKey;
use crate::mux::{mux_back, mux_taken};
use crate::rejected_sections::is_rejected;
use ng_command::Options;
use port_pool::{LegSignal, SectionSignal, Side, Signal};
use relay_outside::{Addr, Ip, KeyAndSalt, OutOfMemory};
use sdes_lines::{CryptoLine, Suite};
use sdp_text::{Host, Sdp, Section};
use std::alloc::Global;

fn ip_of(host: Host) -> Ip
    ensures { result ≡ ip_of host }
{
    match host {
        Host::V4(bytes) => Ip::V4(bytes),
        Host::V6(bytes) => Ip::V6(bytes),
    }
}

/// The address that is signalled: that of `received from` where it is in effect, else the description's.
pub(crate) fn signalled(source: Option<Ip>, host: Option<Host>) -> Ip
    ensures { result ≡ signalled source host }
{
    match (source, host) {
        (Some(source), _) => source,
        (None, Some(host)) => ip_of(host),
        (None, None) => Ip::V4([0, 0, 0, 0]),
    }
}

fn key_of(line: Option<CryptoLine>) -> Option<(KeyAndSalt, Suite)>
    ensures { result ≡ option_map line_key line }
{
    match line {
        Some(line) => {
            let key = line.key;
            Some((key, line.suite))
        }
        None => None,
    }
}

fn number_of(key: Option<DrawnKey>) -> Option<u64>
    ensures { (section : ℕ) (side : Side) → result ≡ option_map (λ (k : NewKey). k.number) (option_map (drawn_for_leg section side) key) }
{
    match key {
        Some(key) => Some(key.number),
        None => None,
    }
}

/// What a leg is committed with, by its side's section in a description with these options, the crypto line that the side
/// chose, the key under which packets are sent to it, and whether it is muxed.
fn leg_signal(
    section: &Section,
    options: &Options,
    line: Option<CryptoLine>,
    key: Option<DrawnKey>,
    mux: bool,
) -> LegSignal
    ensures { (number : ℕ) (side : Side) → result ≡ leg_signal section.now options.now line (option_map (drawn_for_leg number side) key) mux }
{
    LegSignal {
        rtp: Addr {
            ip: signalled(options.source, section.address),
            port: section.port,
        },
        rtcp: Addr {
            ip: signalled(options.source, section.rtcp_address),
            port: section.rtcp_port,
        },
        flags: options.flags,
        hold: section.hold,
        mux,
        inbound: key_of(line),
        outbound: number_of(key),
    }
}

/// What a side's leg is committed with: the offerer's by the offer, the other one by the answer.
fn side_signal(
    answered: &AnsweredSection,
    last: &LastOffer,
    options: &Options,
    side: Side,
) -> LegSignal
    ensures keys { SignalsLeg answered.now last.now.maker side result }
    ensures signal { (config : Config) (rounds : List Round) (offer : MadeOffer) (ask : AnswerAsk) (section : ℕ) →
        AnsweredAt config rounds offer ask section answered.now → IsLast rounds offer last.now → ask.options ≡ options.now →
        result ≡ side_signal rounds offer ask section side }
{
    let line = answered.committed_line(last.maker, side);
    let key = answered.committed_key(last.maker, side);
    let offered = &answered.made.section;
    if is_same(side, last.maker) {
        let mux = mux_back(&last.options, offered, &answered.section);
        leg_signal(offered, &last.options, line, key, mux)
    } else {
        let mux = mux_taken(&last.options, offered, &answered.section);
        leg_signal(&answered.section, options, line, key, mux)
    }
}

fn section_signal(
    dialog: &Dialog,
    last: &LastOffer,
    options: &Options,
    sdp: &Sdp,
    section: usize,
) -> SectionSignal
    requires { section < 8 }
    ensures shape { SignalShape (refuses_section last.now sdp.now section (shape_of dialog.now section)) dialog.now last.now sdp.now section result }
    ensures signal { (config : Config) (rounds : List Round) (offer : MadeOffer) (ask : AnswerAsk) → DialogFor config dialog.now rounds →
        IsLast rounds offer last.now → ReadsAnswer sdp.now rounds ask → ask.options ≡ options.now →
        result ≡ section_signal rounds offer ask section }
{
    if is_rejected(dialog, last, sdp, section) {
        return SectionSignal::Reject;
    }
    let answered = answered_section(dialog, last, sdp, section);
    let a = side_signal(&answered, last, options, Side::A);
    let b = side_signal(&answered, last, options, Side::B);
    SectionSignal::Commit(a, b)
}

/// What an answer with these options commits, section by section.
pub(crate) fn answer_signal(
    alloc: Global,
    dialog: &Dialog,
    last: &LastOffer,
    options: &Options,
    sdp: &Sdp,
) -> Result<Signal, OutOfMemory>
    ensures count { IfOk result (λ committed. length committed ≡ length (sections_in sdp.now)) }
    ensures shapes { IfOk result (λ committed. (section : ℕ) (none : SectionSignal) → section < length committed →
        SignalShape (refuses_section last.now sdp.now section (shape_of dialog.now section)) dialog.now last.now sdp.now section (slice_index_or committed section none)) }
    ensures signal { (config : Config) (rounds : List Round) (offer : MadeOffer) (ask : AnswerAsk) → DialogFor config dialog.now rounds →
        IsLast rounds offer last.now → ReadsAnswer sdp.now rounds ask → ask.options ≡ options.now →
        IfOk result (λ committed. committed ≡ signal rounds ask) }
{
    let mut signal = Signal::new(alloc)?;
    for index in 0..sdp.section_count() {
        signal.push(section_signal(dialog, last, options, sdp, index));
    }
    Ok(signal)
}
