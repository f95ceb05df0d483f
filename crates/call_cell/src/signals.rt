ghost use Rattle.std.specs.Prelude.{◌≡◌, Some};
ghost use Rattle.relay_outside.specs.declared.address.Addr.{Addr};
ghost use Rattle.port_pool.specs.Signals.{key_eq, is_rejected};
ghost use Rattle.port_pool.specs.Signals as signals;
ghost use Rattle.call_cell.specs.Cells.{differs};
ghost use Rattle.call_cell.specs.Lessons.{address};
ghost use Rattle.call_cell.specs.Protection.{same_inbound};
ghost use Rattle.call_cell.specs.Commits.{said_of};
ghost use Rattle.call_cell.specs.DroppedLegs.{FlagsAre};

use port_pool::{Holder, LegSignal, SectionSignal, Side, Signal};
use relay_outside::{Addr, KeyAndSalt};
use rtp_packet::Half;
use sdes_lines::Suite;
use sdp_text::MOST_SECTIONS;

/// The address of a half that a commit names.
pub(crate) fn address(signal: &LegSignal, half: Half) -> Addr
    ensures { result ≡ address half signal.now }
{
    match half {
        Half::Rtp => signal.rtp,
        Half::Rtcp => signal.rtcp,
    }
}

/// Whether both are the same key and suite.
fn is_same_pair(one: &(KeyAndSalt, Suite), other: &(KeyAndSalt, Suite)) -> bool
    ensures { result ≡ key_eq (Some one.now) (Some other.now) }
{
    let key = one.0;
    let other_key = other.0;
    key == other_key && one.1 == other.1
}

/// Whether both are the same key and suite, or there is none in both.
fn is_same_key(key: &Option<(KeyAndSalt, Suite)>, other: &Option<(KeyAndSalt, Suite)>) -> bool
    ensures { result ≡ key_eq key.now other.now }
{
    match key {
        None => other.is_none(),
        Some(key) => match other {
            None => false,
            Some(other) => is_same_pair(key, other),
        },
    }
}

/// Whether a commit names another inbound key or suite than was in force, or is the leg's first.
pub(crate) fn is_new_key(earlier: &Option<LegSignal>, signal: &LegSignal) -> bool
    ensures { result ≡ differs same_inbound (Some signal.now) earlier.now }
{
    match earlier {
        None => true,
        Some(earlier) => !is_same_key(&earlier.inbound, &signal.inbound),
    }
}

/// What a section's signal commits for a side.
fn side_of(signal: SectionSignal, side: Side) -> Option<LegSignal>
    ensures { result ≡ signals.side_of side signal }
{
    match signal {
        SectionSignal::Reject => None,
        SectionSignal::Commit(a, b) => match side {
            Side::A => Some(a),
            Side::B => Some(b),
        },
    }
}

/// What the signal commits for the leg.
pub(crate) fn said_of(signal: &Signal, leg: &Holder) -> Option<LegSignal>
    ensures { result ≡ said_of signal.now leg.now }
{
    let section = leg.section as usize;
    if section < signal.len() {
        side_of(signal.section(section), leg.side)
    } else {
        None
    }
}

/// Whether the signal rejects the section.
fn is_rejected(signal: &Signal, section: usize) -> bool
    ensures { result ≡ is_rejected signal.now section }
{
    section < signal.len() && matches!(signal.section(section), SectionSignal::Reject)
}

/// Which of 8 sections the signal rejects.
/// A signal with fewer sections than the cell takes no others away.
pub(crate) fn rejected(signal: &Signal) -> [bool; MOST_SECTIONS]
    ensures { FlagsAre result (is_rejected signal.now) }
{
    let mut flags = [false; MOST_SECTIONS];
    for section in 0..MOST_SECTIONS {
        flags[section] = is_rejected(signal, section);
    }
    flags
}
