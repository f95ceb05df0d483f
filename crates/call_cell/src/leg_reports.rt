ghost use Rattle.std.specs.Prelude.{◌≡◌, ◌<◌, ◌++◌, [], IfSome, length, position};
ghost use Rattle.std.specs.Option.{option_to_list};
ghost use Rattle.call_cell.specs.Demands.{stands_at};
ghost use Rattle.call_cell.specs.LegReports.{told_at, leg_reports};

use crate::leg::Leg;
use port_pool::{Holder, LegReports, Side};
use sdp_text::MOST_SECTIONS;

/// Whether the leg stands on this side of this section.
fn stands_at(leg: &Holder, section: u8, side: Side) -> bool
    ensures { result ≡ stands_at section side leg.now }
{
    leg.section == section && leg.side == side
}

/// The place of the leg on a side of a section.
fn place_at<O>(legs: &[Leg<O>], section: u8, side: Side) -> Option<usize>
    ensures place { result ≡ position (λ leg. stands_at section side leg.holder) legs.now }
    ensures within { IfSome result (λ at. at < length legs.now) }
{
    legs.iter()
        .position(|leg| stands_at(&leg.holder, section, side))
}

/// Tells of the leg on a side of a section, where there is one and it is committed.
fn tell_leg<O>(legs: &[Leg<O>], section: u8, side: Side, out: &mut LegReports)
    requires room { length out.old < 16 }
    ensures { out.new ≡ out.old ++ option_to_list (told_at legs.now section side) }
{
    let Some(at) = place_at(legs, section, side) else {
        return;
    };
    if let Some(report) = legs[at].report() {
        out.push(report);
    }
}

/// Tells of all committed legs, by section and then side A first.
pub(crate) fn tell_legs<O>(legs: &[Leg<O>], out: &mut LegReports)
    requires none { out.old ≡ [] }
    ensures { out.new ≡ leg_reports legs.now }
{
    for section in 0..MOST_SECTIONS as u8 {
        tell_leg(legs, section, Side::A, out);
        tell_leg(legs, section, Side::B, out);
    }
}
