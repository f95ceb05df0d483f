ghost use Rattle.std.specs.Prelude.{◌≡◌, ◌<◌, ◌≤◌, ◌+◌, ◌++◌, false, slice_index_or, drop, length, vec_len};
ghost use Rattle.call_cell.specs.declared.leg.Leg.{Leg};
ghost use Rattle.call_cell.specs.DroppedLegs.{staying, going, Part, StayWhole};

use crate::gone::Gone;
use crate::leg::Leg;
use sdp_text::MOST_SECTIONS;

/// Whether the section has a flag.
fn goes(flags: &[bool; MOST_SECTIONS], section: u8) -> bool
    ensures { result ≡ slice_index_or flags.now section false }
{
    let section = section as usize;
    section < MOST_SECTIONS && flags[section]
}

/// Moves the first leg: to `gone` where its section has a flag and one more leg has room, and else after the others.
fn part_first<O>(legs: &mut Vec<Leg<O>>, flags: &[bool; MOST_SECTIONS], gone: &mut Gone<O>)
    requires some { 0 < vec_len legs.old }
    ensures count { vec_len legs.old ≤ vec_len legs.new + 1 }
    ensures stay { (d : Leg O) → length gone.old < 16 → legs.new.items ≡ drop 1 legs.old.items ++ staying flags.now (slice_index_or legs.old.items 0 d) }
    ensures went { (d : Leg O) → length gone.old < 16 → gone.new ≡ gone.old ++ going flags.now (slice_index_or legs.old.items 0 d) }
    ensures whole { StayWhole legs.old.items legs.new.items gone.old gone.new }
{
    let leg = legs.remove(0);
    if goes(flags, leg.holder.section) && gone.has_room() {
        gone.put(leg);
    } else {
        legs.push_reserved(leg);
    }
}

/// Moves the legs of the sections that have a flag to `gone`, in their order, where there is room for all.
pub(crate) fn part<O>(legs: &mut Vec<Leg<O>>, flags: &[bool; MOST_SECTIONS], gone: &mut Gone<O>)
    ensures parts { Part flags.now legs.old.items legs.new.items gone.old gone.new }
    ensures whole { StayWhole legs.old.items legs.new.items gone.old gone.new }
{
    for _ in 0..legs.len() {
        part_first(legs, flags, gone);
    }
}
