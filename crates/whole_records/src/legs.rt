//! One leg of a cell.

ghost use Rattle.std.specs.Prelude.{◌≡◌, ◌↔◌, IsTrue, option_map, slice_index_or};
ghost use Rattle.port_pool.specs.Ports.{pair_port};
ghost use Rattle.offer_answer.specs.Shapes.{key_shape, leg_shape};
ghost use Rattle.call_cell.specs.Parts.{key_number_in};
ghost use Rattle.call_board.specs.Returns.{leg_lease};
ghost use Rattle.call_shapes.specs.Agreement.{key_of};
ghost use Rattle.whole_records.specs.SavedShapes.{saved_leg_shape};
ghost use Rattle.whole_records.specs.RecordParts.{IsLeased, LegsAreLeased, KeepsLeg};

use call_cell::{LegSaved, Outbound};
use offer_answer::{DrawnKey, Leg};
use port_pool::{Holder, Lease};
use relay_outside::{Config, Family};
use sdes_lines::Suite;
use sdp_text::MOST_SECTIONS;

/// The even port of a pair, of the range or not.
fn pair_port(config: &Config, pair: u32) -> u64
    ensures { result ≡ pair_port config.now pair }
{
    let first = u64::from(config.first_port());
    let per_family = config.range_pairs();
    if pair < per_family {
        first + 2 * u64::from(pair)
    } else {
        first + 2 * u64::from(pair - per_family)
    }
}

/// Whether two families are the same.
fn is_same(a: Family, b: Family) -> bool
    ensures { IsTrue result ↔ (a ≡ b) }
{
    match (a, b) {
        (Family::V4, Family::V4) | (Family::V6, Family::V6) => true,
        _ => false,
    }
}

/// Whether it is the lease by which the leg holds its pair.
fn is_lease(config: &Config, leg: &Holder, lease: &Lease) -> bool
    ensures { IsTrue result ↔ (lease.now ≡ leg_lease config.now leg.now) }
{
    if lease.pair() != leg.pair || lease.generation() != leg.generation {
        return false;
    }
    if u64::from(lease.rtp_port()) != pair_port(config, leg.pair) {
        return false;
    }
    is_same(lease.family(), config.pair_family(leg.pair))
}

/// The generation of the last lease of a pair, 0 where there is none.
fn generation_of(generations: &[u64], pair: u32) -> u64
    ensures { result ≡ slice_index_or generations.now pair 0 }
{
    let pair = pair as usize;
    if pair < generations.len() {
        generations[pair]
    } else {
        0
    }
}

/// Whether the leg is one of this cell and call, with a pair of the range, its lease and the generation of that pair.
fn is_leased(config: &Config, generations: &[u64], cell: u32, call: u64, leg: &LegSaved) -> bool
    ensures { IsTrue result ↔ IsLeased config.now generations.now cell call (saved_leg_shape leg.now) }
{
    let holder = leg.holder;
    if holder.cell != cell || holder.call != call {
        return false;
    }
    if holder.section >= MOST_SECTIONS as u8 || holder.pair >= config.pairs() {
        return false;
    }
    if generation_of(generations, holder.pair) != holder.generation {
        return false;
    }
    is_lease(config, &holder, &leg.lease)
}

/// Whether all legs are.
pub(crate) fn are_leased(
    config: &Config,
    generations: &[u64],
    cell: u32,
    call: u64,
    legs: &[LegSaved],
) -> bool
    ensures { IsTrue result ↔ LegsAreLeased config.now generations.now cell call legs.now }
{
    for leg in legs {
        if !is_leased(config, generations, cell, call, leg) {
            return false;
        }
    }
    true
}

/// Whether the dialog's key for a suite is the leg's, by number and suite, or both have none.
fn is_key(kept: &Option<DrawnKey>, held: &Option<Outbound>, suite: Suite) -> bool
    ensures { IsTrue result ↔ (option_map key_shape kept.now ≡ key_of suite (key_number_in held.now)) }
{
    match (kept, held) {
        (None, None) => true,
        (Some(key), Some(contexts)) => key.number == contexts.number && key.suite == suite,
        _ => false,
    }
}

/// Whether what the dialog keeps of a leg, and whether the section is committed, is what the cell keeps of it.
pub(crate) fn keeps_leg(config: &Config, kept: &Leg, committed: bool, leg: &LegSaved) -> bool
    ensures { IsTrue result ↔ KeepsLeg config.now (leg_shape kept.now) committed (saved_leg_shape leg.now) }
{
    if u64::from(kept.port) != pair_port(config, leg.holder.pair) {
        return false;
    }
    if !is_key(&kept.long_key, &leg.tag80, Suite::Tag80) {
        return false;
    }
    if !is_key(&kept.short_key, &leg.tag32, Suite::Tag32) {
        return false;
    }
    leg.signal.is_some() == committed
}
