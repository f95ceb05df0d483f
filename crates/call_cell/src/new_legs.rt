ghost use Rattle.std.specs.Prelude.{◌≡◌, ◌<◌, ◌≤◌, ◌+◌, ◌++◌, ◌&&◌, ◌==◌, [], ◌∷◌, IfSome, length, map, position, vec_len, vec_capacity};
ghost use Rattle.call_cell.specs.declared.leg.Leg.{Leg};
ghost use Rattle.port_pool.specs.Signals.{side_eq};
ghost use Rattle.call_cell.specs.LegHistories.{AreApart};
ghost use Rattle.call_cell.specs.Preparations.{is_key_at, put_if, with_keys};
ghost use Rattle.call_cell.specs.Shapes.{counts_of_legs, ends_of_legs, cell_leg_shapes, leg_forms, with_prepared};

use crate::leg::Leg;
use crate::prepare::PreparedKey;
use port_pool::{Holder, Side};
use std::mem;

/// Adds the new legs after those that are there, all in the places prepared for them.
pub(crate) fn join<O>(legs: &mut Vec<Leg<O>>, new: Vec<Leg<O>>, places: Vec<Leg<O>>)
    requires none { vec_len places ≡ 0 }
    requires room { vec_len legs.old + vec_len new ≤ vec_capacity places }
    ensures { legs.new.items ≡ legs.old.items ++ new.items }
{
    let mut new = new;
    let mut places = places;
    let _ = places.append(legs);
    let _ = places.append(&mut new);
    let old = mem::replace(legs, places);
    old.destroy_empty();
    new.destroy_empty();
}

/// Whether the leg stands on this side of this section.
fn is_on(leg: &Holder, section: u8, side: Side) -> bool
    ensures { result ≡ (section == leg.now.section) && side_eq side leg.now.side }
{
    section == leg.section && side == leg.side
}

/// The place of the leg that a key is for.
fn place_for<O>(legs: &[Leg<O>], key: &PreparedKey) -> Option<usize>
    ensures place { result ≡ position (λ leg. is_key_at key.now leg) legs.now }
    ensures within { IfSome result (λ at. at < length legs.now) }
{
    legs.iter()
        .position(|leg| is_on(&leg.holder, key.section, key.side))
}

/// Gives the contexts of a key to the leg that it is for.
/// A key for which the cell has no leg is dropped.
fn put_key<O>(legs: &mut [Leg<O>], key: PreparedKey)
    ensures legs { AreApart legs.old → legs.new ≡ map (λ leg. put_if key leg) legs.old }
    ensures shape { cell_leg_shapes legs.new ≡ with_prepared (key ∷ []) (cell_leg_shapes legs.old) }
    ensures ends { ends_of_legs legs.new ≡ ends_of_legs legs.old }
    ensures counts { counts_of_legs legs.new ≡ counts_of_legs legs.old }
    ensures forms { leg_forms legs.new ≡ leg_forms legs.old }
{
    if let Some(at) = place_for(legs, &key) {
        legs[at].put(key.suite, key.contexts);
    }
}

/// Gives the contexts of the keys to the legs that they are for.
pub(crate) fn put_keys<O>(legs: &mut [Leg<O>], keys: Vec<PreparedKey>)
    ensures legs { AreApart legs.old → legs.new ≡ map (λ leg. with_keys keys.items leg) legs.old }
    ensures shape { cell_leg_shapes legs.new ≡ with_prepared keys.items (cell_leg_shapes legs.old) }
    ensures ends { ends_of_legs legs.new ≡ ends_of_legs legs.old }
    ensures counts { counts_of_legs legs.new ≡ counts_of_legs legs.old }
    ensures forms { leg_forms legs.new ≡ leg_forms legs.old }
{
    let mut keys = keys;
    while let Some(key) = keys.pop() {
        put_key(legs, key);
    }
}
