//! A state in a box, so that a turn moves one word whatever the state's size, and the slot that the box lies in.
//!
//! A state has spare bytes, so that at any address no two states share a cache line of 64 bytes. The slots of two rows of a column share one
//! (`layout`).
ghost use Rattle.std.specs.Prelude.{◌≡◌, ℕ, ◌*◌, ◌^◌, ◌<◌, ◌≤◌, [], ◌++◌, map, length, slice_index_or, slice_set, slice_get, IfOk, Some, None, Option, vec_len, vec_capacity};
ghost use Rattle.std.specs.Option.{option_to_list};
ghost use Rattle.std.specs.Slots.{slots_items, slots_len, IsFull};
ghost use mathlib.Core.Option.{some};
ghost use lib.ListN.{get_elem?};
ghost use Rattle.turn_table.specs.Layout.{spot_of};

use crate::layout;
use atomic_table::Closed;
use std::alloc::{AllocError, Global};
use std::marker::Model;
use std::mem;

/// A value with 64 spare bytes after it.
#[derive(Drop)]
pub struct Spaced<S> {
    pub(crate) value: S,
    spare: [u64; 8],
}

/// A boxed value that contracts see as the value itself.
#[derive(Drop)]
pub struct Cased<S> {
    pub(crate) inner: Box<Spaced<S>, Global>,
}

impl<S> Model for Cased<S> {
    ghost Value = { S };

    ghost view = { λ cased. cased.inner.value.value };
}

impl<S> Cased<S> {
    fn new(alloc: Global, value: S) -> Result<Cased<S>, AllocError>
    where
        S: Drop,
        ensures { IfOk result (λ cased. cased ≡ value) }
    {
        let spare = [0; 8];
        let inner = Box::new(alloc, Spaced { value, spare })?;
        Ok(Cased { inner })
    }

    pub(crate) fn get(&self) -> &S
        ensures { result.now ≡ self.now }
    {
        &self.inner.value
    }

    pub(crate) fn into_inner(self) -> S
        ensures { result ≡ self }
    {
        let Cased { inner } = self;
        let Spaced { value, spare: _ } = Box::into_inner(inner);
        value
    }
}

/// A slot of the table, 24 bytes long and 32 in the table, that contracts see as what lies in it: a value or none.
#[derive(Drop)]
pub struct Slot<S> {
    cased: Option<Cased<S>>,
    spare: [u64; 2],
}

impl<S> Model for Slot<S> {
    ghost Value = { Option S };

    ghost view = { λ slot. slot.cased };
}

impl<S> Slot<S> {
    /// A slot with this state in a box, or an empty one.
    fn new(alloc: Global, state: Option<S>) -> Result<Slot<S>, AllocError>
    where
        S: Drop,
        ensures { IfOk result (λ slot. slot ≡ state) }
    {
        let cased = match state {
            Some(value) => Some(Cased::new(alloc, value)?),
            None => None,
        };
        let spare = [0; 2];
        Ok(Slot { cased, spare })
    }

    /// Puts a box or nothing in, and gives what was there.
    pub(crate) fn swap(&mut self, new: Option<Cased<S>>) -> Option<Cased<S>>
        ensures { (result ≡ self.old) × (self.new ≡ new) }
    {
        mem::replace(&mut self.cased, new)
    }

    fn into_inner(self) -> Option<Cased<S>>
        ensures { result ≡ self }
    {
        let Slot { cased, spare: _ } = self;
        cased
    }
}

/// Sets the states aside by their places, and gives the memory of their vector back.
pub(crate) fn set_aside<S: Drop>(
    alloc: Global,
    states: Vec<S>,
) -> Result<Vec<Option<S>>, AllocError>
    ensures { IfOk result (λ v. v.items ≡ map (λ x. Some x) states.items) }
{
    let mut states = states;
    let mut aside = Vec::with_capacity(alloc, states.len())?;
    'moves: while !states.is_empty() {
        aside.push_reserved(Some(states.take_last()));
    }
    aside.reverse();
    Ok(aside)
}

/// What was set aside for a place, where there is such a place.
fn taken<S>(aside: &mut Vec<Option<S>>, place: usize) -> Option<S>
    ensures state { result ≡ slice_index_or aside.old.items place None }
    ensures others { aside.new.items ≡ slice_set aside.old.items place None }
{
    if place < aside.len() {
        mem::replace(&mut aside[place], None)
    } else {
        None
    }
}

/// Boxes the states in the order of their spots, so that the boxes of one column come from the allocator one after the
/// other. Spare slots are empty.
pub(crate) fn case_all<S: Drop>(
    alloc: Global,
    mut aside: Vec<Option<S>>,
    rows: usize,
) -> Result<Vec<Slot<S>>, AllocError>
    requires rows { rows ≤ 2 ^ 50 }
    ensures length { IfOk result (λ v. length v.items ≡ 960 * rows) }
    ensures cased { IfOk result (λ v. (k : ℕ) → k < 960 * rows → get_elem? v.items (spot_of rows k) ≡ some (slice_index_or aside.items k None)) }
{
    let spots = 960 * rows;
    let mut slots = Vec::with_capacity(alloc, spots)?;
    'boxes: for spot in 0..spots {
        let state = taken(&mut aside, layout::place(rows, spot));
        let slot = Slot::new(alloc, state)?;
        slots.push_reserved(slot);
    }
    Ok(slots)
}

/// Puts the state that lies in a slot, where there is one, behind the others.
fn uncase<S>(slot: Slot<S>, states: &mut Vec<S>)
    requires { (x : S) → slot ≡ Some x → vec_len states.old < vec_capacity states.old }
    ensures items { states.new.items ≡ states.old.items ++ option_to_list slot }
    ensures capacity { vec_capacity states.new ≡ vec_capacity states.old }
{
    if let Some(cased) = slot.into_inner() {
        states.push_reserved(cased.into_inner());
    }
}

/// Moves the states out of a table that is closed, in the order of their places, into an empty vector with room.
pub(crate) fn uncase_all<S>(
    mut closed: Closed<Slot<S>, Global>,
    places: usize,
    rows: usize,
    mut states: Vec<S>,
) -> Vec<S>
    requires full { IsFull closed.slots }
    requires rows { (places ≤ 960 * rows) × (rows ≤ 2 ^ 50) × (slots_len closed.slots ≡ 960 * rows) }
    requires home { (k : ℕ) → k < places → (x : S) × (get_elem? (slots_items closed.slots) (spot_of rows k) ≡ some (Some x)) }
    requires spare { (k : ℕ) → places ≤ k → k < 960 * rows → get_elem? (slots_items closed.slots) (spot_of rows k) ≡ some None }
    requires empty { states.items ≡ [] }
    requires room { places ≤ vec_capacity states }
    ensures length { vec_len result ≡ places }
    ensures states { (k : ℕ) (x : S) → k < places → get_elem? (slots_items closed.slots) (spot_of rows k) ≡ some (Some x) → slice_get result.items k ≡ Some x }
{
    'takes: for place in 0..closed.slot_count() {
        let slot = closed.take(layout::spot(rows, place));
        uncase(slot, &mut states);
    }
    closed.free();
    states
}
