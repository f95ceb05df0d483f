//! The live calls of a board.

ghost use Rattle.std.specs.Prelude.{◌≡◌, ◌<◌, ◌==◌, ◌++◌, [], ◌∷◌, false, if◌then◌else◌, length, position, remove, slice_index_or, IfSome, OnOk};
ghost use Rattle.std.specs.List.{list_any};
ghost use Rattle.std.specs.Str.{bytes_eq};

use crate::live_call::LiveCall;
use crate::saved_board::{CallSaved, saved_calls};
use indexmap::IndexMap;
use offer_answer::{Dialog, Plan};
use relay_outside::OutOfMemory;
use std::alloc::Global;
use std::marker::Model;

/// The live calls of a board, in order of creation, each under the bytes of its call-id.
///
/// Contracts see them as a list, and for how many more calls there is room, `spare`.
///
/// Each call has its call-id beside its key, so that what is said of a call is said of one value: that both are the same bytes is an
/// invariant, and that the numbers rise. As in `CookieCache`, call-ids that were picked to collide make a look-up linear in the
/// calls, at most 2,048.
#[derive(Drop)]
pub(crate) struct LiveCalls {
    calls: IndexMap<Vec<u8>, LiveCall>,
}

impl Model for LiveCalls {
    ghost use Rattle.indexmap.specs.IndexMap.{spare, values};
    ghost use Rattle.ng_bencode.specs.Room.{Room};
    ghost use Rattle.call_board.specs.declared.live_call.LiveCall.{LiveCall};
    ghost use Rattle.call_board.specs.CallIds.{AreUnderTheirIds};

    ghost Value = { Room LiveCall };

    ghost view = { λ calls. record { list = values calls.calls; spare = spare calls.calls } };

    ghost invariant = { λ calls. AreUnderTheirIds calls.calls.entries };
}

impl LiveCalls {
    ghost use Rattle.std.specs.Prelude.{map};
    ghost use Rattle.indexmap.specs.IndexMap.{keys, values};
    ghost use Rattle.call_board.specs.NextBoards.{CallGoesOn, CallEnds};
    ghost use Rattle.call_board.specs.CallNumbers.{NumbersRise};
    ghost use Rattle.std.specs.Prelude.{IfOk};
    ghost use Rattle.call_board.specs.SavedBoards.{CallsSave, GainsSaved};

    /// No calls.
    pub fn new(alloc: Global) -> LiveCalls
        ensures { result.list ≡ [] }
    {
        LiveCalls {
            calls: IndexMap::new(alloc),
        }
    }

    /// How many calls there are.
    pub fn len(&self) -> usize
        ensures { result ≡ length self.now.list }
    {
        self.calls.len()
    }

    /// The calls, each under the bytes of its call-id, in order of creation.
    pub fn by_id(&self) -> &IndexMap<Vec<u8>, LiveCall>
        ensures keys { map (λ key. key.items) (keys result.now) ≡ map (λ call. call.id.list) self.now.list }
        ensures calls { values result.now ≡ self.now.list }
    {
        &self.calls
    }

    /// The place of the call with this call-id, from 0.
    pub fn place_of_id(&self, id: &[u8]) -> Option<usize>
        ensures place { result ≡ position (λ call. bytes_eq call.id.list id.now) self.now.list }
        ensures within { IfSome result (λ at. at < length self.now.list) }
    {
        self.calls.get_index_of(id)
    }

    /// The place of the call with this number, from 0, where their numbers rise.
    pub fn place_of(&self, number: u64) -> Option<usize>
        requires { NumbersRise self.now.list }
        ensures place { result ≡ position (λ call. call.number == number) self.now.list }
        ensures within { IfSome result (λ at. at < length self.now.list) }
    {
        let calls = self.calls.values().as_slice();
        match calls.binary_search_by_key(&number, |call| call.number) {
            Ok(place) => Some(place),
            Err(_) => None,
        }
    }

    /// The call in a place, from 0.
    pub fn at(&self, place: usize) -> &LiveCall
        requires { place < length self.now.list }
        ensures { result.now ≡ slice_index_or self.now.list place result.now }
    {
        &self.calls[place]
    }

    /// Takes in one more offer or answer of the call in a place, from 0, at the moment `now`.
    pub fn go_on(&mut self, place: usize, plan: Plan, now: u64)
        requires { place < length self.old.list }
        ensures { CallGoesOn self.old.list self.new.list place plan now }
    {
        self.calls[place].go_on(plan, now);
    }

    /// Has the call in a place, from 0, end at the moment `due`, or earlier if that is due.
    pub fn mark_ending(&mut self, place: usize, due: u64)
        requires { place < length self.old.list }
        ensures { CallEnds self.old.list self.new.list place due }
    {
        self.calls[place].mark_ending(due);
    }

    /// Makes room for one more call. The calls stay, also when it fails.
    pub fn reserve(&mut self) -> Result<(), OutOfMemory>
        ensures list { self.new.list ≡ self.old.list }
        ensures room { OnOk result (0 < self.new.spare) }
    {
        self.calls.reserve(1)?;
        Ok(())
    }

    /// Adds a call after the others, under the bytes of its call-id, where none of them has that call-id. It takes no memory.
    pub fn push(&mut self, key: Vec<u8>, call: LiveCall)
        requires room { 0 < self.old.spare }
        requires key { key.items ≡ call.id.list }
        ensures { self.new.list ≡ (if list_any (λ live. bytes_eq live.id.list call.id.list) self.old.list then self.old.list else self.old.list ++ call ∷ []) }
    {
        match self.place_of_id(key.as_slice()) {
            Some(_) => (),
            None => self.append(key, call),
        }
    }

    /// Adds a call after the others, of a call-id that none of them has.
    fn append(&mut self, key: Vec<u8>, call: LiveCall)
        requires room { 0 < self.old.spare }
        requires key { key.items ≡ call.id.list }
        ensures { list_any (λ live. bytes_eq live.id.list call.id.list) self.old.list ≡ false → self.new.list ≡ self.old.list ++ call ∷ [] }
    {
        let _ = self.calls.insert(key, call);
    }

    /// Takes out the call in a place, from 0. The others keep their order: each after it moves up by one, in a time that is linear in
    /// their number.
    pub fn remove(&mut self, place: usize) -> LiveCall
        requires { place < length self.old.list }
        ensures value { result ≡ slice_index_or self.old.list place result }
        ensures list { self.new.list ≡ remove self.old.list place }
    {
        let Some((_, call)) = self.calls.shift_remove_index(place) else {
            unreachable!();
        };
        call
    }

    /// The calls in order as values with public fields. `Err`: there was no memory for them.
    pub fn into_saved(self, alloc: Global) -> Result<Vec<CallSaved>, OutOfMemory>
        ensures { IfOk result (λ saved. CallsSave self.list saved.items) }
    {
        saved_calls(alloc, self.calls)
    }

    /// Takes in a saved call after the others, where none of them has its call-id.
    pub fn take_in(&mut self, alloc: Global, saved: CallSaved) -> Result<(), OutOfMemory>
        requires { list_any (λ live. bytes_eq live.id.list saved.id.list) self.old.list ≡ false }
        ensures { OnOk result (GainsSaved self.old.list self.new.list saved) }
    {
        let key = Vec::from_slice(alloc, saved.id.as_slice())?;
        let CallSaved {
            number,
            cell,
            id,
            dialog,
            first_moment,
            last_moment,
            due_moment,
        } = saved;
        let Some(dialog) = Dialog::from_saved(dialog)? else {
            unreachable!();
        };
        let dialog = Box::new(alloc, dialog)?;
        let call = LiveCall {
            number,
            cell,
            id,
            dialog,
            first_moment,
            last_moment,
            due_moment,
        };
        self.reserve()?;
        self.push(key, call);
        Ok(())
    }
}
