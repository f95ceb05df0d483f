//! A table begins with one hand, hands are split and joined, and the last hand closes the table.
ghost use Rattle.std.specs.Prelude.{◌≡◌, ℕ, ◌+◌, ◌-◌, ◌<◌, ◌++◌, [], max, length, IfOk, vec_len, ◌*◌, get_or};

use crate::cased::{case_all, set_aside, uncase_all};
use crate::hands::{Hand, OutOfMemory, Turns};
use crate::layout;
use crate::machine::Machine;
use crate::plays::{Cut, Glue, Survey};
use crate::room::Room;
use atomic_table::Table;
use std::alloc::{AllocError, Global};
use std::snapshot::Snapshot;

/// From this many places on, no allocator has room for their words.
const MOST: usize = 1 << 59;

/// This many words of 0.
fn clear_words(alloc: Global, count: usize) -> Result<Vec<u64>, AllocError>
    ensures length { IfOk result (λ v. length v.items ≡ count) }
    ensures clear { IfOk result (λ v. (i : ℕ) → get_or v.items i 0 ≡ 0) }
{
    vec![in alloc; 0; count]
}

impl<M: Machine> Turns<M> {
    ghost use Rattle.turn_table.specs.Hands.{IsHandOf, IsFirstHand, starts, entries, parts, IsMain, HasNoTurn, IsCut, IsLeft, IsJoined, IsClosed, AreInRange, KnowsAll, IsUnchanged};

    /// A table with a place for each state, in order, and its main hand.
    ///
    /// Each place begins with its state, and at front 0. Where there is no memory, the states are dropped.
    pub fn start(alloc: Global, states: Vec<M::State>) -> Result<(Turns<M>, Hand<M>), OutOfMemory>
    where
        M::State: Drop,
        requires { 0 < vec_len states }
        ensures { IfOk result (λ r. IsHandOf r.0 r.1 × IsFirstHand states.items r.1) }
    {
        let places = states.len();
        if places >= MOST {
            return Err(OutOfMemory);
        }
        let rows = layout::row_count(places);
        let key = Snapshot::of(&states);
        let words = clear_words(alloc, 3840 * rows)?;
        let aside = set_aside(alloc, states)?;
        let slots = case_all(alloc, aside, rows)?;
        let (table, seat) = Table::new(alloc, words.as_slice(), slots, &key)?;
        let room = Room::new(alloc, places)?;
        let turns = Turns {
            table,
            room,
            places,
            rows,
        };
        Ok((turns, Hand { seat }))
    }

    /// Gives one of the hand's parts to a new hand, which has no entries and has seen what this one has.
    pub fn split_hand(&self, hand: &mut Hand<M>) -> Hand<M>
        requires table { IsHandOf self.now hand.old }
        requires parts { 1 < parts hand.old }
        requires idle { HasNoTurn hand.old }
        ensures left { IsLeft hand.old hand.new }
        ensures new { IsCut hand.old result }
    {
        let seat = self.table.shared.split_seat::<Cut>(&mut hand.seat);
        Hand { seat }
    }

    /// Takes in a hand that isn't the main one, with its parts, its entries and what it has seen.
    pub fn join_hand(&self, hand: &mut Hand<M>, other: Hand<M>)
        requires tables { IsHandOf self.now hand.old × IsHandOf self.now other }
        requires side { ¬ IsMain other }
        requires idle { HasNoTurn hand.old × HasNoTurn other }
        ensures { IsJoined hand.old other hand.new }
    {
        self.table
            .shared
            .join_seat::<Glue>(&mut hand.seat, other.into_seat());
    }

    /// Looks at the table by the hand that has all parts: its list has the whole history of each place, as at the close.
    /// It is one load: the rule says so at any moment, but contracts are told of the rule only at an atomic step.
    pub fn survey(&self, hand: &mut Hand<M>)
        requires table { IsHandOf self.now hand.old }
        requires all { parts hand.old ≡ 1024 }
        ensures same { IsUnchanged hand.old hand.new }
        ensures whole { KnowsAll hand.new }
    {
        self.table.shared.load::<Survey>(&mut hand.seat, 0);
    }

    /// The states, in the order of the places. It takes no memory.
    pub fn close(self, hand: Hand<M>) -> Vec<M::State>
        requires table { IsHandOf self hand }
        requires all { parts hand ≡ 1024 }
        requires idle { HasNoTurn hand }
        ensures range { AreInRange hand }
        ensures length { length result.items ≡ length (starts hand) }
        ensures states { IsClosed M.relates hand result.items }
    {
        let Turns {
            table,
            room,
            places,
            rows,
        } = self;
        let closed = table.close_with(hand.into_seat());
        uncase_all(closed, places, rows, room.take())
    }
}
