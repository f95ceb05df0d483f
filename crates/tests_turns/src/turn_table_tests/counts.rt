ghost use Rattle.std.specs.Prelude.{◌≡◌, ℕ, ◌+◌, ◌<◌, [], ◌∷◌, ◌++◌, length};
ghost use Rattle.turn_table.specs.Hands.{IsHandOf, HasNoTurn, IsSameHand, HasTurn, EndsTurn, starts, entries, parts, place_of, front_of, state_of, taken_of};
ghost use Rattle.turn_table.specs.Steps.{entry};

use super::{Added, Counter};
use std::sync::Wait;
use std::thread::{Threads, join_mut};
use turn_table::{Hand, Turn, Turns};

pub(super) fn add_one(
    turns: &Turns<Counter>,
    hand: &mut Hand<Counter>,
    mut turn: Turn<Counter>,
) -> u64
    requires table { IsHandOf turns.now hand.old }
    requires turn { HasTurn hand.old turn × (taken_of turn ≡ state_of turn) }
    ensures same { IsSameHand hand.old hand.new }
    ensures number { result ≡ front_of turn }
    ensures ended { EndsTurn (place_of turn) (front_of turn) tt tt hand.old hand.new }
{
    let state = turn.state();
    *state = state.wrapping_add(1);
    turns.put::<Added>(hand, turn)
}

pub(super) fn add_times<R: Wait>(
    rt: &R,
    turns: &Turns<Counter>,
    hand: &mut Hand<Counter>,
    place: usize,
    times: usize,
)
    requires table { IsHandOf turns.now hand.old }
    requires place { HasNoTurn hand.old × (place < length (starts hand.old)) }
    ensures same { IsSameHand hand.old hand.new }
    ensures idle { HasNoTurn hand.new }
{
    for _ in 0..times {
        let turn = turns.turn(rt, hand, place);
        add_one(turns, hand, turn);
    }
}

// One event, with its number.
pub(super) fn add<R: Wait>(
    rt: &R,
    turns: &Turns<Counter>,
    hand: &mut Hand<Counter>,
    place: usize,
) -> u64
    requires table { IsHandOf turns.now hand.old }
    requires place { HasNoTurn hand.old × (place < length (starts hand.old)) }
    ensures same { IsSameHand hand.old hand.new }
    ensures idle { HasNoTurn hand.new }
    ensures entries { entries hand.new ≡ entries hand.old ++ entry place result tt tt ∷ [] }
{
    let turn = turns.turn(rt, hand, place);
    add_one(turns, hand, turn)
}

// One event of this hand, and two of a hand that is then joined into it: the list has all three.
pub(super) fn add_with_another<R: Wait>(
    rt: &R,
    turns: &Turns<Counter>,
    hand: &mut Hand<Counter>,
    place: usize,
) -> (u64, u64, u64)
    requires table { IsHandOf turns.now hand.old }
    requires place { HasNoTurn hand.old × (place < length (starts hand.old)) }
    requires parts { parts hand.old ≡ 1024 }
    ensures parts { (parts hand.new ≡ 1024) × HasNoTurn hand.new × IsHandOf turns.now hand.new }
    ensures entries { entries hand.new ≡ (entries hand.old ++ entry place result.2 tt tt ∷ []) ++ entry place result.0 tt tt ∷ entry place result.1 tt tt ∷ [] }
{
    let mut other = turns.split_hand(hand);
    let first = add(rt, turns, &mut other, place);
    let second = add(rt, turns, &mut other, place);
    let third = add(rt, turns, hand, place);
    turns.join_hand(hand, other);
    (first, second, third)
}

// At place 0, and then at another.
fn add_at_both<R: Wait>(
    rt: &R,
    turns: &Turns<Counter>,
    hand: &mut Hand<Counter>,
    own: usize,
    times: usize,
)
    requires table { IsHandOf turns.now hand.old }
    requires place { HasNoTurn hand.old × (own < length (starts hand.old)) }
    ensures same { IsSameHand hand.old hand.new }
    ensures idle { HasNoTurn hand.new }
{
    add_times(rt, turns, hand, 0, times);
    add_times(rt, turns, hand, own, times);
}

// Two hands, each in a thread: both add at place 0, and then each at a place of its own.
pub(super) fn add_beside<R: Threads + Wait + Sync>(
    rt: &R,
    turns: &Turns<Counter>,
    one: &mut Hand<Counter>,
    two: &mut Hand<Counter>,
    own: (usize, usize),
    times: usize,
)
    requires tables { IsHandOf turns.now one.old × IsHandOf turns.now two.old }
    requires idle { HasNoTurn one.old × HasNoTurn two.old }
    requires places { (own.0 < length (starts one.old)) × (own.1 < length (starts two.old)) }
    ensures same { IsSameHand one.old one.new × IsSameHand two.old two.new }
    ensures idle { HasNoTurn one.new × HasNoTurn two.new }
{
    let (left, right) = own;
    join_mut(
        rt,
        &mut || add_at_both(rt, turns, one, left, times),
        &mut || add_at_both(rt, turns, two, right, times),
    );
}
