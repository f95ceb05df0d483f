ghost use Rattle.std.specs.Prelude.{◌≡◌, ℕ, ◌+◌, ◌<◌, ◌≤◌, IfSome, length, vec_len};
ghost use Rattle.turn_table.specs.Hands.{IsHandOf, HasNoTurn, IsSameHand, starts, parts};

use crate::load::{Load, Loaded, Small, Touched};
use crate::own::Own;
use std::alloc::Global;
use std::rt::Clock;
use std::sync::Wait;
use std::thread::{Threads, join_mut};
use std::time::Instant;
use turn_table::{Hand, Turns};

/// This many turns, of the places from the first on, one after the other and again.
fn turn_rounds<L: Load, R: Wait>(
    rt: &R,
    turns: &Turns<Loaded<L>>,
    hand: &mut Hand<Loaded<L>>,
    first: usize,
    places: usize,
    rounds: usize,
)
    requires table { IsHandOf turns.now hand.old × HasNoTurn hand.old }
    requires range { (0 < places) × (first + places ≤ length (starts hand.old)) }
    ensures same { IsSameHand hand.old hand.new }
    ensures idle { HasNoTurn hand.new }
{
    for round in 0..rounds {
        let mut turn = turns.turn(rt, hand, first + round % places);
        turn.state().touch();
        turns.put::<Touched>(hand, turn);
    }
}

/// The same in two threads, each with a hand and a place of its own.
fn turn_beside<R: Threads + Wait + Sync>(
    rt: &R,
    turns: &Turns<Loaded<Small>>,
    one: &mut Hand<Loaded<Small>>,
    two: &mut Hand<Loaded<Small>>,
    own: (usize, usize),
    rounds: usize,
)
    requires tables { IsHandOf turns.now one.old × IsHandOf turns.now two.old }
    requires idle { HasNoTurn one.old × HasNoTurn two.old }
    requires places { (own.0 + 1 ≤ length (starts one.old)) × (own.1 + 1 ≤ length (starts two.old)) }
    ensures same { IsSameHand one.old one.new × IsSameHand two.old two.new }
    ensures idle { HasNoTurn one.new × HasNoTurn two.new }
{
    let (left, right) = own;
    join_mut(
        rt,
        &mut || turn_rounds(rt, turns, one, left, 1, rounds),
        &mut || turn_rounds(rt, turns, two, right, 1, rounds),
    );
}

/// The same in four threads.
fn turn_four<R: Threads + Wait + Sync>(
    rt: &R,
    turns: &Turns<Loaded<Small>>,
    one: &mut Hand<Loaded<Small>>,
    two: &mut Hand<Loaded<Small>>,
    three: &mut Hand<Loaded<Small>>,
    four: &mut Hand<Loaded<Small>>,
    own: Own,
    rounds: usize,
)
    requires low { IsHandOf turns.now one.old × IsHandOf turns.now two.old × HasNoTurn one.old × HasNoTurn two.old }
    requires high { IsHandOf turns.now three.old × IsHandOf turns.now four.old × HasNoTurn three.old × HasNoTurn four.old }
    requires places { (64 ≤ length (starts one.old)) × (64 ≤ length (starts two.old)) × (64 ≤ length (starts three.old)) × (64 ≤ length (starts four.old)) }
    ensures low { IsSameHand one.old one.new × IsSameHand two.old two.new × HasNoTurn one.new × HasNoTurn two.new }
    ensures high { IsSameHand three.old three.new × IsSameHand four.old four.new × HasNoTurn three.new × HasNoTurn four.new }
{
    let (left, right) = own_places(own);
    join_mut(
        rt,
        &mut ||
            requires { IsHandOf turns.now one.now × IsHandOf turns.now two.now × HasNoTurn one.now × HasNoTurn two.now × (left.0 + 1 ≤ length (starts one.now)) × (left.1 + 1 ≤ length (starts two.now)) }
            ensures { IsSameHand one.entry.now one.exit.now × IsSameHand two.entry.now two.exit.now × HasNoTurn one.exit.now × HasNoTurn two.exit.now }
        { turn_beside(rt, turns, one, two, left, rounds) },
        &mut ||
            requires { IsHandOf turns.now three.now × IsHandOf turns.now four.now × HasNoTurn three.now × HasNoTurn four.now × (right.0 + 1 ≤ length (starts three.now)) × (right.1 + 1 ≤ length (starts four.now)) }
            ensures { IsSameHand three.entry.now three.exit.now × IsSameHand four.entry.now four.exit.now × HasNoTurn three.exit.now × HasNoTurn four.exit.now }
        { turn_beside(rt, turns, three, four, right, rounds) },
    );
}

/// The places of the four threads.
fn own_places(own: Own) -> ((usize, usize), (usize, usize))
    ensures left { (result.0.0 < 64) × (result.0.1 < 64) }
    ensures right { (result.1.0 < 64) × (result.1.1 < 64) }
{
    match own {
        Own::Apart => ((0, 1), (2, 3)),
        Own::Spread => ((0, 16), (32, 48)),
        Own::Together => ((0, 0), (0, 0)),
    }
}

/// A table of new states.
fn make_states<L: Load>(alloc: Global, count: usize) -> Option<Vec<L>>
    ensures { IfSome result (λ v. vec_len v ≡ count) }
{
    let mut states = Vec::new(alloc);
    while states.len() < count {
        states.push(L::new()).ok()?;
    }
    Some(states)
}

/// Nanoseconds of this many turns of one thread, over this many places.
pub(crate) fn time_alone<L: Load, R: Wait + Clock>(
    rt: &R,
    alloc: Global,
    places: usize,
    rounds: usize,
) -> Option<u128>
    requires { 0 < places }
{
    let (turns, mut main) = Turns::<Loaded<L>>::start(alloc, make_states(alloc, places)?).ok()?;
    let start = Instant::now(rt).ok();
    turn_rounds(rt, &turns, &mut main, 0, places, rounds);
    let nanos = nanos_since(rt, &start);
    turns.close(main);
    nanos
}

/// Nanoseconds of this many turns of each of two threads.
pub(crate) fn time_two<R: Threads + Wait + Sync + Clock>(
    rt: &R,
    alloc: Global,
    own: Own,
    rounds: usize,
) -> Option<u128> {
    let (turns, mut main) = Turns::<Loaded<Small>>::start(alloc, make_states(alloc, 64)?).ok()?;
    let mut two = turns.split_hand(&mut main);
    let (left, _) = own_places(own);
    let start = Instant::now(rt).ok();
    turn_beside(rt, &turns, &mut main, &mut two, left, rounds);
    let nanos = nanos_since(rt, &start);
    turns.join_hand(&mut main, two);
    turns.close(main);
    nanos
}

/// Nanoseconds of this many turns of each of four threads.
pub(crate) fn time_four<R: Threads + Wait + Sync + Clock>(
    rt: &R,
    alloc: Global,
    own: Own,
    rounds: usize,
) -> Option<u128> {
    let (turns, mut main) = Turns::<Loaded<Small>>::start(alloc, make_states(alloc, 64)?).ok()?;
    let mut two = turns.split_hand(&mut main);
    let mut three = turns.split_hand(&mut main);
    let mut four = turns.split_hand(&mut main);
    let start = Instant::now(rt).ok();
    turn_four(
        rt, &turns, &mut main, &mut two, &mut three, &mut four, own, rounds,
    );
    let nanos = nanos_since(rt, &start);
    turns.join_hand(&mut main, two);
    turns.join_hand(&mut main, three);
    turns.join_hand(&mut main, four);
    turns.close(main);
    nanos
}

/// Nanoseconds since the start, where the clock could be read.
pub(crate) fn nanos_since(clock: &impl Clock, start: &Option<Instant>) -> Option<u128> {
    match start {
        Some(start) => Some(start.elapsed(clock).ok()?.as_nanos()),
        None => None,
    }
}
