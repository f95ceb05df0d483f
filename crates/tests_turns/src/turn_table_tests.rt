ghost use Rattle.std.specs.Prelude.{◌≡◌, ◌+◌, ◌<◌, ◌^◌, ◌%◌, length};
ghost use Rattle.turn_table.specs.Hands.{IsHandOf, HasNoTurn, IsMain, starts, parts};

use std::alloc::Global;
use std::process::Abort;
use std::thread::join_mut;
use turn_table::{Hand, Machine, Said, Turns};

// The state is a number, and each event adds one.
struct Counter;

impl Machine for Counter {
    type State = u64;

    type Event = ();

    type Outcome = ();

    ghost relates = { λ before event outcome after. after ≡ (before + 1) % 2 ^ 64 };

    ghost reserved = { λ event. ⊥ };
}

struct Added;

impl Said<Counter> for Added {
    ghost event = { tt };

    ghost outcome = { tt };
}

mod counts;

use counts::{add, add_beside, add_one, add_times, add_with_another};

// A table with these states, and its main hand.
fn begin(rt: &impl Abort, alloc: Global, states: &[u64]) -> (Turns<Counter>, Hand<Counter>)
    requires { 0 < length states.now }
    ensures table { IsHandOf result.0 result.1 }
    ensures hand { IsMain result.1 × HasNoTurn result.1 × (parts result.1 ≡ 1024) }
    ensures starts { starts result.1 ≡ states.now }
{
    let Ok(states) = states.to_vec(alloc) else {
        panic!(rt; "no memory");
    };
    let Ok((turns, hand)) = Turns::start(alloc, states) else {
        panic!(rt; "no memory");
    };
    (turns, hand)
}

#[test]
fn two_threads_count_to_the_sum(rt: HostRuntime) {
    let (turns, mut main) = begin(&rt, rt.alloc(), &[0, 0, 0]);
    let mut other = turns.split_hand(&mut main);
    join_mut(
        &rt,
        &mut || add_times(&rt, &turns, &mut main, 1, 1000),
        &mut || add_times(&rt, &turns, &mut other, 1, 1000),
    );
    turns.join_hand(&mut main, other);
    let states = turns.close(main);
    assert!(rt; states.as_slice() == [0, 2000, 0].as_slice());
}

#[test]
fn four_threads_count_on_one_place_and_on_four(rt: HostRuntime) {
    let (turns, mut main) = begin(&rt, rt.alloc(), &[0, 0, 0, 0, 0]);
    let mut two = turns.split_hand(&mut main);
    let mut three = turns.split_hand(&mut main);
    let mut four = turns.split_hand(&mut main);
    join_mut(
        &rt,
        &mut || add_beside(&rt, &turns, &mut main, &mut two, (1, 2), 500),
        &mut || add_beside(&rt, &turns, &mut three, &mut four, (3, 4), 500),
    );
    turns.join_hand(&mut three, four);
    turns.join_hand(&mut main, two);
    turns.join_hand(&mut main, three);
    let states = turns.close(main);
    assert!(rt; states.as_slice() == [2000, 500, 500, 500, 500].as_slice());
}

#[test]
fn a_joined_list_has_the_entries_of_both(rt: HostRuntime) {
    let (turns, mut main) = begin(&rt, rt.alloc(), &[7, 0]);
    let numbers = add_with_another(&rt, &turns, &mut main, 0);
    let states = turns.close(main);
    assert!(rt; numbers == (0, 1, 2));
    assert!(rt; states.as_slice() == [10, 0].as_slice());
}

#[test]
fn a_held_turn_makes_its_own_place_busy(rt: HostRuntime) {
    let (turns, mut main) = begin(&rt, rt.alloc(), &[0, 0, 0]);
    let mut second = turns.split_hand(&mut main);
    let held = turns.turn(&rt, &mut main, 1);
    let busy = match turns.try_turn(&mut second, 1) {
        Ok(turn) => {
            add_one(&turns, &mut second, turn);
            None
        }
        Err(busy) => Some(busy.front),
    };
    let other = match turns.try_turn(&mut second, 2) {
        Ok(turn) => Some((turn.place(), add_one(&turns, &mut second, turn))),
        Err(_) => None,
    };
    let number = add_one(&turns, &mut main, held);
    turns.join_hand(&mut main, second);
    let next = match turns.try_turn(&mut main, 1) {
        Ok(turn) => Some((turn.place(), turn.front(), add_one(&turns, &mut main, turn))),
        Err(_) => None,
    };
    let states = turns.close(main);
    assert!(rt; busy == Some(0) && other == Some((2, 0)) && number == 0);
    assert!(rt; next == Some((1, 1, 1)));
    assert!(rt; states.as_slice() == [0, 2, 1].as_slice());
}
