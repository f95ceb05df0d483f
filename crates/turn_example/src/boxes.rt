//! Boxes are opened under the board's turn, and taken from under their own.
ghost use Rattle.std.specs.Prelude.{◌≡◌, ℕ, ◌+◌, ◌<◌, ◌++◌, [], ◌∷◌, length, MatchResult};
ghost use Rattle.turn_table.specs.Hands.{IsHandOf, MayTurn, HasNoTurn, HasTurn, IsSameHand, IsMain, SameTurns, starts, entries};
ghost use Rattle.turn_table.specs.Steps.{entry};
ghost use Rattle.turn_example.specs.Parts.{ExampleSteps, IsBoard, IsExampleBox, BeginsAsBoard, BeginsAsBox};
ghost use Rattle.turn_example.specs.declared.machine.Event.TheVariants.{Planned, Opened, Took};
ghost use Rattle.turn_example.specs.declared.machine.Outcome.TheVariants.{Done};

use crate::machine::{End, Outcome, Part, Relay};
use crate::puts::{put_opening, put_plan, put_take};
use std::marker::Brand;
use std::sync::Wait;
use turn_table::{Busy, Hand, Turns};

fn take_from<I: End>(part: &mut Part<I>) -> Outcome
    requires { IsExampleBox part.old }
    ensures { ExampleSteps I.gives part.old Took result part.new }
{
    match part {
        Part::Port(Some(end)) => Outcome::Gave(end.take()),
        Part::Port(None) => Outcome::Shut,
        Part::Board(_) => unreachable!(),
    }
}

fn open_part<I: End>(part: &mut Part<I>, board: u64, end: I) -> Option<I>
    requires { IsExampleBox part.old }
    ensures { ExampleSteps I.gives part.old (Opened board) Done part.new }
{
    match part {
        Part::Port(inside) => inside.replace(end),
        Part::Board(_) => unreachable!(),
    }
}

fn count_opening<I: End>(part: &mut Part<I>, opened: usize)
    requires { IsBoard part.old }
    ensures { ExampleSteps I.gives part.old (Planned opened) Done part.new }
{
    match part {
        Part::Board(count) => *count = count.wrapping_add(1),
        Part::Port(_) => unreachable!(),
    }
}

/// Takes from the box of a place, by any hand. It never waits.
pub fn try_take<I: End>(
    turns: &Turns<Relay<I>>,
    hand: &mut Hand<Relay<I>>,
    place: usize,
) -> Result<Outcome, Busy>
    requires table { IsHandOf turns.now hand.old }
    requires place { MayTurn hand.old place × BeginsAsBox (starts hand.old) place }
    ensures same { IsSameHand hand.old hand.new × SameTurns hand.old hand.new }
    ensures entry { MatchResult result (λ o. (n : ℕ) × (entries hand.new ≡ entries hand.old ++ entry place n Took o ∷ [])) (λ _. entries hand.new ≡ entries hand.old) }
{
    let mut turn = turns.try_turn(hand, place)?;
    let outcome = take_from(turn.state());
    put_take::<I, Brand>(turns, hand, turn, &outcome);
    Ok(outcome)
}

fn open_under<I: End, R: Wait>(
    rt: &R,
    turns: &Turns<Relay<I>>,
    hand: &mut Hand<Relay<I>>,
    place: usize,
    board: u64,
    end: I,
) -> Option<I>
    requires table { IsHandOf turns.now hand.old × IsMain hand.old }
    requires place { MayTurn hand.old place × BeginsAsBox (starts hand.old) place }
    ensures same { IsSameHand hand.old hand.new × SameTurns hand.old hand.new }
    ensures entry { (n : ℕ) × (entries hand.new ≡ entries hand.old ++ entry place n (Opened board) Done ∷ []) }
{
    let mut turn = turns.turn(rt, hand, place);
    let former = open_part(turn.state(), board, end);
    put_opening::<I, Brand>(turns, hand, turn, board);
    former
}

/// Opens the box of a place with this end, by the main hand, and gives back the end that it had.
///
/// The board's turn is held meanwhile, so openings come one after the other.
pub fn open_box<I: End, R: Wait>(
    rt: &R,
    turns: &Turns<Relay<I>>,
    hand: &mut Hand<Relay<I>>,
    place: usize,
    end: I,
) -> Option<I>
    requires table { IsHandOf turns.now hand.old × IsMain hand.old × HasNoTurn hand.old }
    requires place { (0 < place) × (place < length (starts hand.old)) }
    requires starts { BeginsAsBoard (starts hand.old) 0 × BeginsAsBox (starts hand.old) place }
    ensures same { IsSameHand hand.old hand.new × HasNoTurn hand.new }
    ensures entries { (n : ℕ) × (board : ℕ) × (entries hand.new ≡ (entries hand.old ++ entry place n (Opened board) Done ∷ []) ++ entry 0 board (Planned place) Done ∷ []) }
{
    let mut turn = turns.turn(rt, hand, 0);
    let former = open_under(rt, turns, hand, place, turn.front(), end);
    count_opening(turn.state(), place);
    put_plan::<I, Brand>(turns, hand, turn, place);
    former
}
