//! One way to put a turn for each kind of event. All data of the event are arguments, so that the proof of a call can pick the event from them.
ghost use Rattle.std.specs.Prelude.{◌≡◌, ◌+◌, ◌%◌, ◌^◌};
ghost use Rattle.turn_table.specs.Hands.{IsHandOf, HasTurn, IsSameHand, IsMain, EndsTurn, place_of, front_of, state_of, taken_of};
ghost use Rattle.turn_example.specs.Parts.{ExampleSteps};
ghost use Rattle.turn_example.specs.declared.machine.Event.TheVariants.{Planned, Opened, Took};
ghost use Rattle.turn_example.specs.declared.machine.Outcome.TheVariants.{Done};

use crate::machine::{End, Outcome, Relay, Says, Told};
use turn_table::{Hand, Turn, Turns};

/// The board had a box opened.
pub(crate) fn put_plan<I: End, X: Says>(
    turns: &Turns<Relay<I>>,
    hand: &mut Hand<Relay<I>>,
    turn: Turn<Relay<I>>,
    opened: usize,
) -> u64
    requires table { IsHandOf turns.now hand.old × IsMain hand.old }
    requires turn { HasTurn hand.old turn }
    requires step { ExampleSteps I.gives (taken_of turn) (Planned opened) Done (state_of turn) }
    requires said { (X.event ≡ Planned opened) × (X.outcome ≡ Done) }
    ensures same { IsSameHand hand.old hand.new }
    ensures number { result ≡ front_of turn }
    ensures entry { EndsTurn (place_of turn) (front_of turn) (Planned opened) Done hand.old hand.new }
{
    turns.put::<Told<X>>(hand, turn)
}

/// A box was opened, by the board's event with this number.
pub(crate) fn put_opening<I: End, X: Says>(
    turns: &Turns<Relay<I>>,
    hand: &mut Hand<Relay<I>>,
    turn: Turn<Relay<I>>,
    board: u64,
) -> u64
    requires table { IsHandOf turns.now hand.old × IsMain hand.old }
    requires turn { HasTurn hand.old turn }
    requires step { ExampleSteps I.gives (taken_of turn) (Opened board) Done (state_of turn) }
    requires said { (X.event ≡ Opened board) × (X.outcome ≡ Done) }
    ensures same { IsSameHand hand.old hand.new }
    ensures number { result ≡ front_of turn }
    ensures entry { EndsTurn (place_of turn) (front_of turn) (Opened board) Done hand.old hand.new }
{
    turns.put::<Told<X>>(hand, turn)
}

/// Something was taken from a box.
pub(crate) fn put_take<I: End, X: Says>(
    turns: &Turns<Relay<I>>,
    hand: &mut Hand<Relay<I>>,
    turn: Turn<Relay<I>>,
    outcome: &Outcome,
) -> u64
    requires table { IsHandOf turns.now hand.old }
    requires turn { HasTurn hand.old turn }
    requires step { ExampleSteps I.gives (taken_of turn) Took outcome.now (state_of turn) }
    requires said { (X.event ≡ Took) × (X.outcome ≡ outcome.now) }
    ensures same { IsSameHand hand.old hand.new }
    ensures number { result ≡ front_of turn }
    ensures entry { EndsTurn (place_of turn) (front_of turn) Took outcome.now hand.old hand.new }
{
    turns.put::<Told<X>>(hand, turn)
}
