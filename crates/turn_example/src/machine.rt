//! What the places hold, what happens to them, and which steps that is.
ghost use Rattle.std.specs.Prelude.{ℕ, Option};

use std::marker::{Brand, PhantomData};
use turn_table::{Machine, Said};

/// An end from which bytes are taken.
pub trait End {
    // It can go from the one state to the other by giving this.
    ghost gives: { Self → Option ℕ → Self → Type 0 };

    /// The next byte, if there is one.
    fn take(&mut self) -> Option<u8>
        ensures { gives self.old result self.new };
}

/// What a place holds.
#[derive(Drop)]
pub enum Part<I> {
    /// The board: how many boxes were opened, modulo 2^64.
    Board(u64),
    /// A box, with its end where it was opened.
    Port(Option<I>),
}

/// What happens at a place. No value of it is made.
pub enum Event {
    /// The board had the box of this place opened.
    Planned(usize),
    /// The box was opened, by the board's event with this number.
    Opened(u64),
    /// Something was taken from the box, if there was something.
    Took,
}

/// What came of an event.
#[derive(Clone, Copy, Debug, PartialEq, Eq)]
pub enum Outcome {
    Done,
    /// The box was never opened.
    Shut,
    /// What the end gave.
    Gave(Option<u8>),
}

/// The machine of a board and boxes with ends of this type.
pub struct Relay<I> {
    ends: PhantomData<I>,
}

impl<I: End> Machine for Relay<I> {
    ghost use Rattle.turn_example.specs.Parts.{ExampleSteps, IsMainEvent};

    type State = Part<I>;

    type Event = Event;

    type Outcome = Outcome;

    ghost relates = { ExampleSteps I.gives };

    ghost reserved = { IsMainEvent };
}

/// An event with its outcome, which the proof of a call picks from the call's arguments.
pub(crate) trait Says {
    ghost use Rattle.turn_example.specs.declared.machine.Event.{Event};
    ghost use Rattle.turn_example.specs.declared.machine.Outcome.{Outcome};

    ghost event: { Event };

    ghost outcome: { Outcome };
}

impl Says for Brand {
    ghost use Rattle.turn_example.specs.declared.machine.Event.TheVariants.{Took};
    ghost use Rattle.turn_example.specs.declared.machine.Outcome.TheVariants.{Shut};

    ghost event = { Took };

    ghost outcome = { Shut };
}

/// What X says, of this machine.
pub(crate) struct Told<X> {
    says: PhantomData<X>,
}

impl<I: End, X: Says> Said<Relay<I>> for Told<X> {
    ghost event = { X.event };

    ghost outcome = { X.outcome };
}
