//! The relay as a machine over the turn table: which steps its events are.

use crate::part::Part;
use relay_outside::{InEnd, OutEnd};
use std::marker::{Brand, Model, PhantomData};
use turn_table::{Machine, Said};

/// What happens at a place. No value of it is made: contracts see what the table records of a step.
/// The moment that a nested step was handed is among it, so that the close can tie it to its board
/// entry's.
pub struct Happening {
    made: (),
}

impl Model for Happening {
    ghost use Rattle.std.specs.Prelude.{[], None};
    ghost use Rattle.relay_core.specs.Entries.{Box};
    ghost use Rattle.relay_core.specs.Records.{Made, nothing_left};
    ghost use Rattle.port_pool.specs.Boxes.{Close};
    ghost use Rattle.std.specs.Coded.{codes};
    ghost use Rattle.relay_core.specs.Codes.{entries_code};

    ghost Value = { Made };

    ghost coded = { Prim.hlevel (codes, entries_code) };

    ghost view = { λ happening. record { handed = 0; moment = 0; board = 0; returned = []; event = Box Close; left = nothing_left; kept = None } };
}

/// The machine of the board, the cells and the boxes, whose in ends and out ends are of these types.
///
/// All its events but takes and relays are reserved for the main hand.
///
/// That an offer's keys have new numbers is the one thing that a cell's state doesn't tell from all
/// its histories: it is a premise of that step, and holds in every orderly list.
pub struct Relay<I, O> {
    ends: PhantomData<(I, O)>,
}

impl<I: InEnd, O: OutEnd> Machine for Relay<I, O> {
    ghost use Rattle.relay_core.specs.Steps.{Relates, IsReserved};

    type State = Part<I, O>;

    type Event = Happening;

    type Outcome = ();

    ghost relates = { λ old made outcome new. Relates I.log I.faults O.log O.faults old made new };

    ghost reserved = { IsReserved };
}

/// A step, which the proof of a call picks from the call's arguments.
pub trait Says {
    ghost use Rattle.relay_core.specs.Records.{Made};

    ghost made: { Made };
}

impl Says for Brand {
    ghost use Rattle.std.specs.Prelude.{[], None};
    ghost use Rattle.relay_core.specs.Entries.{Box};
    ghost use Rattle.relay_core.specs.Records.{nothing_left};
    ghost use Rattle.port_pool.specs.Boxes.{Close};

    ghost made = { record { handed = 0; moment = 0; board = 0; returned = []; event = Box Close; left = nothing_left; kept = None } };
}

/// What X says, of this machine.
pub struct Told<X> {
    says: PhantomData<X>,
}

impl<I: InEnd, O: OutEnd, X: Says> Said<Relay<I, O>> for Told<X> {
    ghost event = { X.made };

    ghost outcome = { tt };
}
