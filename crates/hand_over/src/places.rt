//! What is taken of a place.
ghost use Rattle.std.specs.Prelude.{◌≡◌, ◌<◌, length};
ghost use Rattle.relay_core.specs.WholeParts.{HasCell};
ghost use Rattle.hand_over.specs.ClosingSteps.{IsOpenBox, GaveBoxEnds, HoldsCell, GaveEnds, HoldsEnds, GivesBox, TakesAt};

use relay_core::Part;
use relay_outside::{Addr, InEnd};

/// GaveEnds the out ends of the first leg that has them of a cell.
fn take_of_part<I, O>(held: &mut Part<I, O>) -> Option<(Addr, O, O)>
    requires { HoldsCell held.old }
    ensures { GaveEnds held.old held.new result }
{
    match held {
        Part::Cell(cell) => cell.take_ends(),
        Part::Board(_) => unreachable!(),
        Part::Pair(_) => unreachable!(),
    }
}

/// GaveEnds the out ends of the first leg that has them of the cell at a place.
pub(crate) fn take_at<I, O>(parts: &mut [Part<I, O>], place: usize) -> Option<(Addr, O, O)>
    requires within { place < length parts.old }
    requires cell { HasCell parts.old place }
    ensures { TakesAt parts.old parts.new place result }
{
    take_of_part(&mut parts[place])
}

/// GaveBoxEnds an open box and gives its ends.
fn shut_part<I: InEnd, O>(held: &mut Part<I, O>) -> (I, I)
    requires { IsOpenBox held.old }
    ensures { GaveBoxEnds held.old held.new result }
{
    match held {
        Part::Pair(pair) => pair.shut().unwrap(),
        Part::Board(_) => unreachable!(),
        Part::Cell(_) => unreachable!(),
    }
}

/// GaveBoxEnds the open box at a place and gives its ends.
pub(crate) fn shut_at<I: InEnd, O>(parts: &mut [Part<I, O>], place: usize) -> (I, I)
    requires within { place < length parts.old }
    requires open_box { (ends : I × I) × HoldsEnds parts.old place ends }
    ensures { GivesBox parts.old parts.new place result }
{
    shut_part(&mut parts[place])
}
