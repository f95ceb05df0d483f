ghost use Rattle.std.specs.Prelude.{◌≡◌, ℕ, ◌<◌, IfSome, length};
ghost use Rattle.turn_table.specs.Hands.{IsHandOf, HasNoTurn, IsMain, starts, parts};
ghost use Rattle.turn_example.specs.Parts.{BeginsAsBoard, BeginsAsBox};

use super::Numbers;
use std::alloc::Global;
use turn_example::{Part, Relay};
use turn_table::{Hand, Turns};

// A table with a board and two boxes.
pub(super) fn begin(alloc: Global) -> Option<(Turns<Relay<Numbers>>, Hand<Relay<Numbers>>)>
    ensures hand { IfSome result (λ r. IsHandOf r.0 r.1 × IsMain r.1 × HasNoTurn r.1 × (parts r.1 ≡ 1024)) }
    ensures starts { IfSome result (λ r. (length (starts r.1) ≡ 3) × BeginsAsBoard (starts r.1) 0 × BeginsAsBox (starts r.1) 1 × BeginsAsBox (starts r.1) 2) }
{
    let states = Vec::from_array(alloc, [Part::Board(0), Part::Port(None), Part::Port(None)]).ok()?;
    Turns::start(alloc, states).ok()
}
