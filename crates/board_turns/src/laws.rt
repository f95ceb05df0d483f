//! What the main hand keeps when hands of lanes are split from it and taken in again.
ghost use Rattle.std.specs.Prelude.{◌≡◌};
ghost use Rattle.turn_table.specs.Hands.{IsLeft, IsJoined, IsUnchanged, KnowsAll, entries};
ghost use Rattle.relay_core.specs.Joins.{IsLaneRows};
ghost use Rattle.relay_core.specs.Turns.{made_by};
ghost use Rattle.board_turns.specs.Between.{board_of, IsBetween};
ghost use Rattle.board_turns.specs.Joins.{IsBetweenJoins};

use relay_core::Relay;
use relay_outside::{Config, InEnd, OutEnd};
use turn_table::{Hand, Turns};

/// Theorem (no run-time code): what is known of the main hand between the board's turns is known of it when hands were split from it. When
/// the hands of lanes are taken in, it stands as `IsBetweenJoins` says, which is what the close of the table asks of it. By a survey,
/// for which it has all parts, it is again as it is between the board's turns, so that these may go on: the board's history is what it was.
pub fn main_hand_stays<I: InEnd, O: OutEnd>(
    config: &Config,
    turns: &Turns<Relay<I, O>>,
    hand: &Hand<Relay<I, O>>,
)
    ensures split { (old : _) → IsBetween config.now turns.now old → IsLeft old hand.now → IsBetween config.now turns.now hand.now }
    ensures begun { IsBetween config.now turns.now hand.now → IsBetweenJoins config.now turns.now hand.now }
    ensures joined { (old other : _) → IsBetweenJoins config.now turns.now old → IsLaneRows config.now (entries other) → IsJoined old other hand.now
        → IsBetweenJoins config.now turns.now hand.now }
    ensures surveyed { (old : _) → IsBetweenJoins config.now turns.now old → IsUnchanged old hand.now → KnowsAll hand.now
        → IsBetween config.now turns.now hand.now }
    ensures history { (old other : _) → IsLaneRows config.now (entries other) → IsJoined old other hand.now → board_of (made_by hand.now) ≡ board_of (made_by old) }
{}
