//! What the callers of a lane know.
ghost use Rattle.std.specs.Prelude.{◌≡◌, ◌++◌, [], ◌∷◌, ℕ, List};
ghost use Rattle.relay_outside.specs.declared.settings.Config.{Config};
ghost use Rattle.rtp_packet.specs.declared.head.Half.{Half};
ghost use Rattle.turn_table.specs.Hands.{IsSameHand, HasNoTurn, entries};
ghost use Rattle.turn_table.specs.Steps.{entry};
ghost use Rattle.port_pool.specs.Boxes.{Taken};
ghost use Rattle.call_cell.specs.declared.outcome.Outcome.{Outcome};
ghost use Rattle.call_cell.specs.Cells.{Receipt};
ghost use Rattle.relay_core.specs.Records.{list_of};
ghost use Rattle.relay_core.specs.Turns.{made_by};
ghost use Rattle.relay_core.specs.Joins.{IsLaneRows};
ghost use Rattle.board_turns.specs.Between.{board_of, IsBetween};
ghost use Rattle.media_lane.specs.Receipts.{KeepsList};
ghost use Rattle.media_lane.specs.Relays.{relay_made};
ghost use Rattle.media_lane.specs.Starts.{PartsBeginLanes};
ghost use Rattle.media_lane.specs.Takes.{take_made};
ghost use Rattle.media_lane.specs.Visits.{Row, Visit, AreOfLane, all_rows};

use relay_core::Relay;
use relay_outside::{Config, InEnd, OutEnd};
use turn_table::{Hand, Turns};

/// Theorem (no run-time code): the parts of a configuration are what the table of a lane of that configuration may begin as.
pub fn parts_begin_lanes<I: InEnd, O: OutEnd>()
    ensures { PartsBeginLanes I O }
{}

/// Theorem (no run-time code): what each call of a lane adds to the list of its hand is of a lane: a take, a relay, and what sweeps add.
pub fn lanes_take_and_relay()
    ensures takes { (place number : ℕ) (half : Half) (taken : Taken) → AreOfLane (entry place number (take_made half taken) tt ∷ []) }
    ensures relays { (place number : ℕ) (packet : Receipt) (now moment : ℕ) (outcome : Outcome) →
        AreOfLane (entry place number (relay_made packet now moment outcome) tt ∷ []) }
    ensures sweeps { (config : Config) (visits : List Visit) → AreOfLane (all_rows config visits) }
{}

/// Theorem (no run-time code): the list of a lane's hand, which begins with nothing, is that of a lane after each of the lane's calls, by what
/// these calls promise. So it is when the hand is joined to the main one.
pub fn lists_of_lanes_stay()
    ensures nothing { (config : Config) (rows : List Row) → rows ≡ [] → IsLaneRows config rows }
    ensures more { (config : Config) (old rows new : List Row) → IsLaneRows config old → new ≡ old ++ rows → AreOfLane rows → KeepsList config (list_of old) (list_of new)
        → IsLaneRows config new }
{}

/// Theorem (no run-time code): where the main hand itself goes into a lane, it comes out of each of the lane's calls as it is between the
/// board's turns, by what these calls promise; the board's history is what it was.
pub fn main_hand_relays<I: InEnd, O: OutEnd>(
    config: &Config,
    turns: &Turns<Relay<I, O>>,
    hand: &Hand<Relay<I, O>>,
)
    ensures between { (old : _) (rows : List Row) → IsBetween config.now turns.now old → IsSameHand old hand.now → HasNoTurn hand.now → entries hand.now ≡ entries old ++ rows
        → AreOfLane rows → KeepsList config.now (made_by old) (made_by hand.now) → IsBetween config.now turns.now hand.now }
    ensures history { (old : _) (rows : List Row) → IsSameHand old hand.now → entries hand.now ≡ entries old ++ rows → AreOfLane rows
        → board_of (made_by hand.now) ≡ board_of (made_by old) }
{}
