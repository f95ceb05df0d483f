//! The close of the table: the list of the hand that closes it is legal.

ghost use Rattle.std.specs.Prelude.{◌≡◌, List, map, length};
ghost use Rattle.turn_table.specs.Hands.{IsHandOf, HasNoTurn, parts, starts, entries};
ghost use Rattle.relay_outside.specs.declared.settings.Config.{Config};
ghost use Rattle.relay_core.specs.Entries.{Entry};
ghost use Rattle.relay_core.specs.Legal.{Orderly, Legal};
ghost use Rattle.relay_core.specs.Safe.{Safe};
ghost use Rattle.relay_core.specs.Records.{as_logged};
ghost use Rattle.relay_core.specs.ReturnedPairs.{AreReturned};
ghost use Rattle.relay_core.specs.FirstPlaces.{AreParts};
ghost use Rattle.relay_core.specs.RowMoments.{AreTimed};
ghost use Rattle.relay_core.specs.Continued.{AreLeftBy, IsSoundAfter, continued};
ghost use Rattle.relay_core.specs.KeptAfter.{IsWholeNow};
ghost use Rattle.relay_core.specs.WholeParts.{AreWholeParts};
ghost use Rattle.relay_core.specs.Homes.{AreEndsHome};
ghost use Rattle.relay_core.specs.EndLogs.{InOrder, InsAreTold, OutsAreTold};
ghost use Rattle.relay_core.specs.Turns.{Numbered, made_by};
ghost use Rattle.relay_core.specs.Joins.{IsSound, AreStanding};

use crate::machine::Relay;
use crate::part::Part;
use relay_outside::{InEnd, OutEnd};
use turn_table::{Hand, Turns};

/// Closes the table of a relay by the hand that has all its parts, and returns what its places hold, in order. It takes no
/// memory.
///
/// The hand's list is then that of all steps of all places. Of a relay it has the packet and the outcome. With what each relay
/// noted, protected and sent added, it is a legal list, and so a safe one: where the main hand's own entries are
/// orderly and its nested steps were handed their board entry's moment, and where each hand's relays are of takes of its own.
///
/// Where the places began with what an earlier list had left, the hand's list goes on from that one: both together are a legal
/// list, which leaves what the places hold now. So a list can go on from that one in turn.
///
/// Where what the board, the cells and the boxes keep goes together, so do the states that are returned: a node may begin with them.
/// And where the ends that the boxes and cells kept at first are those of their ports, so are those of the states that are returned,
/// whatever the list and whatever the histories of the places.
///
/// A leg's sends are told by its call, pair and generation, since two legs of one cell may have had the pair one after the
/// other. Without `AreTimed` a sweep with another clock would meet every clause.
pub fn close_relay<I: InEnd, O: OutEnd>(
    turns: Turns<Relay<I, O>>,
    hand: Hand<Relay<I, O>>,
) -> Vec<Part<I, O>>
    requires table { IsHandOf turns hand }
    requires all { parts hand ≡ 1024 }
    requires idle { HasNoTurn hand }
    ensures length { length result.items ≡ length (starts hand) }
    ensures numbered { Numbered (made_by hand) }
    ensures states { (config : Config) → AreParts config (starts hand) → Orderly config (made_by hand) → AreReturned config (entries hand) → AreStanding config result.items (made_by hand) }
    ensures legal { (config : Config) → AreParts config (starts hand) → IsSound config (entries hand) → (l : List Entry) × (map as_logged l ≡ made_by hand) × Legal config l × Safe config l × OutsAreTold (entries hand) l }
    ensures ins { (config : Config) → AreParts config (starts hand) → IsSound config (entries hand) → InOrder (made_by hand) → InsAreTold config (entries hand) }
    ensures continued { (config : Config) (before : List Entry) → AreLeftBy config before (starts hand) → IsSoundAfter config before (entries hand) → (l : List Entry) × (map as_logged l ≡ made_by hand) × AreLeftBy config (continued config before l) result.items }
    ensures timed { (config : Config) → AreParts config (starts hand) → IsSound config (entries hand) → AreTimed (entries hand) }
    ensures whole { (config : Config) → AreWholeParts config (starts hand) → IsWholeNow config hand → AreWholeParts config result.items }
    ensures homes { (config : Config) → AreEndsHome I.log O.log config (starts hand) → AreEndsHome I.log O.log config result.items }
{
    turns.close(hand)
}
