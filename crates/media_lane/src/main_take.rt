//! Packets are taken by the main hand.
ghost use Rattle.std.specs.Prelude.{◌≡◌, ◌<◌, ℕ};
ghost use Rattle.port_pool.specs.Ports.{pair_count};
ghost use Rattle.turn_table.specs.Hands.{IsSameHand};
ghost use Rattle.call_cell.specs.Cells.{Receipt};
ghost use Rattle.relay_core.specs.Turns.{made_by};
ghost use Rattle.media_lane.specs.Lanes.{packet_of, pair_of};
ghost use Rattle.media_lane.specs.Takes.{HasReceipt};
ghost use Rattle.board_turns.specs.Between.{board_of, IsBetween};
ghost use Rattle.media_lane.specs.Steps.{Took, IsNew, KeepsReceipts};

use crate::answers::Received;
use crate::lane::Lane;
use relay_core::Relay;
use relay_outside::{Config, InEnd, OutEnd};
use rtp_packet::Half;
use std::sync::Wait;
use turn_table::{Hand, Turns};

/// Takes once of a half at the box of a pair, by the main hand, which holds no turn. It may wait, where a lane has the box's turn; it
/// takes no memory.
pub fn receive_between<I: InEnd, O: OutEnd, R: Wait>(
    rt: &R,
    turns: &Turns<Relay<I, O>>,
    hand: Hand<Relay<I, O>>,
    config: &Config,
    pair: u32,
    half: Half,
) -> (Received, Hand<Relay<I, O>>)
    requires between { IsBetween config.now turns.now hand }
    requires pair { pair < pair_count config.now }
    ensures same { IsSameHand hand result.1 }
    ensures between { IsBetween config.now turns.now result.1 }
    ensures board { board_of (made_by result.1) ≡ board_of (made_by hand) }
    ensures took { Took config.now (made_by hand) pair half result.0 (made_by result.1) }
    ensures receipt { HasReceipt config.now (made_by result.1) result.0 }
    ensures apart { IsNew config.now (made_by hand) result.0 }
    ensures others { KeepsReceipts config.now (made_by hand) (made_by result.1) }
{
    let mut lane = Lane::new(hand, 0, 1, config);
    let received = lane.receive(rt, turns, pair, half);
    (received, lane.into_hand())
}
