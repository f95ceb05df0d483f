//! A relay before its first step, to whose ports nothing comes.
ghost use Rattle.std.specs.Prelude.{◌≡◌, [], IfSome};
ghost use Rattle.turn_table.specs.Hands.{HasNoTurn, parts};
ghost use Rattle.relay_core.specs.Turns.{made_by};
ghost use Rattle.board_turns.specs.NestedSteps.{MayNest};
ghost use Rattle.board_turns.specs.Between.{IsBetween};

use crate::quiet_devices::{Mute, Quiet};
use relay_core::Relay;
use relay_outside::{Config, Ip};
use std::alloc::Global;
use turn_table::{Hand, Turns};

/// Two calls may be live, over two pairs of ports.
pub(crate) const CONFIG: Config = Config {
    interface: Ip::V4([203, 0, 113, 1]),
    interface6: None,
    port_min: 30_000,
    port_max: 30_003,
    timeout_ms: 60_000,
    offer_timeout_ms: 120_000,
    max_sessions: 2,
};

/// Its places.
pub(crate) type QuietRelay = Relay<Quiet, Mute>;

/// Its table, and the main hand.
pub(crate) fn begin(alloc: Global) -> Option<(Turns<QuietRelay>, Hand<QuietRelay>)>
    ensures between { IfSome result (λ r. IsBetween CONFIG r.0 r.1) }
    ensures may { IfSome result (λ r. MayNest CONFIG r.0 r.1) }
    ensures hand { IfSome result (λ r. (made_by r.1 ≡ []) × (parts r.1 ≡ 1024) × HasNoTurn r.1) }
{
    let Ok(states) = relay_core::parts(alloc, &CONFIG) else {
        return None;
    };
    let Ok((turns, hand)) = Turns::start(alloc, states) else {
        return None;
    };
    Some((turns, hand))
}
