ghost use Rattle.std.specs.Prelude.{◌≡◌, [], IfSome};
ghost use Rattle.turn_table.specs.Hands.{parts};
ghost use Rattle.relay_core.specs.Turns.{made_by};
ghost use Rattle.board_turns.specs.Between.{IsBetween};

use media_lane::{Totals, sweep_between};
use relay_core::{Relay, close_relay};
use relay_outside::{Config, HandClock, Ip, MemoryIn, MemoryOut, OpenGate};
use std::alloc::Global;
use std::test::Fail;
use turn_table::{Hand, Turns};

const CONFIG: Config = Config {
    interface: Ip::V4([192, 0, 2, 1]),
    interface6: None,
    port_min: 30_000,
    port_max: 30_003,
    timeout_ms: 60_000,
    offer_timeout_ms: 120_000,
    max_sessions: 2,
};

// The places of a relay, in memory.
type InMemory = Relay<MemoryIn, MemoryOut>;

// A table before its first step, and its main hand.
fn begin(alloc: Global) -> Option<(Turns<InMemory>, Hand<InMemory>)>
    ensures between { IfSome result (λ r. IsBetween CONFIG r.0 r.1) }
    ensures hand { IfSome result (λ r. (made_by r.1 ≡ []) × (parts r.1 ≡ 1024)) }
{
    let Ok(states) = relay_core::parts(alloc, &CONFIG) else {
        return None;
    };
    let Ok((turns, hand)) = Turns::start(alloc, states) else {
        return None;
    };
    Some((turns, hand))
}

#[test]
fn a_sweep_takes_nothing_where_no_call_is(rt: HostRuntime) -> Result<(), Fail> {
    let Some((turns, hand)) = begin(rt.alloc()) else {
        panic!(rt; "no memory");
    };
    let before = Totals {
        taken: 4,
        sent: 3,
        refused: 1,
        lost: 0,
    };
    let mut totals = before;
    let gate = OpenGate::new();
    let clock = HandClock::new(5);
    let hand = sweep_between(&rt, &turns, hand, &CONFIG, &gate, &clock, &mut totals);
    assert!(rt; totals == before, "no box is held");
    let hand = sweep_between(&rt, &turns, hand, &CONFIG, &gate, &clock, &mut totals);
    assert!(rt; totals == before, "no box is held still");
    let places = close_relay(turns, hand);
    assert_eq!(rt; places.len(), 5);
    Ok(())
}
