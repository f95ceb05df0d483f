use crate::first_relay::{CONFIG, begin};
use crate::quiet_devices::QuietPorts;
use board_turns::{Between, stop_turn, tick_turn};
use call_cell::Gone;
use relay_core::close_relay;

#[test]
fn a_stop_without_a_call_ends_none(rt: HostRuntime) {
    let Ok(mut gone) = Gone::new(rt.alloc()) else {
        panic!(rt; "no memory");
    };
    let Some((turns, mut hand)) = begin(rt.alloc()) else {
        panic!(rt; "no memory");
    };
    let mut at = Between {
        turns: &turns,
        config: &CONFIG,
        hand: &mut hand,
        ports: &mut QuietPorts,
        gone: &mut gone,
    };
    let count = stop_turn(&rt, &mut at);
    assert!(rt; count == 0 && gone.pop().is_none());
    let places = close_relay(turns, hand);
    assert!(rt; places.len() == 5);
}

#[test]
fn a_tick_without_a_call_ends_none(rt: HostRuntime) {
    let Ok(mut gone) = Gone::new(rt.alloc()) else {
        panic!(rt; "no memory");
    };
    let Some((turns, mut hand)) = begin(rt.alloc()) else {
        panic!(rt; "no memory");
    };
    let mut at = Between {
        turns: &turns,
        config: &CONFIG,
        hand: &mut hand,
        ports: &mut QuietPorts,
        gone: &mut gone,
    };
    let count = tick_turn(&rt, &mut at, 5);
    assert!(rt; count == 0 && gone.pop().is_none());
    let places = close_relay(turns, hand);
    assert!(rt; places.len() == 5);
}
