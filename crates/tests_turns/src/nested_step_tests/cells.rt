ghost use Rattle.std.specs.Prelude.{◌≡◌, ◌∷◌, [], IfOk};
ghost use Rattle.port_pool.specs.Signals.{NewKey};
ghost use Rattle.call_cell.specs.Preparations.{IsReady, PrepareFor, added, prepared_keys, drops_of};

use crate::first_relay::{CONFIG, begin};
use crate::quiet_devices::Mute;
use board_turns::{
    BoardEntryId, MainHand, commit_cell, end_cell, expire_cell, prepare_cell, read_cell,
};
use call_cell::{Gone, InContexts, LegReports, Prepare};
use port_pool::{Side, Signal};
use relay_outside::OutOfMemory;
use sdes_lines::Suite;
use srtp_keys::DrawnKey;
use std::alloc::Global;

// An offer without a leg: a key, and a section that is dropped.
fn offer(alloc: Global) -> Result<Prepare<Mute>, OutOfMemory>
    ensures tells { IfOk result (λ signal. PrepareFor signal (prepared_keys signal) (drops_of signal)) }
    ensures ready { IfOk result (λ signal. IsReady signal × (added signal ≡ [])) }
    ensures keys { IfOk result (λ signal. (key : NewKey) × (prepared_keys signal ≡ key ∷ [])) }
{
    let mut signal = Prepare::reserve(alloc, 0, 1)?;
    let key = DrawnKey::from_draw(7, [9; 30]);
    signal.add_key(0, Side::A, key, Suite::Tag80);
    signal.drop_section(3);
    Ok(signal)
}

fn at(number: u64, moment: u64) -> BoardEntryId {
    BoardEntryId { number, moment }
}

#[test]
fn a_call_is_prepared_asked_and_ended(rt: HostRuntime) {
    let alloc = rt.alloc();
    let Ok(signal) = offer(alloc) else {
        panic!(rt; "no memory");
    };
    let Ok(mut dropped) = Gone::new(alloc) else {
        panic!(rt; "no memory");
    };
    let Ok(mut ended) = Gone::new(alloc) else {
        panic!(rt; "no memory");
    };
    let Some((turns, mut hand)) = begin(alloc) else {
        panic!(rt; "no memory");
    };
    let mut main = MainHand {
        turns: &turns,
        config: &CONFIG,
        hand: &mut hand,
        entry_id: at(0, 5),
    };
    prepare_cell(&rt, &mut main, 1, 0, signal, &mut dropped);
    let mut main = MainHand {
        turns: &turns,
        config: &CONFIG,
        hand: &mut hand,
        entry_id: at(1, 120_004),
    };
    let young = expire_cell(&rt, &mut main, 1);
    let mut main = MainHand {
        turns: &turns,
        config: &CONFIG,
        hand: &mut hand,
        entry_id: at(2, 120_005),
    };
    let old = expire_cell(&rt, &mut main, 1);
    let mut main = MainHand {
        turns: &turns,
        config: &CONFIG,
        hand: &mut hand,
        entry_id: at(3, 120_006),
    };
    end_cell(&rt, &mut main, 1, &mut ended);
    let mut main = MainHand {
        turns: &turns,
        config: &CONFIG,
        hand: &mut hand,
        entry_id: at(4, 999_999),
    };
    let gone = expire_cell(&rt, &mut main, 1);
    drop(turns.close(hand));
    assert!(rt;
        !young && old,
        "it is due as long after its offer as the timeout"
    );
    assert!(rt; !gone, "no call is due where it ended");
    assert!(rt;
        dropped.pop().is_none() && ended.pop().is_none(),
        "it had no leg"
    );
}

#[test]
fn a_committed_call_is_due_by_its_last_answer(rt: HostRuntime) {
    let alloc = rt.alloc();
    let Ok(signal) = Signal::new(alloc) else {
        panic!(rt; "no memory");
    };
    let Ok(contexts) = InContexts::reserve(alloc, 0) else {
        panic!(rt; "no memory");
    };
    let Ok(mut rejected) = Gone::new(alloc) else {
        panic!(rt; "no memory");
    };
    let Some((turns, mut hand)) = begin(alloc) else {
        panic!(rt; "no memory");
    };
    let mut main = MainHand {
        turns: &turns,
        config: &CONFIG,
        hand: &mut hand,
        entry_id: at(0, 200_000),
    };
    commit_cell(&rt, &mut main, 2, &signal, contexts, &mut rejected);
    let mut main = MainHand {
        turns: &turns,
        config: &CONFIG,
        hand: &mut hand,
        entry_id: at(1, 259_999),
    };
    let young = expire_cell(&rt, &mut main, 2);
    let mut main = MainHand {
        turns: &turns,
        config: &CONFIG,
        hand: &mut hand,
        entry_id: at(2, 260_000),
    };
    let old = expire_cell(&rt, &mut main, 2);
    drop(turns.close(hand));
    assert!(rt; !young && old && rejected.pop().is_none());
}

#[test]
fn a_cell_without_a_leg_tells_of_none(rt: HostRuntime) {
    let alloc = rt.alloc();
    let Ok(mut log) = LegReports::new(alloc) else {
        panic!(rt; "no memory");
    };
    let Some((turns, mut hand)) = begin(alloc) else {
        panic!(rt; "no memory");
    };
    let mut main = MainHand {
        turns: &turns,
        config: &CONFIG,
        hand: &mut hand,
        entry_id: at(0, 5),
    };
    read_cell(&rt, &mut main, 1, &mut log);
    drop(turns.close(hand));
    assert!(rt; log.len() == 0);
}
