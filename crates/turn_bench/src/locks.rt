ghost use Rattle.std.specs.Prelude.{◌≡◌, ℕ, ◌+◌, ◌<◌, ◌≤◌, IfSome, length, vec_len};

use crate::load::{Load, Small};
use crate::own::Own;
use crate::turns::nanos_since;
use std::alloc::Global;
use std::rt::Clock;
use std::sync::{Mutex, Wait};
use std::thread::{Threads, join};
use std::time::Instant;

/// This many locks, of the states from the first on, one after the other and again.
fn lock_rounds<L: Load, R: Wait>(
    rt: &R,
    locks: &[Mutex<L>],
    first: usize,
    places: usize,
    rounds: usize,
)
    requires { (0 < places) × (first + places ≤ length locks.now) }
{
    for round in 0..rounds {
        lock_once(rt, &locks[first + round % places]);
    }
}

fn lock_once<L: Load, R: Wait>(rt: &R, lock: &Mutex<L>) {
    lock.lock(rt).touch();
}

/// This many locks of one state.
fn lock_times<R: Wait>(rt: &R, lock: &Mutex<Small>, rounds: usize) {
    for _ in 0..rounds {
        lock_once(rt, lock);
    }
}

fn lock_two<R: Threads + Wait + Sync>(
    rt: &R,
    one: &Mutex<Small>,
    two: &Mutex<Small>,
    rounds: usize,
) {
    join(
        rt,
        || lock_times(rt, one, rounds),
        || lock_times(rt, two, rounds),
    );
}

/// New states, each after a lock.
fn make_locks<L: Load>(alloc: Global, count: usize) -> Option<Vec<Mutex<L>>>
    ensures { IfSome result (λ v. vec_len v ≡ count) }
{
    let mut locks = Vec::new(alloc);
    while locks.len() < count {
        locks.push(Mutex::new(L::new())).ok()?;
    }
    Some(locks)
}

/// Nanoseconds of this many locks of one thread, over this many states.
pub(crate) fn time_alone<L: Load, R: Wait + Clock>(
    rt: &R,
    alloc: Global,
    places: usize,
    rounds: usize,
) -> Option<u128>
    requires { 0 < places }
{
    let locks = make_locks::<L>(alloc, places)?;
    let start = Instant::now(rt).ok();
    lock_rounds(rt, locks.as_slice(), 0, places, rounds);
    nanos_since(rt, &start)
}

/// Nanoseconds of this many locks of each of two threads.
pub(crate) fn time_two<R: Threads + Wait + Sync + Clock>(
    rt: &R,
    own: Own,
    rounds: usize,
) -> Option<u128> {
    let one = Mutex::new(Small::new());
    let two = Mutex::new(Small::new());
    let start = Instant::now(rt).ok();
    match own {
        Own::Apart | Own::Spread => lock_two(rt, &one, &two, rounds),
        Own::Together => lock_two(rt, &one, &one, rounds),
    }
    nanos_since(rt, &start)
}

/// Nanoseconds of this many locks of each of four threads.
pub(crate) fn time_four<R: Threads + Wait + Sync + Clock>(
    rt: &R,
    own: Own,
    rounds: usize,
) -> Option<u128> {
    let (one, two) = (Mutex::new(Small::new()), Mutex::new(Small::new()));
    let (three, four) = (Mutex::new(Small::new()), Mutex::new(Small::new()));
    let start = Instant::now(rt).ok();
    match own {
        Own::Apart | Own::Spread => {
            join(
                rt,
                || lock_two(rt, &one, &two, rounds),
                || lock_two(rt, &three, &four, rounds),
            );
        }
        Own::Together => {
            join(
                rt,
                || lock_two(rt, &one, &one, rounds),
                || lock_two(rt, &one, &one, rounds),
            );
        }
    }
    nanos_since(rt, &start)
}
