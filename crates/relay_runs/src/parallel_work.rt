//! The control loop and the threads of media, side by side.
//!
//! Each side is behind a trait: the checker follows a borrow into a closure that goes to another thread only where one type is not
//! known by another's associated types, as a hand is by its port maker's ends. Here all of them are plain types.
ghost use Rattle.std.specs.Prelude.{◌≡◌, ◌<◌, ℕ, true, false, All, length, slice_index_or};

use crate::halt::{HaltWord, Over};
use std::marker::Brand;
use std::sync::Wait;
use std::thread::{self, Threads};

/// The control loop over a server `V`, which asks the devices `D`.
pub(crate) trait ControlWork<V, X, D> {
    ghost can_work: { Self → V → D → Type 0 };

    ghost did: { V → X → Self → D → Self → D → Type 0 };

    /// Makes all control turns.
    fn work<W: Wait>(&mut self, rt: &W, server: &V, media: &X, devices: &mut D)
        requires { can_work self.old server.now devices.old }
        ensures { did server.now media.now self.old devices.old self.new devices.new };
}

/// A thread of media over a table `S`. Its relays are handed `X`.
pub(crate) trait MediaWork<S, X> {
    ghost can_work: { Self → S → Type 0 };

    ghost did: { S → X → Self → Self → Type 0 };

    /// After this work it would go on, were the control turns not over.
    ghost goes_on: { Self → Self → Type 0 };

    /// Relays media, until the halt word is set at the latest.
    fn work<W: Wait, F: Over>(&mut self, rt: &W, turns: &S, media: &X, halt: &HaltWord<F>)
        requires { can_work self.old turns.now }
        ensures did { did turns.now media.now self.old self.new }
        ensures over { goes_on self.old self.new → ∥ F.holds ∥₁ };
}

/// What threads of media relay by.
#[derive(Drop)]
pub(crate) struct Relaying<'t, 'm, S, X> {
    /// The table whose hands their lanes have.
    pub(crate) turns: &'t S,
    /// What each relay is handed.
    pub(crate) media: &'m X,
}

/// Runs all threads of media, each in a thread of its own.
fn media_threads<R, S, X, L, F>(
    rt: &R,
    relaying: &Relaying<'_, '_, S, X>,
    halt: &HaltWord<F>,
    threads: &mut [L],
)
where
    R: Threads + Wait + Sync,
    S: Sync,
    X: Sync,
    L: MediaWork<S, X> + Send,
    F: Over + Send + Sync,
    requires some { 0 < length threads.old }
    requires ready { All (λ thread. L.can_work thread relaying.now.turns.now) threads.old }
    ensures did { (i : ℕ) (d : _) → i < length threads.old → L.did relaying.now.turns.now relaying.now.media.now (slice_index_or threads.old i d) (slice_index_or threads.new i d) }
    ensures over { (i : ℕ) (d : _) → i < length threads.old → L.goes_on (slice_index_or threads.old i d) (slice_index_or threads.new i d) → ∥ F.holds ∥₁ }
{
    let count = threads.len();
    thread::for_each_mut(
        rt,
        threads,
        count,
        &|_, thread| { thread.work(rt, relaying.turns, relaying.media, halt) },
    );
}

/// Runs all threads of media after the control turns. Where these did not end as they should, the halt word is set from the start, and else never.
fn run_unless_over<R, S, X, L, F>(
    rt: &R,
    relaying: &Relaying<'_, '_, S, X>,
    threads: &mut Vec<L>,
    went_well: bool,
)
where
    R: Threads + Wait + Sync,
    S: Sync,
    X: Sync,
    L: MediaWork<S, X> + Send,
    F: Over + Send + Sync,
    requires some { 0 < length threads.old.items }
    requires ready { All (λ thread. L.can_work thread relaying.now.turns.now) threads.old.items }
    requires over { went_well ≡ false → ∥ F.holds ∥₁ }
    ensures as_many { length threads.new.items ≡ length threads.old.items }
    ensures threads { (i : ℕ) (d : _) → i < length threads.old.items → L.did relaying.now.turns.now relaying.now.media.now (slice_index_or threads.old.items i d) (slice_index_or threads.new.items i d) }
    ensures over { (i : ℕ) (d : _) → i < length threads.old.items → L.goes_on (slice_index_or threads.old.items i d) (slice_index_or threads.new.items i d) → ∥ F.holds ∥₁ }
{
    let halt: HaltWord<F> = HaltWord::new();
    if !went_well {
        halt.set(rt);
    }
    media_threads(rt, relaying, &halt, threads.as_mut_slice());
}

/// Runs all threads of media after the control turns, each until it has done all its work. Where the control turns did not end as they should, the halt
/// word is set from the start.
pub(crate) fn run_after<R, S, X, L>(
    rt: &R,
    relaying: &Relaying<'_, '_, S, X>,
    threads: &mut Vec<L>,
    went_well: bool,
)
where
    R: Threads + Wait + Sync,
    S: Sync,
    X: Sync,
    L: MediaWork<S, X> + Send,
    requires some { 0 < length threads.old.items }
    requires threads { All (λ thread. L.can_work thread relaying.now.turns.now) threads.old.items }
    ensures as_many { length threads.new.items ≡ length threads.old.items }
    ensures threads { (i : ℕ) (d : _) → i < length threads.old.items → L.did relaying.now.turns.now relaying.now.media.now (slice_index_or threads.old.items i d) (slice_index_or threads.new.items i d) }
    ensures done { went_well ≡ true → (i : ℕ) (d : _) → i < length threads.old.items → L.goes_on (slice_index_or threads.old.items i d) (slice_index_or threads.new.items i d) → ⊥ }
{
    run_unless_over::<R, S, X, L, Brand>(rt, relaying, threads, went_well);
}

/// Makes all control turns in this thread, and then sets the halt word; until it is set media is relayed in as many others as there are threads of media.
/// Where no thread can be started, the control turns are made first, and each thread of media does its work after them: the library
/// runs the first of two closures last then, and so the control loop is the second.
fn run_halted<R, V, S, X, D, M, L, F>(
    rt: &R,
    server: &V,
    relaying: &Relaying<'_, '_, S, X>,
    devices: &mut D,
    control: &mut M,
    threads: &mut [L],
)
where
    R: Threads + Wait + Sync,
    S: Sync,
    X: Sync,
    M: ControlWork<V, X, D>,
    L: MediaWork<S, X> + Send,
    F: Over + Send + Sync,
    requires some { 0 < length threads.old }
    requires control { M.can_work control.old server.now devices.old }
    requires threads { All (λ thread. L.can_work thread relaying.now.turns.now) threads.old }
    requires over { (new : M) (devices_now : D) → M.did server.now relaying.now.media.now control.old devices.old new devices_now → ∥ F.holds ∥₁ }
    ensures control { M.did server.now relaying.now.media.now control.old devices.old control.new devices.new }
    ensures threads { (i : ℕ) (d : _) → i < length threads.old → L.did relaying.now.turns.now relaying.now.media.now (slice_index_or threads.old i d) (slice_index_or threads.new i d) }
{
    let word: HaltWord<F> = HaltWord::new();
    let halt = &word;
    thread::join_mut(
        rt,
        &mut ||
            requires { (0 < length threads.now) × All (λ thread. L.can_work thread relaying.now.turns.now) threads.now }
            ensures { (i : ℕ) (d : _) → i < length threads.entry.now → L.did relaying.entry.now.turns.now relaying.entry.now.media.now (slice_index_or threads.entry.now i d) (slice_index_or threads.exit.now i d) }
        { media_threads(rt, relaying, halt, threads) },
        &mut ||
            requires { M.can_work control.now server.now devices.now × ((new : M) (devices_now : D) → M.did server.now relaying.now.media.now control.now devices.now new devices_now → ∥ F.holds ∥₁) }
            ensures { M.did server.entry.now relaying.entry.now.media.now control.entry.now devices.entry.now control.exit.now devices.exit.now }
        {
            control.work(rt, server, relaying.media, devices);
            halt.set(rt);
        },
    );
}

/// Makes all control turns, with as many threads of media beside them as there are, each until they are over. Without a thread of media the control turns are
/// made alone.
pub(crate) fn run_beside<R, V, S, X, D, M, L>(
    rt: &R,
    server: &V,
    relaying: &Relaying<'_, '_, S, X>,
    devices: &mut D,
    control: &mut M,
    threads: &mut Vec<L>,
)
where
    R: Threads + Wait + Sync,
    S: Sync,
    X: Sync,
    M: ControlWork<V, X, D>,
    L: MediaWork<S, X> + Send,
    requires control { M.can_work control.old server.now devices.old }
    requires threads { All (λ thread. L.can_work thread relaying.now.turns.now) threads.old.items }
    ensures control { M.did server.now relaying.now.media.now control.old devices.old control.new devices.new }
    ensures as_many { length threads.new.items ≡ length threads.old.items }
    ensures threads { (i : ℕ) (d : _) → i < length threads.old.items → L.did relaying.now.turns.now relaying.now.media.now (slice_index_or threads.old.items i d) (slice_index_or threads.new.items i d) }
{
    if threads.is_empty() {
        control.work(rt, server, relaying.media, devices);
        return;
    }
    run_halted::<R, V, S, X, D, M, L, Brand>(
        rt,
        server,
        relaying,
        devices,
        control,
        threads.as_mut_slice(),
    );
}
