ghost use Rattle.std.specs.Prelude.{◌≡◌, ◌↔◌, ◌<◌, ◌+◌, ◌∷◌, ℕ, Some, None, Ok, [], IsTrue, IsSome, IfOk, MatchOption, MatchResult, length, take, drop, filter_map, not, slice_get};
ghost use Rattle.relay_outside.specs.DeviceLogs.{Gains, HasCause, is_done};
ghost use Rattle.relay_outside.specs.Keys.{drawn_as};
ghost use Rattle.outside_real.specs.KeyStream.{stream_of};
ghost use Rattle.relay_script.specs.declared.step.FailKind.TheVariants as kind;
ghost use Rattle.replay_devices.specs.Countdowns.{next_counted_fails, counted_room, faults_after};
ghost use Rattle.replay_devices.specs.Lines.{Asks, fail_asked_by, failures_of, scripted_key};
ghost use Rattle.replay_devices.specs.Keys.{unused_keys, GivesNextKey, BeginsAt};

use crate::countdowns::Countdowns;
use crate::lines::{asked_at, between, failures_of};
use outside_real::ChaChaKeys;
use relay_outside::{CallList, Failed, KeyAndSalt, KeyCall, KeySource, OutOfMemory};
use relay_script::{FailKind, Step};
use std::alloc::Global;
use std::marker::Model;

/// The key source of a replay. A draw gives the key of the oldest line `key` before the present line that no draw
/// used up, and else the next key of the ChaCha20 stream of the seed. The draws fail that lines `fail draw` ask
/// for; a failing draw uses nothing up.
#[derive(Drop)]
pub struct ReplayKeys<'a> {
    log: CallList<KeyCall>,
    steps: &'a [Step],
    step: usize,
    next: usize,
    stream: ChaChaKeys,
    draws: Countdowns,
    faults: u64,
}

impl<'a> Model for ReplayKeys<'a> {
    ghost use Rattle.replay_devices.specs.Keys.{KeysState};

    ghost Value = { KeysState };

    ghost view = { λ keys. record { log = keys.log; steps = keys.steps.now; step = keys.step; next = keys.next; stream = keys.stream; draws = keys.draws; faults = keys.faults } };
}

impl<'a> ReplayKeys<'a> {
    /// The keys of a replay of these steps, of which none is made yet, and of this seed. The memory for each failing
    /// draw that the lines ask for is taken here.
    pub fn new(alloc: Global, steps: &'a [Step], seed: u64) -> Result<ReplayKeys<'a>, OutOfMemory>
        ensures log { IfOk result (λ keys. keys.log ≡ Some []) }
        ensures steps { IfOk result (λ keys. keys.steps ≡ steps.now) }
        ensures step { IfOk result (λ keys. keys.step ≡ 0) }
        ensures next { IfOk result (λ keys. keys.next ≡ 0) }
        ensures stream { IfOk result (λ keys. keys.stream ≡ stream_of seed) }
        ensures draws { IfOk result (λ keys. keys.draws ≡ record { list = []; spare = failures_of kind.Draw steps.now }) }
        ensures faults { IfOk result (λ keys. keys.faults ≡ 0) }
    {
        let draws = Countdowns::with_room(alloc, failures_of(FailKind::Draw, steps))?;
        Ok(ReplayKeys {
            log: CallList::new(alloc),
            steps,
            step: 0,
            next: 0,
            stream: ChaChaKeys::from_number(seed),
            draws,
            faults: 0,
        })
    }

    /// The line of this index, from 0, is made next.
    pub fn begin(&mut self, index: usize)
        ensures log { self.new.log ≡ self.old.log }
        ensures steps { self.new.steps ≡ self.old.steps }
        ensures step { self.new.step ≡ index }
        ensures next { self.new.next ≡ self.old.next }
        ensures stream { self.new.stream ≡ self.old.stream }
        ensures draws { Asks (fail_asked_by kind.Draw (slice_get self.old.steps index)) self.old.draws self.new.draws }
        ensures faults { self.new.faults ≡ self.old.faults }
    {
        self.step = index;
        if let Some(number) = asked_at(FailKind::Draw, self.steps, index) {
            let _ = self.draws.add(number);
        }
    }

    /// The draws so far: `None` where the source logs nothing any more.
    pub fn calls(&self) -> Option<&[KeyCall]>
        ensures { MatchOption result (self.now.log ≡ None) (λ calls. self.now.log ≡ Some calls.now) }
    {
        self.log.get()
    }

    /// Whether the source still tells its list.
    pub fn tells(&self) -> bool
        ensures { IsTrue result ↔ IsSome self.now.log }
    {
        self.log.tells()
    }

    /// The oldest unused key of a line, which is then used up.
    fn use_line_key(&mut self) -> Option<KeyAndSalt>
        ensures unused { MatchOption result ((unused_keys self.old ≡ []) × (unused_keys self.new ≡ [])) (λ key. unused_keys self.old ≡ key ∷ unused_keys self.new) }
        ensures same { self.new ≡ record self.old { next = self.new.next } }
    {
        let lines = between(self.steps, self.next, self.step);
        let Some(place) = first_key(lines) else {
            self.next += lines.len();
            return None;
        };
        self.next += place + 1;
        key_of(&lines[place])
    }
}

/// The key of a line `key`.
fn key_of(line: &Step) -> Option<KeyAndSalt>
    ensures { result ≡ scripted_key line.now }
{
    match line {
        Step::Key(key) => Some(*key),
        _ => None,
    }
}

/// Where the first line `key` stands.
fn first_key(lines: &[Step]) -> Option<usize>
    ensures { MatchOption result (filter_map scripted_key lines.now ≡ []) (λ place. BeginsAt place lines.now) }
{
    for (place, line) in lines.iter().enumerate() {
        if key_of(line).is_some() {
            return Some(place);
        }
    }
    None
}

impl<'a> KeySource for ReplayKeys<'a> {
    ghost use Rattle.std.specs.Prelude.{◌≡◌, MatchResult, not};
    ghost use Rattle.relay_outside.specs.DeviceLogs.{Gains, HasCause, is_done};
    ghost use Rattle.relay_outside.specs.Keys.{drawn_as};
    ghost use Rattle.replay_devices.specs.Countdowns.{next_counted_fails, counted_room, faults_after};
    ghost use Rattle.replay_devices.specs.Keys.{unused_keys, GivesNextKey};

    ghost log = { λ keys. keys.log };

    ghost faults = { λ keys. keys.faults };

    fn draw(&mut self) -> Result<KeyAndSalt, Failed>
        ensures log { Gains self.old.log self.new.log (drawn_as result) }
        ensures cause { HasCause self.old.faults self.new.faults result }
        ensures counted { self.new.faults ≡ faults_after (is_done result) self.old.faults }
        ensures fails { next_counted_fails self.old.draws.list ≡ not (is_done result) }
        ensures key { MatchResult result (λ key. GivesNextKey (unused_keys self.old) (unused_keys self.new) self.old.stream self.new.stream key) (λ _. (self.new.next ≡ self.old.next) × (self.new.stream ≡ self.old.stream)) }
        ensures draws { self.new.draws ≡ counted_room self.old.draws }
        ensures steps { self.new.steps ≡ self.old.steps }
        ensures step { self.new.step ≡ self.old.step }
    {
        let fails = self.draws.next_fails();
        self.draws.count_call();
        if fails {
            self.faults = self.faults.saturating_add(1);
            self.log.note(Some(KeyCall::Failed));
            return Err(Failed);
        }
        let key = match self.use_line_key() {
            Some(key) => key,
            None => self.stream.draw()?,
        };
        self.log.note(Some(KeyCall::Drawn { key }));
        Ok(key)
    }
}
