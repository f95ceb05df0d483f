ghost use Rattle.std.specs.Prelude.{◌≡◌, ◌↔◌, Some, [], IsTrue, IsSome, IsOk, IfOk, MatchResult, not};
ghost use Rattle.relay_outside.specs.DeviceLogs.{Gains, HasCause, is_done};
ghost use Rattle.relay_outside.specs.Keys.{drawn_as};
ghost use Rattle.relay_outside.specs.KeyTape.{draw_fails, after_draw, GivesKey};
ghost use Rattle.relay_outside.specs.Failures.{uncalled};

use crate::answers::Failed;
use crate::calls::CallList;
use crate::failures::Failing;
use crate::keys::{KeyAndSalt, KeyCall, KeySource};
use std::alloc::Global;
use std::marker::Model;

/// A key source in memory that never runs out: its draw n, from 0, is the eight bytes of n, lowest first,
/// and 22 zero bytes; at 2^64 - 1 the number stays. Keys for tests, never for calls.
#[derive(Drop)]
pub struct SteadyKeys {
    log: CallList<KeyCall>,
    number: u64,
}

impl Model for SteadyKeys {
    ghost use Rattle.relay_outside.specs.KeyTape.{KeyTape};

    ghost Value = { KeyTape };

    ghost view = { λ keys. record { log = keys.log; number = keys.number } };
}

impl SteadyKeys {
    /// A source that has drawn nothing yet.
    pub fn new(alloc: Global) -> SteadyKeys
        ensures { result ≡ record { log = Some []; number = 0 } }
    {
        SteadyKeys {
            log: CallList::new(alloc),
            number: 0,
        }
    }

    /// Whether the source still keeps its log.
    pub fn tells(&self) -> bool
        ensures { IsTrue result ↔ IsSome self.now.log }
    {
        self.log.tells()
    }
}

impl KeySource for SteadyKeys {
    ghost use Rattle.std.specs.Prelude.{◌≡◌, IfOk, IsOk};
    ghost use Rattle.relay_outside.specs.DeviceLogs.{Gains, HasCause};
    ghost use Rattle.relay_outside.specs.Keys.{drawn_as};
    ghost use Rattle.relay_outside.specs.KeyTape.{numbered_key};
    ghost use Rattle.relay_outside.specs.Failures.{next_count};

    ghost log = { λ keys. keys.log };

    ghost faults = { λ keys. 0 };

    fn draw(&mut self) -> Result<KeyAndSalt, Failed>
        ensures log { Gains self.old.log self.new.log (drawn_as result) }
        ensures cause { HasCause 0 0 result }
        ensures done { IsOk result }
        ensures key { IfOk result (λ key. key ≡ numbered_key self.old.number) }
        ensures number { self.new.number ≡ next_count self.old.number }
    {
        let mut key = [0; 30];
        key[..8].copy_from_slice(&self.number.to_le_bytes());
        self.number = self.number.saturating_add(1);
        self.log.note(Some(KeyCall::Drawn { key }));
        Ok(key)
    }
}

/// A key source in memory: its draws give the keys that it was made from, in order. The draws whose
/// numbers, from 1, it was given fail, and so does every draw once no key is left.
///
/// A failing draw gives no key and uses none up. Keys for tests and replayed scripts, never for calls.
/// A draw that fails both by its number and since no key is left counts one fault.
#[derive(Drop)]
pub struct KeyList {
    log: CallList<KeyCall>,
    keys: Vec<KeyAndSalt>,
    next: usize,
    failing: Failing,
}

impl Model for KeyList {
    ghost use Rattle.std.specs.Prelude.{drop};
    ghost use Rattle.relay_outside.specs.KeyTape.{KeyState};

    ghost Value = { KeyState };

    ghost view = { λ list. record { log = list.log; keys = drop list.next list.keys.items; failures = list.failing } };
}

impl KeyList {
    /// A source of these keys, whose draws with these numbers fail.
    pub fn new(alloc: Global, keys: Vec<KeyAndSalt>, failing: Vec<u64>) -> KeyList
        ensures { result ≡ record { log = Some []; keys = keys.items; failures = uncalled failing.items } }
    {
        KeyList {
            log: CallList::new(alloc),
            keys,
            next: 0,
            failing: Failing::new(failing),
        }
    }

    /// Whether the source still keeps its log.
    pub fn tells(&self) -> bool
        ensures { IsTrue result ↔ IsSome self.now.log }
    {
        self.log.tells()
    }
}

impl KeySource for KeyList {
    ghost use Rattle.std.specs.Prelude.{◌≡◌, MatchResult, not};
    ghost use Rattle.relay_outside.specs.DeviceLogs.{Gains, HasCause, is_done};
    ghost use Rattle.relay_outside.specs.Keys.{drawn_as};
    ghost use Rattle.relay_outside.specs.KeyTape.{draw_fails, after_draw, GivesKey};

    ghost log = { λ list. list.log };

    ghost faults = { λ list. list.failures.faults };

    fn draw(&mut self) -> Result<KeyAndSalt, Failed>
        ensures log { Gains self.old.log self.new.log (drawn_as result) }
        ensures cause { HasCause self.old.failures.faults self.new.failures.faults result }
        ensures fails { draw_fails self.old.keys self.old.failures ≡ not (is_done result) }
        ensures counted { self.new.failures ≡ after_draw self.old.keys self.old.failures }
        ensures key { MatchResult result (λ key. GivesKey self.old.keys self.new.keys key) (λ _. self.new.keys ≡ self.old.keys) }
    {
        if self.failing.fails() {
            self.log.note(Some(KeyCall::Failed));
            return Err(Failed);
        }
        let Some(key) = self.keys.get(self.next) else {
            self.failing.fault();
            self.log.note(Some(KeyCall::Failed));
            return Err(Failed);
        };
        self.next += 1;
        self.log.note(Some(KeyCall::Drawn { key: *key }));
        Ok(*key)
    }
}
