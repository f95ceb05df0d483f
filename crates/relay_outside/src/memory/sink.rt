ghost use Rattle.std.specs.Prelude.{◌≡◌, ◌↔◌, Some, [], not, IsTrue, IsSome, IsOk, MatchOption};
ghost use Rattle.relay_outside.specs.DeviceLogs.{Gains, HasCause, is_done};
ghost use Rattle.relay_outside.specs.Failures.{next_fails, after_call};

use crate::answers::Failed;
use crate::calls::{CallList, Copied};
use crate::failures::Failing;
use crate::lines::{LineSink, WriteCall};
use std::alloc::Global;
use std::marker::Model;

/// The record of a write; `None` where its line could not be copied.
fn write_call(alloc: Global, line: &[u8], done: bool) -> Option<WriteCall>
    ensures { MatchOption result (Unit {0}) (λ call. call ≡ WriteCall.Write line.now done) }
{
    match Copied::of(alloc, line) {
        Some(line) => Some(WriteCall::Write { line, done }),
        None => None,
    }
}

/// A line sink in memory: it keeps the lines in its list of calls; the writes whose numbers, from 1, it
/// was given fail. A failing write writes nothing.
#[derive(Drop)]
pub struct MemorySink {
    alloc: Global,
    log: CallList<WriteCall>,
    failing: Failing,
}

impl Model for MemorySink {
    ghost use Rattle.relay_outside.specs.SinkTape.{SinkState};

    ghost Value = { SinkState };

    ghost view = { λ sink. record { log = sink.log; failures = sink.failing } };
}

impl MemorySink {
    /// A sink whose writes with these numbers fail.
    pub fn new(alloc: Global, failing: Vec<u64>) -> MemorySink
        ensures { result ≡ record { log = Some []; failures = record { numbers = failing.items; calls = 0; faults = 0 } } }
    {
        MemorySink {
            alloc,
            log: CallList::new(alloc),
            failing: Failing::new(failing),
        }
    }

    /// Whether the sink still keeps its log.
    pub fn tells(&self) -> bool
        ensures { IsTrue result ↔ IsSome self.now.log }
    {
        self.log.tells()
    }

    /// The writes in their order, where they are logged.
    pub fn calls(&self) -> Option<&[WriteCall]>
        ensures { MatchOption result (self.now.log ≡ None) (λ calls. self.now.log ≡ Some calls.now) }
    {
        self.log.get()
    }
}

impl LineSink for MemorySink {
    ghost use Rattle.std.specs.Prelude.{◌≡◌, not};
    ghost use Rattle.relay_outside.specs.DeviceLogs.{Gains, HasCause, is_done};
    ghost use Rattle.relay_outside.specs.Failures.{next_fails, after_call};

    ghost log = { λ sink. sink.log };

    ghost faults = { λ sink. sink.failures.faults };

    fn write(&mut self, line: &[u8]) -> Result<(), Failed>
        ensures log { Gains self.old.log self.new.log (WriteCall.Write line.now (is_done result)) }
        ensures cause { HasCause self.old.failures.faults self.new.failures.faults result }
        ensures fails { next_fails self.old.failures ≡ not (is_done result) }
        ensures counted { self.new.failures ≡ after_call self.old.failures }
    {
        let fails = self.failing.fails();
        let call = write_call(self.alloc, line, !fails);
        self.log.note(call);
        if fails {
            return Err(Failed);
        }
        Ok(())
    }
}

/// A line sink in memory that never fails.
#[derive(Drop)]
pub struct SteadySink {
    alloc: Global,
    log: CallList<WriteCall>,
}

impl Model for SteadySink {
    ghost use Rattle.std.specs.Prelude.{Option, List};
    ghost use Rattle.relay_outside.specs.declared.lines.WriteCall.{WriteCall};

    ghost Value = { Option (List WriteCall) };

    ghost view = { λ sink. sink.log };
}

impl SteadySink {
    /// A sink that has written nothing yet.
    pub fn new(alloc: Global) -> SteadySink
        ensures { result ≡ Some [] }
    {
        SteadySink {
            alloc,
            log: CallList::new(alloc),
        }
    }

    /// Whether the sink still keeps its log.
    pub fn tells(&self) -> bool
        ensures { IsTrue result ↔ IsSome self.now }
    {
        self.log.tells()
    }

    /// The writes in their order, where they are logged.
    pub fn calls(&self) -> Option<&[WriteCall]>
        ensures { MatchOption result (self.now ≡ None) (λ calls. self.now ≡ Some calls.now) }
    {
        self.log.get()
    }
}

impl LineSink for SteadySink {
    ghost use Rattle.std.specs.Prelude.{◌≡◌, IsOk};
    ghost use Rattle.relay_outside.specs.DeviceLogs.{Gains, HasCause, is_done};

    ghost log = { λ sink. sink };

    ghost faults = { λ sink. 0 };

    fn write(&mut self, line: &[u8]) -> Result<(), Failed>
        ensures log { Gains self.old self.new (WriteCall.Write line.now (is_done result)) }
        ensures cause { HasCause 0 0 result }
        ensures done { IsOk result }
    {
        let call = write_call(self.alloc, line, true);
        self.log.note(call);
        Ok(())
    }
}
