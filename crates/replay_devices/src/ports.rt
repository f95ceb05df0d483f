ghost use Rattle.std.specs.Prelude.{◌≡◌, ◌↔◌, ◌≤◌, ◌<◌, ◌+◌, ℕ, Some, None, [], IsTrue, IsSome, IfOk, IfSome, MatchOption, MatchResult, length, min, not, replicate, slice_get, slice_set};
ghost use Rattle.relay_outside.specs.DeviceLogs.{Gains, HasCause, IsOpenedFor, WhereLogged, is_done};
ghost use Rattle.relay_outside.specs.Ports.{IsOpen};
ghost use Rattle.relay_script.specs.declared.step.FailKind.TheVariants as kind;
ghost use Rattle.replay_devices.specs.Countdowns.{next_counted_fails, counted_room, faults_after};
ghost use Rattle.replay_devices.specs.Lines.{Asks, fail_asked_by, failures_of};
ghost use Rattle.replay_devices.specs.Ports.{Opens};

use crate::countdowns::Countdowns;
use crate::ends::{ReplayIn, ReplayOut};
use crate::lines::{asked_at, between, failures_of};
use crate::timetable::Timetable;
use relay_outside::{Addr, CallList, Failed, OutOfMemory, PortCall, PortMaker};
use relay_script::FailKind;
use std::alloc::Global;
use std::marker::Model;

/// How many numbers a port can have.
const PORTS: usize = 65_536;

/// The maker of ports of a replay. The opens fail that lines `fail open` ask for; what the ends of the others give
/// and which of their calls fail, the lines say too.
#[derive(Drop)]
pub struct ReplayPorts<'a> {
    alloc: Global,
    log: CallList<PortCall>,
    timetable: &'a Timetable<'a>,
    step: usize,
    opens: Countdowns,
    /// For each number of a port, the index of the first line after the last open of it that made ends.
    since: Vec<usize>,
    faults: u64,
}

impl<'a> Model for ReplayPorts<'a> {
    ghost use Rattle.std.specs.Prelude.{◌≡◌, ◌≤◌, length, vec_len};
    ghost use Rattle.replay_devices.specs.Ports.{ReplayPortsState};

    ghost Value = { ReplayPortsState };

    ghost view = { λ maker. record { log = maker.log; steps = maker.timetable.now; step = maker.step; opens = maker.opens; since = maker.since.items; faults = maker.faults } };

    ghost invariant = { λ maker. (vec_len maker.since ≡ 65536) × (maker.step ≤ length maker.timetable.now) };
}

impl<'a> ReplayPorts<'a> {
    /// The maker of a replay by this timetable, of whose steps none is made yet. The memory for each failing open
    /// that the lines ask for is taken here.
    pub fn new(alloc: Global, timetable: &'a Timetable<'a>) -> Result<ReplayPorts<'a>, OutOfMemory>
        ensures log { IfOk result (λ maker. maker.log ≡ Some []) }
        ensures steps { IfOk result (λ maker. maker.steps ≡ timetable.now) }
        ensures step { IfOk result (λ maker. maker.step ≡ 0) }
        ensures opens { IfOk result (λ maker. maker.opens ≡ record { list = []; spare = failures_of kind.Open timetable.now }) }
        ensures since { IfOk result (λ maker. maker.since ≡ replicate 65536 0) }
        ensures faults { IfOk result (λ maker. maker.faults ≡ 0) }
    {
        let opens = Countdowns::with_room(alloc, failures_of(FailKind::Open, timetable.steps()))?;
        let since = vec![in alloc; 0; PORTS]?;
        Ok(ReplayPorts {
            alloc,
            log: CallList::new(alloc),
            timetable,
            step: 0,
            opens,
            since,
            faults: 0,
        })
    }

    /// The line of this index, from 0, is made next.
    pub fn begin(&mut self, index: usize)
        ensures log { self.new.log ≡ self.old.log }
        ensures steps { self.new.steps ≡ self.old.steps }
        ensures step { self.new.step ≡ min index (length self.old.steps) }
        ensures opens { Asks (fail_asked_by kind.Open (slice_get self.old.steps index)) self.old.opens self.new.opens }
        ensures since { self.new.since ≡ self.old.since }
        ensures faults { self.new.faults ≡ self.old.faults }
    {
        self.step = index.min(self.timetable.steps().len());
        if let Some(number) = asked_at(FailKind::Open, self.timetable.steps(), index) {
            let _ = self.opens.add(number);
        }
    }

    /// The calls so far: `None` where the maker logs nothing any more.
    pub fn calls(&self) -> Option<&[PortCall]>
        ensures { MatchOption result (self.now.log ≡ None) (λ calls. self.now.log ≡ Some calls.now) }
    {
        self.log.get()
    }

    /// Whether the maker still tells its list, and each of its ends that were given back told its own.
    pub fn tells(&self) -> bool
        ensures { IsTrue result ↔ IsSome self.now.log }
    {
        self.log.tells()
    }
}

/// The record of a closing; `None` where an end logs nothing any more.
fn close_call<'a>(at: Addr, receiving: ReplayIn<'a>, sending: ReplayOut<'a>) -> Option<PortCall>
    ensures call { IfSome result (λ call. call ≡ PortCall.Close at receiving.entry.log.calls sending.entry.log.calls) }
    ensures log { IsSome result → IsSome receiving.entry.log.calls × IsSome sending.entry.log.calls }
{
    if !receiving.tells() || !sending.tells() {
        return None;
    }
    let taken = receiving.into_list();
    let sent = sending.into_list();
    Some(PortCall::Close { at, taken, sent })
}

impl<'a> PortMaker for ReplayPorts<'a> {
    type In = ReplayIn<'a>;

    type Out = ReplayOut<'a>;

    ghost use Rattle.std.specs.Prelude.{◌≡◌, ◌≤◌, ◌+◌, IsSome, IfOk, MatchResult, not, slice_set};
    ghost use Rattle.relay_outside.specs.DeviceLogs.{Gains, HasCause, IsOpenedFor, WhereLogged, is_done};
    ghost use Rattle.relay_outside.specs.Ports.{IsOpen};
    ghost use Rattle.replay_devices.specs.Countdowns.{next_counted_fails, counted_room, faults_after};
    ghost use Rattle.replay_devices.specs.Ports.{Opens};

    ghost log = { λ maker. maker.log };

    ghost faults = { λ maker. maker.faults };

    fn open(&mut self, at: Addr) -> Result<(ReplayIn<'a>, ReplayOut<'a>), Failed>
        requires { WhereLogged self.old.log (λ calls. IsOpen calls at → ⊥) }
        ensures log { Gains self.old.log self.new.log (PortCall.Open at (is_done result)) }
        ensures receiving { IfOk result (λ ends. IsOpenedFor at ends.0.log) }
        ensures sending { IfOk result (λ ends. IsOpenedFor at ends.1.log) }
        ensures cause { HasCause self.old.faults self.new.faults result }
        ensures counted { self.new.faults ≡ faults_after (is_done result) self.old.faults }
        ensures fails { next_counted_fails self.old.opens.list ≡ not (is_done result) }
        ensures ends { IfOk result (λ ends. Opens self.old at ends.0 ends.1) }
        ensures since { MatchResult result (λ _. self.new.since ≡ slice_set self.old.since at.port (self.old.step + 1)) (λ _. self.new.since ≡ self.old.since) }
        ensures left { self.new ≡ record self.old { log = self.new.log; opens = counted_room self.old.opens; since = self.new.since; faults = self.new.faults } }
    {
        let fails = self.opens.next_fails();
        self.opens.count_call();
        if fails {
            self.faults = self.faults.saturating_add(1);
            self.log.note(Some(PortCall::Open { at, done: false }));
            return Err(Failed);
        }
        let steps = self.timetable.steps();
        let from = self.step + 1;
        let port = usize::from(at.port);
        let window = between(steps, self.since[port], self.step);
        self.since[port] = from;
        self.log.note(Some(PortCall::Open { at, done: true }));
        let receiving = ReplayIn::new(self.alloc, self.timetable, at, from);
        let sending = ReplayOut::new(self.alloc, window, at);
        Ok((receiving, sending))
    }

    fn close(&mut self, at: Addr, receiving: ReplayIn<'a>, sending: ReplayOut<'a>)
        requires open { WhereLogged self.old.log (λ calls. IsOpen calls at) }
        requires ends { (receiving.log.at ≡ at) × (sending.log.at ≡ at) }
        ensures log { Gains self.old.log self.new.log (PortCall.Close at receiving.entry.log.calls sending.entry.log.calls) }
        ensures stops { IsSome self.new.log → IsSome receiving.entry.log.calls × IsSome sending.entry.log.calls }
        ensures later { self.old.faults ≤ self.new.faults }
        ensures left { self.new ≡ record self.old { log = self.new.log } }
    {
        let call = close_call(at, receiving, sending);
        self.log.note(call);
    }
}
