ghost use Rattle.std.specs.Prelude.{◌≡◌, ◌↔◌, ◌≤◌, ◌<◌, ◌+◌, ℕ, true, Some, None, Ok, [], List, IsTrue, IsSome, IfOk, OnErr, MatchOption, length, not};
ghost use Rattle.relay_outside.specs.DeviceLogs.{EndGains, HasCause, is_done, opened_for};
ghost use Rattle.relay_outside.specs.Ports.{FitsTake, in_given};
ghost use Rattle.relay_outside.specs.Failures.{next_count};
ghost use Rattle.replay_devices.specs.Countdowns.{faults_after};
ghost use Rattle.replay_devices.specs.Ports.{TakesFirstLine, next_send_fails, lesser, IsNextFailing};
ghost use Rattle.replay_devices.specs.Lines.{is_number};

use crate::lines::{fill, send_failure};
use crate::timetable::Timetable;
use relay_outside::{Addr, CallList, Copied, Failed, InCall, InEnd, InGiven, OutCall, OutEnd};
use relay_script::Step;
use std::alloc::Global;
use std::marker::Model;

/// The receiving end of a port in a replay. Its takes give, in order, the packets of the lines `take` and `packet`
/// at its port after the line at which it was opened, and then nothing. A take fails where a line `fail take` asks
/// for it; the packet of that line is dropped.
#[derive(Drop)]
pub struct ReplayIn<'a> {
    alloc: Global,
    log: CallList<InCall>,
    timetable: &'a Timetable<'a>,
    at: Addr,
    next: usize,
    faults: u64,
}

impl<'a> Model for ReplayIn<'a> {
    ghost use Rattle.replay_devices.specs.Ports.{ReplayInState};

    ghost Value = { ReplayInState };

    ghost view = { λ end. record { log = record { at = end.at; calls = end.log }; steps = end.timetable.now; next = end.next; faults = end.faults } };
}

impl<'a> ReplayIn<'a> {
    /// An end for an address that was not called yet, with the lines from an index on.
    pub(crate) fn new(
        alloc: Global,
        timetable: &'a Timetable<'a>,
        at: Addr,
        next: usize,
    ) -> ReplayIn<'a>
        ensures { result ≡ record { log = opened_for at; steps = timetable.now; next = next; faults = 0 } }
    {
        ReplayIn {
            alloc,
            log: CallList::new(alloc),
            timetable,
            at,
            next,
            faults: 0,
        }
    }

    /// Whether the end still tells its list.
    pub fn tells(&self) -> bool
        ensures { IsTrue result ↔ IsSome self.now.log.calls }
    {
        self.log.tells()
    }

    /// What the end told of its calls.
    pub(crate) fn into_list(self) -> CallList<InCall>
        ensures { result ≡ self.entry.log.calls }
    {
        let ReplayIn { log, .. } = self;
        log
    }
}

impl<'a> InEnd for ReplayIn<'a> {
    ghost use Rattle.std.specs.Prelude.{◌≡◌, ◌<◌, OnErr, length};
    ghost use Rattle.relay_outside.specs.DeviceLogs.{EndGains, HasCause, is_done};
    ghost use Rattle.relay_outside.specs.Ports.{FitsTake, in_given};
    ghost use Rattle.replay_devices.specs.Countdowns.{faults_after};
    ghost use Rattle.replay_devices.specs.Ports.{TakesFirstLine};

    ghost log = { λ end. end.log };

    ghost faults = { λ end. end.faults };

    fn take(&mut self, buf: &mut [u8]) -> Result<Option<(Addr, usize)>, Failed>
        requires { 0 < length buf.old }
        ensures within { FitsTake result (length buf.old) }
        ensures log { EndGains self.old.log self.new.log (InCall.Take (length buf.old) (in_given result buf.new)) }
        ensures cause { HasCause self.old.faults self.new.faults result }
        ensures counted { self.new.faults ≡ faults_after (is_done result) self.old.faults }
        ensures takes { TakesFirstLine self.old self.new result buf.new }
        ensures kept { OnErr result (buf.new ≡ buf.old) }
        ensures same { self.new ≡ record self.old { log = self.new.log; next = self.new.next; faults = self.new.faults } }
    {
        let room = buf.len();
        let Some(index) = self.timetable.next_line(self.at, self.next) else {
            let given = InGiven::Nothing;
            self.log.note(Some(InCall::Take { room, given }));
            return Ok(None);
        };
        self.next = index + 1;
        if self.timetable.take_fails(index) {
            self.faults = self.faults.saturating_add(1);
            let given = InGiven::Failed;
            self.log.note(Some(InCall::Take { room, given }));
            return Err(Failed);
        }
        let Some((from, bytes)) = self.timetable.packet(index) else {
            let given = InGiven::Nothing;
            self.log.note(Some(InCall::Take { room, given }));
            return Ok(None);
        };
        let len = fill(buf, bytes);
        let call = arrival_call(self.alloc, room, from, &buf[..len]);
        self.log.note(call);
        Ok(Some((from, len)))
    }
}

/// The record of a take that gave a packet; `None` where its bytes could not be copied.
fn arrival_call(alloc: Global, room: usize, from: Addr, bytes: &[u8]) -> Option<InCall>
    ensures { MatchOption result (Unit {0}) (λ call. call ≡ InCall.Take room (InGiven.Datagram from bytes.now)) }
{
    match Copied::of(alloc, bytes) {
        Some(bytes) => {
            let given = InGiven::Datagram { from, bytes };
            Some(InCall::Take { room, given })
        }
        None => None,
    }
}

/// The least number above those of the sends that were made which a line `fail send` of this port has.
fn next_failing(window: &[Step], port: u16, sends: u64) -> Option<u32>
    ensures { IsNextFailing port sends window.now result }
{
    let mut least = None;
    for step in window {
        if let Some(number) = send_failure(port, step) {
            if u64::from(number) > sends {
                least = Some(lesser(least, number));
            }
        }
    }
    least
}

/// The lesser of two numbers, of which there may be one alone.
fn lesser(least: Option<u32>, number: u32) -> u32
    ensures { result ≡ lesser least number }
{
    match least {
        Some(least) => least.min(number),
        None => number,
    }
}

/// The sending end of a port in a replay. It keeps what is sent in its list of calls. A send fails whose number,
/// from 1, a line `fail send` of its port has that stands between the last open of that port before, if one made an
/// end, and the line at which this end was opened.
#[derive(Drop)]
pub struct ReplayOut<'a> {
    alloc: Global,
    log: CallList<OutCall>,
    window: &'a [Step],
    at: Addr,
    sends: u64,
    /// The number of the next send that fails.
    failing: Option<u32>,
    faults: u64,
}

impl<'a> Model for ReplayOut<'a> {
    ghost use Rattle.replay_devices.specs.Ports.{ReplayOutState, IsNextFailing};

    ghost Value = { ReplayOutState };

    ghost view = { λ end. record { log = record { at = end.at; calls = end.log }; window = end.window.now; sends = end.sends; faults = end.faults } };

    ghost invariant = { λ end. IsNextFailing end.at.port end.sends end.window.now end.failing };
}

impl<'a> ReplayOut<'a> {
    /// An end for an address that was not called yet, whose sends fail by these lines.
    pub(crate) fn new(alloc: Global, window: &'a [Step], at: Addr) -> ReplayOut<'a>
        ensures { result ≡ record { log = opened_for at; window = window.now; sends = 0; faults = 0 } }
    {
        ReplayOut {
            alloc,
            log: CallList::new(alloc),
            window,
            at,
            sends: 0,
            failing: next_failing(window, at.port, 0),
            faults: 0,
        }
    }

    /// Whether the end still tells its list.
    pub fn tells(&self) -> bool
        ensures { IsTrue result ↔ IsSome self.now.log.calls }
    {
        self.log.tells()
    }

    /// What the end told of its calls.
    pub(crate) fn into_list(self) -> CallList<OutCall>
        ensures { result ≡ self.entry.log.calls }
    {
        let ReplayOut { log, .. } = self;
        log
    }
}

impl<'a> OutEnd for ReplayOut<'a> {
    ghost use Rattle.std.specs.Prelude.{◌≡◌, not};
    ghost use Rattle.relay_outside.specs.DeviceLogs.{EndGains, HasCause, is_done};
    ghost use Rattle.relay_outside.specs.Failures.{next_count};
    ghost use Rattle.replay_devices.specs.Countdowns.{faults_after};
    ghost use Rattle.replay_devices.specs.Ports.{next_send_fails};

    ghost log = { λ end. end.log };

    ghost faults = { λ end. end.faults };

    fn send(&mut self, to: Addr, bytes: &[u8]) -> Result<(), Failed>
        ensures log { EndGains self.old.log self.new.log (OutCall.Send to bytes.now (is_done result)) }
        ensures cause { HasCause self.old.faults self.new.faults result }
        ensures counted { self.new.faults ≡ faults_after (is_done result) self.old.faults }
        ensures fails { next_send_fails self.old ≡ not (is_done result) }
        ensures left { self.new ≡ record self.old { log = self.new.log; sends = next_count self.old.sends; faults = self.new.faults } }
    {
        let number = self.sends.saturating_add(1);
        let fails = is_number(self.failing, number);
        self.sends = number;
        if fails {
            self.failing = next_failing(self.window, self.at.port, number);
        }
        let call = departure_call(self.alloc, to, bytes, !fails);
        self.log.note(call);
        if fails {
            self.faults = self.faults.saturating_add(1);
            return Err(Failed);
        }
        Ok(())
    }
}

/// Whether the number is this one.
fn is_number(failing: Option<u32>, number: u64) -> bool
    ensures { result ≡ is_number failing number }
{
    match failing {
        Some(failing) => u64::from(failing) == number,
        None => false,
    }
}

/// The record of a send; `None` where its bytes could not be copied.
fn departure_call(alloc: Global, to: Addr, bytes: &[u8], done: bool) -> Option<OutCall>
    ensures { MatchOption result (Unit {0}) (λ call. call ≡ OutCall.Send to bytes.now done) }
{
    match Copied::of(alloc, bytes) {
        Some(bytes) => Some(OutCall::Send { to, bytes, done }),
        None => None,
    }
}
