ghost use Rattle.std.specs.Prelude.{◌≡◌, ◌↔◌, ◌≤◌, ◌<◌, Some, None, [], not, IsTrue, IsSome, IfOk, MatchOption, MatchResult, position, length};
ghost use Rattle.relay_outside.specs.DeviceLogs.{Gains, EndGains, HasCause, IsOpenedFor, WhereLogged, is_done};
ghost use Rattle.relay_outside.specs.Ports.{FitsTake, in_given, same_addr, IsOpen};
ghost use Rattle.relay_outside.specs.PortTape.{GivesPacket, in_from, out_from, nothing_at, given_back, MovesOut, MovesBack};
ghost use Rattle.relay_outside.specs.Failures.{uncalled, next_fails, after_call};

use super::ports::{Arrivals, Packet, SteadyIn, SteadyOut, is_same};
use crate::address::Addr;
use crate::answers::Failed;
use crate::calls::CallList;
use crate::failures::Failing;
use crate::ports::{InCall, InEnd, OutCall, OutEnd, PortCall, PortMaker};
use std::alloc::Global;
use std::marker::Model;
use std::mem;

/// The in end of a port in memory: its takes give the packets that were moved to it at its opening, in
/// order, and then nothing; the takes whose numbers, from 1 at its opening, it was given fail.
///
/// A failing take gives no packet and uses none up.
#[derive(Drop)]
pub struct MemoryIn {
    end: SteadyIn,
    failing: Failing,
}

impl Model for MemoryIn {
    ghost use Rattle.relay_outside.specs.PortTape.{InState};

    ghost Value = { InState };

    ghost view = { λ end. record { log = end.end.log; packets = end.end.packets; failures = end.failing } };
}

impl MemoryIn {
    /// Whether the end still keeps its log.
    pub fn tells(&self) -> bool
        ensures { IsTrue result ↔ IsSome self.now.log.calls }
    {
        self.end.tells()
    }

    /// The end's log, and the end with a new one in its place.
    fn without_list(self, alloc: Global) -> (CallList<InCall>, MemoryIn)
        ensures list { result.0 ≡ self.log.calls }
        ensures packets { result.1.packets ≡ self.packets }
        ensures failures { result.1.failures ≡ self.failures }
    {
        let MemoryIn { end, failing } = self;
        let (log, end) = end.without_list(alloc);
        (log, MemoryIn { end, failing })
    }
}

impl InEnd for MemoryIn {
    ghost use Rattle.std.specs.Prelude.{◌≡◌, ◌<◌, MatchResult, length, not};
    ghost use Rattle.relay_outside.specs.DeviceLogs.{EndGains, HasCause, is_done};
    ghost use Rattle.relay_outside.specs.Ports.{FitsTake, in_given};
    ghost use Rattle.relay_outside.specs.PortTape.{GivesPacket};
    ghost use Rattle.relay_outside.specs.Failures.{next_fails, after_call};

    ghost log = { λ end. end.log };

    ghost faults = { λ end. end.failures.faults };

    fn take(&mut self, buf: &mut [u8]) -> Result<Option<(Addr, usize)>, Failed>
        requires { 0 < length buf.old }
        ensures within { FitsTake result (length buf.old) }
        ensures log { EndGains self.old.log self.new.log (InCall.Take (length buf.old) (in_given result buf.new)) }
        ensures cause { HasCause self.old.failures.faults self.new.failures.faults result }
        ensures fails { next_fails self.old.failures ≡ not (is_done result) }
        ensures counted { self.new.failures ≡ after_call self.old.failures }
        ensures packet { MatchResult result (λ answer. GivesPacket self.old.packets self.new.packets answer buf.new) (λ _. (self.new.packets ≡ self.old.packets) × (buf.new ≡ buf.old)) }
    {
        if self.failing.fails() {
            self.end.note_failed(buf.len());
            return Err(Failed);
        }
        Ok(self.end.give(buf))
    }
}

/// The out end of a port in memory: it keeps what is sent in its list of calls; the sends whose numbers,
/// from 1 at its opening, it was given fail. A failing send sends nothing.
#[derive(Drop)]
pub struct MemoryOut {
    end: SteadyOut,
    failing: Failing,
}

impl Model for MemoryOut {
    ghost use Rattle.relay_outside.specs.PortTape.{OutState};

    ghost Value = { OutState };

    ghost view = { λ end. record { log = end.end; failures = end.failing } };
}

impl MemoryOut {
    /// Whether the end still keeps its log.
    pub fn tells(&self) -> bool
        ensures { IsTrue result ↔ IsSome self.now.log.calls }
    {
        self.end.tells()
    }

    /// The end's log, and the end with a new one in its place.
    fn without_list(self, alloc: Global) -> (CallList<OutCall>, MemoryOut)
        ensures list { result.0 ≡ self.log.calls }
        ensures failures { result.1.failures ≡ self.failures }
    {
        let MemoryOut { end, failing } = self;
        let at = end.address();
        let log = end.into_list();
        let end = SteadyOut::new(alloc, at);
        (log, MemoryOut { end, failing })
    }
}

impl OutEnd for MemoryOut {
    ghost use Rattle.std.specs.Prelude.{◌≡◌, not};
    ghost use Rattle.relay_outside.specs.DeviceLogs.{EndGains, HasCause, is_done};
    ghost use Rattle.relay_outside.specs.Failures.{next_fails, after_call};

    ghost log = { λ end. end.log };

    ghost faults = { λ end. end.failures.faults };

    fn send(&mut self, to: Addr, bytes: &[u8]) -> Result<(), Failed>
        ensures log { EndGains self.old.log self.new.log (OutCall.Send to bytes.now (is_done result)) }
        ensures cause { HasCause self.old.failures.faults self.new.failures.faults result }
        ensures fails { next_fails self.old.failures ≡ not (is_done result) }
        ensures counted { self.new.failures ≡ after_call self.old.failures }
    {
        if self.failing.fails() {
            self.end.note_send(to, bytes, false);
            return Err(Failed);
        }
        self.end.note_send(to, bytes, true);
        Ok(())
    }
}

/// What the ends at one address are to give, and which of their calls are to fail.
#[derive(Drop)]
pub struct MemoryPort {
    arrivals: Arrivals,
    takes: Vec<u64>,
    sends: Vec<u64>,
}

impl Model for MemoryPort {
    ghost use Rattle.relay_outside.specs.PortTape.{PortState};

    ghost Value = { PortState };

    ghost view = { λ port. record { at = port.arrivals.0; packets = port.arrivals.1; takes = port.takes.items; sends = port.sends.items } };
}

impl MemoryPort {
    /// These packets, in order, at this address; the numbers of the in end's takes and of the out end's
    /// sends that fail, each counted from 1 at the opening of its end.
    pub fn new(at: Addr, packets: Vec<Packet>, takes: Vec<u64>, sends: Vec<u64>) -> MemoryPort
        ensures { result ≡ record { at = at; packets = packets.items; takes = takes.items; sends = sends.items } }
    {
        MemoryPort {
            arrivals: Arrivals::new(at, packets),
            takes,
            sends,
        }
    }

    /// The ends for an address that get what is here, each with a counter of its own; nothing is left here.
    fn move_out(&mut self, alloc: Global, at: Addr) -> (MemoryIn, MemoryOut)
        ensures receiving { result.0 ≡ in_from at self.old }
        ensures sending { result.1 ≡ out_from at self.old }
        ensures left { self.new ≡ nothing_at self.old.at }
    {
        let takes = mem::replace(&mut self.takes, Vec::new(alloc));
        let sends = mem::replace(&mut self.sends, Vec::new(alloc));
        let receiving = MemoryIn {
            end: self.arrivals.move_out(alloc, at),
            failing: Failing::new(takes),
        };
        let sending = MemoryOut {
            end: SteadyOut::new(alloc, at),
            failing: Failing::new(sends),
        };
        (receiving, sending)
    }

    /// Takes what the ends are left with in place of what is here.
    fn move_in(&mut self, receiving: MemoryIn, sending: MemoryOut)
        ensures { self.new ≡ given_back self.old.at receiving sending }
    {
        let MemoryIn { end, failing } = receiving;
        self.arrivals.move_in(end);
        self.takes = failing.into_numbers();
        let MemoryOut { end: _, failing } = sending;
        self.sends = failing.into_numbers();
    }
}

/// Where the first entry for an address stands.
fn find(ports: &[MemoryPort], at: Addr) -> Option<usize>
    ensures { result ≡ position (λ port. same_addr port.at at) ports.now }
{
    ports
        .iter()
        .position(|port| is_same(port.arrivals.address(), at))
}

/// Ends with what the first entry for their address holds, which is left with nothing.
fn ends_of(alloc: Global, ports: &mut Vec<MemoryPort>, at: Addr) -> (MemoryIn, MemoryOut)
    ensures { MovesOut ports.old.items at result.0 result.1 ports.new.items }
{
    let Some(index) = find(ports.as_slice(), at) else {
        return MemoryPort::new(at, Vec::new(alloc), Vec::new(alloc), Vec::new(alloc)).move_out(
            alloc, at,
        );
    };
    let port = &mut ports[index];
    port.move_out(alloc, at)
}

/// Gives what the ends are left with back to the first entry for their address.
fn take_back(ports: &mut Vec<MemoryPort>, at: Addr, receiving: MemoryIn, sending: MemoryOut)
    ensures { MovesBack ports.old.items at receiving sending ports.new.items }
{
    let Some(index) = find(ports.as_slice(), at) else {
        return;
    };
    let port = &mut ports[index];
    port.move_in(receiving, sending);
}

/// A port maker in memory. The openings whose numbers, from 1, it was given fail; closings aren't
/// counted. The ends that it opens at an address get what the first entry for this address holds: the
/// packets, and the numbers of the calls that fail. Each end counts its own calls, from its opening.
///
/// What an end has not given when it is closed goes back to that entry, and so do the numbers of the
/// failing calls, whether these calls were made or not: at each opening of the address the calls with
/// these numbers fail, counted again. A failing opening moves nothing.
#[derive(Drop)]
pub struct MemoryMaker {
    alloc: Global,
    log: CallList<PortCall>,
    ports: Vec<MemoryPort>,
    failing: Failing,
}

impl Model for MemoryMaker {
    ghost use Rattle.relay_outside.specs.PortTape.{MakerState};

    ghost Value = { MakerState };

    ghost view = { λ maker. record { log = maker.log; ports = maker.ports.items; failures = maker.failing } };
}

impl MemoryMaker {
    /// A maker whose ends are to give and to fail as these entries say, and whose openings with these
    /// numbers fail.
    pub fn new(alloc: Global, ports: Vec<MemoryPort>, failing: Vec<u64>) -> MemoryMaker
        ensures { result ≡ record { log = Some []; ports = ports.items; failures = uncalled failing.items } }
    {
        MemoryMaker {
            alloc,
            log: CallList::new(alloc),
            ports,
            failing: Failing::new(failing),
        }
    }

    /// Whether the maker still keeps its log.
    pub fn tells(&self) -> bool
        ensures { IsTrue result ↔ IsSome self.now.log }
    {
        self.log.tells()
    }

    /// The openings and closings in their order, where they are logged.
    pub fn calls(&self) -> Option<&[PortCall]>
        ensures { MatchOption result (self.now.log ≡ None) (λ calls. self.now.log ≡ Some calls.now) }
    {
        self.log.get()
    }
}

impl PortMaker for MemoryMaker {
    type In = MemoryIn;

    type Out = MemoryOut;

    ghost use Rattle.std.specs.Prelude.{◌≡◌, ◌≤◌, IfOk, MatchResult, not};
    ghost use Rattle.relay_outside.specs.DeviceLogs.{Gains, HasCause, IsOpenedFor, WhereLogged, is_done};
    ghost use Rattle.relay_outside.specs.Ports.{IsOpen};
    ghost use Rattle.relay_outside.specs.PortTape.{MovesOut, MovesBack};
    ghost use Rattle.relay_outside.specs.Failures.{next_fails, after_call};

    ghost log = { λ maker. maker.log };

    ghost faults = { λ maker. maker.failures.faults };

    fn open(&mut self, at: Addr) -> Result<(MemoryIn, MemoryOut), Failed>
        requires { WhereLogged self.old.log (λ calls. IsOpen calls at → ⊥) }
        ensures log { Gains self.old.log self.new.log (PortCall.Open at (is_done result)) }
        ensures receiving { IfOk result (λ ends. IsOpenedFor at ends.0.log) }
        ensures sending { IfOk result (λ ends. IsOpenedFor at ends.1.log) }
        ensures cause { HasCause self.old.failures.faults self.new.failures.faults result }
        ensures fails { next_fails self.old.failures ≡ not (is_done result) }
        ensures counted { self.new.failures ≡ after_call self.old.failures }
        ensures moved { MatchResult result (λ ends. MovesOut self.old.ports at ends.0 ends.1 self.new.ports) (λ _. self.new.ports ≡ self.old.ports) }
    {
        if self.failing.fails() {
            self.log.note(Some(PortCall::Open { at, done: false }));
            return Err(Failed);
        }
        let ends = ends_of(self.alloc, &mut self.ports, at);
        self.log.note(Some(PortCall::Open { at, done: true }));
        Ok(ends)
    }

    fn close(&mut self, at: Addr, receiving: MemoryIn, sending: MemoryOut)
        requires open { WhereLogged self.old.log (λ calls. IsOpen calls at) }
        requires ends { (receiving.log.at ≡ at) × (sending.log.at ≡ at) }
        ensures log { Gains self.old.log self.new.log (PortCall.Close at receiving.log.calls sending.log.calls) }
        ensures later { self.old.failures.faults ≤ self.new.failures.faults }
        ensures uncounted { self.new.failures ≡ self.old.failures }
        ensures back { MovesBack self.old.ports at receiving sending self.new.ports }
    {
        let (taken, receiving) = receiving.without_list(self.alloc);
        let (sent, sending) = sending.without_list(self.alloc);
        self.log.note(Some(PortCall::Close { at, taken, sent }));
        take_back(&mut self.ports, at, receiving, sending);
    }
}
