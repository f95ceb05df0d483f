ghost use Rattle.std.specs.Prelude.{◌≡◌, ◌↔◌, ◌≤◌, ◌<◌, ℕ, true, Some, None, Ok, [], List, IsTrue, IsSome, IsOk, IfOk, MatchOption, position, drop, length};
ghost use Rattle.relay_outside.specs.DeviceLogs.{Gains, EndGains, opened_for};
ghost use Rattle.relay_outside.specs.Ports.{FitsTake, in_given, same_addr};
ghost use Rattle.relay_outside.specs.PortTape.{GivesPacket, Moves, GoesBack};

use super::fill::fill;
use crate::address::Addr;
use crate::answers::{Failed, OutOfMemory};
use crate::calls::{CallList, Copied};
use crate::ports::{InCall, InEnd, InGiven, OutCall, OutEnd, PortCall, PortMaker};
use std::alloc::Global;
use std::marker::Model;
use std::mem;

/// What a take of an in end in memory is to give.
#[derive(Drop)]
pub enum Packet {
    /// A datagram.
    Datagram {
        /// Where it comes from.
        from: Addr,
        /// Its bytes.
        bytes: Copied,
    },
    /// Nothing is there.
    Nothing,
}

impl Packet {
    /// A datagram with a copy of these bytes.
    pub fn datagram(alloc: Global, from: Addr, bytes: &[u8]) -> Result<Packet, OutOfMemory>
        ensures { IfOk result (λ packet. packet ≡ Packet.Datagram from bytes.now) }
    {
        match Copied::of(alloc, bytes) {
            Some(bytes) => Ok(Packet::Datagram { from, bytes }),
            None => Err(OutOfMemory),
        }
    }
}

/// The record of a take that gave a datagram; `None` where its bytes could not be copied.
fn arrival_call(alloc: Global, room: usize, from: Addr, bytes: &[u8]) -> Option<InCall>
    ensures { MatchOption result (Unit {0}) (λ call. call ≡ InCall.Take room (InGiven.Datagram from bytes.now)) }
{
    match Copied::of(alloc, bytes) {
        Some(bytes) => {
            let given = InGiven::Datagram { from, bytes };
            Some(InCall::Take { room, given })
        }
        None => None,
    }
}

/// The record of a send; `None` where its bytes could not be copied.
fn departure_call(alloc: Global, to: Addr, bytes: &[u8], done: bool) -> Option<OutCall>
    ensures { MatchOption result (Unit {0}) (λ call. call ≡ OutCall.Send to bytes.now done) }
{
    match Copied::of(alloc, bytes) {
        Some(bytes) => Some(OutCall::Send { to, bytes, done }),
        None => None,
    }
}

/// The in end of a port in memory that never fails: its takes give the packets that were moved to it at
/// its opening, in order, and then nothing.
#[derive(Drop)]
pub struct SteadyIn {
    alloc: Global,
    at: Addr,
    log: CallList<InCall>,
    packets: Vec<Packet>,
    next: usize,
}

impl Model for SteadyIn {
    ghost use Rattle.std.specs.Prelude.{drop};
    ghost use Rattle.relay_outside.specs.PortTape.{InTape};

    ghost Value = { InTape };

    ghost view = { λ end. record { log = record { at = end.at; calls = end.log }; packets = drop end.next end.packets.items } };
}

impl SteadyIn {
    /// An end for an address that was not called yet, with the packets from a place on.
    pub(super) fn with(alloc: Global, at: Addr, packets: Vec<Packet>, next: usize) -> SteadyIn
        ensures log { result.log ≡ opened_for at }
        ensures packets { result.packets ≡ drop next packets.items }
    {
        SteadyIn {
            alloc,
            at,
            log: CallList::new(alloc),
            packets,
            next,
        }
    }

    /// Whether a take still gives something.
    fn has_more(&self) -> bool
        ensures { IsTrue result ↔ (0 < length self.now.packets) }
    {
        self.next < self.packets.len()
    }

    /// The end's log, and the end with a new one in its place.
    pub(super) fn without_list(self, alloc: Global) -> (CallList<InCall>, SteadyIn)
        ensures list { result.0 ≡ self.log.calls }
        ensures packets { result.1.packets ≡ self.packets }
    {
        let SteadyIn {
            alloc: _,
            at,
            log,
            packets,
            next,
        } = self;
        (log, SteadyIn::with(alloc, at, packets, next))
    }

    /// Gives the next packet, if there is one, and logs it.
    pub(super) fn give(&mut self, buf: &mut [u8]) -> Option<(Addr, usize)>
        ensures within { FitsTake (Ok result) (length buf.old) }
        ensures log { EndGains self.old.log self.new.log (InCall.Take (length buf.old) (in_given (Ok result) buf.new)) }
        ensures packet { GivesPacket self.old.packets self.new.packets result buf.new }
    {
        let room = buf.len();
        let Some(packet) = self.packets.get(self.next) else {
            let given = InGiven::Nothing;
            self.log.note(Some(InCall::Take { room, given }));
            return None;
        };
        self.next += 1;
        match packet {
            Packet::Datagram { from, bytes } => {
                let len = fill(buf, bytes.as_slice());
                let call = arrival_call(self.alloc, room, *from, &buf[..len]);
                self.log.note(call);
                Some((*from, len))
            }
            Packet::Nothing => {
                let given = InGiven::Nothing;
                self.log.note(Some(InCall::Take { room, given }));
                None
            }
        }
    }

    /// Tells of a take that failed.
    pub(super) fn note_failed(&mut self, room: usize)
        ensures log { EndGains self.old.log self.new.log (InCall.Take room InGiven.Failed) }
        ensures packets { self.new.packets ≡ self.old.packets }
    {
        let given = InGiven::Failed;
        self.log.note(Some(InCall::Take { room, given }));
    }

    /// Whether the end still keeps its log.
    pub fn tells(&self) -> bool
        ensures { IsTrue result ↔ IsSome self.now.log.calls }
    {
        self.log.tells()
    }
}

impl InEnd for SteadyIn {
    ghost use Rattle.std.specs.Prelude.{◌≡◌, ◌<◌, IfOk, IsOk, length};
    ghost use Rattle.relay_outside.specs.DeviceLogs.{EndGains, HasCause};
    ghost use Rattle.relay_outside.specs.Ports.{FitsTake, in_given};
    ghost use Rattle.relay_outside.specs.PortTape.{GivesPacket};

    ghost log = { λ end. end.log };

    ghost faults = { λ end. 0 };

    fn take(&mut self, buf: &mut [u8]) -> Result<Option<(Addr, usize)>, Failed>
        requires { 0 < length buf.old }
        ensures within { FitsTake result (length buf.old) }
        ensures log { EndGains self.old.log self.new.log (InCall.Take (length buf.old) (in_given result buf.new)) }
        ensures cause { HasCause 0 0 result }
        ensures done { IsOk result }
        ensures packet { IfOk result (λ answer. GivesPacket self.old.packets self.new.packets answer buf.new) }
    {
        Ok(self.give(buf))
    }
}

/// The out end of a port in memory that never fails.
#[derive(Drop)]
pub struct SteadyOut {
    alloc: Global,
    at: Addr,
    log: CallList<OutCall>,
}

impl Model for SteadyOut {
    ghost use Rattle.relay_outside.specs.DeviceLogs.{EndLog};
    ghost use Rattle.relay_outside.specs.declared.ports.OutCall.{OutCall};

    ghost Value = { EndLog OutCall };

    ghost view = { λ end. record { at = end.at; calls = end.log } };
}

impl SteadyOut {
    /// An end for an address that was not called yet.
    pub(super) fn new(alloc: Global, at: Addr) -> SteadyOut
        ensures { result ≡ opened_for at }
    {
        SteadyOut {
            alloc,
            at,
            log: CallList::new(alloc),
        }
    }

    /// Tells of a send.
    pub(super) fn note_send(&mut self, to: Addr, bytes: &[u8], done: bool)
        ensures { EndGains self.old self.new (OutCall.Send to bytes.now done) }
    {
        let call = departure_call(self.alloc, to, bytes, done);
        self.log.note(call);
    }

    /// The address that the end was opened for.
    pub(super) fn address(&self) -> Addr
        ensures { result ≡ self.now.at }
    {
        self.at
    }

    /// The end's log.
    pub(super) fn into_list(self) -> CallList<OutCall>
        ensures { result ≡ self.calls }
    {
        let SteadyOut {
            alloc: _,
            at: _,
            log,
        } = self;
        log
    }

    /// Whether the end still keeps its log.
    pub fn tells(&self) -> bool
        ensures { IsTrue result ↔ IsSome self.now.calls }
    {
        self.log.tells()
    }
}

impl OutEnd for SteadyOut {
    ghost use Rattle.std.specs.Prelude.{◌≡◌, IsOk};
    ghost use Rattle.relay_outside.specs.DeviceLogs.{EndGains, HasCause, is_done};

    ghost log = { λ end. end };

    ghost faults = { λ end. 0 };

    fn send(&mut self, to: Addr, bytes: &[u8]) -> Result<(), Failed>
        ensures log { EndGains self.old self.new (OutCall.Send to bytes.now (is_done result)) }
        ensures cause { HasCause 0 0 result }
        ensures done { IsOk result }
    {
        self.note_send(to, bytes, true);
        Ok(())
    }
}

/// Whether two transport addresses are the same.
pub(super) fn is_same(a: Addr, b: Addr) -> bool
    ensures same { IsTrue result ↔ (a ≡ b) }
    ensures test { result ≡ same_addr a b }
{
    a == b
}

/// What the takes at one address are to give.
#[derive(Drop)]
pub struct Arrivals {
    at: Addr,
    packets: Vec<Packet>,
    next: usize,
}

impl Model for Arrivals {
    ghost use Rattle.std.specs.Prelude.{List, drop};
    ghost use Rattle.relay_outside.specs.declared.address.Addr.{Addr};
    ghost use Rattle.relay_outside.specs.declared.memory.ports.Packet.{Packet};

    ghost Value = { Addr × List Packet };

    ghost view = { λ arrivals. (arrivals.at, drop arrivals.next arrivals.packets.items) };
}

impl Arrivals {
    /// The address.
    pub(super) fn address(&self) -> Addr
        ensures { result ≡ self.now.0 }
    {
        self.at
    }

    /// An in end for an address with these packets, of which none are left here.
    pub(super) fn move_out(&mut self, alloc: Global, at: Addr) -> SteadyIn
        ensures log { result.log ≡ opened_for at }
        ensures packets { result.packets ≡ self.old.1 }
        ensures left { self.new ≡ (self.old.0, []) }
    {
        let packets = mem::replace(&mut self.packets, Vec::new(alloc));
        let next = self.next;
        self.next = 0;
        SteadyIn::with(alloc, at, packets, next)
    }

    /// Takes the packets of an in end in place of those that are here.
    pub(super) fn move_in(&mut self, receiving: SteadyIn)
        ensures { self.new ≡ (self.old.0, receiving.packets) }
    {
        let SteadyIn {
            alloc: _,
            at: _,
            log: _,
            packets,
            next,
        } = receiving;
        self.packets = packets;
        self.next = next;
    }

    /// These packets, in order, at this address.
    pub fn new(at: Addr, packets: Vec<Packet>) -> Arrivals
        ensures { result ≡ (at, packets.items) }
    {
        Arrivals {
            at,
            packets,
            next: 0,
        }
    }
}

/// Where the first entry for an address stands.
fn find(arrivals: &[Arrivals], at: Addr) -> Option<usize>
    ensures { result ≡ position (λ entry. same_addr entry.0 at) arrivals.now }
{
    arrivals.iter().position(|entry| is_same(entry.at, at))
}

/// A port maker in memory that never fails. The in end that it opens at an address gives the packets of
/// the first entry for this address; what it has not given when it is closed goes back there.
#[derive(Drop)]
pub struct SteadyMaker {
    alloc: Global,
    log: CallList<PortCall>,
    arrivals: Vec<Arrivals>,
}

impl Model for SteadyMaker {
    ghost use Rattle.relay_outside.specs.PortTape.{MakerTape};

    ghost Value = { MakerTape };

    ghost view = { λ maker. record { log = maker.log; arrivals = maker.arrivals.items } };
}

impl SteadyMaker {
    /// A maker whose ends are to give these packets.
    pub fn new(alloc: Global, arrivals: Vec<Arrivals>) -> SteadyMaker
        ensures { result ≡ record { log = Some []; arrivals = arrivals.items } }
    {
        SteadyMaker {
            alloc,
            log: CallList::new(alloc),
            arrivals,
        }
    }

    /// Whether the maker still keeps its log.
    pub fn tells(&self) -> bool
        ensures { IsTrue result ↔ IsSome self.now.log }
    {
        self.log.tells()
    }
}

/// An in end with the packets of the first entry for its address, which is left without any.
fn arriving(alloc: Global, arrivals: &mut Vec<Arrivals>, at: Addr) -> SteadyIn
    ensures log { result.log ≡ opened_for at }
    ensures moved { Moves arrivals.old.items at result.packets arrivals.new.items }
{
    let Some(index) = find(arrivals.as_slice(), at) else {
        return SteadyIn::with(alloc, at, Vec::new(alloc), 0);
    };
    let entry = &mut arrivals[index];
    entry.move_out(alloc, at)
}

/// Gives what an end is left with back to the first entry for its address.
fn give_back(arrivals: &mut Vec<Arrivals>, at: Addr, receiving: SteadyIn)
    ensures { GoesBack arrivals.old.items at receiving.packets arrivals.new.items }
{
    if !receiving.has_more() {
        return;
    }
    let Some(index) = find(arrivals.as_slice(), at) else {
        return;
    };
    let entry = &mut arrivals[index];
    entry.move_in(receiving);
}

impl PortMaker for SteadyMaker {
    type In = SteadyIn;

    type Out = SteadyOut;

    ghost use Rattle.std.specs.Prelude.{◌≡◌, ◌≤◌, IfOk, IsOk};
    ghost use Rattle.relay_outside.specs.DeviceLogs.{Gains, HasCause, IsOpenedFor, WhereLogged, is_done};
    ghost use Rattle.relay_outside.specs.Ports.{IsOpen};
    ghost use Rattle.relay_outside.specs.PortTape.{Moves, GoesBack};

    ghost log = { λ maker. maker.log };

    ghost faults = { λ maker. 0 };

    fn open(&mut self, at: Addr) -> Result<(SteadyIn, SteadyOut), Failed>
        requires { WhereLogged self.old.log (λ calls. IsOpen calls at → ⊥) }
        ensures log { Gains self.old.log self.new.log (PortCall.Open at (is_done result)) }
        ensures receiving { IfOk result (λ ends. IsOpenedFor at ends.0.log) }
        ensures sending { IfOk result (λ ends. IsOpenedFor at ends.1) }
        ensures cause { HasCause 0 0 result }
        ensures done { IsOk result }
        ensures moved { IfOk result (λ ends. Moves self.old.arrivals at ends.0.packets self.new.arrivals) }
    {
        let receiving = arriving(self.alloc, &mut self.arrivals, at);
        let sending = SteadyOut::new(self.alloc, at);
        self.log.note(Some(PortCall::Open { at, done: true }));
        Ok((receiving, sending))
    }

    fn close(&mut self, at: Addr, receiving: SteadyIn, sending: SteadyOut)
        requires open { WhereLogged self.old.log (λ calls. IsOpen calls at) }
        requires ends { (receiving.log.at ≡ at) × (sending.at ≡ at) }
        ensures log { Gains self.old.log self.new.log (PortCall.Close at receiving.log.calls sending.calls) }
        ensures later { 0 ≤ 0 }
        ensures back { GoesBack self.old.arrivals at receiving.packets self.new.arrivals }
    {
        let sent = sending.into_list();
        let (taken, receiving) = receiving.without_list(self.alloc);
        self.log.note(Some(PortCall::Close { at, taken, sent }));
        give_back(&mut self.arrivals, at, receiving);
    }
}
