//! The ends of the ports of the load.
ghost use Rattle.std.specs.Prelude.{◌≡◌, ◌≤◌, ◌<◌, ℕ, None, MatchOption, IfOk, IfSome, IsOk, length, min, take};
ghost use Rattle.relay_outside.specs.DeviceLogs.{EndGains, HasCause, WhereLogged, is_done, opened_for};
ghost use Rattle.load_maker.specs.Takes.{GivesOn};
ghost use Rattle.relay_outside.specs.Ports.{FitsTake, in_given};
ghost use Rattle.load_maker.specs.Ports.{TakesNext, next_stream, silent_at};

use crate::stream::{ROOM, Stream};
use relay_outside::{Addr, CallList, Copied, Failed, InCall, InEnd, InGiven, OutEnd};
use std::alloc::Global;
use std::marker::Model;

/// The receiving end of a port of the load. It gives the packets of one side of a call, each made when it is taken, or nothing.
#[derive(Drop)]
pub struct LoadIn {
    alloc: Global,
    at: Addr,
    log: CallList<InCall>,
    stream: Option<Stream>,
    packets: u32,
    given: u32,
}

impl Model for LoadIn {
    ghost use Rattle.std.specs.Prelude.{◌≤◌, IfSome};
    ghost use Rattle.relay_outside.specs.DeviceLogs.{WhereLogged};
    ghost use Rattle.load_maker.specs.Ports.{LoadInState};
    ghost use Rattle.load_maker.specs.Takes.{GivesOn};

    ghost Value = { LoadInState };

    ghost view = { λ end. record { log = record { at = end.at; calls = end.log }; stream = end.stream; packets = end.packets; given = end.given } };

    ghost invariant = { λ end. (end.given ≤ end.packets) × (end.packets ≤ 1000) × IfSome end.stream (λ stream. stream.call ≤ 1000) × WhereLogged end.log (λ takes. GivesOn end.stream 0 takes end.given) };
}

impl LoadIn {
    /// An end for an address that was not called yet, with the packets of this stream, where there is one.
    pub(crate) fn new(alloc: Global, at: Addr, stream: Option<Stream>, packets: u32) -> LoadIn
        requires packets { packets ≤ 1000 }
        requires call { IfSome stream (λ stream. stream.call ≤ 1000) }
        ensures { result ≡ record { log = opened_for at; stream = stream; packets = packets; given = 0 } }
    {
        LoadIn {
            alloc,
            at,
            log: CallList::new(alloc),
            stream,
            packets,
            given: 0,
        }
    }

    /// The stream, where one of its packets is left.
    fn next_stream(&self) -> Option<Stream>
        ensures next { result ≡ next_stream self.now }
        ensures left { IfSome result (λ _. self.now.given < self.now.packets) }
        ensures call { IfSome result (λ stream. stream.call ≤ 1000) }
    {
        if self.given < self.packets {
            self.stream
        } else {
            None
        }
    }

    /// Whose packets it gave, and how many.
    pub(crate) fn gave(&self) -> (Option<Stream>, u32)
        ensures stream { result.0 ≡ self.now.stream }
        ensures given { result.1 ≡ self.now.given }
        ensures takes { WhereLogged self.now.log.calls (λ takes. GivesOn self.now.stream 0 takes self.now.given) }
    {
        (self.stream, self.given)
    }

    /// What the end told of its calls.
    pub(crate) fn into_list(self) -> CallList<InCall>
        ensures { result ≡ self.log.calls }
    {
        let LoadIn { log, .. } = self;
        log
    }
}

impl InEnd for LoadIn {
    ghost use Rattle.std.specs.Prelude.{◌≡◌, ◌<◌, IfOk, IsOk, length};
    ghost use Rattle.relay_outside.specs.DeviceLogs.{EndGains, HasCause};
    ghost use Rattle.relay_outside.specs.Ports.{FitsTake, in_given};
    ghost use Rattle.load_maker.specs.Ports.{TakesNext};

    ghost log = { λ end. end.log };

    ghost faults = { λ end. 0 };

    fn take(&mut self, buf: &mut [u8]) -> Result<Option<(Addr, usize)>, Failed>
        requires { 0 < length buf.old }
        ensures within { FitsTake result (length buf.old) }
        ensures log { EndGains self.old.log self.new.log (InCall.Take (length buf.old) (in_given result buf.new)) }
        ensures cause { HasCause 0 0 result }
        ensures done { IsOk result }
        ensures takes { IfOk result (λ answer. TakesNext self.old self.new answer buf.new) }
        ensures same { self.new ≡ record self.old { log = self.new.log; given = self.new.given } }
    {
        let room = buf.len();
        let Some(stream) = self.next_stream() else {
            let given = InGiven::Nothing;
            self.log.note(Some(InCall::Take { room, given }));
            return Ok(None);
        };
        self.given += 1;
        let mut packet = [0; ROOM];
        let size = stream.write(self.given, &mut packet);
        let from = stream.source();
        let len = fill(buf, &packet[..size]);
        let call = arrival_call(self.alloc, room, from, &buf[..len]);
        self.log.note(call);
        Ok(Some((from, len)))
    }
}

/// Copies to the front of the buffer as many of the bytes as it holds, and says how many.
fn fill(buf: &mut [u8], bytes: &[u8]) -> usize
    ensures count { result ≡ min (length bytes.now) (length buf.old) }
    ensures front { take result buf.new ≡ take result bytes.now }
{
    let len = bytes.len().min(buf.len());
    buf[..len].copy_from_slice(&bytes[..len]);
    len
}

/// The record of a take that gave a packet; `None` where its bytes could not be copied.
fn arrival_call(alloc: Global, room: usize, from: Addr, bytes: &[u8]) -> Option<InCall>
    ensures { MatchOption result (Unit {0}) (λ call. call ≡ InCall.Take room (InGiven.Datagram from bytes.now)) }
{
    match Copied::of(alloc, bytes) {
        Some(bytes) => {
            let given = InGiven::Datagram { from, bytes };
            Some(InCall::Take { room, given })
        }
        None => None,
    }
}

/// The sending end of a port of the load. What is sent is dropped, and not told. Contracts see it as the address that it was opened for.
#[derive(Drop)]
pub struct LoadOut {
    at: Addr,
}

impl Model for LoadOut {
    ghost use Rattle.relay_outside.specs.declared.address.Addr.{Addr};

    ghost Value = { Addr };

    ghost view = { λ end. end.at };
}

impl LoadOut {
    /// The end of the port of this address.
    pub(crate) fn new(at: Addr) -> LoadOut
        ensures { result ≡ at }
    {
        LoadOut { at }
    }
}

impl OutEnd for LoadOut {
    ghost use Rattle.std.specs.Prelude.{◌≡◌, IsOk};
    ghost use Rattle.relay_outside.specs.DeviceLogs.{EndGains, HasCause, is_done};
    ghost use Rattle.relay_outside.specs.declared.ports.OutCall.TheVariants as out;
    ghost use Rattle.load_maker.specs.Ports.{silent_at};

    ghost log = { λ end. silent_at end };

    ghost faults = { λ end. 0 };

    fn send(&mut self, to: Addr, bytes: &[u8]) -> Result<(), Failed>
        ensures log { EndGains (silent_at self.old) (silent_at self.new) (out.Send to bytes.now (is_done result)) }
        ensures cause { HasCause 0 0 result }
        ensures done { IsOk result }
        ensures same { self.new ≡ self.old }
    {
        let _ = to;
        let _ = bytes;
        Ok(())
    }
}
