//! The maker of the ports of the load.
ghost use Rattle.std.specs.Prelude.{◌≡◌, ◌↔◌, ◌≤◌, ◌<◌, ◌+◌, ◌-◌, ◌^◌, ℕ, Some, None, [], true, false, IsTrue, IsSome, IsOk, IfOk, IfSome, min};
ghost use Rattle.relay_outside.specs.DeviceLogs.{Gains, HasCause, IsOpenedFor, WhereLogged, is_done};
ghost use Rattle.relay_outside.specs.Ports.{IsOpen};
ghost use Rattle.load_maker.specs.Ports.{end_at, next_end, silent_at, stream_at};
ghost use Rattle.load_maker.specs.Takes.{AreAllEnds, AreClosed, HasGivenAll};

use crate::ends::{LoadIn, LoadOut};
use crate::stream::Stream;
use port_pool::Side;
use relay_outside::{Addr, CallList, Failed, Ip, OutCall, PortCall, PortMaker};
use std::alloc::Global;
use std::marker::Model;

/// The maker of the ports of the load, which never fails. Of the ports that are opened after a call was begun, the first is the RTP port of
/// side B's leg and the third that of side A's; their in ends give what these sides send. All others give nothing.
#[derive(Drop)]
pub struct LoadMaker {
    alloc: Global,
    log: CallList<PortCall>,
    packets: u32,
    call: Option<u32>,
    opened: u32,
    closed: Vec<ClosedEnd>,
}

/// An in end that was given back.
#[derive(Clone, Copy, PartialEq, Eq)]
pub(crate) struct ClosedEnd {
    /// The address that it was opened for.
    pub(crate) at: Addr,
    /// Whose packets it gave.
    pub(crate) stream: Option<Stream>,
    /// How many.
    pub(crate) given: u32,
}

impl Model for LoadMaker {
    ghost use Rattle.std.specs.Prelude.{◌≤◌, IfSome};
    ghost use Rattle.relay_outside.specs.DeviceLogs.{WhereLogged};
    ghost use Rattle.load_maker.specs.Ports.{LoadMakerState};
    ghost use Rattle.load_maker.specs.Takes.{AreClosed};

    ghost Value = { LoadMakerState };

    ghost view = { λ maker. record { log = maker.log; packets = maker.packets; call = maker.call; opened = maker.opened; closed = maker.closed.items } };

    ghost invariant = { λ maker. (maker.packets ≤ 1000) × IfSome maker.call (λ call. call ≤ 1000) × WhereLogged maker.log (λ calls. AreClosed calls maker.closed.items) };
}

impl LoadMaker {
    /// A maker for calls whose sides send this many packets each. No call is begun.
    pub fn new(alloc: Global, packets: u32) -> LoadMaker
        requires { (1 ≤ packets) × (packets ≤ 1000) }
        ensures { result ≡ record { log = Some []; packets = packets; call = None; opened = 0; closed = [] } }
    {
        LoadMaker {
            alloc,
            log: CallList::new(alloc),
            packets,
            call: None,
            opened: 0,
            closed: Vec::new(alloc),
        }
    }

    /// The ports that are opened from now on are those of this call, from 1.
    pub fn begin_call(&mut self, call: u32)
        requires { (1 ≤ call) × (call ≤ 1000) }
        ensures { self.new ≡ record self.old { call = Some call; opened = 0 } }
    {
        self.call = Some(call);
        self.opened = 0;
    }

    /// Whether the maker still tells its list, and each of its in ends that were given back told its own.
    pub fn tells(&self) -> bool
        ensures { IsTrue result ↔ IsSome self.now.log }
    {
        self.log.tells()
    }

    /// Whether the ends that were given back are those of this many calls, of each two pairs, in the order of their ports, from the first one on,
    /// and each gave this many packets of its side, if it is one to which the side sends.
    pub fn gave_all(&self, host: Ip, first: u16, calls: u32, packets: u32) -> bool
        requires { calls ≤ 1000 }
        ensures gave { IsTrue result → HasGivenAll host first calls packets self.now.log }
        ensures otherwise { result ≡ false → AreAllEnds host first calls packets self.now.closed → ⊥ }
        ensures closed { WhereLogged self.now.log (λ opened. AreClosed opened self.now.closed) }
    {
        if self.closed.len() != 4 * calls as usize {
            return false;
        }
        for number in 0..4 * calls {
            if !is_end_at(&self.closed[number as usize], host, first, packets, number) {
                return false;
            }
        }
        true
    }

    /// Whose packets the next port gives.
    fn next_stream(&self) -> Option<Stream>
        ensures stream { result ≡ stream_at self.now.call self.now.opened }
        ensures call { IfSome result (λ stream. stream.call ≤ 1000) }
    {
        let Some(call) = self.call else {
            return None;
        };
        stream_at(call, self.opened)
    }
}

/// Whose packets the port gives that was opened after this many others of the call.
fn stream_at(call: u32, opened: u32) -> Option<Stream>
    ensures { result ≡ stream_at (Some call) opened }
{
    match opened {
        0 => Some(Stream {
            call,
            side: Side::B,
        }),
        2 => Some(Stream {
            call,
            side: Side::A,
        }),
        _ => None,
    }
}

/// Whether this is the end that is to be given back as the one of this number, from 0.
fn is_end_at(end: &ClosedEnd, host: Ip, first: u16, packets: u32, number: u32) -> bool
    requires { number < 4000 }
    ensures is { IsTrue result → end.now ≡ end_at host first packets number }
    ensures other { result ≡ false → end.now ≡ end_at host first packets number → ⊥ }
{
    let port = u32::from(end.at.port);
    let given = if number % 2 == 0 { packets } else { 0 };
    port == u32::from(first) + number
        && end.at.ip == host
        && end.given == given
        && end.stream == stream_at(number / 4 + 1, number % 4)
}

/// The list of an end that tells nothing.
fn untold(alloc: Global) -> CallList<OutCall>
    ensures { result ≡ None }
{
    let mut list = CallList::new(alloc);
    list.note(None);
    list
}

/// The record of a closing; `None` where the in end tells nothing any more.
fn close_call(alloc: Global, at: Addr, receiving: LoadIn) -> Option<PortCall>
    ensures call { IfSome result (λ call. call ≡ PortCall.Close at receiving.log.calls None) }
    ensures log { IsSome result → IsSome receiving.log.calls }
{
    let taken = receiving.into_list();
    if !taken.tells() {
        return None;
    }
    let sent = untold(alloc);
    Some(PortCall::Close { at, taken, sent })
}

/// The call, where it was kept what the end gave.
fn when_kept(is_kept: bool, call: Option<PortCall>) -> Option<PortCall>
    ensures { IfSome result (λ noted. (is_kept ≡ true) × (call ≡ Some noted)) }
{
    if is_kept { call } else { None }
}

impl PortMaker for LoadMaker {
    type In = LoadIn;

    type Out = LoadOut;

    ghost use Rattle.std.specs.Prelude.{◌≡◌, ◌≤◌, ◌+◌, ◌-◌, ◌^◌, None, IfOk, IsOk, IsSome, min};
    ghost use Rattle.relay_outside.specs.DeviceLogs.{Gains, HasCause, IsOpenedFor, WhereLogged, is_done};
    ghost use Rattle.relay_outside.specs.Ports.{IsOpen};
    ghost use Rattle.load_maker.specs.Ports.{next_end, silent_at};

    ghost log = { λ maker. maker.log };

    ghost faults = { λ maker. 0 };

    fn open(&mut self, at: Addr) -> Result<(LoadIn, LoadOut), Failed>
        requires { WhereLogged self.old.log (λ calls. IsOpen calls at → ⊥) }
        ensures log { Gains self.old.log self.new.log (PortCall.Open at (is_done result)) }
        ensures receiving { IfOk result (λ ends. IsOpenedFor at ends.0.log) }
        ensures sending { IfOk result (λ ends. IsOpenedFor at (silent_at ends.1)) }
        ensures cause { HasCause 0 0 result }
        ensures done { IsOk result }
        ensures ends { IfOk result (λ ends. (ends.0 ≡ next_end self.old at) × (ends.1 ≡ at)) }
        ensures left { self.new ≡ record self.old { log = self.new.log; opened = min (self.old.opened + 1) (2 ^ 32 - 1) } }
    {
        let stream = self.next_stream();
        self.opened = self.opened.saturating_add(1);
        self.log.note(Some(PortCall::Open { at, done: true }));
        let receiving = LoadIn::new(self.alloc, at, stream, self.packets);
        Ok((receiving, LoadOut::new(at)))
    }

    fn close(&mut self, at: Addr, receiving: LoadIn, sending: LoadOut)
        requires open { WhereLogged self.old.log (λ calls. IsOpen calls at) }
        requires ends { (receiving.log.at ≡ at) × (sending ≡ at) }
        ensures log { Gains self.old.log self.new.log (PortCall.Close at receiving.log.calls None) }
        ensures stops { IsSome self.new.log → IsSome receiving.log.calls }
        ensures later { 0 ≤ 0 }
        ensures left { self.new ≡ record self.old { log = self.new.log; closed = self.new.closed } }
    {
        let _ = sending;
        let (stream, given) = receiving.gave();
        let call = close_call(self.alloc, at, receiving);
        let kept = self.closed.push(ClosedEnd { at, stream, given });
        self.log.note(when_kept(kept.is_ok(), call));
    }
}
