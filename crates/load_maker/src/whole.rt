//! The port maker of a whole load.
ghost use Rattle.std.specs.Prelude.{◌≡◌, ◌↔◌, ◌≤◌, ◌<◌, ◌+◌, ◌-◌, ◌/◌, ◌%◌, ◌^◌, Some, [], None, false, IsTrue, IsSome, IsOk, IfOk, min};
ghost use Rattle.relay_outside.specs.DeviceLogs.{Gains, HasCause, IsOpenedFor, WhereLogged, is_done};
ghost use Rattle.relay_outside.specs.Ports.{IsOpen};
ghost use Rattle.load_maker.specs.Ports.{silent_at, stream_at};
ghost use Rattle.load_maker.specs.Takes.{AreAllEnds, AreClosed, HasGivenAll};

use crate::ends::{LoadIn, LoadOut};
use crate::ports::LoadMaker;
use relay_outside::{Addr, Failed, Ip, PortCall, PortMaker};
use std::alloc::Global;
use std::marker::Model;

/// How many ports a call opens: two pairs.
const PORTS: u32 = 4;

/// The last call of a load that is the largest.
const LAST: u32 = 1_000;

/// The maker of the ports of a whole load: a `LoadMaker` for which each call begins at its first opening, the next after each fourth.
/// One loop makes all control turns, and can't tell the ports where a call begins.
#[derive(Drop)]
pub struct LoadPorts {
    maker: LoadMaker,
    opened: u32,
}

impl Model for LoadPorts {
    ghost use Rattle.load_maker.specs.Ports.{LoadPortsState, IsInCall};

    ghost Value = { LoadPortsState };

    ghost view = { λ ports. record { maker = ports.maker; opened = ports.opened } };

    ghost invariant = { λ ports. IsInCall ports.maker.call ports.maker.opened ports.opened };
}

impl LoadPorts {
    /// The ports of calls whose sides send this many packets each. None is open.
    pub fn new(alloc: Global, packets: u32) -> LoadPorts
        requires { (1 ≤ packets) × (packets ≤ 1000) }
        ensures { result ≡ record { maker = record { log = Some []; packets = packets; call = None; opened = 0; closed = [] }; opened = 0 } }
    {
        LoadPorts {
            maker: LoadMaker::new(alloc, packets),
            opened: 0,
        }
    }

    /// Whether the maker still tells its list, and each of its in ends that were given back told its own.
    pub fn tells(&self) -> bool
        ensures { IsTrue result ↔ IsSome self.now.maker.log }
    {
        self.maker.tells()
    }
}

impl LoadPorts {
    /// Whether the ends that were given back are those of this many calls, of each two pairs, in the order of their ports, from the first one on,
    /// and each gave this many packets of its side, if it is one to which the side sends.
    pub fn gave_all(&self, host: Ip, first: u16, calls: u32, packets: u32) -> bool
        requires { calls ≤ 1000 }
        ensures gave { IsTrue result → HasGivenAll host first calls packets self.now.maker.log }
        ensures otherwise { result ≡ false → AreAllEnds host first calls packets self.now.maker.closed → ⊥ }
        ensures closed { WhereLogged self.now.maker.log (λ opened. AreClosed opened self.now.maker.closed) }
    {
        self.maker.gave_all(host, first, calls, packets)
    }
}

impl PortMaker for LoadPorts {
    type In = LoadIn;

    type Out = LoadOut;

    ghost use Rattle.std.specs.Prelude.{◌≡◌, ◌≤◌, ◌<◌, ◌+◌, ◌-◌, ◌/◌, ◌%◌, ◌^◌, Some, None, IfOk, IsOk, min};
    ghost use Rattle.relay_outside.specs.DeviceLogs.{Gains, HasCause, IsOpenedFor, WhereLogged, is_done};
    ghost use Rattle.relay_outside.specs.Ports.{IsOpen};
    ghost use Rattle.load_maker.specs.Ports.{silent_at, stream_at};

    ghost log = { λ ports. ports.maker.log };

    ghost faults = { λ ports. 0 };

    fn open(&mut self, at: Addr) -> Result<(LoadIn, LoadOut), Failed>
        requires { WhereLogged self.old.maker.log (λ calls. IsOpen calls at → ⊥) }
        ensures log { Gains self.old.maker.log self.new.maker.log (PortCall.Open at (is_done result)) }
        ensures receiving { IfOk result (λ ends. IsOpenedFor at ends.0.log) }
        ensures sending { IfOk result (λ ends. IsOpenedFor at (silent_at ends.1)) }
        ensures cause { HasCause 0 0 result }
        ensures done { IsOk result }
        ensures stream { IfOk result (λ ends. self.old.opened < 4000 → ends.0.stream ≡ stream_at (Some (self.old.opened / 4 + 1)) (self.old.opened % 4)) }
        ensures packets { IfOk result (λ ends. (ends.0.packets ≡ self.old.maker.packets) × (ends.0.given ≡ 0)) }
        ensures opened { self.new.opened ≡ min (self.old.opened + 1) (2 ^ 32 - 1) }
        ensures same { (self.new.maker.packets ≡ self.old.maker.packets) × (self.new.maker.closed ≡ self.old.maker.closed) }
    {
        let call = self.opened / PORTS + 1;
        if self.opened % PORTS == 0 && call <= LAST {
            self.maker.begin_call(call);
        }
        self.opened = self.opened.saturating_add(1);
        self.maker.open(at)
    }

    fn close(&mut self, at: Addr, receiving: LoadIn, sending: LoadOut)
        requires open { WhereLogged self.old.maker.log (λ calls. IsOpen calls at) }
        requires ends { (receiving.log.at ≡ at) × (sending ≡ at) }
        ensures log { Gains self.old.maker.log self.new.maker.log (PortCall.Close at receiving.log.calls None) }
        ensures later { 0 ≤ 0 }
        ensures left { self.new ≡ record self.old { maker = record self.old.maker { log = self.new.maker.log; closed = self.new.maker.closed } } }
    {
        self.maker.close(at, receiving, sending);
    }
}
