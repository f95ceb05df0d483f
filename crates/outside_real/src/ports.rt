ghost use Rattle.std.specs.Prelude.{◌≡◌, IfSome};

use crate::address::{addr_of, socket_addr};
use crate::errors::passes_by_itself;
use crate::faults::Faults;
use crate::readiness::{Hints, Readiness};
use crate::sockets;
use relay_outside::{Addr, Failed, InCall, InEnd, OutCall, OutEnd, PortCall, PortMaker};
use std::alloc::Global;
use std::net::{Net, UdpSocket};
use std::sync::Arc;

/// The receiving end of a UDP port. It tells the address that it was opened for, and nothing of its calls.
///
/// A take never waits. `None` says that nothing stands here, or that the system did not tell of anything since the last take: where it
/// tells of all sockets of a thread (`Readiness`), it is asked where it told, and once a second besides. An error of the system that
/// passes by itself (`passes_by_itself`) counts as nothing, and any other is a fault, of this port alone.
#[derive(Drop)]
pub struct UdpIn {
    at: Addr,
    socket: Arc<UdpSocket, Global>,
    hints: Hints,
    faults: Faults,
}

impl InEnd for UdpIn {
    ghost use Rattle.std.specs.Prelude.{None};

    ghost log = { λ end. record { at = end.at; calls = None } };

    ghost faults = { λ end. end.faults };

    fn take(&mut self, buf: &mut [u8]) -> Result<Option<(Addr, usize)>, Failed> {
        if !self.hints.are_due() {
            return Ok(None);
        }
        match self.socket.recv_from(buf) {
            Ok((len, from)) => Ok(Some((addr_of(from), len))),
            Err(error) if passes_by_itself(&error) => Ok(None),
            Err(_) => Err(self.faults.count()),
        }
    }
}

/// The sending end of a UDP port. It tells the address that it was opened for, and nothing of its calls.
///
/// A send never waits: where the system has no room for the datagram, that is a fault as any other error.
/// Linux tells an unconnected socket nothing of ports that are unreachable, so no such fault comes here.
#[derive(Drop)]
pub struct UdpOut {
    at: Addr,
    socket: Arc<UdpSocket, Global>,
    faults: Faults,
}

impl OutEnd for UdpOut {
    ghost use Rattle.std.specs.Prelude.{None};

    ghost log = { λ end. record { at = end.at; calls = None } };

    ghost faults = { λ end. end.faults };

    fn send(&mut self, to: Addr, bytes: &[u8]) -> Result<(), Failed> {
        match self.socket.send_to(bytes, socket_addr(to)) {
            Ok(sent) if sent == bytes.len() => Ok(()),
            _ => Err(self.faults.count()),
        }
    }
}

/// Opens UDP ports, of both families, each as two ends of one socket. It tells nothing.
///
/// An address that is in use or isn't this host's is a fault, and so is running out of descriptors or of memory. That the
/// system doesn't watch a socket isn't one.
#[derive(Drop)]
pub struct UdpMaker<'a, R: Net> {
    net: &'a R,
    readiness: &'a Readiness,
    faults: Faults,
}

impl<'a, R: Net> UdpMaker<'a, R> {
    /// A maker that has opened no port yet. Each port that it opens is watched there.
    pub fn new(net: &'a R, readiness: &'a Readiness) -> UdpMaker<'a, R>
        ensures { result.faults ≡ 0 }
    {
        UdpMaker {
            net,
            readiness,
            faults: Faults::new(),
        }
    }
}

/// The two ends of a socket that is bound here, never waits, and is watched. They share it: a port takes one descriptor.
fn open<R: Net>(net: &R, readiness: &Readiness, at: Addr) -> Option<(UdpIn, UdpOut)>
    ensures at { IfSome result (λ ends. (ends.0.at ≡ at) × (ends.1.at ≡ at)) }
    ensures faults { IfSome result (λ ends. (ends.0.faults ≡ 0) × (ends.1.faults ≡ 0)) }
{
    let socket = sockets::bind(net, at).ok()?;
    let socket = Arc::new(readiness.alloc, socket).ok()?;
    let sending = UdpOut {
        at,
        socket: Arc::try_clone(&socket).ok()?,
        faults: Faults::new(),
    };
    let hints = readiness.watch(&socket, at);
    let receiving = UdpIn {
        at,
        socket,
        hints,
        faults: Faults::new(),
    };
    Some((receiving, sending))
}

impl<'a, R: Net> PortMaker for UdpMaker<'a, R> {
    type In = UdpIn;

    type Out = UdpOut;

    ghost use Rattle.std.specs.Prelude.{None};

    ghost log = { λ maker. None };

    ghost faults = { λ maker. maker.faults };

    fn open(&mut self, at: Addr) -> Result<(UdpIn, UdpOut), Failed> {
        match open(self.net, self.readiness, at) {
            Some(ends) => Ok(ends),
            None => Err(self.faults.count()),
        }
    }

    /// The system closes the port, and watches it no more, where both ends are dropped, which is done here.
    fn close(&mut self, _at: Addr, receiving: UdpIn, sending: UdpOut) {
        drop(receiving);
        drop(sending);
    }
}
