ghost use Rattle.std.specs.Prelude.{◌≡◌};

use crate::address::{addr_of, socket_addr};
use crate::errors::passes_by_itself;
use crate::faults::Faults;
use crate::readiness::Readiness;
use crate::stop::StopPipe;
use relay_outside::{Addr, ControlLink, Failed, LinkCall, Taken};
use std::io;
use std::net::{Net, UdpSocket};
use std::time::Duration;

/// How long a read waits for a datagram that the system told and doesn't give, in milliseconds.
/// It is a limit for reads, and the socket isn't set to wait for nothing, so that a send still waits for room.
const READ_MILLIS: u64 = 1;

/// Where the program waits for a datagram of the control socket.
#[derive(Drop)]
enum Waits<'a> {
    /// In the link's take, for at most this many milliseconds.
    InTake { millis: u32 },
    /// In the wait of the main thread before its sweep, for which the socket is watched there. The take doesn't wait.
    BeforeSweep { readiness: &'a Readiness },
}

/// How long a take waits at most, in milliseconds.
fn longest_wait(waits: &Waits) -> u32 {
    match waits {
        Waits::InTake { millis } => *millis,
        Waits::BeforeSweep { readiness: _ } => 0,
    }
}

/// Why a link could not be bound, or could not be read from: what the system said.
#[derive(Clone, Copy)]
pub enum LinkFault {
    /// A bind failed.
    Bind {
        /// The address.
        at: Addr,
        /// The system's error.
        error: io::Error,
    },
    /// A take failed.
    Take {
        /// The system's error.
        error: io::Error,
    },
}

/// A UDP socket as the control link. It tells nothing.
///
/// A take of a bound link returns `End` once its pipe has ended, as `StopPipe` says it, and from then on always. It looks there
/// first: a datagram that stands at the socket then is not taken. In no other case does a take return `End`.
/// A take that finds no datagram returns `Nothing`. So does one that ends in an error which passes by itself (`passes_by_itself`). Any other error of
/// the system is a fault: it says that the socket can't be read from at all.
/// A send makes a fault of each error; where the link is watched it doesn't wait for room either.
/// A bind that succeeds writes a line to standard error: at which address the link listens.
#[derive(Drop)]
pub struct UdpLink<'a, R: Net> {
    net: &'a R,
    waits: Waits<'a>,
    stop: StopPipe,
    /// Whether a take found that the pipe has ended.
    ended: bool,
    socket: Option<UdpSocket>,
    fault: Option<LinkFault>,
    faults: Faults,
}

impl<'a, R: Net> UdpLink<'a, R> {
    /// A link whose takes wait for at most this many milliseconds, 0 counting as 1: for a thread that has nothing
    /// else to do. The end of the pipe ends such a wait. It is not bound yet. Until it is, its takes and sends fail.
    pub fn waiting(net: &'a R, stop: StopPipe, millis: u32) -> UdpLink<'a, R>
        ensures { result.faults ≡ 0 }
    {
        let millis = millis.max(1);
        UdpLink::that(net, stop, Waits::InTake { millis })
    }

    /// A link whose takes don't wait, since its thread waits before it sweeps, as thread 0, and wakes for the link's socket too:
    /// for a thread that also sweeps. It wakes for the end of the pipe where these hints were made with it. The link is not
    /// bound yet. Until it is, its takes and sends fail.
    pub fn watched(net: &'a R, stop: StopPipe, readiness: &'a Readiness) -> UdpLink<'a, R>
        ensures { result.faults ≡ 0 }
    {
        UdpLink::that(net, stop, Waits::BeforeSweep { readiness })
    }

    /// A link that waits in this way and is not bound yet.
    fn that(net: &'a R, stop: StopPipe, waits: Waits<'a>) -> UdpLink<'a, R>
        ensures { result.faults ≡ 0 }
    {
        UdpLink {
            net,
            waits,
            stop,
            ended: false,
            socket: None,
            fault: None,
            faults: Faults::new(),
        }
    }

    /// Why the last bind or take failed of those that did, where the system said why. A send that failed is not told.
    pub fn fault(&self) -> Option<LinkFault> {
        self.fault
    }
}

/// A bound socket whose reads wait as is said.
fn open<R: Net>(net: &R, waits: &Waits, at: Addr) -> io::Result<UdpSocket> {
    let socket = UdpSocket::bind(net, socket_addr(at))?;
    match waits {
        Waits::InTake { millis: _ } => {
            socket.set_read_timeout(Some(Duration::from_millis(READ_MILLIS)))?;
        }
        Waits::BeforeSweep { readiness } => {
            socket.set_nonblocking(true)?;
            readiness.watch_control(&socket);
        }
    }
    Ok(socket)
}

/// Writes to standard error where the socket listens: the system may have picked the port. Nothing depends on that line.
fn announce(err: &impl Eprint, socket: &UdpSocket, at: Addr) {
    let at = socket.local_addr().unwrap_or(socket_addr(at));
    let _ = eprintln!(err; "rtpengine: listening on {at}");
}

impl<'a, R: Net + Eprint> ControlLink for UdpLink<'a, R> {
    ghost use Rattle.std.specs.Prelude.{None};

    ghost log = { λ link. None };

    ghost faults = { λ link. link.faults };

    fn bind(&mut self, at: Addr) -> Result<(), Failed> {
        match open(self.net, &self.waits, at) {
            Ok(socket) => {
                announce(self.net, &socket, at);
                self.socket = Some(socket);
                Ok(())
            }
            Err(error) => {
                self.fault = Some(LinkFault::Bind { at, error });
                Err(self.faults.count())
            }
        }
    }

    fn take(&mut self, buf: &mut [u8]) -> Result<Taken, Failed> {
        let longest = longest_wait(&self.waits);
        let Some(socket) = &self.socket else {
            return Err(self.faults.count());
        };
        if self.ended || self.stop.ends_within(socket, longest) {
            self.ended = true;
            return Ok(Taken::End);
        }
        match socket.recv_from(buf) {
            Ok((len, from)) => Ok(Taken::Datagram {
                from: addr_of(from),
                len,
            }),
            Err(error) if passes_by_itself(&error) => Ok(Taken::Nothing),
            Err(error) => {
                self.fault = Some(LinkFault::Take { error });
                Err(self.faults.count())
            }
        }
    }

    fn send(&mut self, to: Addr, bytes: &[u8]) -> Result<(), Failed> {
        let Some(socket) = &self.socket else {
            return Err(self.faults.count());
        };
        match socket.send_to(bytes, socket_addr(to)) {
            Ok(sent) if sent == bytes.len() => Ok(()),
            _ => Err(self.faults.count()),
        }
    }
}
