//! Ports at which datagrams come without end, and which count what was taken and what left.
ghost use Rattle.std.specs.Prelude.{◌≡◌, ◌≤◌, None, length};

use relay_outside::{Addr, Failed, InEnd, Ip, OutEnd, PortMaker};
use std::sync::atomic::{AtomicU64, Ordering};

/// Every third take of a port gives a datagram.
const TAKES: u64 = 3;

/// Every eighth of these datagrams is no packet.
const DATAGRAMS: u64 = 8;

/// Every 16th send of a port fails.
const SENDS: u64 = 16;

/// Where all datagrams come from.
const SOURCE: Addr = Addr {
    ip: Ip::V4([192, 0, 2, 77]),
    port: 9000,
};

/// Copies to the front of the buffer as many of the bytes as it holds, and says how many.
pub(crate) fn fill(buf: &mut [u8], bytes: &[u8]) -> usize
    ensures { result ≤ length buf.old }
{
    let len = bytes.len().min(buf.len());
    buf[..len].copy_from_slice(&bytes[..len]);
    len
}

/// What the devices of one run share: how many packets have left.
#[derive(Drop)]
pub(crate) struct Traffic {
    sent: AtomicU64,
}

impl Traffic {
    /// No packet has left.
    pub(crate) fn new() -> Traffic {
        Traffic {
            sent: AtomicU64::new(0),
        }
    }

    /// How many have.
    pub(crate) fn sent(&self) -> u64 {
        self.sent.load(Ordering::SeqCst)
    }
}

/// The packet with this number of those that come to a port: its port and its number stand in it.
fn packet(port: u16, number: u64) -> [u8; 20] {
    let mut bytes = [0; 20];
    bytes[0] = 0x80;
    if port % 2 == 1 {
        bytes[1] = 200;
    }
    bytes[2..4].copy_from_slice(&((number % 65_536) as u16).to_be_bytes());
    bytes[10..12].copy_from_slice(&port.to_be_bytes());
    bytes[12..].copy_from_slice(&number.to_be_bytes());
    bytes
}

/// The port and the number that stand in a packet.
fn read_packet(bytes: &[u8]) -> Option<(u16, u64)> {
    if bytes.len() != 20 {
        return None;
    }
    let mut port = [0; 2];
    port.copy_from_slice(&bytes[10..12]);
    let mut number = [0; 8];
    number.copy_from_slice(&bytes[12..]);
    Some((u16::from_be_bytes(port), u64::from_be_bytes(number)))
}

/// The in end of a port: it gives numbered packets, and datagrams that are none.
#[derive(Drop)]
pub(crate) struct TrafficIn {
    at: Addr,
    takes: u64,
    given: u64,
}

impl InEnd for TrafficIn {
    ghost log = { λ end. record { at = end.at; calls = None } };

    ghost faults = { λ end. 0 };

    fn take(&mut self, buf: &mut [u8]) -> Result<Option<(Addr, usize)>, Failed> {
        self.takes = self.takes.saturating_add(1);
        if self.takes % TAKES != 0 {
            return Ok(None);
        }
        self.given = self.given.saturating_add(1);
        let len = if self.given % DATAGRAMS == 0 {
            fill(buf, b"no packet")
        } else {
            fill(buf, &packet(self.at.port, self.given))
        };
        Ok(Some((SOURCE, len)))
    }
}

/// The out end of a port: some of its sends fail. It keeps whether all packets came to one other port, each once and in their order.
#[derive(Drop)]
pub(crate) struct TrafficOut<'a> {
    traffic: &'a Traffic,
    at: Addr,
    /// Where the packets came to, and the number of the last one.
    last: Option<(u16, u64)>,
    sent: u64,
    lost: u64,
    is_wanted: bool,
}

impl<'a> TrafficOut<'a> {
    /// Looks at a packet.
    fn look(&mut self, bytes: &[u8])
        ensures same { self.new.at ≡ self.old.at }
        ensures uncounted { self.new.lost ≡ self.old.lost }
    {
        let next = read_packet(bytes);
        self.is_wanted = self.is_wanted
            && match (self.last, next) {
                (Some((port, number)), Some((next_port, next_number))) => {
                    port == next_port && number < next_number
                }
                (None, Some((port, _))) => port % 2 == self.at.port % 2 && port != self.at.port,
                (_, None) => false,
            };
        self.last = next;
    }
}

impl<'a> OutEnd for TrafficOut<'a> {
    ghost log = { λ end. record { at = end.at; calls = None } };

    ghost faults = { λ end. end.lost };

    fn send(&mut self, _to: Addr, bytes: &[u8]) -> Result<(), Failed> {
        self.look(bytes);
        if self.sent.saturating_add(self.lost) % SENDS == SENDS - 1 {
            self.lost = self.lost.saturating_add(1);
            return Err(Failed);
        }
        self.sent = self.sent.saturating_add(1);
        self.traffic.sent.fetch_add(1, Ordering::SeqCst);
        Ok(())
    }
}

/// What the ports of a run counted, all of them together, once they were closed.
#[derive(Clone, Copy, PartialEq, Eq)]
pub(crate) struct PortCounts {
    pub(crate) opened: u64,
    pub(crate) closed: u64,
    /// The datagrams that came.
    pub(crate) taken: u64,
    /// The packets that left, and the sends that failed.
    pub(crate) sent: u64,
    pub(crate) lost: u64,
    /// Whether each port was closed with its own ends, and its packets came to one other port, each once and in their order.
    pub(crate) are_wanted: bool,
}

/// A port maker whose ports have traffic.
#[derive(Drop)]
pub(crate) struct TrafficPorts<'a> {
    traffic: &'a Traffic,
    counts: PortCounts,
}

impl<'a> TrafficPorts<'a> {
    /// A maker that was not called yet.
    pub(crate) fn new(traffic: &'a Traffic) -> TrafficPorts<'a> {
        TrafficPorts {
            traffic,
            counts: PortCounts {
                opened: 0,
                closed: 0,
                taken: 0,
                sent: 0,
                lost: 0,
                are_wanted: true,
            },
        }
    }

    /// What the closed ports counted.
    pub(crate) fn counts(&self) -> PortCounts {
        self.counts
    }
}

impl<'a> PortMaker for TrafficPorts<'a> {
    type In = TrafficIn;

    type Out = TrafficOut<'a>;

    ghost log = { λ maker. None };

    ghost faults = { λ maker. 0 };

    fn open(&mut self, at: Addr) -> Result<(TrafficIn, TrafficOut<'a>), Failed> {
        self.counts.opened = self.counts.opened.saturating_add(1);
        let receiving = TrafficIn {
            at,
            takes: 0,
            given: 0,
        };
        let sending = TrafficOut {
            traffic: self.traffic,
            at,
            last: None,
            sent: 0,
            lost: 0,
            is_wanted: true,
        };
        Ok((receiving, sending))
    }

    fn close(&mut self, at: Addr, receiving: TrafficIn, sending: TrafficOut<'a>) {
        let PortCounts {
            opened,
            closed,
            taken,
            sent,
            lost,
            are_wanted,
        } = self.counts;
        self.counts = PortCounts {
            opened,
            closed: closed.saturating_add(1),
            taken: taken.saturating_add(receiving.given),
            sent: sent.saturating_add(sending.sent),
            lost: lost.saturating_add(sending.lost),
            are_wanted: are_wanted && sending.is_wanted && receiving.at == at && sending.at == at,
        };
    }
}
