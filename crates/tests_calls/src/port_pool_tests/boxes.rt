ghost use Rattle.std.specs.Prelude.{◌≡◌, ℕ, ◌≤◌, None};

use port_pool::{BoxTake, Holder, PairBox, Side};
use relay_outside::{Addr, Arrivals, Failed, InEnd, Ip, Packet, PortMaker, SteadyIn, SteadyMaker};
use rtp_packet::Half;
use std::alloc::Global;
use std::process::Abort;

/// An address of documentation (RFC 5737).
const HERE: Addr = Addr {
    ip: Ip::V4([192, 0, 2, 1]),
    port: 6000,
};

/// The address of the pair's port for RTCP.
const THERE: Addr = Addr {
    ip: Ip::V4([192, 0, 2, 1]),
    port: 6001,
};

/// A leg of the call in the last of four cells.
const LEG: Holder = Holder {
    cell: 4,
    call: 9,
    section: 0,
    side: Side::B,
    pair: 3,
    generation: 2,
};

/// An in end that gives these packets.
fn end(rt: &impl Abort, alloc: Global, packets: Vec<Packet>) -> SteadyIn {
    let arrivals = Vec::from_array(alloc, [Arrivals::new(HERE, packets)]).expect(rt, "memory");
    let mut maker = SteadyMaker::new(alloc, arrivals);
    let Ok((receiving, _)) = maker.open(HERE) else {
        panic!(rt; "the port is opened");
    };
    receiving
}

/// A datagram of this many bytes.
fn datagram(rt: &impl Abort, alloc: Global, len: usize) -> Packet {
    let bytes = Vec::from_elem(alloc, 5u8, len).expect(rt, "memory");
    Packet::datagram(alloc, HERE, bytes.as_slice()).expect(rt, "memory")
}

/// A box of that leg. For RTP nothing is there at first, then datagrams of 2,000, 2,001 and 3,000 bytes; for RTCP there
/// is one of 28.
fn full(rt: &impl Abort, alloc: Global) -> PairBox<SteadyIn> {
    let rtp = [
        Packet::Nothing,
        datagram(rt, alloc, 2_000),
        datagram(rt, alloc, 2_001),
        datagram(rt, alloc, 3_000),
    ];
    let rtp = Vec::from_array(alloc, rtp).expect(rt, "memory");
    let rtcp = Vec::from_array(alloc, [datagram(rt, alloc, 28)]).expect(rt, "memory");
    let mut pair = PairBox::empty(4, HERE);
    pair.put_in(LEG, end(rt, alloc, rtp), end(rt, alloc, rtcp));
    pair
}

/// A datagram of this many bytes for that leg.
fn for_leg(len: usize) -> BoxTake {
    BoxTake::Datagram {
        holder: LEG,
        source: HERE,
        len,
    }
}

/// The number of the first take, from 0, that gives something else.
fn first_other(
    pair: &mut PairBox<SteadyIn>,
    buf: &mut [u8; 2001],
    takes: &[(Half, BoxTake)],
) -> Option<usize> {
    for (number, (half, want)) in takes.iter().enumerate() {
        if pair.take(*half, buf) != *want {
            return Some(number);
        }
    }
    None
}

#[test]
fn a_box_takes_from_the_end_of_each_half(rt: HostRuntime) {
    let mut pair = full(&rt, rt.alloc());
    let mut buf = [0; 2001];
    let too_long = BoxTake::TooLong { source: HERE };
    let takes = [
        (Half::Rtp, BoxTake::Nothing),
        (Half::Rtp, for_leg(2_000)),
        (Half::Rtcp, for_leg(28)),
        (Half::Rtp, too_long),
        (Half::Rtcp, BoxTake::Nothing),
        (Half::Rtp, too_long),
        (Half::Rtp, BoxTake::Nothing),
    ];
    let other = first_other(&mut pair, &mut buf, &takes);
    assert!(rt; other.is_none(), "take {other:?}");
    assert!(rt; buf[0] == 5 && buf[2000] == 5);
    assert!(rt; pair.shut().is_some());
    assert!(rt; pair.take(Half::Rtp, &mut buf) == BoxTake::Closed);
    assert!(rt; pair.shut().is_none());
}

/// An in end whose takes all fail.
#[derive(Drop)]
struct BrokenIn {
    at: Addr,
    faults: u64,
}

/// One that was not called yet.
fn broken(at: Addr) -> BrokenIn {
    BrokenIn { at, faults: 0 }
}

impl InEnd for BrokenIn {
    ghost log = { λ end. record { at = end.at; calls = None } };

    ghost faults = { λ end. end.faults };

    fn take(&mut self, _buf: &mut [u8]) -> Result<Option<(Addr, usize)>, Failed> {
        self.faults = self.faults.saturating_add(1);
        Err(Failed)
    }
}

#[test]
fn a_fault_of_the_end_is_told(rt: HostRuntime) {
    let mut pair = PairBox::empty(4, HERE);
    pair.put_in(LEG, broken(HERE), broken(THERE));
    let mut buf = [0; 2001];
    assert!(rt; pair.take(Half::Rtcp, &mut buf) == BoxTake::Fault);
    let ends = pair.shut();
    assert!(rt; ends.is_some_and(|(rtp, rtcp)| rtp.faults == 0 && rtcp.faults == 1));
}
