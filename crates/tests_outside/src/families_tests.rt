//! Sockets of both families. Each of these tests tells on standard error, and looks at nothing, where the system has no loopback address of
//! version 6.
ghost use Rattle.std.specs.Prelude.{◌≡◌};

use outside_real::{ClockStart, Readiness, StopPipe, SystemClock, UdpIn, UdpMaker, UdpOut};
use relay_outside::{Addr, Clock, InEnd, Ip, LaneShare, OutEnd, PortMaker};
use std::alloc::Global;
use std::io::ErrorKind;
use std::net::{Net, UdpSocket};
use std::process::Abort;

/// The first port of the range.
const PORT: u16 = 22_330;

/// How many pairs the range has. With two threads, pair 0 is the first one's, and the pair of version 6 with the same ports the second one's.
const RANGE_PAIRS: u16 = 10;

/// How long a wait lasts at most that is to find something, in milliseconds.
const LONG: u32 = 2_000;

/// How long a wait lasts that is to find nothing, in milliseconds.
const SHORT: u32 = 5;

/// Linux's number of the error that the system knows no address of a family (`EAFNOSUPPORT`).
const NO_FAMILY: i32 = 97;

/// An address of the loopback network of version 4.
fn four(port: u16) -> Addr {
    Addr {
        ip: Ip::V4([127, 0, 0, 99]),
        port,
    }
}

/// The loopback address of version 6.
fn six(port: u16) -> Addr {
    Addr {
        ip: Ip::V6([0, 0, 0, 0, 0, 0, 0, 0, 0, 0, 0, 0, 0, 0, 0, 1]),
        port,
    }
}

/// Whether the system has the loopback address of version 6; where it says that it has none, this is told.
fn has_six<R: Net + Eprint + Abort>(rt: &R) -> bool {
    match UdpSocket::bind(rt, "[::1]:0") {
        Ok(_) => true,
        Err(error) => {
            assert!(rt;
                error.kind() == ErrorKind::AddrNotAvailable
                    || error.raw_os_error() == Some(NO_FAMILY)
            );
            let _ = eprintln!(rt; "skipped: this system has no loopback address of IPv6");
            false
        }
    }
}

/// The hints of two threads, over the range at both families.
fn hints(alloc: Global) -> Readiness {
    let pairs = 2 * u32::from(RANGE_PAIRS);
    let share = LaneShare::of_pairs(2, pairs);
    Readiness::new(alloc, share, PORT, RANGE_PAIRS, pairs, StopPipe::none())
}

/// The ends of a port that is opened.
fn open<R: Net>(rt: &impl Abort, maker: &mut UdpMaker<R>, at: Addr) -> (UdpIn, UdpOut)
    ensures { ((⟦<UdpIn as InEnd>⟧.log result.0).at ≡ at) × ((⟦<UdpOut as OutEnd>⟧.log result.1).at ≡ at) }
{
    let Ok(ends) = maker.open(at) else {
        panic!(rt; "not opened");
    };
    ends
}

/// Whether a take gives a datagram of this length from there.
fn takes(end: &mut UdpIn, from: Addr, len: usize) -> bool
    ensures { (⟦<UdpIn as InEnd>⟧.log end.new).at ≡ (⟦<UdpIn as InEnd>⟧.log end.old).at }
{
    end.take(&mut [0; 16]) == Ok(Some((from, len)))
}

/// Whether a take gives nothing.
fn is_empty(end: &mut UdpIn) -> bool
    ensures { (⟦<UdpIn as InEnd>⟧.log end.new).at ≡ (⟦<UdpIn as InEnd>⟧.log end.old).at }
{
    end.take(&mut [0; 16]) == Ok(None)
}

/// Whether the thread is told this pair alone, and the other one nothing.
fn is_told(clock: &impl Clock, thread: u32, pair: u32) -> bool {
    let mut pairs = [u32::MAX; 4];
    clock.ready(thread, LONG, &mut pairs) == 1
        && pairs[0] == pair
        && clock.ready(1 - thread.min(1), SHORT, &mut [0; 4]) == 0
}

#[test]
fn both_families_have_a_socket_at_one_port(rt: HostRuntime) {
    if !has_six(&rt) {
        return;
    }
    let readiness = hints(rt.alloc());
    let clock = SystemClock::new(&rt, &readiness, ClockStart::read(&rt));
    let mut maker = UdpMaker::new(&rt, &readiness);
    let (at, other) = (four(PORT + 1), six(PORT + 1));
    let (mut four_in, mut four_out) = open(&rt, &mut maker, at);
    let (mut six_in, mut six_out) = open(&rt, &mut maker, other);
    assert!(rt; is_empty(&mut four_in) && is_empty(&mut six_in));
    assert!(rt; six_out.send(other, b"six").is_ok());
    assert!(rt; is_empty(&mut six_in), "not told yet");
    assert!(rt; is_told(&clock, 1, u32::from(RANGE_PAIRS)));
    assert!(rt; is_empty(&mut four_in));
    assert!(rt; takes(&mut six_in, other, 3));
    assert!(rt; four_out.send(at, b"four").is_ok());
    assert!(rt; is_told(&clock, 0, 0));
    assert!(rt; is_empty(&mut six_in));
    assert!(rt; takes(&mut four_in, at, 4));
    assert!(rt; maker.open(other).is_err(), "in use");
    maker.close(other, six_in, six_out);
    let (six_in, six_out) = open(&rt, &mut maker, other);
    maker.close(other, six_in, six_out);
    maker.close(at, four_in, four_out);
}

#[test]
fn a_pair_of_version_6_is_told_for_each_of_its_sockets(rt: HostRuntime) {
    if !has_six(&rt) {
        return;
    }
    let readiness = hints(rt.alloc());
    let clock = SystemClock::new(&rt, &readiness, ClockStart::read(&rt));
    let mut maker = UdpMaker::new(&rt, &readiness);
    let (rtp, rtcp) = (six(PORT + 18), six(PORT + 19));
    let (mut rtp_in, mut rtp_out) = open(&rt, &mut maker, rtp);
    let (mut rtcp_in, mut rtcp_out) = open(&rt, &mut maker, rtcp);
    assert!(rt; rtp_out.send(rtcp, b"rtp").is_ok());
    assert!(rt; is_told(&clock, 1, 19));
    assert!(rt; takes(&mut rtcp_in, rtp, 3));
    assert!(rt; rtcp_out.send(rtp, b"rtcp").is_ok());
    assert!(rt; is_told(&clock, 1, 19));
    assert!(rt; takes(&mut rtp_in, rtcp, 4));
    maker.close(rtp, rtp_in, rtp_out);
    maker.close(rtcp, rtcp_in, rtcp_out);
}

#[test]
fn a_socket_of_version_6_has_nothing_to_do_with_version_4(rt: HostRuntime) {
    if !has_six(&rt) {
        return;
    }
    let readiness = hints(rt.alloc());
    let mut maker = UdpMaker::new(&rt, &readiness);
    let any = Addr {
        ip: Ip::V6([0; 16]),
        port: PORT + 2,
    };
    let mapped = Addr {
        ip: Ip::V6([0, 0, 0, 0, 0, 0, 0, 0, 0, 0, 255, 255, 127, 0, 0, 99]),
        port: PORT + 4,
    };
    let at = four(PORT + 2);
    let (mut any_in, mut any_out) = open(&rt, &mut maker, any);
    let (mut four_in, mut four_out) = open(&rt, &mut maker, at);
    assert!(rt; maker.open(mapped).is_err(), "an address of version 4");
    assert!(rt; four_out.send(at, b"four").is_ok());
    assert!(rt; any_out.send(at, b"lost").is_err());
    assert!(rt; is_empty(&mut any_in));
    assert!(rt; takes(&mut four_in, at, 4) && is_empty(&mut four_in));
    maker.close(at, four_in, four_out);
    maker.close(any, any_in, any_out);
}
