ghost use Rattle.std.specs.Prelude.{◌≡◌};

use crate::two_pairs::two_pairs;
use call_cell::{
    Cell, Gone, InContexts, Incoming, LegReport, LegReports, Outcome, Prepare, Refused,
};
use port_pool::{Holder, Lease, Side, Signal};
use relay_outside::{Addr, Config, Family, Ip, PortMaker, SteadyMaker, SteadyOut};
use rtp_packet::Half;
use sdes_lines::Suite;
use srtp_keys::DrawnKey;
use std::alloc::Global;
use std::process::Abort;

const CONFIG: Config = Config {
    interface: Ip::V4([192, 0, 2, 1]),
    interface6: None,
    port_min: 30_000,
    port_max: 30_003,
    timeout_ms: 60_000,
    offer_timeout_ms: 120_000,
    max_sessions: 10,
};

const PACKET: Incoming = Incoming {
    holder: Holder {
        cell: 1,
        call: 1,
        section: 0,
        side: Side::A,
        pair: 0,
        generation: 1,
    },
    half: Half::Rtp,
    source: Addr {
        ip: Ip::V4([192, 0, 2, 10]),
        port: 6000,
    },
    len: 12,
};

#[test]
fn an_empty_cell_has_no_leg_for_a_packet(rt: HostRuntime) {
    let mut cell: Cell<SteadyOut> = Cell::empty(rt.alloc(), &CONFIG);
    let mut buf = [0u8; 2064];
    assert!(rt; cell.relay(&PACKET, &mut buf, 5) == Outcome::Refused(Refused::Stale));
}

#[test]
fn no_leg_goes_from_an_empty_cell(rt: HostRuntime) {
    let mut cell: Cell<SteadyOut> = Cell::empty(rt.alloc(), &CONFIG);
    let Ok(mut gone) = Gone::new(rt.alloc()) else {
        panic!(rt; "no memory");
    };
    cell.end(&mut gone);
    assert!(rt; gone.pop().is_none());
}

/// The first lease of a pool.
fn first_lease(rt: &impl Abort, alloc: Global) -> Lease
    ensures { (result.pair ≡ 0) × (result.generation ≡ 1) }
{
    let mut pool = two_pairs(rt, alloc);
    let Some(lease) = pool.lease(Family::V4) else {
        panic!(rt; "a pair is free");
    };
    lease
}

/// An out end.
fn out_end(rt: &impl Abort, alloc: Global) -> SteadyOut {
    let mut maker = SteadyMaker::new(alloc, Vec::new(alloc));
    let Ok((_, sending)) = maker.open(PACKET.source) else {
        panic!(rt; "the port is opened");
    };
    sending
}

/// A cell whose call was offered at moment 5 with one leg and one key.
fn offered(rt: &impl Abort, alloc: Global) -> Cell<SteadyOut> {
    let Ok(mut signal) = Prepare::reserve(alloc, 1, 1) else {
        panic!(rt; "no memory");
    };
    let lease = first_lease(rt, alloc);
    signal.add_leg(PACKET.holder, lease, out_end(rt, alloc), out_end(rt, alloc));
    signal.add_key(0, Side::A, DrawnKey::from_draw(7, [9; 30]), Suite::Tag80);
    let mut cell: Cell<SteadyOut> = Cell::empty(alloc, &CONFIG);
    let Ok(mut gone) = Gone::new(alloc) else {
        panic!(rt; "no memory");
    };
    cell.prepare(1, signal, &mut gone, 5);
    assert!(rt; gone.pop().is_none(), "no leg was dropped");
    cell
}

/// The ports for RTP of the first leg that goes at the end, and of the second.
fn gone_at_end(
    rt: &impl Abort,
    alloc: Global,
    cell: &mut Cell<SteadyOut>,
) -> (Option<u16>, Option<u16>) {
    let Ok(mut ended) = Gone::new(alloc) else {
        panic!(rt; "no memory");
    };
    cell.end(&mut ended);
    (next_port(&mut ended), next_port(&mut ended))
}

fn next_port(gone: &mut Gone<SteadyOut>) -> Option<u16> {
    let (lease, _, _) = gone.pop()?;
    Some(lease.rtp_port())
}

#[test]
fn a_leg_is_prepared_with_a_key_and_goes_at_the_end(rt: HostRuntime) {
    let mut cell = offered(&rt, rt.alloc());
    assert!(rt;
        !cell.expire(120_004),
        "the offer is younger than its timeout"
    );
    assert!(rt; cell.expire(120_005), "the offer is as old as its timeout");
    let mut buf = [0u8; 2064];
    assert!(rt; cell.relay(&PACKET, &mut buf, 0) == Outcome::Refused(Refused::NotAnswered));
    let ports = gone_at_end(&rt, rt.alloc(), &mut cell);
    assert!(rt; ports == (Some(30_000), None), "its leg went alone");
}

#[test]
fn a_leg_is_not_told_of_before_its_answer(rt: HostRuntime) {
    let cell = offered(&rt, rt.alloc());
    let Ok(mut log) = LegReports::new(rt.alloc()) else {
        panic!(rt; "no memory");
    };
    log.push(LegReport {
        section: 0,
        side: Side::A,
        port: 30_000,
        endpoint: PACKET.source,
        rtp_accepted: 1,
        rtp_sent: 2,
        rtcp_accepted: 3,
        rtcp_sent: 4,
        report: None,
    });
    cell.read_legs(&mut log);
    assert!(rt; log.len() == 0, "what was log before is gone too");
}

#[test]
fn a_committed_call_is_due_by_its_last_answer(rt: HostRuntime) {
    let alloc = rt.alloc();
    let mut cell: Cell<SteadyOut> = Cell::empty(alloc, &CONFIG);
    let Ok(mut gone) = Gone::new(alloc) else {
        panic!(rt; "no memory");
    };
    let Ok(signal) = Signal::new(alloc) else {
        panic!(rt; "no memory");
    };
    let Ok(contexts) = InContexts::reserve(alloc, 2) else {
        panic!(rt; "no memory");
    };
    cell.commit(&signal, contexts, &mut gone, 200_000);
    assert!(rt;
        !cell.expire(259_999),
        "the answer is younger than the timeout"
    );
    assert!(rt; cell.expire(260_000), "the answer is as old as the timeout");
}
