ghost use Rattle.std.specs.Prelude.{◌≡◌, Some, []};

use relay_outside::{
    Addr, Arrivals, Clock, ControlLink, Copied, Failed, Gate, HandClock, HandTimer, InEnd, Ip,
    KeyList, KeySource, LaneShare, LineRead, LineSink, LineSource, LinkGift, MemoryIn, MemoryLines,
    MemoryLink, MemoryMaker, MemoryOut, MemoryPort, MemorySink, OpenGate, OutEnd, Packet,
    PortMaker, SteadyKeys, SteadyLines, SteadyMaker, Taken, Timer,
};
use std::alloc::Global;
use std::process::Abort;

const HERE: Addr = Addr {
    ip: Ip::V4([203, 0, 113, 1]),
    port: 30_000,
};

/// The number of a call, alone.
fn call(rt: &impl Abort, alloc: Global, number: u64) -> Vec<u64> {
    Vec::from_array(alloc, [number]).expect(rt, "memory")
}

fn link(rt: &impl Abort, alloc: Global, failing: u64) -> MemoryLink {
    let gift = LinkGift::datagram(alloc, HERE, b"a datagram").expect(rt, "memory");
    let gifts = Vec::from_array(alloc, [gift]).expect(rt, "memory");
    MemoryLink::new(alloc, gifts, call(rt, alloc, failing))
}

#[test]
fn a_failing_take_uses_nothing_up(rt: HostRuntime) {
    let mut link = link(&rt, rt.alloc(), 1);
    let mut buf = [0; 4];
    assert!(rt; link.take(&mut buf).is_err());
    assert!(rt; link.take(&mut buf) == Ok(Taken::Datagram { from: HERE, len: 4 }));
    assert!(rt; buf == *b"a da");
    assert!(rt; link.take(&mut buf) == Ok(Taken::End));
}

#[test]
fn a_failing_send_is_not_the_last_one_sent(rt: HostRuntime) {
    let mut link = link(&rt, rt.alloc(), 3);
    assert!(rt; link.bind(HERE).is_ok());
    assert!(rt; link.last_sent().is_none());
    assert!(rt; link.send(HERE, b"reply").is_ok());
    assert!(rt; link.send(HERE, b"lost").is_err());
    assert!(rt; is_last_sent(&link, b"reply"));
    assert!(rt; link.tells());
}

fn is_last_sent(link: &MemoryLink, bytes: &[u8]) -> bool {
    match link.last_sent() {
        Some((_, sent)) => sent == bytes,
        None => false,
    }
}

#[test]
fn the_second_write_fails(rt: HostRuntime) {
    let mut sink = MemorySink::new(rt.alloc(), call(&rt, rt.alloc(), 2));
    assert!(rt; sink.write(b"one\n").is_ok());
    assert!(rt; sink.write(b"two\n").is_err());
    assert!(rt; sink.calls().is_some_and(|calls| calls.len() == 2));
}

#[test]
fn the_last_moment_stays(rt: HostRuntime) {
    let moments = Vec::from_array(rt.alloc(), [3, 7]).expect(&rt, "memory");
    let mut timer = HandTimer::new(rt.alloc(), moments);
    assert!(rt; timer.now() == 3);
    assert!(rt; timer.now() == 7);
    assert!(rt; timer.now() == 7);
    assert!(rt; timer.tells());
}

#[test]
fn a_clock_without_moments_stands_still(rt: HostRuntime) {
    let mut idle = HandTimer::new(rt.alloc(), Vec::new(rt.alloc()));
    assert!(rt; idle.now() == 0);
    assert!(rt; HandClock::new(9).now() == 9);
    OpenGate::new().inside(1);
}

#[test]
fn keys_are_numbered(rt: HostRuntime) {
    let mut keys = SteadyKeys::new(rt.alloc());
    let mut second = [0; 30];
    second[0] = 1;
    assert!(rt; keys.draw() == Ok([0; 30]));
    assert!(rt; keys.draw() == Ok(second));
    assert!(rt; keys.tells());
}

/// One line.
fn lines(rt: &impl Abort, alloc: Global) -> Vec<Copied> {
    let line = Copied::of(alloc, b"at 5").expect(rt, "memory");
    Vec::from_array(alloc, [line]).expect(rt, "memory")
}

#[test]
fn a_line_is_cut_at_the_buffer(rt: HostRuntime) {
    let mut source = SteadyLines::new(rt.alloc(), lines(&rt, rt.alloc()));
    let mut buf = [0; 3];
    assert!(rt; source.line(&mut buf) == Ok(LineRead::Text { len: 3 }));
    assert!(rt; buf == *b"at ");
    assert!(rt; source.line(&mut buf) == Ok(LineRead::End));
    assert!(rt; source.tells());
}

fn packet(rt: &impl Abort, alloc: Global) -> Packet {
    Packet::datagram(alloc, HERE, b"packet").expect(rt, "memory")
}

fn maker(rt: &impl Abort, alloc: Global) -> SteadyMaker
    ensures { result.log ≡ Some [] }
{
    let packets = [Packet::Nothing, packet(rt, alloc)];
    let packets = Vec::from_array(alloc, packets).expect(rt, "memory");
    let arrivals = Vec::from_array(alloc, [Arrivals::new(HERE, packets)]).expect(rt, "memory");
    SteadyMaker::new(alloc, arrivals)
}

#[test]
fn what_an_end_has_not_given_goes_back(rt: HostRuntime) {
    let mut maker = maker(&rt, rt.alloc());
    let mut buf = [0; 16];
    let Ok((mut receiving, mut sending)) = maker.open(HERE) else {
        panic!(rt; "not opened");
    };
    assert!(rt; receiving.take(&mut buf) == Ok(None));
    assert!(rt; sending.send(HERE, b"out").is_ok());
    maker.close(HERE, receiving, sending);
    let Ok((mut receiving, sending)) = maker.open(HERE) else {
        panic!(rt; "not opened again");
    };
    assert!(rt; receiving.take(&mut buf) == Ok(Some((HERE, 6))));
    maker.close(HERE, receiving, sending);
    assert!(rt; maker.tells());
}

#[test]
fn a_failing_draw_keeps_its_key(rt: HostRuntime) {
    let given = Vec::from_array(rt.alloc(), [[1; 30], [2; 30]]).expect(&rt, "memory");
    let mut keys = KeyList::new(rt.alloc(), given, call(&rt, rt.alloc(), 2));
    assert!(rt; keys.draw() == Ok([1; 30]));
    assert!(rt; keys.draw().is_err());
    assert!(rt; keys.draw() == Ok([2; 30]));
    assert!(rt; keys.draw().is_err());
    assert!(rt; keys.tells());
}

#[test]
fn a_failing_read_keeps_its_line(rt: HostRuntime) {
    let lines = lines(&rt, rt.alloc());
    let mut source = MemoryLines::new(rt.alloc(), lines, call(&rt, rt.alloc(), 1));
    let mut buf = [0; 8];
    assert!(rt; source.line(&mut buf).is_err());
    assert!(rt; source.line(&mut buf) == Ok(LineRead::Text { len: 4 }));
    assert!(rt; buf == *b"at 5\0\0\0\0");
    assert!(rt; source.line(&mut buf) == Ok(LineRead::End));
    assert!(rt; source.tells());
}

fn failing_maker(rt: &impl Abort, alloc: Global, failing: u64) -> MemoryMaker
    ensures { result.log ≡ Some [] }
{
    let packets = Vec::from_array(alloc, [packet(rt, alloc)]).expect(rt, "memory");
    let port = MemoryPort::new(HERE, packets, call(rt, alloc, 1), call(rt, alloc, 2));
    let ports = Vec::from_array(alloc, [port]).expect(rt, "memory");
    MemoryMaker::new(alloc, ports, call(rt, alloc, failing))
}

/// The first of three takes and two sends, in turns, that goes another way: the first take and the second send are to fail.
fn other_step(
    receiving: &mut MemoryIn,
    sending: &mut MemoryOut,
    second: Option<(Addr, usize)>,
) -> Option<u32>
    ensures receiving { (⟦<MemoryIn as InEnd>⟧.log receiving.new).at ≡ (⟦<MemoryIn as InEnd>⟧.log receiving.old).at }
    ensures sending { (⟦<MemoryOut as OutEnd>⟧.log sending.new).at ≡ (⟦<MemoryOut as OutEnd>⟧.log sending.old).at }
{
    let mut buf = [0; 16];
    if receiving.take(&mut buf).is_ok() {
        return Some(0);
    }
    if sending.send(HERE, b"out").is_err() {
        return Some(1);
    }
    if receiving.take(&mut buf) != Ok(second) {
        return Some(2);
    }
    if sending.send(HERE, b"lost").is_ok() {
        return Some(3);
    }
    if receiving.take(&mut buf) != Ok(None) {
        return Some(4);
    }
    None
}

#[test]
fn the_second_opening_fails(rt: HostRuntime) {
    let mut maker = failing_maker(&rt, rt.alloc(), 2);
    let Ok((receiving, sending)) = maker.open(HERE) else {
        panic!(rt; "not opened");
    };
    maker.close(HERE, receiving, sending);
    assert!(rt; maker.open(HERE).is_err());
    assert!(rt; maker.tells());
    assert!(rt; maker.calls().is_some_and(|calls| calls.len() == 3));
}

#[test]
fn each_end_counts_its_own_calls_from_its_opening(rt: HostRuntime) {
    let mut maker = failing_maker(&rt, rt.alloc(), 3);
    let Ok((mut receiving, mut sending)) = maker.open(HERE) else {
        panic!(rt; "not opened");
    };
    if let Some(step) = other_step(&mut receiving, &mut sending, Some((HERE, 6))) {
        panic!(rt; "step {step}");
    }
    assert!(rt; receiving.tells() && sending.tells());
    maker.close(HERE, receiving, sending);
    let Ok((mut receiving, mut sending)) = maker.open(HERE) else {
        panic!(rt; "not opened again");
    };
    if let Some(step) = other_step(&mut receiving, &mut sending, None) {
        panic!(rt; "step {step} again");
    }
    maker.close(HERE, receiving, sending);
}

#[test]
fn lanes_are_handed_out_two_by_two(rt: HostRuntime) {
    let share = LaneShare::of_pairs(4, 5_000);
    assert!(rt; share.lanes == 960);
    assert!(rt; share.lane_of(7) == Some(7) && share.lane_of(967) == Some(7));
    for (lane, thread, place) in [
        (0, 0, 0),
        (1, 0, 1),
        (2, 1, 0),
        (7, 3, 1),
        (8, 0, 2),
        (9, 0, 3),
    ] {
        assert!(rt; share.thread_of(lane) == thread && share.place_of(lane) == place);
    }
    assert!(rt;
        LaneShare::of_pairs(0, 20).thread_of(19) == 0,
        "none counts as one"
    );
    assert!(rt; LaneShare::of_pairs(4, 0).lane_of(7).is_none());
    let each = LaneShare::one_each(3);
    assert!(rt; each.lane_of(5) == Some(2) && each.thread_of(2) == 2 && each.place_of(2) == 0);
}
