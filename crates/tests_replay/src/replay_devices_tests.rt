ghost use Rattle.std.specs.Prelude.{◌≡◌, ◌≤◌, Some, []};

use outside_real::ChaChaKeys;
use relay_outside::{Addr, ControlLink, Failed, InEnd, Ip, KeySource, OutEnd, PortMaker, Taken};
use relay_script::{Step, parse};
use replay_devices::{ReplayKeys, ReplayLink, ReplayPorts, Timetable};
use std::alloc::Global;
use std::process::Abort;

const FOUR: Addr = Addr {
    ip: Ip::V4([192, 0, 2, 10]),
    port: 6000,
};

const HERE: Addr = Addr {
    ip: Ip::V4([203, 0, 113, 1]),
    port: 30_000,
};

/// The steps of these lines.
fn steps_of(rt: &impl Abort, alloc: Global, lines: &[&[u8]]) -> Vec<Step> {
    let mut steps = Vec::new(alloc);
    for line in lines {
        let Ok(step) = parse(alloc, *line) else {
            panic!(rt; "no step");
        };
        let Ok(()) = steps.push(step) else {
            panic!(rt; "no memory");
        };
    }
    steps
}

/// The link of these steps.
fn link_of<'a>(rt: &impl Abort, alloc: Global, steps: &'a [Step]) -> ReplayLink<'a> {
    let Ok(link) = ReplayLink::new(alloc, steps) else {
        panic!(rt; "no memory");
    };
    link
}

/// Tells a link which line is made next.
fn begin(link: &mut ReplayLink<'_>, index: usize) {
    link.begin(index);
}

/// Whether it is a datagram of the address `FOUR` with these bytes.
fn is_datagram(found: Option<(Addr, &[u8])>, bytes: &[u8]) -> bool {
    match found {
        Some((from, text)) => from == FOUR && text == bytes,
        None => false,
    }
}

/// The result of the next take of the link with room for four bytes.
fn taken(link: &mut ReplayLink<'_>) -> Result<Taken, Failed> {
    link.take(&mut [0; 4])
}

/// Whether the next take of the link with room for four bytes gives these of the address `FOUR`.
fn gives(link: &mut ReplayLink<'_>, bytes: &[u8]) -> bool {
    let given = Taken::Datagram {
        from: FOUR,
        len: bytes.len(),
    };
    taken(link) == Ok(given) && is_datagram(link.last_taken(), bytes)
}

#[test]
fn a_datagram_is_given_once_and_cut_at_the_room(rt: HostRuntime) {
    let lines: [&[u8]; 3] = [
        b"ng 192.0.2.10:6000 t:one",
        b"at 5",
        b"ng 192.0.2.10:6000 t:three",
    ];
    let steps = steps_of(&rt, rt.alloc(), &lines);
    let mut link = link_of(&rt, rt.alloc(), steps.as_slice());
    begin(&mut link, 0);
    assert!(rt; gives(&mut link, b"one"));
    assert!(rt; taken(&mut link) == Ok(Taken::Nothing));
    begin(&mut link, 1);
    assert!(rt; taken(&mut link) == Ok(Taken::Nothing));
    begin(&mut link, 2);
    assert!(rt; gives(&mut link, b"thre"));
    assert!(rt; link.tells());
}

#[test]
fn the_second_line_ng_meets_a_failing_take(rt: HostRuntime) {
    let lines: [&[u8]; 3] = [
        b"fail read 2",
        b"ng 192.0.2.10:6000 t:one",
        b"ng 192.0.2.10:6000 t:two",
    ];
    let steps = steps_of(&rt, rt.alloc(), &lines);
    let mut link = link_of(&rt, rt.alloc(), steps.as_slice());
    begin(&mut link, 0);
    begin(&mut link, 1);
    assert!(rt; taken(&mut link).is_ok());
    begin(&mut link, 2);
    assert!(rt; taken(&mut link) == Err(Failed));
    assert!(rt; is_datagram(link.last_taken(), b"one"));
}

/// The result of the next send of the link.
fn sent(link: &mut ReplayLink<'_>, bytes: &[u8]) -> Result<(), Failed> {
    link.send(FOUR, bytes)
}

#[test]
fn two_replies_fail_by_two_lines(rt: HostRuntime) {
    let lines: [&[u8]; 2] = [b"fail reply 1", b"fail reply 3"];
    let steps = steps_of(&rt, rt.alloc(), &lines);
    let mut link = link_of(&rt, rt.alloc(), steps.as_slice());
    assert!(rt; link.bind(HERE) == Ok(()));
    begin(&mut link, 0);
    begin(&mut link, 1);
    assert!(rt; sent(&mut link, b"a") == Err(Failed));
    assert!(rt; link.last_sent().is_none());
    assert!(rt; sent(&mut link, b"b") == Ok(()));
    assert!(rt; sent(&mut link, b"c") == Err(Failed));
    assert!(rt; is_datagram(link.last_sent(), b"b"));
}

/// The timetable of these steps.
fn timetable_of<'a>(rt: &impl Abort, alloc: Global, steps: &'a [Step]) -> Timetable<'a> {
    let Ok(timetable) = Timetable::new(alloc, steps) else {
        panic!(rt; "no memory");
    };
    timetable
}

/// A maker to which the first three lines were told.
fn maker_at_the_third<'a>(
    rt: &impl Abort,
    alloc: Global,
    timetable: &'a Timetable<'a>,
) -> ReplayPorts<'a>
    ensures { result.log ≡ Some [] }
{
    let Ok(mut maker) = ReplayPorts::new(alloc, timetable) else {
        panic!(rt; "no memory");
    };
    maker.begin(0);
    maker.begin(1);
    maker.begin(2);
    maker
}

#[test]
fn the_second_open_fails(rt: HostRuntime) {
    let lines: [&[u8]; 3] = [b"fail open 2", b"#", b"#"];
    let steps = steps_of(&rt, rt.alloc(), &lines);
    let timetable = timetable_of(&rt, rt.alloc(), steps.as_slice());
    let mut maker = maker_at_the_third(&rt, rt.alloc(), &timetable);
    let Ok((receiving, sending)) = maker.open(HERE) else {
        panic!(rt; "the first open fails");
    };
    maker.close(HERE, receiving, sending);
    assert!(rt; maker.open(HERE).is_err());
    assert!(rt; maker.tells());
}

/// Whether the next take gives these bytes of the address `FOUR`.
fn takes<I: InEnd>(end: &mut I, bytes: &[u8]) -> bool {
    let mut buf = [0; 8];
    match end.take(&mut buf) {
        Ok(Some((from, len))) => from == FOUR && buf.get(..len).is_some_and(|text| text == bytes),
        _ => false,
    }
}

/// Whether the next take gives nothing, or fails.
fn takes_none<I: InEnd>(end: &mut I, fails: bool) -> bool {
    let answer = end.take(&mut [0; 8]);
    answer == if fails { Err(Failed) } else { Ok(None) }
}

#[test]
fn an_end_gives_the_later_lines_at_its_port(rt: HostRuntime) {
    let lines: [&[u8]; 8] = [
        b"fail take 2",
        b"fail take 3",
        b"# 30000 is opened, and 30001 is not",
        b"take 30000 192.0.2.10:6000 x:01",
        b"packet 30001 192.0.2.10:6000 x:02",
        b"take 30000 192.0.2.10:6000 x:0304",
        b"take 30000 [2001:db8::2]:6000 x:05",
        b"packet 30000 192.0.2.10:6000 x:0607",
    ];
    let steps = steps_of(&rt, rt.alloc(), &lines);
    let timetable = timetable_of(&rt, rt.alloc(), steps.as_slice());
    let mut maker = maker_at_the_third(&rt, rt.alloc(), &timetable);
    let Ok((mut receiving, _)) = maker.open(HERE) else {
        panic!(rt; "the open fails");
    };
    assert!(rt; takes(&mut receiving, &[1]));
    assert!(rt; takes_none(&mut receiving, true));
    assert!(rt; takes(&mut receiving, &[6, 7]));
    assert!(rt; takes_none(&mut receiving, false));
}

/// Whether the next sends have these results.
fn are_sent<O: OutEnd>(end: &mut O, wanted: [bool; 4]) -> bool
    ensures { (O.log end.new).at ≡ (O.log end.old).at }
{
    let mut same = true;
    for done in wanted {
        let sent = end.send(FOUR, b"packet");
        same = same && sent.is_ok() == done;
    }
    same
}

#[test]
fn sends_fail_by_the_lines_since_the_last_open(rt: HostRuntime) {
    let lines: [&[u8]; 5] = [
        b"fail send 30000 1",
        b"fail send 30000 3",
        b"#",
        b"fail send 30000 2",
        b"#",
    ];
    let steps = steps_of(&rt, rt.alloc(), &lines);
    let timetable = timetable_of(&rt, rt.alloc(), steps.as_slice());
    let mut maker = maker_at_the_third(&rt, rt.alloc(), &timetable);
    let Ok((receiving, mut sending)) = maker.open(HERE) else {
        panic!(rt; "the first open fails");
    };
    assert!(rt; are_sent(&mut sending, [false, true, false, true]));
    maker.close(HERE, receiving, sending);
    maker.begin(4);
    let Ok((_, mut sending)) = maker.open(HERE) else {
        panic!(rt; "the second open fails");
    };
    assert!(rt; are_sent(&mut sending, [true, false, true, true]));
    assert!(rt; maker.tells());
}

/// What the next draw gives.
fn drawn<K: KeySource>(keys: &mut K) -> Result<[u8; 30], Failed> {
    keys.draw()
}

/// Tells the key source of three lines, from this index on.
fn begin_three(keys: &mut ReplayKeys<'_>, index: usize)
    requires { index ≤ 8 }
{
    keys.begin(index);
    keys.begin(index + 1);
    keys.begin(index + 2);
}

#[test]
fn keys_come_from_the_lines_and_then_from_the_seed(rt: HostRuntime) {
    let lines: [&[u8]; 6] = [
        b"key 010101010101010101010101010101010101010101010101010101010101",
        b"fail draw 2",
        b"ng 192.0.2.10:6000 t:",
        b"key 020202020202020202020202020202020202020202020202020202020202",
        b"key 030303030303030303030303030303030303030303030303030303030303",
        b"ng 192.0.2.10:6000 t:",
    ];
    let steps = steps_of(&rt, rt.alloc(), &lines);
    let Ok(mut keys) = ReplayKeys::new(rt.alloc(), steps.as_slice(), 258) else {
        panic!(rt; "no memory");
    };
    let mut seed = [0; 32];
    seed[0] = 2;
    seed[1] = 1;
    let mut stream = ChaChaKeys::from_seed(seed);
    begin_three(&mut keys, 0);
    assert!(rt; drawn(&mut keys) == Ok([1; 30]));
    assert!(rt; drawn(&mut keys) == Err(Failed));
    assert!(rt; drawn(&mut keys) == drawn(&mut stream));
    begin_three(&mut keys, 3);
    assert!(rt; drawn(&mut keys) == Ok([2; 30]));
    assert!(rt; drawn(&mut keys) == Ok([3; 30]));
    assert!(rt; drawn(&mut keys) == drawn(&mut stream));
    assert!(rt; keys.tells());
}
