ghost use Rattle.std.specs.Prelude.{◌≡◌, ◌∷◌, [], List, length, slice_get, OnOk, None, Some};
ghost use Rattle.port_pool.specs.Pools.{Pairs};
ghost use Rattle.port_pool.specs.declared.pairs.Lease.{Lease};
ghost use Rattle.media_ports.specs.Addresses.{pairs_of_leases};
ghost use Rattle.media_ports.specs.Ends.{ArePairsOpened, AreOfLease};

use media_ports::{
    DrawnList, KeyFault, OpenedPairs, PairEnds, PortFault, close_pair, draw_keys, open_pairs,
};
use port_pool::{Leases, Pool};
use relay_outside::Family::{V4, V6};
use relay_outside::{Addr, Config, Failed, Family, InEnd, Ip, KeySource, OutEnd, PortMaker};
use std::alloc::Global;
use std::process::Abort;

/// Two pairs of each family, which begin at the ports 30000 and 30002.
const CONFIG: Config = Config {
    interface: Ip::V4([192, 0, 2, 1]),
    interface6: Some(Ip::V6([0x20, 1, 0x0d, 0xb8, 0, 0, 0, 0, 0, 0, 0, 0, 0, 0, 0, 1])),
    port_min: 29_999,
    port_max: 30_004,
    timeout_ms: 60_000,
    offer_timeout_ms: 120_000,
    max_sessions: 2,
};

const PHONE: Addr = Addr {
    ip: Ip::V4([198, 51, 100, 7]),
    port: 40_000,
};

/// The in end of a port: that of the port 30001 of version 4 receives `hello` from a phone.
#[derive(Drop)]
struct In {
    at: Addr,
    takes: u64,
}

impl InEnd for In {
    ghost log = { λ end. record { at = end.at; calls = None } };

    ghost faults = { λ end. 0 };

    fn take(&mut self, buf: &mut [u8]) -> Result<Option<(Addr, usize)>, Failed> {
        self.takes = self.takes.saturating_add(1);
        if self.at != port_of(V4, 30_001) || self.takes > 1 || buf.len() < 5 {
            return Ok(None);
        }
        buf[..5].copy_from_slice(b"hello");
        Ok(Some((PHONE, 5)))
    }
}

/// The out end of a port.
#[derive(Drop)]
struct Out {
    at: Addr,
    sends: u64,
}

impl OutEnd for Out {
    ghost log = { λ end. record { at = end.at; calls = None } };

    ghost faults = { λ end. 0 };

    fn send(&mut self, _to: Addr, _bytes: &[u8]) -> Result<(), Failed> {
        self.sends = self.sends.saturating_add(1);
        Ok(())
    }
}

/// A call of a port maker, with its port at the interface of its family.
#[derive(Clone, Copy)]
enum Due {
    /// An opening, which makes ends.
    Opens(Family, u16),
    /// An opening that fails.
    Fails(Family, u16),
    /// A closing, and how many takes and sends its ends were called for.
    Closes(Family, u16, u64, u64),
}

/// A port of the interface of a family.
fn port_of(family: Family, port: u16) -> Addr {
    let ip = match family {
        V4 => Ip::V4([192, 0, 2, 1]),
        V6 => Ip::V6([0x20, 1, 0x0d, 0xb8, 0, 0, 0, 0, 0, 0, 0, 0, 0, 0, 0, 1]),
    };
    Addr { ip, port }
}

/// A port maker, and the calls that are due: it keeps whether each was the next.
#[derive(Drop)]
struct Maker {
    due: &'static [Due],
    is_due: bool,
    faults: u64,
}

impl Maker {
    /// A maker that was not called yet.
    fn new(due: &'static [Due]) -> Maker {
        Maker {
            due,
            is_due: true,
            faults: 0,
        }
    }

    /// Whether all calls were made that were due, and no other.
    fn is_done(&self) -> bool {
        self.is_due && self.due.is_empty()
    }

    /// The call that is due, which is then no more.
    fn next(&mut self) -> Option<Due>
        ensures { self.new.faults ≡ self.old.faults }
    {
        let (first, rest) = self.due.split_first()?;
        self.due = rest;
        Some(*first)
    }
}

/// Whether an opening of this address is due, and fails.
fn fails(due: Option<Due>, at: Addr) -> bool {
    match due {
        Some(Due::Fails(family, port)) => at == port_of(family, port),
        _ => false,
    }
}

/// Whether an opening of this address is due, and makes ends.
fn opens(due: Option<Due>, at: Addr) -> bool {
    match due {
        Some(Due::Opens(family, port)) => at == port_of(family, port),
        _ => false,
    }
}

/// Whether a closing of this address is due, with its own ends and this many calls of theirs.
fn closes(due: Option<Due>, at: Addr, receiving: &In, sending: &Out) -> bool {
    match due {
        Some(Due::Closes(family, port, takes, sends)) => {
            at == port_of(family, port)
                && receiving.at == at
                && sending.at == at
                && receiving.takes == takes
                && sending.sends == sends
        }
        _ => false,
    }
}

impl PortMaker for Maker {
    type In = In;

    type Out = Out;

    ghost log = { λ maker. None };

    ghost faults = { λ maker. maker.faults };

    fn open(&mut self, at: Addr) -> Result<(In, Out), Failed> {
        let due = self.next();
        if fails(due, at) {
            self.faults = self.faults.saturating_add(1);
            return Err(Failed);
        }
        self.is_due = self.is_due && opens(due, at);
        Ok((In { at, takes: 0 }, Out { at, sends: 0 }))
    }

    fn close(&mut self, at: Addr, receiving: In, sending: Out) {
        let due = self.next();
        self.is_due = self.is_due && closes(due, at, &receiving, &sending);
    }
}

/// A pool of its pairs.
fn all_pairs(rt: &impl Abort, alloc: Global) -> Pool
    ensures { result ≡ record { first_port = 30000; per_family = 2; free4 = 0 ∷ 1 ∷ []; free6 = 2 ∷ 3 ∷ []; generations = 0 ∷ 0 ∷ 0 ∷ 0 ∷ [] } }
{
    let Ok(pool) = Pool::new(alloc, 29_999, 30_004, true) else {
        panic!(rt; "no memory");
    };
    pool
}

/// Leases of the first pair of each family, that of version 6 first.
fn two_leases(rt: &impl Abort, alloc: Global) -> Leases
    ensures { pairs_of_leases result.list ≡ 2 ∷ 0 ∷ [] }
{
    let mut pool = all_pairs(rt, alloc);
    let Ok(mut leases) = Leases::with_room(alloc, 2) else {
        panic!(rt; "no memory");
    };
    leases.push(pool.lease(V6).unwrap());
    leases.push(pool.lease(V4).unwrap());
    leases
}

/// Opens the ports of both.
fn open_two(
    maker: &mut Maker,
    leases: &Leases,
    opened: &mut OpenedPairs<In, Out>,
) -> Result<(), PortFault>
    requires two { pairs_of_leases leases.now.list ≡ 2 ∷ 0 ∷ [] }
    requires none { opened.old.list ≡ [] }
    requires room { opened.old.room ≡ 2 }
    ensures pairs { OnOk result (length opened.new.list ≡ 2) }
    ensures opened { OnOk result (ArePairsOpened ⟦<In as InEnd>⟧.log ⟦<Out as OutEnd>⟧.log CONFIG leases.now.list opened.new.list) }
{
    open_pairs(maker, &CONFIG, leases, opened)
}

/// Closes the ports of both, each with its own ends.
fn close_two(
    maker: &mut Maker,
    leases: &Leases,
    first: PairEnds<In, Out>,
    second: PairEnds<In, Out>,
)
    requires two { pairs_of_leases leases.now.list ≡ 2 ∷ 0 ∷ [] }
    requires first { (lease : Lease) → slice_get leases.now.list 0 ≡ Some lease → AreOfLease ⟦<In as InEnd>⟧.log ⟦<Out as OutEnd>⟧.log CONFIG lease first }
    requires second { (lease : Lease) → slice_get leases.now.list 1 ≡ Some lease → AreOfLease ⟦<In as InEnd>⟧.log ⟦<Out as OutEnd>⟧.log CONFIG lease second }
{
    close_pair(maker, &CONFIG, leases.get(0), first);
    close_pair(maker, &CONFIG, leases.get(1), second);
}

/// The ends of two opened pairs.
fn two_ends(opened: OpenedPairs<In, Out>) -> (PairEnds<In, Out>, PairEnds<In, Out>)
    requires { length opened.list ≡ 2 }
    ensures first { (leases : List Lease) (lease : Lease) → ArePairsOpened ⟦<In as InEnd>⟧.log ⟦<Out as OutEnd>⟧.log CONFIG leases opened.list →
        slice_get leases 0 ≡ Some lease → AreOfLease ⟦<In as InEnd>⟧.log ⟦<Out as OutEnd>⟧.log CONFIG lease result.0 }
    ensures second { (leases : List Lease) (lease : Lease) → ArePairsOpened ⟦<In as InEnd>⟧.log ⟦<Out as OutEnd>⟧.log CONFIG leases opened.list →
        slice_get leases 1 ≡ Some lease → AreOfLease ⟦<In as InEnd>⟧.log ⟦<Out as OutEnd>⟧.log CONFIG lease result.1 }
{
    let mut opened = opened;
    let first = opened.pop().unwrap();
    let second = opened.pop().unwrap();
    opened.destroy_empty();
    (first, second)
}

/// Whether the pair's port for RTCP hears the phone, and that for RTP does not; that for RTP sends to it.
fn hears_and_sends(ends: &mut PairEnds<In, Out>) -> bool
    ensures { (lease : Lease) → AreOfLease ⟦<In as InEnd>⟧.log ⟦<Out as OutEnd>⟧.log CONFIG lease ends.old →
        AreOfLease ⟦<In as InEnd>⟧.log ⟦<Out as OutEnd>⟧.log CONFIG lease ends.new }
{
    let mut buf = [0; 8];
    let rtp = ends.rtp_in.take(&mut buf);
    let rtcp = ends.rtcp_in.take(&mut buf);
    let sent = ends.rtp_out.send(PHONE, b"media");
    (rtp == Ok(None)) & (rtcp == Ok(Some((PHONE, 5)))) & sent.is_ok()
}

/// Four openings, and the closings, those of the first pair first.
const BOTH: &[Due] = &[
    Due::Opens(V6, 30_000),
    Due::Opens(V6, 30_001),
    Due::Opens(V4, 30_000),
    Due::Opens(V4, 30_001),
    Due::Closes(V6, 30_000, 0, 0),
    Due::Closes(V6, 30_001, 0, 0),
    Due::Closes(V4, 30_000, 1, 1),
    Due::Closes(V4, 30_001, 1, 0),
];

#[test]
fn each_end_is_that_of_its_port(rt: HostRuntime) {
    let leases = two_leases(&rt, rt.alloc());
    let mut maker = Maker::new(BOTH);
    let Ok(mut opened) = OpenedPairs::with_room(rt.alloc(), 2) else {
        panic!(rt; "no memory");
    };
    let Ok(()) = open_two(&mut maker, &leases, &mut opened) else {
        panic!(rt; "the ports are opened");
    };
    let (first, mut second) = two_ends(opened);
    assert!(rt; hears_and_sends(&mut second));
    close_two(&mut maker, &leases, first, second);
    assert!(rt; maker.is_done());
}

/// For each opening in turn the calls where it fails: what was opened is closed again.
const FAILING: &[&[Due]] = &[
    &[Due::Fails(V6, 30_000)],
    &[
        Due::Opens(V6, 30_000),
        Due::Fails(V6, 30_001),
        Due::Closes(V6, 30_000, 0, 0),
    ],
    &[
        Due::Opens(V6, 30_000),
        Due::Opens(V6, 30_001),
        Due::Fails(V4, 30_000),
        Due::Closes(V6, 30_000, 0, 0),
        Due::Closes(V6, 30_001, 0, 0),
    ],
    &[
        Due::Opens(V6, 30_000),
        Due::Opens(V6, 30_001),
        Due::Opens(V4, 30_000),
        Due::Fails(V4, 30_001),
        Due::Closes(V6, 30_000, 0, 0),
        Due::Closes(V6, 30_001, 0, 0),
        Due::Closes(V4, 30_000, 0, 0),
    ],
];

/// Whether all is undone by these calls after this many openings.
fn is_undone(rt: &impl Abort, alloc: Global, opened: usize, due: &'static [Due]) -> bool {
    let leases = two_leases(rt, alloc);
    let mut maker = Maker::new(due);
    let Ok(mut ends) = OpenedPairs::with_room(alloc, 2) else {
        panic!(rt; "no memory");
    };
    let answer = open_two(&mut maker, &leases, &mut ends);
    answer == Err(PortFault { opened }) && ends.len() == 0 && maker.is_done()
}

#[test]
fn each_opening_fails_in_turn(rt: HostRuntime) {
    for (opened, due) in FAILING.iter().enumerate() {
        assert!(rt;
            is_undone(&rt, rt.alloc(), opened, *due),
            "after {opened} openings"
        );
    }
}

/// A key source, and its draws: where one has no key it fails.
#[derive(Drop)]
struct Draws {
    keys: &'static [Option<[u8; 30]>],
    faults: u64,
}

impl KeySource for Draws {
    ghost log = { λ draws. None };

    ghost faults = { λ draws. draws.faults };

    fn draw(&mut self) -> Result<[u8; 30], Failed> {
        if let Some((first, rest)) = self.keys.split_first() {
            self.keys = rest;
            if let Some(key) = first {
                return Ok(*key);
            }
        }
        self.faults = self.faults.saturating_add(1);
        Err(Failed)
    }
}

/// Two keys, and a draw between them that fails.
const DRAWN: &[Option<[u8; 30]>] = &[Some([1; 30]), None, Some([2; 30])];

/// Whether all of this many keys are drawn, and these are drawn.
fn is_drawn(
    rt: &impl Abort,
    alloc: Global,
    keys: &mut Draws,
    count: usize,
    all: bool,
    want: &[[u8; 30]],
) -> bool {
    let Ok(mut drawn) = DrawnList::with_room(alloc, count) else {
        panic!(rt; "no memory");
    };
    let answer = draw_keys(keys, count, &mut drawn);
    (answer != Err(KeyFault)) == all && drawn.as_slice() == want
}

#[test]
fn keys_are_drawn_up_to_a_draw_that_fails(rt: HostRuntime) {
    let mut keys = Draws {
        keys: DRAWN,
        faults: 0,
    };
    assert!(rt; is_drawn(&rt, rt.alloc(), &mut keys, 3, false, &[[1; 30]]));
    assert!(rt; is_drawn(&rt, rt.alloc(), &mut keys, 1, true, &[[2; 30]]));
}
