//! Runs of the relay over devices of tables: what each is given, and what is to be seen of it.

use crate::table_devices::{
    SameKey, TableLines, TableLink, TablePort, TablePorts, TableSink, TableTimer,
};
use relay_app::{Status, run};
use relay_outside::{Addr, Gate, HandClock, Ip};
use std::alloc::Global;
use std::process::Abort;
use std::sync::Wait;
use std::sync::atomic::{AtomicU64, Ordering};
use std::thread::Threads;

/// A run.
#[derive(Clone, Copy)]
pub(crate) struct Case {
    /// The words of the command line.
    pub(crate) words: &'static [&'static str],
    /// The datagrams that the control link gives, all from one source.
    pub(crate) asked: &'static [&'static [u8]],
    /// How many calls are offered after them.
    pub(crate) offers: u16,
    /// The moments of the timer.
    pub(crate) moments: &'static [u64],
    /// The moment at which the clock stands.
    pub(crate) clock: u64,
    /// What comes to the ports, in the order in which they are to be opened, and what is to leave from them.
    pub(crate) ports: &'static [TablePort],
    /// How many relays are made, each inside the gate that the run is handed.
    pub(crate) relays: u64,
    /// The lines of the script.
    pub(crate) script: &'static [&'static [u8]],
    /// The number, from 1, of the call of the link that fails: with 0 none does.
    pub(crate) link_fails: u64,
    /// The same of the reads of the script.
    pub(crate) read_fails: u64,
    /// The same of the writes of lines.
    pub(crate) write_fails: u64,
    /// How the run is to end.
    pub(crate) status: Status,
    /// Where the link is to be bound.
    pub(crate) bound: Option<Addr>,
    /// What the last reply is to be.
    pub(crate) reply: Option<&'static [u8]>,
    /// What is to be printed: just these lines, or as many lines that begin so.
    pub(crate) lines: &'static [&'static [u8]],
    /// Whether the lines are beginnings.
    pub(crate) are_beginnings: bool,
}

/// Where the control link listens if no word says another address.
pub(crate) const LISTEN: Addr = Addr {
    ip: Ip::V4([127, 0, 0, 1]),
    port: 2223,
};

/// A run of `serve` that is asked nothing, and relays media between its control turns.
pub(crate) const SERVING: Case = Case {
    words: &["serve", "--interface=203.0.113.1", "--num-threads=0"],
    asked: &[],
    offers: 0,
    moments: &[],
    clock: 0,
    ports: &[],
    relays: 0,
    script: &[],
    link_fails: 0,
    read_fails: 0,
    write_fails: 0,
    status: Status::Ok,
    bound: Some(LISTEN),
    reply: None,
    lines: &[b"turns 0 datagrams 0 replies 0 sent 0 refused 0 lost 0\n"],
    are_beginnings: false,
};

/// A run of `replay` whose script is empty.
pub(crate) const REPLAYING: Case = Case {
    words: &["replay"],
    bound: None,
    lines: &[],
    ..SERVING
};

/// A run whose words are refused.
pub(crate) const REFUSED: Case = Case {
    words: &[],
    status: Status::Usage,
    bound: None,
    lines: &[b"usage: rtpengine"],
    are_beginnings: true,
    ..SERVING
};

/// The offer of a call with one audio section.
pub(crate) const OFFER: &[u8] =
    b"1 d7:call-id2:c17:command5:offer8:from-tag1:a3:sdp89:v=0\r\no=- 1 1 IN IP4 192.0.2.10\r\ns=-\r\nc=IN IP4 192.0.2.10\r\nt=0 0\r\nm=audio 6000 RTP/AVP 0\r\ne";

/// The answer.
pub(crate) const ANSWER: &[u8] =
    b"2 d7:call-id2:c17:command6:answer8:from-tag1:a3:sdp95:v=0\r\no=- 1 1 IN IP4 198.51.100.20\r\ns=-\r\nc=IN IP4 198.51.100.20\r\nt=0 0\r\nm=audio 7000 RTP/AVP 0\r\n6:to-tag1:be";

/// A gate that counts the relays that were inside it.
#[derive(Drop)]
struct CountingGate {
    relays: AtomicU64,
}

impl Gate for CountingGate {
    ghost passed = { λ gate cell. Unit {0} };

    fn inside(&self, _cell: u32) {
        self.relays.fetch_add(1, Ordering::SeqCst);
    }
}

/// Runs the words over these devices.
fn run_with<R: Threads + Wait + Sync>(
    rt: &R,
    alloc: Global,
    case: &Case,
    link: &mut TableLink,
    ports: &mut TablePorts,
    gate: &CountingGate,
    script: &mut TableLines,
    sink: &mut TableSink,
) -> Status {
    run(
        rt,
        alloc,
        case.words,
        link,
        ports,
        &mut SameKey,
        &mut TableTimer::new(case.moments),
        &HandClock::new(case.clock),
        gate,
        script,
        sink,
    )
}

/// Whether the ports of the table were opened, and each port was closed as it should.
fn are_closed(ports: &TablePorts) -> bool {
    match ports.counts() {
        Some((opened, closed)) => opened == closed,
        None => false,
    }
}

/// Whether a run is as it should be.
fn is_so<R: Threads + Wait + Sync>(rt: &R, alloc: Global, case: &Case) -> bool {
    let mut link = TableLink::new(case.asked, case.offers, case.reply, case.link_fails);
    let mut ports = TablePorts::new(case.ports);
    let gate = CountingGate {
        relays: AtomicU64::new(0),
    };
    let mut script = TableLines::new(case.script, case.read_fails);
    let mut sink = TableSink::new(case.lines, case.are_beginnings, case.write_fails);
    let status = run_with(
        rt,
        alloc,
        case,
        &mut link,
        &mut ports,
        &gate,
        &mut script,
        &mut sink,
    );
    status == case.status
        && link.bound() == case.bound
        && link.is_answered()
        && are_closed(&ports)
        && gate.relays.load(Ordering::SeqCst) == case.relays
        && sink.is_printed()
}

/// Compares a run with what it should be: a message names it by its place, from 0, in its table.
pub(crate) fn check_case<R: Threads + Wait + Sync + Abort>(
    rt: &R,
    alloc: Global,
    place: usize,
    case: &Case,
) {
    assert!(rt; is_so(rt, alloc, case), "case {place}");
}

/// The same of all runs of a table.
pub(crate) fn check_cases<R: Threads + Wait + Sync + Abort>(rt: &R, alloc: Global, cases: &[Case]) {
    for (place, case) in cases.iter().enumerate() {
        check_case(rt, alloc, place, case);
    }
}
