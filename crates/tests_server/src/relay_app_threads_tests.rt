//! Threads of media do run at the same time, beside the control loop: two of them wait for each other inside a relay.
ghost use Rattle.std.specs.Prelude.{◌≤◌, None, length};

use crate::relay_app_runs::{ANSWER, OFFER};
use crate::table_devices::{PROXY, SameKey, TableLines, TableTimer, fill};
use relay_app::{Status, run};
use relay_outside::{
    Addr, ControlLink, Failed, Gate, HandClock, InEnd, Ip, LineSink, OutEnd, PortMaker, Taken,
};
use std::sync::atomic::{AtomicBool, Ordering};

/// How often a relay looks for the other one.
const MOST_LOOKS: u64 = 1_000_000_000;

/// How many takes of the link give nothing at most.
const MOST_TAKES: u64 = 1_000_000;

/// The offer of a second call, and its answer.
const SECOND_OFFER: &[u8] =
    b"3 d7:call-id2:c27:command5:offer8:from-tag1:a3:sdp89:v=0\r\no=- 1 1 IN IP4 192.0.2.10\r\ns=-\r\nc=IN IP4 192.0.2.10\r\nt=0 0\r\nm=audio 6000 RTP/AVP 0\r\ne";

const SECOND_ANSWER: &[u8] =
    b"4 d7:call-id2:c27:command6:answer8:from-tag1:a3:sdp95:v=0\r\no=- 1 1 IN IP4 198.51.100.20\r\ns=-\r\nc=IN IP4 198.51.100.20\r\nt=0 0\r\nm=audio 7000 RTP/AVP 0\r\n6:to-tag1:be";

const COMMANDS: &[&[u8]] = &[OFFER, ANSWER, SECOND_OFFER, SECOND_ANSWER];

/// What the devices of one run share: which relays have begun, and which of them saw the other.
#[derive(Drop)]
struct Meeting {
    /// Both calls were answered.
    is_answered: AtomicBool,
    /// A relay of the first call, of the second call, is inside the gate.
    first_is_in: AtomicBool,
    second_is_in: AtomicBool,
    /// It saw there that the other one is.
    first_met: AtomicBool,
    second_met: AtomicBool,
}

impl Meeting {
    fn new() -> Meeting {
        Meeting {
            is_answered: AtomicBool::new(false),
            first_is_in: AtomicBool::new(false),
            second_is_in: AtomicBool::new(false),
            first_met: AtomicBool::new(false),
            second_met: AtomicBool::new(false),
        }
    }

    /// Whether each relay saw the other.
    fn have_met(&self) -> bool {
        self.first_met.load(Ordering::SeqCst) && self.second_met.load(Ordering::SeqCst)
    }
}

/// Tells that a relay is inside, and looks whether the other one is.
fn meet(own: &AtomicBool, other: &AtomicBool, met: &AtomicBool) {
    own.store(true, Ordering::SeqCst);
    for _ in 0..MOST_LOOKS {
        if other.load(Ordering::SeqCst) {
            met.store(true, Ordering::SeqCst);
            return;
        }
    }
}

/// A gate in which the relays of the two calls wait for each other.
#[derive(Drop)]
struct MeetingGate<'a> {
    meeting: &'a Meeting,
}

impl<'a> Gate for MeetingGate<'a> {
    ghost passed = { λ gate cell. Unit {0} };

    fn inside(&self, cell: u32) {
        let meeting = self.meeting;
        match cell {
            1 => meet(
                &meeting.first_is_in,
                &meeting.second_is_in,
                &meeting.first_met,
            ),
            _ => meet(
                &meeting.second_is_in,
                &meeting.first_is_in,
                &meeting.second_met,
            ),
        }
    }
}

/// A link that gives the offers and answers of two calls, and ends when the relays have met.
#[derive(Drop)]
struct MeetingLink<'a> {
    meeting: &'a Meeting,
    next: usize,
    takes: u64,
}

impl<'a> ControlLink for MeetingLink<'a> {
    ghost log = { λ link. None };

    ghost faults = { λ link. 0 };

    fn bind(&mut self, _at: Addr) -> Result<(), Failed> {
        Ok(())
    }

    fn take(&mut self, buf: &mut [u8]) -> Result<Taken, Failed> {
        if let Some(command) = COMMANDS.get(self.next) {
            self.next += 1;
            return Ok(Taken::Datagram {
                from: PROXY,
                len: fill(buf, *command),
            });
        }
        self.meeting.is_answered.store(true, Ordering::SeqCst);
        self.takes = self.takes.saturating_add(1);
        if self.meeting.have_met() || self.takes >= MOST_TAKES {
            Ok(Taken::End)
        } else {
            Ok(Taken::Nothing)
        }
    }

    fn send(&mut self, _to: Addr, _bytes: &[u8]) -> Result<(), Failed> {
        Ok(())
    }
}

/// The in end of a port: once both calls are answered it gives one packet, where the port is the caller's of the first call or the
/// callee's of the second.
#[derive(Drop)]
struct MeetingIn<'a> {
    meeting: &'a Meeting,
    at: Addr,
    is_given: bool,
}

impl<'a> InEnd for MeetingIn<'a> {
    ghost log = { λ end. record { at = end.at; calls = None } };

    ghost faults = { λ end. 0 };

    fn take(&mut self, buf: &mut [u8]) -> Result<Option<(Addr, usize)>, Failed> {
        let speaks = self.at.port == 30_002 || self.at.port == 30_004;
        if !speaks || self.is_given || !self.meeting.is_answered.load(Ordering::SeqCst) {
            return Ok(None);
        }
        self.is_given = true;
        let from = Addr {
            ip: Ip::V4([192, 0, 2, 77]),
            port: 9000,
        };
        Ok(Some((from, fill(buf, b"\x80\0\0\x01\0\0\0\0\x11\x11\x11\x11"))))
    }
}

#[derive(Drop)]
struct NoOut {
    at: Addr,
}

impl OutEnd for NoOut {
    ghost log = { λ end. record { at = end.at; calls = None } };

    ghost faults = { λ end. 0 };

    fn send(&mut self, _to: Addr, _bytes: &[u8]) -> Result<(), Failed> {
        Ok(())
    }
}

#[derive(Drop)]
struct MeetingPorts<'a> {
    meeting: &'a Meeting,
}

impl<'a> PortMaker for MeetingPorts<'a> {
    type In = MeetingIn<'a>;

    type Out = NoOut;

    ghost log = { λ maker. None };

    ghost faults = { λ maker. 0 };

    fn open(&mut self, at: Addr) -> Result<(MeetingIn<'a>, NoOut), Failed> {
        let receiving = MeetingIn {
            meeting: self.meeting,
            at,
            is_given: false,
        };
        Ok((receiving, NoOut { at }))
    }

    fn close(&mut self, _at: Addr, _receiving: MeetingIn<'a>, _sending: NoOut) {}
}

/// A sink that keeps whether a line of totals with two packets sent was given to it.
#[derive(Drop)]
struct TotalsSink {
    is_wanted: bool,
}

impl LineSink for TotalsSink {
    ghost log = { λ sink. None };

    ghost faults = { λ sink. 0 };

    fn write(&mut self, line: &[u8]) -> Result<(), Failed> {
        self.is_wanted = line.ends_with(b" replies 4 sent 2 refused 0 lost 0\n");
        Ok(())
    }
}

#[test]
fn two_threads_of_media_meet_inside_their_relays(rt: HostRuntime) {
    let meeting = Meeting::new();
    let mut link = MeetingLink {
        meeting: &meeting,
        next: 0,
        takes: 0,
    };
    let mut sink = TotalsSink { is_wanted: false };
    let status = run(
        &rt,
        rt.alloc(),
        &["serve", "--interface=203.0.113.1", "--num-threads=2"],
        &mut link,
        &mut MeetingPorts { meeting: &meeting },
        &mut SameKey,
        &mut TableTimer::new(&[]),
        &HandClock::new(0),
        &MeetingGate { meeting: &meeting },
        &mut TableLines::new(&[], 0),
        &mut sink,
    );
    assert!(rt; status == Status::Ok);
    assert!(rt; meeting.have_met());
    assert!(rt; sink.is_wanted);
}
