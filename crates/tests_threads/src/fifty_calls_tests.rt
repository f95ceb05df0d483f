//! Four threads relay the packets of fifty calls while these are offered, answered, offered and answered again, and deleted.
ghost use Rattle.std.specs.Prelude.{None};

use crate::calls_link::CallsLink;
use crate::traffic::{PortCounts, Traffic, TrafficPorts};
use relay_app::{Status, run};
use relay_outside::{Failed, HandClock, LineSink, OpenGate, SteadyKeys, SteadyLines, Timer};

/// A timer that stands at 0.
#[derive(Drop)]
struct NoTimer;

impl Timer for NoTimer {
    ghost log = { λ timer. None };

    fn now(&mut self) -> u64 {
        0
    }
}

/// A sink that keeps one line.
#[derive(Drop)]
struct OneLine {
    bytes: [u8; 512],
    len: usize,
    /// How many lines were given to it.
    count: u64,
}

impl LineSink for OneLine {
    ghost log = { λ sink. None };

    ghost faults = { λ sink. 0 };

    fn write(&mut self, line: &[u8]) -> Result<(), Failed> {
        let len = line.len().min(self.bytes.len());
        self.bytes[..len].copy_from_slice(&line[..len]);
        self.len = len;
        self.count = self.count.saturating_add(1);
        Ok(())
    }
}

const WORDS: &[&str] = &[
    "serve",
    "--interface=203.0.113.1",
    "--port-min=30000",
    "--port-max=30199",
    "--num-threads=4",
];

#[test]
fn four_threads_count_what_the_ports_of_fifty_calls_count(rt: HostRuntime) {
    let traffic = Traffic::new();
    let mut link = CallsLink::new(&traffic);
    let mut ports = TrafficPorts::new(&traffic);
    let mut sink = OneLine {
        bytes: [0; 512],
        len: 0,
        count: 0,
    };
    let status = run(
        &rt,
        rt.alloc(),
        WORDS,
        &mut link,
        &mut ports,
        &mut SteadyKeys::new(rt.alloc()),
        &mut NoTimer,
        &HandClock::new(0),
        &OpenGate::new(),
        &mut SteadyLines::new(rt.alloc(), Vec::new(rt.alloc())),
        &mut sink,
    );
    assert!(rt; status == Status::Ok && sink.count == 1);
    let Some((turns, datagrams, replies)) = link.counts() else {
        panic!(rt; "a reply isn't ok");
    };
    assert!(rt; datagrams == 240 && replies == 240);
    let PortCounts {
        opened,
        closed,
        taken,
        sent,
        lost,
        are_wanted,
    } = ports.counts();
    assert!(rt; opened == 200 && closed == 200, "four ports a call");
    assert!(rt; are_wanted, "each packet left once, behind those before it");
    assert!(rt; sent == traffic.sent());
    assert!(rt; sent > 0, "packets left");
    let Some(refused) = taken.checked_sub(sent.saturating_add(lost)) else {
        panic!(rt; "more left than came");
    };
    let Ok(wanted) = format!(in rt.alloc();
        "turns {turns} datagrams {datagrams} replies {replies} sent {sent} refused {refused} lost {lost}\n"
    ) else {
        panic!(rt; "no memory");
    };
    let len = sink.len.min(512);
    assert!(rt; &sink.bytes[..len] == wanted.as_bytes(), "what is printed");
}
