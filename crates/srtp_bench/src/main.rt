//! What it costs to protect and to open packets of SRTP, and what the ciphers take of it. Without words it prints one fixed
//! line; with words it measures, in rounds of 64 packets, and prints nanoseconds of processor time a packet.
#![tactic(auto)]

mod ciphers;
mod packets;

use std::alloc::Global;
use std::time::{CpuClock, Duration};
use std::{env, io};

const USAGE: &str = "srtp_bench: packets|ciphers SIZE ROUNDS";

/// The bytes of the longest packet that is measured.
const LONGEST: usize = 2_000;

/// How many packets a round has.
pub(crate) const BATCH: usize = 64;

/// The time of two parts of each round, over all rounds.
#[derive(Clone, Copy)]
pub(crate) struct Times {
    first: u128,
    second: u128,
}

impl Times {
    /// No time so far.
    pub(crate) fn new() -> Times {
        Times {
            first: 0,
            second: 0,
        }
    }

    /// Adds the two parts of a round, by the moments at its begin, between them and at its end.
    pub(crate) fn add(&mut self, begin: Duration, between: Duration, end: Duration) {
        let first = between.saturating_sub(begin).as_nanos();
        let second = end.saturating_sub(between).as_nanos();
        self.first = self.first.saturating_add(first);
        self.second = self.second.saturating_add(second);
    }
}

/// The processor time that this program has used.
pub(crate) fn moment(clock: &impl CpuClock) -> Option<Duration> {
    clock.process_cpu_time().ok()
}

fn number(text: &str) -> Option<usize> {
    let number: usize = text.parse().ok()?;
    if number == 0 {
        return None;
    }
    Some(number)
}

/// What was measured, with the names of its two parts and the number of packets.
#[derive(Drop)]
struct Figures {
    names: (&'static str, &'static str),
    times: Times,
    packets: u128,
}

fn measure(clock: &impl CpuClock, alloc: Global, words: &[&str]) -> Option<Figures> {
    let [case, size, rounds] = words else {
        return None;
    };
    let size = number(size)?;
    let rounds = number(rounds)?;
    if size > LONGEST {
        return None;
    }
    let (names, times) = match *case {
        "packets" => (
            ("protect", "open"),
            packets::time(clock, alloc, size, rounds)?,
        ),
        "ciphers" => (("cipher", "code"), ciphers::time(clock, size, rounds)?),
        _ => return None,
    };
    Some(Figures {
        names,
        times,
        packets: (rounds as u128).saturating_mul(BATCH as u128),
    })
}

fn main(rt: HostRuntime) -> io::Result<()> {
    let alloc = rt.alloc();
    let mut words = Vec::new(alloc);
    for word in env::args(&rt)?.skip(1) {
        words.push(word)?;
    }
    let mut texts = Vec::new(alloc);
    for word in &words {
        texts.push(word.as_str())?;
    }
    match measure(&rt, alloc, texts.as_slice()) {
        Some(figures) => print_figures(&rt, figures),
        None => println!(rt; "{USAGE}"),
    }
}

fn print_figures(rt: &impl Print, figures: Figures) -> io::Result<()> {
    let (one, two) = figures.names;
    let first = figures.times.first / figures.packets.max(1);
    let second = figures.times.second / figures.packets.max(1);
    println!(rt; "{one} {first} ns {two} {second} ns")
}
