//! What a call costs from its offer to its delete, without sockets: a run of the relay over devices in memory, whose link
//! gives the offer, the answer and the delete of this many calls. Without words it prints one fixed line; with the number of
//! calls it measures, and prints nanoseconds a call.
#![tactic(auto)]

mod datagrams;

use crate::datagrams::put_call;
use relay_app::{Status, run};
use relay_outside::{
    HandClock, HandTimer, LinkGift, OpenGate, SteadyKeys, SteadyLines, SteadyLink, SteadyMaker,
    SteadySink,
};
use std::alloc::Global;
use std::rt::Clock;
use std::sync::Wait;
use std::thread::Threads;
use std::time::Instant;
use std::{env, io};

const USAGE: &str = "call_bench: CALLS";

/// The greatest number of calls that are measured.
const MOST: u32 = 100_000;

fn number(text: &str) -> Option<u32> {
    let number: u32 = text.parse().ok()?;
    if number == 0 || number > MOST {
        return None;
    }
    Some(number)
}

/// The datagrams of this many calls, one call after the other.
fn gifts_of(alloc: Global, calls: u32) -> Option<Vec<LinkGift>> {
    let mut gifts = Vec::new(alloc);
    for call in 0..calls {
        put_call(alloc, &mut gifts, call)?;
    }
    Some(gifts)
}

/// Runs the command line over this link, with all other devices in memory.
fn run_over<R: Threads + Wait + Sync>(
    rt: &R,
    alloc: Global,
    words: &[&str],
    link: &mut SteadyLink,
) -> Status {
    run(
        rt,
        alloc,
        words,
        link,
        &mut SteadyMaker::new(alloc, Vec::new(alloc)),
        &mut SteadyKeys::new(alloc),
        &mut HandTimer::new(alloc, Vec::new(alloc)),
        &HandClock::new(0),
        &OpenGate::new(),
        &mut SteadyLines::new(alloc, Vec::new(alloc)),
        &mut SteadySink::new(alloc),
    )
}

/// Runs this many calls, and returns the nanoseconds that the run took.
fn time_calls<R: Threads + Wait + Sync + Clock>(rt: &R, alloc: Global, calls: u32) -> Option<u128> {
    let gifts = gifts_of(alloc, calls)?;
    let mut link = SteadyLink::new(alloc, gifts);
    let words = ["serve", "--interface=203.0.113.1", "--num-threads=0"];
    let start = Instant::now(rt).ok()?;
    let status = run_over(rt, alloc, &words, &mut link);
    let taken = start.elapsed(rt).ok()?.as_nanos();
    if status != Status::Ok {
        return None;
    }
    Some(taken)
}

fn measure<R: Threads + Wait + Sync + Clock>(
    rt: &R,
    alloc: Global,
    words: &[&str],
) -> Option<(u128, u128)> {
    let [calls] = words else {
        return None;
    };
    let calls = number(calls)?;
    let taken = time_calls(rt, alloc, calls)?;
    Some((taken, u128::from(calls)))
}

fn main(rt: HostRuntime) -> io::Result<()> {
    let alloc = rt.alloc();
    let mut words = Vec::new(alloc);
    for word in env::args(&rt)?.skip(1) {
        words.push(word)?;
    }
    let mut texts = Vec::new(alloc);
    for word in &words {
        texts.push(word.as_str())?;
    }
    match measure(&rt, alloc, texts.as_slice()) {
        Some((taken, calls)) => println!(rt; "{} ns a call", taken / calls.max(1)),
        None => println!(rt; "{USAGE}"),
    }
}
