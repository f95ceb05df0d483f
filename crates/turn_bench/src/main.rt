//! What a turn of the turn table costs, compared with a lock of std around the same state. Without words it prints one fixed
//! line; with words it measures, by threads that each make this many rounds, and prints nanoseconds a round.
#![tactic(auto)]

mod load;
mod locks;
mod own;
mod turns;

use crate::load::{Large, Small};
use crate::own::Own;
use std::alloc::Global;
use std::rt::Clock;
use std::sync::Wait;
use std::thread::Threads;
use std::{env, io};

const USAGE: &str =
    "turn_bench: small|large PLACES ROUNDS, or two|four apart|spread|together ROUNDS";

/// What a measurement found, in nanoseconds for all rounds of a thread.
#[derive(Clone, Copy)]
struct Figures {
    turns: u128,
    locks: u128,
    rounds: u128,
}

fn number(text: &str) -> Option<usize> {
    let number: usize = text.parse().ok()?;
    if number == 0 {
        return None;
    }
    Some(number)
}

fn read_own(text: &str) -> Option<Own> {
    match text {
        "apart" => Some(Own::Apart),
        "spread" => Some(Own::Spread),
        "together" => Some(Own::Together),
        _ => None,
    }
}

fn measure<R: Threads + Wait + Sync + Clock>(
    rt: &R,
    alloc: Global,
    words: &[&str],
) -> Option<Figures> {
    let [case, how, rounds] = words else {
        return None;
    };
    let rounds = number(rounds)?;
    let (turns, locks) = match *case {
        "small" => alone_small(rt, alloc, how, rounds)?,
        "large" => alone_large(rt, alloc, how, rounds)?,
        "two" => two(rt, alloc, read_own(how)?, rounds)?,
        "four" => four(rt, alloc, read_own(how)?, rounds)?,
        _ => return None,
    };
    Some(Figures {
        turns,
        locks,
        rounds: rounds as u128,
    })
}

fn alone_small<R: Wait + Clock>(
    rt: &R,
    alloc: Global,
    places: &str,
    rounds: usize,
) -> Option<(u128, u128)> {
    let places = number(places)?;
    if places == 0 {
        return None;
    }
    let turns = turns::time_alone::<Small, R>(rt, alloc, places, rounds)?;
    let locks = locks::time_alone::<Small, R>(rt, alloc, places, rounds)?;
    Some((turns, locks))
}

fn alone_large<R: Wait + Clock>(
    rt: &R,
    alloc: Global,
    places: &str,
    rounds: usize,
) -> Option<(u128, u128)> {
    let places = number(places)?;
    if places == 0 {
        return None;
    }
    let turns = turns::time_alone::<Large, R>(rt, alloc, places, rounds)?;
    let locks = locks::time_alone::<Large, R>(rt, alloc, places, rounds)?;
    Some((turns, locks))
}

fn two<R: Threads + Wait + Sync + Clock>(
    rt: &R,
    alloc: Global,
    own: Own,
    rounds: usize,
) -> Option<(u128, u128)> {
    let turns = turns::time_two(rt, alloc, own, rounds)?;
    let locks = locks::time_two(rt, own, rounds)?;
    Some((turns, locks))
}

fn four<R: Threads + Wait + Sync + Clock>(
    rt: &R,
    alloc: Global,
    own: Own,
    rounds: usize,
) -> Option<(u128, u128)> {
    let turns = turns::time_four(rt, alloc, own, rounds)?;
    let locks = locks::time_four(rt, own, rounds)?;
    Some((turns, locks))
}

fn main(rt: HostRuntime) -> io::Result<()> {
    let alloc = rt.alloc();
    let mut words = Vec::new(alloc);
    for word in env::args(&rt)?.skip(1) {
        words.push(word)?;
    }
    let mut texts = Vec::new(alloc);
    for word in &words {
        texts.push(word.as_str())?;
    }
    match measure(&rt, alloc, texts.as_slice()) {
        Some(figures) => print_figures(&rt, figures),
        None => println!(rt; "{USAGE}"),
    }
}

fn print_figures(rt: &impl Print, figures: Figures) -> io::Result<()> {
    let turns = figures.turns / figures.rounds.max(1);
    let locks = figures.locks / figures.rounds.max(1);
    println!(rt; "turn {turns} ns lock {locks} ns")
}
