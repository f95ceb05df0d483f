//! The media proxy as a program: it makes the real devices, hands them with its words to `relay_app::run`,
//! and ends with the number of the status that this returns. What the devices of `outside_real` take and
//! pass on is trusted; all that is proved is over these devices.
#![tactic(auto)]

ghost use Rattle.std.specs.Prelude.{◌≡◌, ◌⊎◌, IfOk, Some, map};
ghost use Rattle.command_line.specs.Values.{media_settings};
ghost use Rattle.command_line.specs.Words.{settings, replay_settings, load_settings};
ghost use Rattle.relay_app.specs.Run.{StatusByWords};
ghost use Rattle.rtpengine.specs.Endings.{ending_status};

mod devices;
mod endings;
mod words;

use crate::devices::{RealDevices, run_over};
use crate::endings::Ending;
use crate::words::{Words, read_words};
use command_line::{Media, read_media};
use outside_real::{Readiness, StopPipe, read_seed};
use relay_outside::LaneShare;
use std::alloc::{AllocError, Global};
use std::io::{BufRead, BufReader};
use std::net::Net;
use std::process::ExitCode;
use std::random::RandomSource;
use std::rt::Clock;
use std::sync::Wait;
use std::thread::Threads;

fn main(rt: HostRuntime) -> ExitCode {
    let alloc = rt.alloc();
    let ending = match read_words(&rt, alloc) {
        Words::Read(words) => start(&rt, alloc, &words),
        Words::NotText => start(&rt, alloc, &Vec::new(alloc)),
        Words::OutOfMemory => Ending::NoMemory,
    };
    ending.tell(&rt);
    ending.exit_code()
}

/// The words as slices.
fn texts_of(alloc: Global, words: &Vec<String>) -> Result<Vec<&str>, AllocError>
    ensures { IfOk result (λ texts. map (λ text. text.now) texts.items ≡ map (λ word. word.bytes.items) words.now.items) }
{
    let mut texts = Vec::new(alloc);
    for word in words {
        texts.push(word.as_str())?;
    }
    Ok(texts)
}

/// What the words say of media; without words of `serve`, or out of memory, no threads and no pairs: then no socket is opened.
fn media_of<'a>(alloc: Global, words: &'a [&'a str]) -> Media
    ensures { (media_settings (settings (map (λ word. word.now) words.entry.now)) ≡ Some result) ⊎ (result ≡ record { threads = 0; pairs = 0; range_pairs = 0; first_port = 0 }) }
{
    match read_media(alloc, words) {
        Some(media) => media,
        None => Media {
            threads: 0,
            pairs: 0,
            range_pairs: 0,
            first_port: 0,
        },
    }
}

/// Makes the devices and runs the relay: sockets, the system's hints of which are readable, its clock, keys from this
/// seed, this input and standard output. The end of standard input, where that is a pipe, ends each wait and the control link.
fn run_with<R, B>(rt: &R, alloc: Global, words: &[&str], seed: [u8; 32], input: B) -> Ending
where
    R: Threads + Wait + Sync + Net + Clock + Print + Eprint,
    B: BufRead + Drop,
    ensures { StatusByWords (settings (map (λ word. word.now) words.now)) (replay_settings (map (λ word. word.now) words.now)) (load_settings (map (λ word. word.now) words.now)) (ending_status result) }
{
    let media = media_of(alloc, words);
    let share = LaneShare::of_pairs(media.threads, media.pairs);
    let stop = StopPipe::standard_input();
    let readiness = Readiness::new(
        alloc,
        share,
        media.first_port,
        media.range_pairs,
        media.pairs,
        stop,
    );
    let mut devices = RealDevices::new(rt, &readiness, stop, media.threads, seed, input);
    let status = run_over(rt, alloc, words, &mut devices);
    Ending::of_run(words, status, devices.control.fault())
}

/// Runs the relay over the devices of this machine, with a seed of the runtime's random source and standard input. Without memory
/// or a seed nothing is run.
fn start<R>(rt: &R, alloc: Global, words: &Vec<String>) -> Ending
where
    R: Threads + Wait + Sync + Net + Clock + RandomSource + Input + Print + Eprint,
    ensures { StatusByWords (settings (map (λ word. word.bytes.items) words.now.items)) (replay_settings (map (λ word. word.bytes.items) words.now.items)) (load_settings (map (λ word. word.bytes.items) words.now.items)) (ending_status result) }
{
    let Ok(texts) = texts_of(alloc, words) else {
        return Ending::NoMemory;
    };
    let seed = match read_seed(rt) {
        Ok(seed) => seed,
        Err(error) => return Ending::NoSeed(error),
    };
    match BufReader::new(alloc, rt.reader()) {
        Ok(input) => run_with(rt, alloc, texts.as_slice(), seed, input),
        Err(_) => Ending::NoMemory,
    }
}
