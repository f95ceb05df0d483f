//! How a script is played, and what it prints compared.
ghost use Rattle.std.specs.Prelude.{◌≡◌, ◌↔◌, IsNone};
ghost use Rattle.check_scripts.specs.Output.{line_written, text_of_lines};

use crate::difference::Difference;
use relay_app::{Status, run};
use relay_outside::{
    Copied, HandClock, HandTimer, OpenGate, SteadyKeys, SteadyLines, SteadyLink, SteadyMaker,
    SteadySink, WriteCall,
};
use std::alloc::{AllocError, Global};
use std::sync::Wait;
use std::thread::Threads;

/// How the second line of a script begins where it has words for the command line.
const WORDS: &str = "# words: ";

/// The words of the command line with which a script is replayed.
fn words_of(alloc: Global, script: &str) -> Result<Vec<&str>, AllocError> {
    let mut words = Vec::new(alloc);
    words.push("replay")?;
    let second = script.lines().nth(1).unwrap_or("");
    if let Some(more) = second.strip_prefix(WORDS) {
        for word in more.split(' ') {
            words.push(word)?;
        }
    }
    Ok(words)
}

/// The lines of a script, each without its line feed.
fn lines_of(alloc: Global, script: &str) -> Result<SteadyLines, AllocError> {
    let mut lines = Vec::new(alloc);
    for line in script.split_terminator('\n') {
        lines.push(Copied::of(alloc, line.as_bytes()).ok_or(AllocError)?)?;
    }
    Ok(SteadyLines::new(alloc, lines))
}

/// Runs these words over a script, a sink, and devices in memory that are left alone.
fn replay_over<R: Threads + Wait + Sync>(
    rt: &R,
    alloc: Global,
    words: &[&str],
    script: &mut SteadyLines,
    sink: &mut SteadySink,
) -> Status {
    let mut ports = SteadyMaker::new(alloc, Vec::new(alloc));
    run(
        rt,
        alloc,
        words,
        &mut SteadyLink::new(alloc, Vec::new(alloc)),
        &mut ports,
        &mut SteadyKeys::new(alloc),
        &mut HandTimer::new(alloc, Vec::new(alloc)),
        &HandClock::new(0),
        &OpenGate::new(),
        script,
        sink,
    )
}

/// The line of a write.
fn line_of(call: &WriteCall) -> &[u8]
    ensures { result.now ≡ line_written call.now }
{
    let WriteCall::Write { line, .. } = call;
    line.as_slice()
}

/// The number, from 1, of the first line that was not written as it should be: there is none exactly where what was written,
/// line after line, is this text.
fn first_difference(calls: &[WriteCall], prints: &str) -> Option<usize>
    ensures { IsNone result ↔ (text_of_lines calls.now ≡ prints.now) }
{
    let mut rest = prints.as_bytes();
    for (index, call) in calls.iter().enumerate() {
        match rest.strip_prefix(line_of(call)) {
            Some(more) => rest = more,
            None => return Some(index + 1),
        }
    }
    if rest.is_empty() {
        None
    } else {
        Some(calls.len() + 1)
    }
}

/// How a replay ends that prints this: a fault of the script is told by the last line.
fn status_of(prints: &str) -> Status {
    match prints.lines().last() {
        Some(line) if line.starts_with("script fault: line ") => Status::ScriptFault,
        _ => Status::Ok,
    }
}

/// Plays a script with its words, and compares what it prints, and how it ends, with what it should print.
pub(crate) fn play<R: Threads + Wait + Sync>(
    rt: &R,
    alloc: Global,
    script: &str,
    prints: &str,
) -> Result<(), Difference> {
    let words = words_of(alloc, script)?;
    let mut lines = lines_of(alloc, script)?;
    let mut sink = SteadySink::new(alloc);
    let status = replay_over(rt, alloc, words.as_slice(), &mut lines, &mut sink);
    let calls = sink.calls().ok_or(AllocError)?;
    if let Some(line) = first_difference(calls, prints) {
        return Err(Difference::Line(line));
    }
    if status != status_of(prints) {
        return Err(Difference::Ended(status.number()));
    }
    Ok(())
}
