ghost use Rattle.std.specs.Prelude.{◌≡◌, ◌↔◌, Some, Ok, [], IsTrue, IsSome, IsOk, IfOk, MatchOption, MatchResult, length, not};
ghost use Rattle.relay_outside.specs.DeviceLogs.{Gains, HasCause, is_done};
ghost use Rattle.relay_outside.specs.Lines.{FitsLine, line_given};
ghost use Rattle.relay_outside.specs.LinesTape.{GivesLine};
ghost use Rattle.relay_outside.specs.Failures.{uncalled, next_fails, after_call};

use super::fill::fill;
use crate::answers::{Failed, LineRead};
use crate::calls::{CallList, Copied};
use crate::failures::Failing;
use crate::lines::{LineCall, LineGiven, LineSource};
use std::alloc::Global;
use std::marker::Model;

/// The record of a read that gave a line; `None` where its bytes could not be copied.
fn text_call(alloc: Global, room: usize, bytes: &[u8]) -> Option<LineCall>
    ensures { MatchOption result (Unit {0}) (λ call. call ≡ LineCall.Line room (LineGiven.Text bytes.now)) }
{
    match Copied::of(alloc, bytes) {
        Some(bytes) => {
            let given = LineGiven::Text { bytes };
            Some(LineCall::Line { room, given })
        }
        None => None,
    }
}

/// A line source in memory that never fails: it gives its lines in order, and then the end.
#[derive(Drop)]
pub struct SteadyLines {
    alloc: Global,
    log: CallList<LineCall>,
    lines: Vec<Copied>,
    next: usize,
}

impl Model for SteadyLines {
    ghost use Rattle.std.specs.Prelude.{drop};
    ghost use Rattle.relay_outside.specs.LinesTape.{LinesTape};

    ghost Value = { LinesTape };

    ghost view = { λ source. record { log = source.log; lines = drop source.next source.lines.items } };
}

impl SteadyLines {
    /// A source of these lines, each without its line feed.
    pub fn new(alloc: Global, lines: Vec<Copied>) -> SteadyLines
        ensures { result ≡ record { log = Some []; lines = lines.items } }
    {
        SteadyLines {
            alloc,
            log: CallList::new(alloc),
            lines,
            next: 0,
        }
    }

    /// Gives the next line, if there is one, and logs it.
    fn give(&mut self, buf: &mut [u8]) -> LineRead
        ensures within { FitsLine (Ok result) (length buf.old) }
        ensures log { Gains self.old.log self.new.log (LineCall.Line (length buf.old) (line_given (Ok result) buf.new)) }
        ensures line { GivesLine self.old.lines self.new.lines result buf.new }
    {
        let room = buf.len();
        let Some(line) = self.lines.get(self.next) else {
            let given = LineGiven::End;
            self.log.note(Some(LineCall::Line { room, given }));
            return LineRead::End;
        };
        self.next += 1;
        let len = fill(buf, line.as_slice());
        let call = text_call(self.alloc, room, &buf[..len]);
        self.log.note(call);
        LineRead::Text { len }
    }

    /// Tells of a read that failed.
    fn note_failed(&mut self, room: usize)
        ensures log { Gains self.old.log self.new.log (LineCall.Line room LineGiven.Failed) }
        ensures lines { self.new.lines ≡ self.old.lines }
    {
        let given = LineGiven::Failed;
        self.log.note(Some(LineCall::Line { room, given }));
    }

    /// Whether the source still keeps its log.
    pub fn tells(&self) -> bool
        ensures { IsTrue result ↔ IsSome self.now.log }
    {
        self.log.tells()
    }
}

impl LineSource for SteadyLines {
    ghost use Rattle.std.specs.Prelude.{◌≡◌, IfOk, IsOk, length};
    ghost use Rattle.relay_outside.specs.DeviceLogs.{Gains, HasCause};
    ghost use Rattle.relay_outside.specs.Lines.{FitsLine, line_given};
    ghost use Rattle.relay_outside.specs.LinesTape.{GivesLine};

    ghost log = { λ source. source.log };

    ghost faults = { λ source. 0 };

    fn line(&mut self, buf: &mut [u8]) -> Result<LineRead, Failed>
        ensures within { FitsLine result (length buf.old) }
        ensures log { Gains self.old.log self.new.log (LineCall.Line (length buf.old) (line_given result buf.new)) }
        ensures cause { HasCause 0 0 result }
        ensures done { IsOk result }
        ensures line { IfOk result (λ answer. GivesLine self.old.lines self.new.lines answer buf.new) }
    {
        Ok(self.give(buf))
    }
}

/// A line source in memory: it gives its lines in order, and then the end; the reads whose numbers, from
/// 1, it was given fail. A failing read gives no line and uses none up.
#[derive(Drop)]
pub struct MemoryLines {
    lines: SteadyLines,
    failing: Failing,
}

impl Model for MemoryLines {
    ghost use Rattle.relay_outside.specs.LinesTape.{LinesState};

    ghost Value = { LinesState };

    ghost view = { λ source. record { log = source.lines.log; lines = source.lines.lines; failures = source.failing } };
}

impl MemoryLines {
    /// A source of these lines, each without its line feed, whose reads with these numbers fail.
    pub fn new(alloc: Global, lines: Vec<Copied>, failing: Vec<u64>) -> MemoryLines
        ensures { result ≡ record { log = Some []; lines = lines.items; failures = uncalled failing.items } }
    {
        MemoryLines {
            lines: SteadyLines::new(alloc, lines),
            failing: Failing::new(failing),
        }
    }

    /// Whether the source still keeps its log.
    pub fn tells(&self) -> bool
        ensures { IsTrue result ↔ IsSome self.now.log }
    {
        self.lines.tells()
    }
}

impl LineSource for MemoryLines {
    ghost use Rattle.std.specs.Prelude.{◌≡◌, MatchResult, length, not};
    ghost use Rattle.relay_outside.specs.DeviceLogs.{Gains, HasCause, is_done};
    ghost use Rattle.relay_outside.specs.Lines.{FitsLine, line_given};
    ghost use Rattle.relay_outside.specs.LinesTape.{GivesLine};
    ghost use Rattle.relay_outside.specs.Failures.{next_fails, after_call};

    ghost log = { λ source. source.log };

    ghost faults = { λ source. source.failures.faults };

    fn line(&mut self, buf: &mut [u8]) -> Result<LineRead, Failed>
        ensures within { FitsLine result (length buf.old) }
        ensures log { Gains self.old.log self.new.log (LineCall.Line (length buf.old) (line_given result buf.new)) }
        ensures cause { HasCause self.old.failures.faults self.new.failures.faults result }
        ensures fails { next_fails self.old.failures ≡ not (is_done result) }
        ensures counted { self.new.failures ≡ after_call self.old.failures }
        ensures line { MatchResult result (λ answer. GivesLine self.old.lines self.new.lines answer buf.new) (λ _. (self.new.lines ≡ self.old.lines) × (buf.new ≡ buf.old)) }
    {
        if self.failing.fails() {
            self.lines.note_failed(buf.len());
            return Err(Failed);
        }
        Ok(self.lines.give(buf))
    }
}
