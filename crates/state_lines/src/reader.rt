//! Reading a state, part by part.
ghost use Rattle.std.specs.Prelude.{◌≡◌, ◌≤◌, ◌+◌, length, map, MatchResult, IfOk, Err};
ghost use Rattle.relay_outside.specs.DeviceLogs.{Gained, Rose};
ghost use Rattle.state_lines.specs.LineReads.{ReadsOneLine, RefusesForm, IsLastLine, text_read};
ghost use Rattle.state_lines.specs.StateLines.{heading, end_line, IsValue, IsValueText, value_lines};

use crate::faults::LineFault;
use crate::next_line::expect_line;
use crate::values::read_text;
use relay_outside::{LineSource, OutOfMemory};
use std::alloc::Global;
use std::marker::Model;

/// How many bytes of a line are read: one more than a line has at most, so that a longer one is told from it.
const ROOM: usize = 16_001;

/// A reader of a state's lines: the heading, each value, and the last line, in that order. Contracts see how many lines it asked for.
///
/// After a fault the reader stands behind the line at fault, or behind the read that failed; nothing else can be read then.
#[derive(Drop)]
pub struct StateReader {
    alloc: Global,
    room: Vec<u8>,
    asked: u32,
}

impl Model for StateReader {
    ghost use Rattle.std.specs.Prelude.{◌≡◌, ℕ, length};

    ghost Value = { ℕ };

    ghost view = { λ reader. reader.asked };

    ghost invariant = { λ reader. length reader.room.items ≡ 16001 };
}

impl StateReader {
    /// A reader that has asked for no line yet.
    pub fn new(alloc: Global) -> Result<StateReader, OutOfMemory>
        ensures { IfOk result (λ reader. reader ≡ 0) }
    {
        let room = vec![in alloc; 0; ROOM]?;
        Ok(StateReader {
            alloc,
            room,
            asked: 0,
        })
    }

    /// How many lines it asked for.
    pub fn asked(&self) -> u32
        ensures { result ≡ self.now }
    {
        self.asked
    }

    /// Reads the first line of a state.
    pub fn read_heading<S: LineSource>(&mut self, source: &mut S) -> Result<(), LineFault>
        ensures read { Gained (S.log source.old) (S.log source.new) (ReadsOneLine heading self.old result) }
        ensures number { MatchResult result (λ _. self.new ≡ self.old + 1) (IsLastLine self.old self.new) }
        ensures counted { self.old ≤ self.new }
        ensures later { S.faults source.old ≤ S.faults source.new }
        ensures fault { result ≡ Err LineFault.Source → Rose (S.faults source.old) (S.faults source.new) }
    {
        expect_line(
            source,
            self.room.as_mut_slice(),
            &mut self.asked,
            b"rtpengine-state 1",
        )
    }

    /// Reads the lines of one value. Its memory is taken as the lines come, whatever length the first of them says.
    pub fn read_value<S: LineSource>(&mut self, source: &mut S) -> Result<Vec<u8>, LineFault>
        ensures read { Gained (S.log source.old) (S.log source.new)
            (λ calls. MatchResult result (λ text. calls ≡ map text_read (value_lines text.items)) (λ fault. RefusesForm IsValue self.old fault calls)) }
        ensures fits { IfOk result (λ text. IsValueText text.items) }
        ensures number { MatchResult result (λ text. self.new ≡ self.old + length (value_lines text.items)) (IsLastLine self.old self.new) }
        ensures counted { self.old ≤ self.new }
        ensures later { S.faults source.old ≤ S.faults source.new }
        ensures fault { result ≡ Err LineFault.Source → Rose (S.faults source.old) (S.faults source.new) }
    {
        read_text(
            self.alloc,
            source,
            self.room.as_mut_slice(),
            &mut self.asked,
        )
    }

    /// Reads the last line of a state. What the source has after it isn't read.
    pub fn read_ending<S: LineSource>(&mut self, source: &mut S) -> Result<(), LineFault>
        ensures read { Gained (S.log source.old) (S.log source.new) (ReadsOneLine end_line self.old result) }
        ensures number { MatchResult result (λ _. self.new ≡ self.old + 1) (IsLastLine self.old self.new) }
        ensures counted { self.old ≤ self.new }
        ensures later { S.faults source.old ≤ S.faults source.new }
        ensures fault { result ≡ Err LineFault.Source → Rose (S.faults source.old) (S.faults source.new) }
    {
        expect_line(source, self.room.as_mut_slice(), &mut self.asked, b"end")
    }
}
