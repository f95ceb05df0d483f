//! Reading the lines of a value.
ghost use Rattle.std.specs.Prelude.{◌≡◌, ◌≤◌, ◌+◌, length, map, ◌++◌, MatchResult, IfOk, OnOk, IfErr, Err};
ghost use Rattle.hex.specs.Hex.{IsBytes};
ghost use Rattle.relay_outside.specs.DeviceLogs.{Gained, Rose};
ghost use Rattle.state_lines.specs.LineReads.{RefusesForm, IsLastLine, text_read};
ghost use Rattle.state_lines.specs.StateLines.{IsValue, IsValueText, AreDigitLines, digit_lines, value_lines};

use crate::faults::LineFault;
use crate::next_line::{read_digits, read_length};
use relay_outside::LineSource;
use std::alloc::Global;

/// How many bytes of a value a line has at most.
const LINE_BYTES: usize = 8_000;

/// Puts bytes after the text.
fn keep(text: &mut Vec<u8>, bytes: &[u8]) -> Result<(), LineFault>
    ensures kept { OnOk result (text.new.items ≡ text.old.items ++ bytes.now) }
    ensures short { IfErr result (λ fault. fault ≡ LineFault.OutOfMemory) }
{
    match text.extend_from_slice(bytes) {
        Ok(()) => Ok(()),
        Err(_) => Err(LineFault::OutOfMemory),
    }
}

/// Reads the lines of digits of a value of so many bytes. Memory is taken as the lines come.
fn read_bytes<S: LineSource>(
    alloc: Global,
    source: &mut S,
    room: &mut [u8],
    asked: &mut u32,
    len: usize,
) -> Result<Vec<u8>, LineFault>
    requires { length room.old ≡ 16001 }
    ensures read { Gained (S.log source.old) (S.log source.new)
        (λ calls. MatchResult result (λ text. calls ≡ map text_read (digit_lines text.items)) (λ fault. RefusesForm (AreDigitLines len) asked.old fault calls)) }
    ensures length { IfOk result (λ text. length text.items ≡ len) }
    ensures bytes { IfOk result (λ text. IsBytes text.items) }
    ensures number { MatchResult result (λ text. asked.new ≡ asked.old + length (digit_lines text.items)) (IsLastLine asked.old asked.new) }
    ensures counted { asked.old ≤ asked.new }
    ensures later { S.faults source.old ≤ S.faults source.new }
    ensures fault { result ≡ Err LineFault.Source → Rose (S.faults source.old) (S.faults source.new) }
{
    let mut text = Vec::new(alloc);
    'lines: while text.len() < len {
        let count = (len - text.len()).min(LINE_BYTES);
        let bytes = read_digits(alloc, source, room, asked, count)?;
        keep(&mut text, bytes.as_slice())?;
    }
    Ok(text)
}

/// Reads the lines of a value through the room for a line.
pub(crate) fn read_text<S: LineSource>(
    alloc: Global,
    source: &mut S,
    room: &mut [u8],
    asked: &mut u32,
) -> Result<Vec<u8>, LineFault>
    requires { length room.old ≡ 16001 }
    ensures read { Gained (S.log source.old) (S.log source.new)
        (λ calls. MatchResult result (λ text. calls ≡ map text_read (value_lines text.items)) (λ fault. RefusesForm IsValue asked.old fault calls)) }
    ensures fits { IfOk result (λ text. IsValueText text.items) }
    ensures number { MatchResult result (λ text. asked.new ≡ asked.old + length (value_lines text.items)) (IsLastLine asked.old asked.new) }
    ensures counted { asked.old ≤ asked.new }
    ensures later { S.faults source.old ≤ S.faults source.new }
    ensures fault { result ≡ Err LineFault.Source → Rose (S.faults source.old) (S.faults source.new) }
{
    let len = read_length(source, room, asked)?;
    read_bytes(alloc, source, room, asked, len)
}
