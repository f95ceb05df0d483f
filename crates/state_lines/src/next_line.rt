//! Reading one line, of which some kind is wanted.
ghost use Rattle.std.specs.Prelude.{◌≡◌, ◌≤◌, ◌+◌, ◌∷◌, [], length, MatchResult, IfOk, Err};
ghost use Rattle.hex.specs.Hex.{encode_lower, IsBytes};
ghost use Rattle.relay_outside.specs.DeviceLogs.{Gained, Rose};
ghost use Rattle.state_lines.specs.LineReads.{ReadsOneLine, IsLastLine, text_read};
ghost use Rattle.state_lines.specs.OneRead.{ReadsNext, MissesLine, IsLengthLine, IsDigitLine};
ghost use Rattle.state_lines.specs.StateLines.{length_line};

use crate::digits::read_digit_line;
use crate::faults::LineFault;
use crate::lengths::read_length_line;
use relay_outside::{LineRead, LineSource};
use std::alloc::Global;

/// Reads the next line into the room for one: how many bytes it fills. The line is counted before it is asked for.
fn next_line<S: LineSource>(
    source: &mut S,
    room: &mut [u8],
    asked: &mut u32,
) -> Result<usize, LineFault>
    requires { length room.old ≡ 16001 }
    ensures read { Gained (S.log source.old) (S.log source.new) (ReadsNext result room.new) }
    ensures within { IfOk result (λ len. len ≤ 16001) }
    ensures number { MatchResult result (λ _. asked.new ≡ asked.old + 1) (IsLastLine asked.old asked.new) }
    ensures counted { asked.old ≤ asked.new }
    ensures one { asked.new ≤ asked.old + 1 }
    ensures later { S.faults source.old ≤ S.faults source.new }
    ensures fault { result ≡ Err LineFault.Source → Rose (S.faults source.old) (S.faults source.new) }
{
    let Some(number) = asked.checked_add(1) else {
        return Err(LineFault::OutOfMemory);
    };
    *asked = number;
    match source.line(room) {
        Ok(LineRead::Text { len }) => Ok(len),
        Ok(LineRead::End) => Err(LineFault::NotState(number)),
        Err(_) => Err(LineFault::Source),
    }
}

/// Reads this line.
pub(crate) fn expect_line<S: LineSource>(
    source: &mut S,
    room: &mut [u8],
    asked: &mut u32,
    line: &[u8],
) -> Result<(), LineFault>
    requires { length room.old ≡ 16001 }
    ensures read { Gained (S.log source.old) (S.log source.new) (ReadsOneLine line.now asked.old result) }
    ensures number { MatchResult result (λ _. asked.new ≡ asked.old + 1) (IsLastLine asked.old asked.new) }
    ensures counted { asked.old ≤ asked.new }
    ensures later { S.faults source.old ≤ S.faults source.new }
    ensures fault { result ≡ Err LineFault.Source → Rose (S.faults source.old) (S.faults source.new) }
{
    let len = next_line(source, room, asked)?;
    if &room[..len] == line {
        Ok(())
    } else {
        Err(LineFault::NotState(*asked))
    }
}

/// Reads the line above a value: how many bytes it has.
pub(crate) fn read_length<S: LineSource>(
    source: &mut S,
    room: &mut [u8],
    asked: &mut u32,
) -> Result<usize, LineFault>
    requires { length room.old ≡ 16001 }
    ensures read { Gained (S.log source.old) (S.log source.new)
        (λ calls. MatchResult result (λ bytes. calls ≡ text_read (length_line bytes) ∷ []) (λ fault. MissesLine IsLengthLine fault calls)) }
    ensures number { MatchResult result (λ _. asked.new ≡ asked.old + 1) (IsLastLine asked.old asked.new) }
    ensures counted { asked.old ≤ asked.new }
    ensures one { asked.new ≤ asked.old + 1 }
    ensures later { S.faults source.old ≤ S.faults source.new }
    ensures fault { result ≡ Err LineFault.Source → Rose (S.faults source.old) (S.faults source.new) }
{
    let len = next_line(source, room, asked)?;
    match read_length_line(&room[..len]) {
        Ok(bytes) => Ok(bytes),
        Err(unread) => Err(unread.at(*asked)),
    }
}

/// Reads a line of digits of so many bytes.
pub(crate) fn read_digits<S: LineSource>(
    alloc: Global,
    source: &mut S,
    room: &mut [u8],
    asked: &mut u32,
    count: usize,
) -> Result<Vec<u8>, LineFault>
    requires { length room.old ≡ 16001 }
    ensures read { Gained (S.log source.old) (S.log source.new)
        (λ calls. MatchResult result (λ bytes. calls ≡ text_read (encode_lower bytes.items) ∷ []) (λ fault. MissesLine (IsDigitLine count) fault calls)) }
    ensures count { IfOk result (λ bytes. length bytes.items ≡ count) }
    ensures bytes { IfOk result (λ bytes. IsBytes bytes.items) }
    ensures number { MatchResult result (λ _. asked.new ≡ asked.old + 1) (IsLastLine asked.old asked.new) }
    ensures counted { asked.old ≤ asked.new }
    ensures one { asked.new ≤ asked.old + 1 }
    ensures later { S.faults source.old ≤ S.faults source.new }
    ensures fault { result ≡ Err LineFault.Source → Rose (S.faults source.old) (S.faults source.new) }
{
    let len = next_line(source, room, asked)?;
    match read_digit_line(alloc, &room[..len], count) {
        Ok(bytes) => Ok(bytes),
        Err(unread) => Err(unread.at(*asked)),
    }
}
