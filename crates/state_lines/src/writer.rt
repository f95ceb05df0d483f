//! Writing a state, part by part.
ghost use Rattle.std.specs.Prelude.{◌≡◌, ◌≤◌, ◌<◌, ◌+◌, ◌*◌, ◌++◌, ◌∷◌, [], length, take, codes, decimal, Ok};
ghost use Rattle.hex.specs.Hex.{encode_lower};
ghost use Rattle.relay_outside.specs.DeviceLogs.{Gains, Gained, HasCause, is_done};
ghost use Rattle.state_lines.specs.LineWrites.{line_write, WritesLines};
ghost use Rattle.state_lines.specs.StateLines.{heading, end_line, length_line, digit_lines, value_lines};

use itoa::Buffer;
use relay_outside::{Failed, LineSink, OutOfMemory};
use std::alloc::Global;

/// How many bytes of a value a line has at most.
const LINE_BYTES: usize = 8_000;

/// How many bytes a line has at most, with its line feed.
const ROOM: usize = 16_001;

/// Writes the first line of a state.
pub fn write_heading<O: LineSink>(out: &mut O) -> Result<(), Failed>
    ensures lines { Gained (O.log out.old) (O.log out.new) (WritesLines (heading ∷ []) result) }
    ensures cause { HasCause (O.faults out.old) (O.faults out.new) result }
{
    out.write(b"rtpengine-state 1\n")
}

/// Writes the last line of a state.
pub fn write_ending<O: LineSink>(out: &mut O) -> Result<(), Failed>
    ensures lines { Gained (O.log out.old) (O.log out.new) (WritesLines (end_line ∷ []) result) }
    ensures cause { HasCause (O.faults out.old) (O.faults out.new) result }
{
    out.write(b"end\n")
}

/// Puts the line above a value of so many bytes, with its line feed, at the front of the room: how many bytes it fills.
fn put_length(room: &mut [u8], bytes: usize) -> usize
    requires { length room.old ≡ 16001 }
    ensures within { result ≤ 16001 }
    ensures line { take result room.new ≡ length_line bytes ++ 10 ∷ [] }
{
    let mut buffer = Buffer::new();
    let digits = buffer.format(bytes).as_bytes();
    let end = 6 + digits.len();
    room[..6].copy_from_slice(b"value ");
    room[6..end].copy_from_slice(digits);
    room[end] = b'\n';
    end + 1
}

/// Writes the line above a value.
fn write_length<O: LineSink>(out: &mut O, room: &mut [u8], bytes: usize) -> Result<(), Failed>
    requires { length room.old ≡ 16001 }
    ensures log { Gains (O.log out.old) (O.log out.new) (line_write (is_done result) (length_line bytes)) }
    ensures cause { HasCause (O.faults out.old) (O.faults out.new) result }
{
    let len = put_length(room, bytes);
    out.write(&room[..len])
}

/// Puts a line of digits, with its line feed, at the front of the room: how many bytes it fills.
fn put_digits(room: &mut [u8], bytes: &[u8]) -> usize
    requires { 2 * length bytes.now < length room.old }
    ensures within { result ≤ length room.old }
    ensures line { take result room.new ≡ encode_lower bytes.now ++ 10 ∷ [] }
{
    let end = 2 * bytes.len();
    let _ = hex::encode_to_slice(bytes, &mut room[..end]);
    room[end] = b'\n';
    end + 1
}

/// Writes a line of digits.
fn write_digits<O: LineSink>(out: &mut O, room: &mut [u8], bytes: &[u8]) -> Result<(), Failed>
    requires { 2 * length bytes.now < length room.old }
    ensures log { Gains (O.log out.old) (O.log out.new) (line_write (is_done result) (encode_lower bytes.now)) }
    ensures cause { HasCause (O.faults out.old) (O.faults out.new) result }
{
    let len = put_digits(room, bytes);
    out.write(&room[..len])
}

/// Writes the lines of digits of a value.
fn write_bytes<O: LineSink>(out: &mut O, room: &mut [u8], text: &[u8]) -> Result<(), Failed>
    requires { length room.old ≡ 16001 }
    ensures lines { Gained (O.log out.old) (O.log out.new) (WritesLines (digit_lines text.now) result) }
    ensures cause { HasCause (O.faults out.old) (O.faults out.new) result }
{
    let mut at = 0;
    'lines: while at < text.len() {
        let end = at + (text.len() - at).min(LINE_BYTES);
        write_digits(out, room, &text[at..end])?;
        at = end;
    }
    Ok(())
}

/// A writer of values. It takes all its memory at first, so that no want of memory comes while a state is written.
#[derive(Drop)]
pub struct StateWriter {
    room: Vec<u8>,
    ghost whole: { length room.items ≡ 16001 },
}

impl StateWriter {
    /// A writer with room for a line.
    pub fn new(alloc: Global) -> Result<StateWriter, OutOfMemory> {
        let room = vec![in alloc; 0; ROOM]?;
        Ok(StateWriter { room })
    }

    /// Writes the lines of one value.
    pub fn write_value<O: LineSink>(&mut self, out: &mut O, text: &[u8]) -> Result<(), Failed>
        ensures lines { Gained (O.log out.old) (O.log out.new) (WritesLines (value_lines text.now) result) }
        ensures cause { HasCause (O.faults out.old) (O.faults out.new) result }
    {
        let room = self.room.as_mut_slice();
        write_length(out, room, text.len())?;
        write_bytes(out, room, text)
    }
}
