ghost use Rattle.std.specs.Prelude.{◌≡◌, [], IfOk, length};
ghost use Rattle.relay_outside.specs.Lines.{FitsLine};
ghost use Rattle.outside_real.specs.Lines.{GivesByte, Filled, ReadsLine, from_next_line};

use crate::faults::Faults;
use relay_outside::{Failed, LineCall, LineRead, LineSource};
use std::io::{self, BufRead, ErrorKind};
use std::marker::Model;

/// Where the reading of a line stopped.
#[derive(Clone, Copy)]
pub(crate) enum Stop {
    /// After its line feed.
    LineFeed,
    /// At the end of the stream.
    End,
    /// Where the buffer was full.
    Full,
}

/// The next byte of the stream; `None` at its end.
fn next_byte<R: BufRead>(stream: &mut R) -> io::Result<Option<u8>>
    ensures { IfOk result (GivesByte (R.remaining stream.old) (R.remaining stream.new)) }
{
    let mut byte = [0; 1];
    'tries: for _ in 0..u64::MAX {
        match stream.read(&mut byte) {
            Ok(0) => return Ok(None),
            Ok(_) => return Ok(Some(byte[0])),
            Err(error) if error.kind() == ErrorKind::Interrupted => {}
            Err(error) => return Err(error),
        }
    }
    Err(io::Error::from(ErrorKind::Interrupted))
}

/// Reads the bytes up to a line feed into the front of the buffer: how many they are, and where the reading
/// stopped.
fn fill<R: BufRead>(stream: &mut R, buf: &mut [u8]) -> io::Result<(usize, Stop)>
    ensures { IfOk result (λ filled. Filled (R.remaining stream.old) (R.remaining stream.new) filled.0 filled.1 buf.new) }
{
    'bytes: for place in 0..buf.len() {
        match next_byte(stream)? {
            Some(b'\n') => return Ok((place, Stop::LineFeed)),
            Some(byte) => buf[place] = byte,
            None => return Ok((place, Stop::End)),
        }
    }
    Ok((buf.len(), Stop::Full))
}

/// Passes a line over, for a buffer without room.
fn pass<R: BufRead>(stream: &mut R) -> io::Result<LineRead>
    ensures within { IfOk result (λ answer. FitsLine (Ok answer) 0) }
    ensures gives { IfOk result (λ answer. ReadsLine (R.remaining stream.old) (R.remaining stream.new) answer []) }
{
    let passed = stream.skip_until(b'\n')?;
    if passed == 0 {
        return Ok(LineRead::End);
    }
    Ok(LineRead::Text { len: 0 })
}

/// Reads a line into the front of the buffer, and says whether the stream may still stand within it.
fn read_line<R: BufRead>(stream: &mut R, buf: &mut [u8]) -> io::Result<(LineRead, bool)>
    ensures within { IfOk result (λ read. FitsLine (Ok read.0) (length buf.old)) }
    ensures gives { IfOk result (λ read. ReadsLine (R.remaining stream.old) (from_next_line read.1 (R.remaining stream.new)) read.0 buf.new) }
{
    if buf.is_empty() {
        return Ok((pass(stream)?, false));
    }
    let (len, stop) = fill(stream, buf)?;
    match stop {
        Stop::LineFeed => Ok((LineRead::Text { len }, false)),
        Stop::Full => Ok((LineRead::Text { len }, true)),
        Stop::End if len == 0 => Ok((LineRead::End, false)),
        Stop::End => Ok((LineRead::Text { len }, false)),
    }
}

/// The lines of standard input, or of another stream. It tells nothing.
///
/// A line ends at its line feed, and the last one also at the stream's end. What a buffer had no room for
/// is passed over by the next read, and so is the rest of a line in which a read failed. Which lines a
/// stream of known bytes gives is said by the contract of `line`.
#[derive(Drop)]
pub struct StdLines<R: BufRead + Drop> {
    stream: R,
    /// Whether the stream may stand within a line that was given or lost.
    within: bool,
    faults: Faults,
}

impl<R: BufRead + Drop> Model for StdLines<R> {
    ghost use Rattle.outside_real.specs.Lines.{LinesLeft, from_next_line};

    ghost Value = { LinesLeft };

    ghost view = { λ lines. record { bytes = from_next_line lines.within (R.remaining lines.stream); faults = lines.faults } };
}

impl<R: BufRead + Drop> StdLines<R> {
    /// The lines of this stream.
    pub fn new(stream: R) -> StdLines<R>
        ensures { result ≡ record { bytes = R.remaining stream; faults = 0 } }
    {
        StdLines {
            stream,
            within: false,
            faults: Faults::new(),
        }
    }

    /// Reads the next line into the front of the buffer.
    fn read(&mut self, buf: &mut [u8]) -> io::Result<LineRead>
        ensures within { IfOk result (λ answer. FitsLine (Ok answer) (length buf.old)) }
        ensures gives { IfOk result (λ answer. ReadsLine self.old.bytes self.new.bytes answer buf.new) }
        ensures faults { self.new.faults ≡ self.old.faults }
    {
        if self.within {
            self.stream.skip_until(b'\n')?;
        }
        self.within = true;
        let (answer, within) = read_line(&mut self.stream, buf)?;
        self.within = within;
        Ok(answer)
    }
}

impl<R: BufRead + Drop> LineSource for StdLines<R> {
    ghost use Rattle.std.specs.Prelude.{None, IfOk, length};
    ghost use Rattle.relay_outside.specs.DeviceLogs.{Gains, HasCause};
    ghost use Rattle.relay_outside.specs.Lines.{FitsLine, line_given};
    ghost use Rattle.outside_real.specs.Lines.{ReadsLine};

    ghost log = { λ lines. None };

    ghost faults = { λ lines. lines.faults };

    fn line(&mut self, buf: &mut [u8]) -> Result<LineRead, Failed>
        ensures within { FitsLine result (length buf.old) }
        ensures log { Gains None None (LineCall.Line (length buf.old) (line_given result buf.new)) }
        ensures cause { HasCause self.old.faults self.new.faults result }
        ensures gives { IfOk result (λ answer. ReadsLine self.old.bytes self.new.bytes answer buf.new) }
    {
        match self.read(buf) {
            Ok(answer) => Ok(answer),
            Err(_) => Err(self.faults.count()),
        }
    }
}
