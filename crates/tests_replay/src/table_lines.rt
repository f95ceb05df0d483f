//! A source that reads the lines of a table, and a sink that looks at one line. They hold no memory of their own, and tell no list
//! of their calls.
ghost use Rattle.std.specs.Prelude.{◌≤◌, None, IsTrue, length};
ghost use Rattle.relay_outside.specs.DeviceLogs.{Rose};

use relay_outside::{Failed, LineRead, LineSink, LineSource};

/// The calls of a device, counted from 1, and the number of the one that fails.
#[derive(Drop)]
struct Calls {
    failing: u64,
    made: u64,
    faults: u64,
}

impl Calls {
    /// Calls of which that with this number fails: where it is 0 none does.
    fn new(failing: u64) -> Calls {
        Calls {
            failing,
            made: 0,
            faults: 0,
        }
    }

    /// Counts a call, and says whether it fails.
    fn fails(&mut self) -> bool
        ensures later { self.old.faults ≤ self.new.faults }
        ensures cause { IsTrue result → Rose self.old.faults self.new.faults }
    {
        self.made = self.made.saturating_add(1);
        if self.made == self.failing {
            self.faults = self.faults.saturating_add(1);
            return true;
        }
        false
    }
}

/// Copies to the front of the buffer as many of the bytes as it holds, and says how many.
fn fill(buf: &mut [u8], bytes: &[u8]) -> usize
    ensures { result ≤ length buf.old }
{
    let len = bytes.len().min(buf.len());
    buf[..len].copy_from_slice(&bytes[..len]);
    len
}

/// The lines of a script, of whose reads one may fail.
#[derive(Drop)]
pub(crate) struct TableLines<'a> {
    calls: Calls,
    lines: &'a [&'a [u8]],
    next: usize,
}

impl<'a> TableLines<'a> {
    /// Lines of which none was read yet.
    pub(crate) fn new(lines: &'a [&'a [u8]], failing: u64) -> TableLines<'a> {
        TableLines {
            calls: Calls::new(failing),
            lines,
            next: 0,
        }
    }
}

impl<'a> LineSource for TableLines<'a> {
    ghost log = { λ lines. None };

    ghost faults = { λ lines. lines.calls.faults };

    fn line(&mut self, buf: &mut [u8]) -> Result<LineRead, Failed> {
        if self.calls.fails() {
            return Err(Failed);
        }
        let Some(line) = self.lines.get(self.next) else {
            return Ok(LineRead::End);
        };
        self.next += 1;
        Ok(LineRead::Text {
            len: fill(buf, *line),
        })
    }
}

/// A sink that looks whether it is given one line alone, and this one: the write of it may fail.
#[derive(Drop)]
pub(crate) struct TableSink<'a> {
    calls: Calls,
    line: &'a [u8],
    is_written: bool,
}

impl<'a> TableSink<'a> {
    /// A sink that has written nothing yet.
    pub(crate) fn new(line: &'a [u8], failing: u64) -> TableSink<'a> {
        TableSink {
            calls: Calls::new(failing),
            line,
            is_written: false,
        }
    }

    /// Whether it was given just the line.
    pub(crate) fn is_written(&self) -> bool {
        self.is_written && self.calls.made == 1
    }
}

impl<'a> LineSink for TableSink<'a> {
    ghost log = { λ sink. None };

    ghost faults = { λ sink. sink.calls.faults };

    fn write(&mut self, line: &[u8]) -> Result<(), Failed> {
        self.is_written = line == self.line;
        if self.calls.fails() {
            return Err(Failed);
        }
        Ok(())
    }
}
