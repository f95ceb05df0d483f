use crate::answers::{Failed, LineRead};
use crate::calls::Copied;

/// What a read of a line gave.
#[derive(Drop)]
pub enum LineGiven {
    /// A line, or as much of it as the buffer held.
    Text {
        /// The bytes at the front of the buffer.
        bytes: Copied,
    },
    /// There are no more lines.
    End,
    /// The read failed.
    Failed,
}

/// A call of a line source.
#[derive(Drop)]
pub enum LineCall {
    /// A line was asked for.
    Line {
        /// How many bytes the buffer held.
        room: usize,
        /// What the read gave.
        given: LineGiven,
    },
}

/// A call of a line sink.
#[derive(Drop)]
pub enum WriteCall {
    /// A line was written, or the write failed.
    Write {
        /// The line, with its line feed.
        line: Copied,
        /// Whether it returned Ok.
        done: bool,
    },
}

/// Where a script's lines come from.
///
/// It isn't asked to give lines without a line feed; to the grammar of scripts a line with one is
/// outside it, or a comment.
pub trait LineSource {
    ghost use Rattle.std.specs.Prelude.{ℕ, Option, List, length};
    ghost use Rattle.relay_outside.specs.DeviceLogs.{Gains, HasCause};
    ghost use Rattle.relay_outside.specs.Lines.{FitsLine, line_given};
    ghost use Rattle.relay_outside.specs.declared.lines.LineCall.{LineCall};
    ghost use Rattle.relay_outside.specs.declared.lines.LineCall.TheVariants.{Line};

    /// The calls since the source was made, where it logs them.
    ghost log: { Self → Option (List LineCall) };

    /// The count of faults.
    ghost faults: { Self → ℕ };

    /// Reads one line, without its line feed, into the front of the buffer; where it fills the whole
    /// buffer, the line is at least so long.
    fn line(&mut self, buf: &mut [u8]) -> Result<LineRead, Failed>
        ensures within { FitsLine result (length buf.old) }
        ensures log { Gains (log self.old) (log self.new) (Line (length buf.old) (line_given result buf.new)) }
        ensures cause { HasCause (faults self.old) (faults self.new) result };
}

/// Where the printed lines go.
pub trait LineSink {
    ghost use Rattle.std.specs.Prelude.{ℕ, Option, List};
    ghost use Rattle.relay_outside.specs.DeviceLogs.{Gains, HasCause, is_done};
    ghost use Rattle.relay_outside.specs.declared.lines.WriteCall.{WriteCall};
    ghost use Rattle.relay_outside.specs.declared.lines.WriteCall.TheVariants.{Write};

    /// The calls since the sink was made, where it logs them.
    ghost log: { Self → Option (List WriteCall) };

    /// The count of faults.
    ghost faults: { Self → ℕ };

    /// Writes one line. Its callers give it lines that end in their line feed; it isn't promised that.
    fn write(&mut self, line: &[u8]) -> Result<(), Failed>
        ensures log { Gains (log self.old) (log self.new) (Write line.now (is_done result)) }
        ensures cause { HasCause (faults self.old) (faults self.new) result };
}
