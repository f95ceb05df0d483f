ghost use Rattle.std.specs.Prelude.{◌≡◌};

use crate::faults::Faults;
use relay_outside::{Failed, LineSink, WriteCall};
use std::io::Write;
use std::marker::Model;

/// Standard output, or another stream. It tells nothing.
#[derive(Drop)]
pub struct StdSink<W: Write + Drop> {
    pub(crate) stream: W,
    faults: Faults,
}

impl<W: Write + Drop> Model for StdSink<W> {
    ghost use Rattle.outside_real.specs.Streams.{Written};

    ghost Value = { Written };

    ghost view = { λ sink. record { bytes = W.contents sink.stream; faults = sink.faults } };
}

impl<W: Write + Drop> StdSink<W> {
    /// A sink that writes to this stream.
    pub fn new(stream: W) -> StdSink<W>
        ensures { result ≡ record { bytes = W.contents stream; faults = 0 } }
    {
        StdSink {
            stream,
            faults: Faults::new(),
        }
    }
}

impl<W: Write + Drop> LineSink for StdSink<W> {
    ghost use Rattle.std.specs.Prelude.{None, OnOk};
    ghost use Rattle.std.specs.Io.KnownBytes.{Appends};
    ghost use Rattle.relay_outside.specs.DeviceLogs.{Gains, HasCause, is_done};

    ghost log = { λ sink. None };

    ghost faults = { λ sink. sink.faults };

    fn write(&mut self, line: &[u8]) -> Result<(), Failed>
        ensures log { Gains None None (WriteCall.Write line.now (is_done result)) }
        ensures cause { HasCause self.old.faults self.new.faults result }
        ensures written { OnOk result (Appends self.old.bytes self.new.bytes line.now) }
    {
        if self.stream.write_all(line).is_err() || self.stream.flush().is_err() {
            return Err(self.faults.count());
        }
        Ok(())
    }
}
