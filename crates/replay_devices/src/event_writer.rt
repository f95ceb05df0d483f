ghost use Rattle.std.specs.Prelude.{◌≡◌, ◌≤◌, ◌++◌, ◌∷◌, [], true, false, OnOk, IsErrOf};
ghost use Rattle.relay_outside.specs.DeviceLogs.{Gains, Rose};
ghost use Rattle.relay_outside.specs.declared.lines.WriteCall.TheVariants.{Write};
ghost use Rattle.relay_script.specs.EventLines.{event_of, printed_line};
ghost use Rattle.replay_devices.specs.declared.event_writer.WriteFault.TheVariants.{OutOfMemory as out_of_memory, Failed as failed};

use ng_bencode::OutOfMemory;
use relay_outside::{Failed, LineSink};
use relay_script::{Printed, print};
use std::alloc::Global;

/// Why a line was not written.
#[derive(Clone, Copy, PartialEq, Eq, Debug)]
pub enum WriteFault {
    /// There was no memory for the line. The sink was not called.
    OutOfMemory,
    /// The sink failed.
    Failed,
}

impl From<OutOfMemory> for WriteFault {
    ghost from_gives = { λ _ fault. fault ≡ out_of_memory };

    fn from(_refused: OutOfMemory) -> WriteFault {
        WriteFault::OutOfMemory
    }
}

impl From<Failed> for WriteFault {
    ghost from_gives = { λ _ fault. fault ≡ failed };

    fn from(_failure: Failed) -> WriteFault {
        WriteFault::Failed
    }
}

/// Writes the line that an event is printed as, with its line feed, in one call of the sink.
pub fn write_event<O: LineSink>(
    alloc: Global,
    out: &mut O,
    event: &Printed,
) -> Result<(), WriteFault>
    ensures written { OnOk result (Gains (O.log out.old) (O.log out.new) (Write (printed_line (event_of event.now) ++ 10 ∷ []) true)) }
    ensures failed { IsErrOf result WriteFault.Failed → Gains (O.log out.old) (O.log out.new) (Write (printed_line (event_of event.now) ++ 10 ∷ []) false) }
    ensures fault { IsErrOf result WriteFault.Failed → Rose (O.faults out.old) (O.faults out.new) }
    ensures memory { IsErrOf result WriteFault.OutOfMemory → out.new ≡ out.old }
    ensures later { O.faults out.old ≤ O.faults out.new }
{
    let mut line = print(alloc, event)?;
    line.reserve(1)?;
    line.push(b'\n');
    out.write(line.as_slice())?;
    Ok(())
}
