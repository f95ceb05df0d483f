ghost use Rattle.std.specs.Prelude.{◌≡◌, ◌≢◌, ◌≤◌, None, true};
ghost use Rattle.relay_outside.specs.DeviceLogs.{Gained, Rose};
ghost use Rattle.command_line.specs.Refusals.{begins_usage};
ghost use Rattle.relay_app.specs.Run.{PrintsUsage, StatusByWords};

use command_line::Usage;
use relay_outside::LineSink;
use relay_runs::Status;

/// Prints how words are written: a line, and then what the reader of the options says of them.
pub(crate) fn print_usage<O: LineSink>(usage: &Usage, out: &mut O) -> Status
    requires begins { begins_usage usage.now.line.bytes.items ≡ true }
    ensures status { StatusByWords None None None result }
    ensures log { result ≢ Status.OutOfMemory }
    ensures printed { Gained (O.log out.old) (O.log out.new) (PrintsUsage result) }
    ensures later { O.faults out.old ≤ O.faults out.new }
    ensures print_fault { result ≡ Status.PrintFault → Rose (O.faults out.old) (O.faults out.new) }
    ensures script_read { result ≢ Status.ScriptRead }
{
    let Ok(()) = out.write(usage.line.as_bytes()) else {
        return Status::PrintFault;
    };
    let Some(text) = &usage.text else {
        return Status::Usage;
    };
    match out.write(text.as_bytes()) {
        Ok(()) => Status::Usage,
        Err(_) => Status::PrintFault,
    }
}
