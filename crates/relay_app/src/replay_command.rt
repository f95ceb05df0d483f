//! The command `replay`.
ghost use Rattle.std.specs.Prelude.{◌≡◌, None, Some};
ghost use Rattle.relay_outside.specs.DeviceLogs.{Rose};
ghost use Rattle.relay_outside.specs.Settings.{AreFamilies};
ghost use Rattle.relay_app.specs.Run.{status_of, StatusByWords, ReplayedBy};

use command_line::ReplaySettings;
use relay_outside::{LineSink, LineSource};
use relay_runs::Status;
use replay_steps::{Ended, replay};
use std::alloc::Global;
use std::sync::Wait;

/// The status of a replay. One status has two causes here: a device that did otherwise than the script says ends a replay as want of memory
/// does, since statuses are those of the whole program.
fn status_of(ended: Ended) -> Status
    ensures { result ≡ status_of ended }
{
    match ended {
        Ended::Finished => Status::Ok,
        Ended::ScriptFault => Status::ScriptFault,
        Ended::ScriptRead => Status::ScriptRead,
        Ended::PrintFault => Status::PrintFault,
        Ended::OutOfMemory | Ended::DeviceFault => Status::OutOfMemory,
    }
}

/// Replays the script, with interfaces of the families that they serve.
pub(crate) fn replay_script<S: LineSource, O: LineSink, R: Wait>(
    rt: &R,
    alloc: Global,
    settings: &ReplaySettings,
    script: &mut S,
    out: &mut O,
) -> Status
    requires families { AreFamilies settings.now.config }
    ensures status { StatusByWords None (Some settings.now) None result }
    ensures replayed { ReplayedBy None (Some settings.now) result (S.log script.old) (S.log script.new) (O.log out.old) (O.log out.new) }
    ensures script_read { result ≡ Status.ScriptRead → Rose (S.faults script.old) (S.faults script.new) }
    ensures print_fault { result ≡ Status.PrintFault → Rose (O.faults out.old) (O.faults out.new) }
    ensures control_fault { result ≡ Status.ControlFault → ⊥ }
{
    status_of(replay(rt, alloc, &settings.config, settings.seed, script, out))
}
