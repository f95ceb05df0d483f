//! The command `serve`.
ghost use Rattle.std.specs.Prelude.{◌≡◌, ◌≤◌, ◌<◌, ◌^◌, [], Some, IfOk};
ghost use Rattle.relay_outside.specs.DeviceLogs.{Rose};
ghost use Rattle.relay_outside.specs.Settings.{AreFamilies};
ghost use Rattle.media_ports.specs.OpenPorts.{LogsHeld};
ghost use Rattle.relay_runs.specs.Devices.{AreSame, AreUnasked};
ghost use Rattle.relay_runs.specs.Run.{Serves, IsServed};

use crate::control_loop::{close_table, serve_turns};
use crate::devices::{Devices, Tells};
use crate::lane_shares::serve_share;
use crate::prepared::Prepared;
use crate::status::Status;
use crate::totals::put_totals;
use command_line::Settings;
use media_lane::Media;
use ng_bencode::{OutOfMemory, Text};
use relay_outside::{Clock, ControlLink, Gate, KeySource, LineSink, PortMaker, Timer};
use std::alloc::Global;
use std::sync::Wait;
use std::thread::Threads;

/// How many bytes the line of totals has at most.
const LINE: usize = 512;

/// An empty text with room for the line of totals.
pub(crate) fn line_room(alloc: Global) -> Result<Text, OutOfMemory>
    ensures { IfOk result (λ line. (line.list ≡ []) × (512 ≤ line.spare)) }
{
    let mut line = Text::new(alloc);
    line.reserve(LINE)?;
    Ok(line)
}

/// Serves the ng control protocol as the settings say: binds the control link, makes its control turns while threads of media relay packets, ends all
/// calls, and prints a line of totals. `OutOfMemory` comes before any device is asked; `ControlFault` where the link was not bound, and then nothing is printed, or
/// where a take of it failed; `PrintFault` takes the place of any other status. After each of these the table is closed and no port of a call is open.
/// Each interface of the settings has an address of its family.
///
/// That the link's count of faults rose at the very call that failed is no clause: it follows from the meaning of the link.
pub fn serve<N, P, K, T, C, G, O, R>(
    rt: &R,
    alloc: Global,
    settings: &Settings,
    devices: &mut Devices<'_, '_, '_, '_, N, P, K, T>,
    media: &Media<'_, '_, C, G>,
    out: &mut O,
) -> Status
where
    N: ControlLink,
    P: PortMaker,
    P::In: Send + Drop,
    P::Out: Send + Drop,
    K: KeySource,
    T: Timer,
    C: Clock + Sync,
    G: Gate + Sync,
    O: LineSink,
    R: Threads + Wait + Sync,
    requires families { AreFamilies settings.now.config }
    requires turns { settings.now.turns < 2 ^ 63 }
    requires threads { settings.now.threads ≤ 16 }
    requires open { LogsHeld settings.now.config (P.log devices.old.ports.now) [] }
    ensures same { AreSame devices.old devices.new }
    ensures served { Serves (Some settings.now) (C.range media.now.clock.now) (G.passed media.now.gate.now)
        (⟦<Devices<'static, 'static, 'static, 'static, N, P, K, T> as Tells>⟧.outside devices.old devices.new)
        (O.log out.old) (O.log out.new) result }
    ensures status { IsServed result }
    ensures memory { result ≡ Status.OutOfMemory → AreUnasked devices.old devices.new × (out.new ≡ out.old) }
    ensures shut { LogsHeld settings.now.config (P.log devices.new.ports.now) [] }
    ensures later { ⟦<Devices<'static, 'static, 'static, 'static, N, P, K, T> as Tells>⟧.later devices.old devices.new × (O.faults out.old ≤ O.faults out.new) }
    ensures control_fault { result ≡ Status.ControlFault → Rose (N.faults devices.old.link.now) (N.faults devices.new.link.now) }
    ensures print_fault { result ≡ Status.PrintFault → Rose (O.faults out.old) (O.faults out.new) }
{
    let Ok(mut line) = line_room(alloc) else {
        return Status::OutOfMemory;
    };
    let share = serve_share(&settings.config, settings.threads);
    let Ok(prepared) = Prepared::reserve(alloc, settings.config, share, None) else {
        return Status::OutOfMemory;
    };
    let Ok(()) = devices.link.bind(settings.listen) else {
        let Prepared {
            server,
            hand,
            desk: _desk,
            room: _room,
        } = prepared;
        close_table(server, hand);
        return Status::ControlFault;
    };
    let looped = serve_turns(rt, alloc, settings, prepared, devices, media);
    put_totals(&mut line, looped.counts, looped.totals);
    match out.write(line.as_slice()) {
        Ok(()) => looped.status,
        Err(_) => Status::PrintFault,
    }
}
