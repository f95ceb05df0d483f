ghost use Rattle.std.specs.Prelude.{◌≡◌, None, map};
ghost use Rattle.relay_outside.specs.DeviceLogs.{Gained, Rose};
ghost use Rattle.command_line.specs.Words.{settings, replay_settings, load_settings};
ghost use Rattle.relay_runs.specs.Loads.{Loads};
ghost use Rattle.relay_runs.specs.Run.{Serves, LogsNone};
ghost use Rattle.relay_app.specs.Run.{PrintsUsage, StatusByWords, ReplayedBy, AreOfReplay};

use crate::replay_command::replay_script;
use crate::usage::print_usage;
use command_line::{Refusal, Task, read_words};
use relay_outside::{Clock, ControlLink, Gate, KeySource, LineSink, LineSource, PortMaker, Timer};
use relay_runs::{Devices, Media, Status, load, serve};
use std::alloc::Global;
use std::sync::Wait;
use std::thread::Threads;

/// Runs the relay as the words of a command line say, over the devices that it is handed, and returns how
/// it ended.
///
/// `serve --interface=ADDRESS [--interface6=ADDRESS] [--listen-ng=ADDRESS:PORT] [--port-min=PORT] [--port-max=PORT] [--max-sessions=NUMBER]
/// [--timeout=SECONDS] [--offer-timeout=SECONDS] [--turns=NUMBER] [--num-threads=NUMBER]`
/// binds the control link and replies to the datagrams that it takes until the link gives no more, a take
/// fails, or `--turns` takes gave a datagram or nothing. Calls begin, are answered and end as the datagrams ask: their ports are
/// opened and closed by the port maker, their keys drawn from the key source. Once a second of the timer, calls end whose last activity is
/// `--timeout` ago, whose first offer is `--offer-timeout` ago and was not answered, or which were deleted with a delay that has passed.
/// Meanwhile `--num-threads` threads relay media, each the
/// packets of its own pairs of ports, handed moments of the clock, each inside the gate; with 0, at most one packet of each port is relayed after each take.
/// At the end the threads end, then all calls, and a line of totals is printed. The timer, in milliseconds, is asked once for each take
/// of the link. Where no thread can be started, each thread's work is done after the last take.
///
/// `replay [--interface=ADDRESS] [--interface6=ADDRESS] [--seed=NUMBER] [--port-min=PORT] [--port-max=PORT] [--max-sessions=NUMBER] [--timeout=SECONDS]
/// [--offer-timeout=SECONDS]` reads the script, makes its steps over devices in memory, and prints a line for each event. It leaves the control link, the ports, the keys, the timer, the
/// clock and the gate alone.
///
/// `load [--calls=NUMBER] [--packets=NUMBER] [--lanes=NUMBER] [--seed=NUMBER]` makes so many calls over devices in memory, has so many threads
/// of media relay what their sides send, so many packets each, until all were taken, ends the calls, and prints a line with what came of the
/// packets. It passes the gate at each relay and leaves the other devices alone. Where memory runs out it prints nothing.
///
/// `--NAME VALUE` may stand for `--NAME=VALUE`. Any other words return `Usage`, after a line that begins `usage: rtpengine` and what `clap`
/// says of words that it refuses. It may wait for the turns of its own table.
pub fn run<R, N, P, K, T, C, G, S, O>(
    rt: &R,
    alloc: Global,
    words: &[&str],
    control: &mut N,
    ports: &mut P,
    keys: &mut K,
    timer: &mut T,
    clock: &C,
    gate: &G,
    script: &mut S,
    out: &mut O,
) -> Status
where
    R: Threads + Wait + Sync,
    N: ControlLink,
    P: PortMaker,
    P::In: Send + Drop,
    P::Out: Send + Drop,
    K: KeySource,
    T: Timer,
    C: Clock + Sync,
    G: Gate + Sync,
    S: LineSource,
    O: LineSink,
    requires open { LogsNone (settings (map (λ word. word.now) words.now)) (P.log ports.old) }
    ensures served { Serves (settings (map (λ word. word.now) words.now)) (C.range clock.now) (G.passed gate.now)
        (record {
          link = N.log control.old;
          link_now = N.log control.new;
          timer = T.log timer.old;
          timer_now = T.log timer.new;
          opened = P.log ports.old;
          opened_now = P.log ports.new;
          drew = K.log keys.old;
          drew_now = K.log keys.new;
          port_faults = P.faults ports.old;
          port_faults_now = P.faults ports.new;
          key_faults = K.faults keys.old;
          key_faults_now = K.faults keys.new;
        })
        (O.log out.old) (O.log out.new) result }
    ensures usage { settings (map (λ word. word.now) words.now) ≡ None → replay_settings (map (λ word. word.now) words.now) ≡ None → load_settings (map (λ word. word.now) words.now) ≡ None → Gained (O.log out.old) (O.log out.new) (PrintsUsage result) }
    ensures status { StatusByWords (settings (map (λ word. word.now) words.now)) (replay_settings (map (λ word. word.now) words.now)) (load_settings (map (λ word. word.now) words.now)) result }
    ensures replayed { ReplayedBy (settings (map (λ word. word.now) words.now)) (replay_settings (map (λ word. word.now) words.now)) result (S.log script.old) (S.log script.new) (O.log out.old) (O.log out.new) }
    ensures loads { Loads (load_settings (map (λ word. word.now) words.now)) (G.passed gate.now) (O.log out.old) (O.log out.new) result }
    ensures control_fault { result ≡ Status.ControlFault → Rose (N.faults control.old) (N.faults control.new) }
    ensures print_fault { result ≡ Status.PrintFault → Rose (O.faults out.old) (O.faults out.new) }
    ensures script_read { result ≡ Status.ScriptRead → Rose (S.faults script.old) (S.faults script.new) }
    ensures memory { result ≡ Status.OutOfMemory → (AreOfReplay (settings (map (λ word. word.now) words.now)) (replay_settings (map (λ word. word.now) words.now)) → ⊥)
        → (control.new ≡ control.old) × (ports.new ≡ ports.old) × (keys.new ≡ keys.old) × (timer.new ≡ timer.old) × (out.new ≡ out.old) }
    ensures shut { LogsNone (settings (map (λ word. word.now) words.now)) (P.log ports.new) }
    ensures unasked { settings (map (λ word. word.now) words.now) ≡ None → (control.new ≡ control.old) × (timer.new ≡ timer.old) × (ports.new ≡ ports.old) × (keys.new ≡ keys.old) }
    ensures unused { (AreOfReplay (settings (map (λ word. word.now) words.now)) (replay_settings (map (λ word. word.now) words.now)) → ⊥) → script.new ≡ script.old }
{
    match read_words(alloc, words) {
        Ok(Task::Serve(settings)) => {
            let media = Media { clock, gate };
            let mut devices = Devices {
                link: control,
                ports,
                keys,
                timer,
            };
            serve(rt, alloc, &settings, &mut devices, &media, out)
        }
        Ok(Task::Replay(settings)) => replay_script(rt, alloc, &settings, script, out),
        Ok(Task::Load(settings)) => load(rt, alloc, &settings, gate, out).status(),
        Err(Refusal::Usage(usage)) => print_usage(&usage, out),
        Err(Refusal::OutOfMemory) => Status::OutOfMemory,
    }
}
