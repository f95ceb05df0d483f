ghost use Rattle.std.specs.Prelude.{◌≡◌, map};
ghost use Rattle.rand_chacha.specs.ChaCha.{key_of};
ghost use Rattle.relay_outside.specs.DeviceLogs.{Rose};
ghost use Rattle.command_line.specs.Words.{settings, replay_settings, load_settings};
ghost use Rattle.relay_app.specs.Run.{StatusByWords};

use outside_real::{
    ChaChaKeys, ClockStart, Readiness, StdLines, StdSink, StopPipe, SystemClock, SystemTimer,
    UdpLink, UdpMaker,
};
use relay_app::{Status, run};
use relay_outside::OpenGate;
use std::alloc::Global;
use std::io::{self, BufRead, Printer};
use std::net::Net;
use std::rt::Clock;
use std::sync::Wait;
use std::thread::Threads;

/// How long a take of the control link waits where media have threads of their own, in milliseconds.
const CONTROL_WAIT_MILLIS: u32 = 1_000;

/// The devices of this machine that a run is handed: each is what its type says, and no other will do.
#[derive(Drop)]
pub(crate) struct RealDevices<'a, R: Net + Clock + Print, B: BufRead + Drop> {
    /// The control link, a UDP socket.
    pub(crate) control: UdpLink<'a, R>,
    /// What opens the ports of calls, as UDP sockets.
    ports: UdpMaker<'a, R>,
    /// Keys of a seed's stream.
    keys: ChaChaKeys,
    /// The system's clock, for the control loop.
    timer: SystemTimer<'a, R>,
    /// The system's clock, for the lanes of media.
    clock: SystemClock<'a, R>,
    /// The gate that lets every relay through.
    gate: OpenGate,
    /// The script of a replay, by lines.
    script: StdLines<B>,
    /// Standard output.
    out: StdSink<Printer<'a, R>>,
}

/// The control link, which ends with the pipe: its take waits where media have threads of their own, and else its thread does
/// before each sweep.
fn link<'a, R: Net>(
    net: &'a R,
    stop: StopPipe,
    readiness: &'a Readiness,
    threads: u32,
) -> UdpLink<'a, R>
    ensures { result.faults ≡ 0 }
{
    match threads {
        0 => UdpLink::watched(net, stop, readiness),
        _ => UdpLink::waiting(net, stop, CONTROL_WAIT_MILLIS),
    }
}

impl<'a, R: Net + Clock + Print, B: BufRead + Drop> RealDevices<'a, R, B> {
    /// Devices that nothing was asked of yet: sockets, the system's hints of which are readable, its clock, the keys of this seed, this
    /// input and standard output. Timer and clock count from one reading of it. The pipe's end ends each wait and the control link.
    pub(crate) fn new(
        rt: &'a R,
        readiness: &'a Readiness,
        stop: StopPipe,
        threads: u32,
        seed: [u8; 32],
        input: B,
    ) -> RealDevices<'a, R, B>
        ensures faults { (result.control.faults ≡ 0) × (result.ports.faults ≡ 0) × (result.out.faults ≡ 0) }
        ensures keys { result.keys ≡ record { seed_words = key_of seed; drawn = 0 } }
        ensures script { result.script ≡ record { bytes = B.remaining input; faults = 0 } }
    {
        let start = ClockStart::read(rt);
        RealDevices {
            control: link(rt, stop, readiness, threads),
            ports: UdpMaker::new(rt, readiness),
            keys: ChaChaKeys::from_seed(seed),
            timer: SystemTimer::new(rt, start),
            clock: SystemClock::new(rt, readiness, start),
            gate: OpenGate::new(),
            script: StdLines::new(input),
            out: StdSink::new(io::writer(rt)),
        }
    }
}

/// Runs the relay over the devices of this machine, as the words say.
pub(crate) fn run_over<'a, R, B>(
    rt: &R,
    alloc: Global,
    words: &[&str],
    devices: &mut RealDevices<'a, R, B>,
) -> Status
where
    R: Threads + Wait + Sync + Net + Clock + Print + Eprint,
    B: BufRead + Drop,
    ensures status { StatusByWords (settings (map (λ word. word.now) words.now)) (replay_settings (map (λ word. word.now) words.now)) (load_settings (map (λ word. word.now) words.now)) result }
    ensures control_fault { result ≡ Status.ControlFault → Rose devices.old.control.faults devices.new.control.faults }
    ensures print_fault { result ≡ Status.PrintFault → Rose devices.old.out.faults devices.new.out.faults }
    ensures script_read { result ≡ Status.ScriptRead → Rose devices.old.script.faults devices.new.script.faults }
{
    run(
        rt,
        alloc,
        words,
        &mut devices.control,
        &mut devices.ports,
        &mut devices.keys,
        &mut devices.timer,
        &devices.clock,
        &devices.gate,
        &mut devices.script,
        &mut devices.out,
    )
}
