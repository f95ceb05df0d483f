//! The command `load`.
ghost use Rattle.std.specs.Prelude.{◌≡◌, ◌≤◌, ◌*◌, ◌-◌, ◌^◌, [], Some, true, false, nat_lt, IfOk, IfErr, IsSome, IsTrue};
ghost use Rattle.relay_runs.specs.Statuses.{load_status};
ghost use Rattle.relay_runs.specs.Preparations.{IsPreparedRun};
ghost use Rattle.relay_runs.specs.Threads.{due_in};
ghost use Rattle.relay_outside.specs.DeviceLogs.{Rose, WhereLogged};
ghost use Rattle.outside_real.specs.KeyStream.{stream_of, logged_draws};
ghost use Rattle.command_line.specs.Values.{IsLoadInLimits};
ghost use Rattle.load_maker.specs.Links.{IsOfLoad};
ghost use Rattle.load_maker.specs.Moments.{AreZero};
ghost use Rattle.load_maker.specs.Takes.{AreAllEnds, AreClosed, HasGivenAll};
ghost use Rattle.relay_runs.specs.Loads.{RunsLoad, CutsShort, EndsLoad, Loads, IsCutBy, IsLoaded, IsUnlogged, load_line, packets_of};

use crate::control_loop::Looped;
use crate::devices::Devices;
use crate::lane_shares::Due;
use crate::load_end::{LoadEnd, Shortfall};
use crate::load_run::load_turns;
use crate::prepared::Prepared;
use crate::seed_keys::{Seed, SeedKeys};
use crate::serve_command::line_room;
use crate::status::Status;
use crate::totals::put_number;
use command_line::{LoadSettings, Settings};
use load_maker::{LoadLink, LoadPorts, LoadTimer};
use media_lane::{Media, Totals};
use ng_bencode::Text;
use relay_outside::{Addr, Gate, HandClock, Ip, LaneShare, LineSink};
use std::alloc::Global;
use std::marker::Brand;
use std::sync::Wait;
use std::thread::Threads;

/// More control turns than a load makes.
const TURNS: u64 = 1_000_000;

/// Where the control link of a load would be bound: it isn't.
const NOWHERE: Addr = Addr {
    ip: Ip::V4([127, 0, 0, 1]),
    port: 2223,
};

/// The settings of the run that a load is.
fn run_settings(settings: &LoadSettings) -> Settings
    ensures config { result.config ≡ settings.now.config }
    ensures threads { result.threads ≡ settings.now.lanes }
    ensures turns { result.turns ≡ 1000000 }
{
    Settings {
        config: settings.config,
        listen: NOWHERE,
        turns: TURNS,
        threads: settings.lanes,
    }
}

/// Writes the line of a load into an empty text. It takes no memory.
fn put_load_line(line: &mut Text, calls: u32, totals: Totals)
    requires empty { line.old.list ≡ [] }
    requires room { 512 ≤ line.old.spare }
    ensures { line.new.list ≡ load_line calls totals }
{
    line.extend(b"calls ");
    put_number(line, u64::from(calls));
    line.extend(b" sent ");
    put_number(line, totals.sent);
    line.extend(b" refused ");
    put_number(line, totals.refused);
    line.extend(b" lost ");
    put_number(line, totals.lost);
    line.push(b'\n');
}

/// Runs a load over devices in memory: its control turns, then the threads of media, then the stop of all calls.
fn run_load<G, R>(
    rt: &R,
    alloc: Global,
    settings: &LoadSettings,
    prepared: Prepared<LoadPorts>,
    gate: &G,
) -> Result<Totals, Shortfall>
where
    G: Gate + Sync,
    R: Threads + Wait + Sync,
    requires limits { IsLoadInLimits settings.now }
    requires prepared { IsPreparedRun settings.now.config settings.now.lanes settings.now.lanes prepared }
    requires due { due_in prepared.room.threads.items ≡ packets_of settings.now }
    ensures whole { IfOk result (λ totals. RunsLoad settings.now (G.passed gate.now) totals) }
    ensures short { IfErr result (λ cause. CutsShort settings.now (G.passed gate.now) cause) }
{
    run_seeded::<G, R, Brand>(rt, alloc, settings, prepared, gate)
}

/// The same, with keys of this seed.
fn run_seeded<G, R, S>(
    rt: &R,
    alloc: Global,
    settings: &LoadSettings,
    prepared: Prepared<LoadPorts>,
    gate: &G,
) -> Result<Totals, Shortfall>
where
    G: Gate + Sync,
    R: Threads + Wait + Sync,
    S: Seed,
    requires seed { settings.now.seed ≡ S.number }
    requires limits { IsLoadInLimits settings.now }
    requires prepared { IsPreparedRun settings.now.config settings.now.lanes settings.now.lanes prepared }
    requires due { due_in prepared.room.threads.items ≡ packets_of settings.now }
    ensures whole { IfOk result (λ totals. RunsLoad settings.now (G.passed gate.now) totals) }
    ensures short { IfErr result (λ cause. CutsShort settings.now (G.passed gate.now) cause) }
{
    let mut link = LoadLink::new(alloc, settings.calls);
    let mut ports = LoadPorts::new(alloc, settings.packets);
    let mut keys: SeedKeys<S> = SeedKeys::new(settings.seed);
    let mut timer = LoadTimer::new(alloc);
    let clock = HandClock::new(0);
    let media = Media {
        clock: &clock,
        gate,
    };
    let mut devices = Devices {
        link: &mut link,
        ports: &mut ports,
        keys: &mut keys,
        timer: &mut timer,
    };
    let looped = load_turns(
        rt,
        alloc,
        &run_settings(settings),
        prepared,
        &mut devices,
        &media,
    );
    whole_totals(settings, &looped, &link, &ports, &keys, &timer)
}

/// Whether each device of a load still tells its calls.
fn tell_all<S: Seed>(
    link: &LoadLink,
    ports: &LoadPorts,
    keys: &SeedKeys<S>,
    timer: &LoadTimer,
) -> bool
    ensures log { IsTrue result → IsSome link.now.log × IsSome ports.now.maker.log × IsSome timer.now × (nat_lt keys.now.drawn (2 ^ 64 - 1) ≡ true) }
    ensures untold { result ≡ false → IsUnlogged link.now.log ports.now.maker.log timer.now (logged_draws keys.now) }
    ensures heard { IsOfLoad link.now }
    ensures zero { AreZero timer.now }
    ensures seeded { keys.now.seed_words ≡ (stream_of S.number).seed_words }
{
    let is_linked = link.tells();
    let is_opened = ports.tells();
    let is_drawn = keys.tells();
    let is_timed = timer.tells();
    is_linked && is_opened && is_drawn && is_timed
}

/// Whether the link of a load gave all datagrams, and the ports, all given back, gave all packets of the sides of the calls.
fn gave_all(settings: &LoadSettings, link: &LoadLink, ports: &LoadPorts) -> bool
    requires { settings.now.calls ≤ 1000 }
    ensures given { IsTrue result → link.now.given ≡ 2 * settings.now.calls }
    ensures gave { IsTrue result → HasGivenAll settings.now.config.interface settings.now.config.port_min settings.now.calls settings.now.packets ports.now.maker.log }
    ensures otherwise { result ≡ false → link.now.given ≡ 2 * settings.now.calls →
        AreAllEnds settings.now.config.interface settings.now.config.port_min settings.now.calls settings.now.packets ports.now.maker.closed → ⊥ }
    ensures closed { WhereLogged ports.now.maker.log (λ opened. AreClosed opened ports.now.maker.closed) }
{
    let config = &settings.config;
    let is_given = ports.gave_all(
        config.interface,
        config.port_min,
        settings.calls,
        settings.packets,
    );
    link.gave_all(settings.calls) && is_given
}

/// What came of the packets of a load, where its control turns went well, all packets were taken, and its devices tell all their calls and gave all
/// that they had; else why not.
fn whole_totals<S: Seed>(
    settings: &LoadSettings,
    looped: &Looped,
    link: &LoadLink,
    ports: &LoadPorts,
    keys: &SeedKeys<S>,
    timer: &LoadTimer,
) -> Result<Totals, Shortfall>
    requires { IsLoadInLimits settings.now }
    ensures went { IfOk result (λ totals. (totals ≡ looped.now.totals) × (looped.now.status ≡ Status.Ok)) }
    ensures taken { IfOk result (λ totals. totals.taken ≡ packets_of settings.now) }
    ensures spent { IfOk result (λ totals. (link.now.given ≡ 2 * settings.now.calls) × (link.now.well ≡ true) × IsSome link.now.log) }
    ensures log { IfOk result (λ totals. IsSome ports.now.maker.log × IsSome timer.now × (nat_lt keys.now.drawn (2 ^ 64 - 1) ≡ true)) }
    ensures gave { IfOk result (λ totals. HasGivenAll settings.now.config.interface settings.now.config.port_min settings.now.calls settings.now.packets ports.now.maker.log) }
    ensures heard { IsOfLoad link.now }
    ensures zero { AreZero timer.now }
    ensures seeded { keys.now.seed_words ≡ (stream_of S.number).seed_words }
    ensures short { IfErr result (λ cause. IsCutBy cause settings.now link.now.log ports.now.maker.log timer.now (logged_draws keys.now) looped.now.status looped.now.totals) }
{
    let are_told = tell_all(link, ports, keys, timer);
    if !are_told {
        return Err(Shortfall::Untold);
    }
    if !link.has_succeeded() {
        return Err(Shortfall::ReplyFailed);
    }
    let Status::Ok = looped.status else {
        return Err(Shortfall::TakeFailed);
    };
    let all = 2 * u64::from(settings.calls) * u64::from(settings.packets);
    let is_given = gave_all(settings, link, ports);
    if looped.totals.taken == all && is_given {
        Ok(looped.totals)
    } else {
        Err(Shortfall::EndsDiffer)
    }
}

/// Makes generated calls over devices in memory, has lanes of media relay the packets of their sides until all were taken, ends the calls
/// and prints a line with what came of the packets. `PrintFault`: the sink did not take the line. Else nothing was printed: `NotBegun`: out of memory
/// before the first control turn; `CutShort`: the load was run, and this is why it is not whole.
pub fn load<G, O, R>(
    rt: &R,
    alloc: Global,
    settings: &LoadSettings,
    gate: &G,
    out: &mut O,
) -> LoadEnd
where
    G: Gate + Sync,
    O: LineSink,
    R: Threads + Wait + Sync,
    requires limits { IsLoadInLimits settings.now }
    ensures ends { EndsLoad settings.now (G.passed gate.now) (O.log out.old) (O.log out.new) result }
    ensures loads { Loads (Some settings.now) (G.passed gate.now) (O.log out.old) (O.log out.new) (load_status result) }
    ensures status { IsLoaded (load_status result) }
    ensures memory { load_status result ≡ Status.OutOfMemory → out.new ≡ out.old }
    ensures print_fault { load_status result ≡ Status.PrintFault → Rose (O.faults out.old) (O.faults out.new) }
{
    let Ok(mut line) = line_room(alloc) else {
        return LoadEnd::NotBegun;
    };
    let due = Due {
        pairs: 2 * settings.calls,
        packets: settings.packets,
    };
    let share = LaneShare::one_each(settings.lanes);
    let Ok(prepared) = Prepared::reserve(alloc, settings.config, share, Some(due)) else {
        return LoadEnd::NotBegun;
    };
    let totals = match run_load(rt, alloc, settings, prepared, gate) {
        Ok(totals) => totals,
        Err(cause) => return LoadEnd::CutShort(cause),
    };
    put_load_line(&mut line, settings.calls, totals);
    match out.write(line.as_slice()) {
        Ok(()) => LoadEnd::Finished,
        Err(_) => LoadEnd::PrintFault,
    }
}
