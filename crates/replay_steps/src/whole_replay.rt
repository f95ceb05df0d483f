//! A whole replay.
ghost use Rattle.std.specs.Prelude.{◌≡◌, ◌≢◌, ◌⊎◌, ◌≤◌, ℕ, [], IfOk, Option, Some, map, length};
ghost use Rattle.relay_outside.specs.DeviceLogs.{Rose};
ghost use Rattle.relay_outside.specs.Settings.{AreFamilies};
ghost use Rattle.turn_table.specs.Hands.{IsSameHand};
ghost use Rattle.relay_core.specs.Turns.{made_by};
ghost use Rattle.board_turns.specs.Between.{IsBetween, MakesTurn, board_of};
ghost use Rattle.board_turns.specs.Stops.{stop_entry};
ghost use Rattle.relay_script.specs.Steps.{step_meaning};
ghost use Rattle.replay_devices.specs.Watch.{WatchStandsFor};
ghost use Rattle.replay_steps.specs.Ready.{IsReplayReady, IsFirst, course_at};
ghost use Rattle.replay_steps.specs.Steps.{at_first};
ghost use Rattle.replay_steps.specs.Output.{Wrote, DidEnd, DidFinish, DidPlay, Replays};

use crate::devices::Devices;
use crate::ended::Ended;
use crate::receipts::Receipts;
use crate::script_steps::{play_steps, tell_fault};
use crate::state::{ReplayState, Replayer};
use ng_server::{Desk, Server};
use relay_outside::{Config, LineSink, LineSource, OutOfMemory};
use relay_script::Step;
use replay_devices::{Ending, Timetable, Watch, read_script};
use std::alloc::Global;
use std::sync::Wait;

/// How a replay ends whose steps were all made, by how the reading of its script ended.
fn end_script<O: LineSink>(alloc: Global, out: &mut O, ending: Ending, line: u32) -> Ended
    ensures log { Wrote (O.log out.old) (O.log out.new) (DidEnd ending line result) }
    ensures fault { result ≡ Ended.PrintFault → Rose (O.faults out.old) (O.faults out.new) }
    ensures later { O.faults out.old ≤ O.faults out.new }
    ensures read { result ≡ Ended.ScriptRead → ending ≡ Ending.Fault }
{
    match ending {
        Ending::End => Ended::Finished,
        Ending::Outside => tell_fault(alloc, out, line),
        Ending::Fault => Ended::ScriptRead,
    }
}

/// How a replay ends whose steps ended in this way, where not all of them were made.
fn end_replay<O: LineSink>(
    alloc: Global,
    out: &mut O,
    ended: Option<Ended>,
    ending: Ending,
    line: u32,
) -> Ended
    requires { ended ≢ Some Ended.ScriptRead }
    ensures log { Wrote (O.log out.old) (O.log out.new) (DidFinish ended ending line result) }
    ensures fault { result ≡ Ended.PrintFault → (ended ≡ Some Ended.PrintFault) ⊎ Rose (O.faults out.old) (O.faults out.new) }
    ensures later { O.faults out.old ≤ O.faults out.new }
    ensures read { result ≡ Ended.ScriptRead → ending ≡ Ending.Fault }
{
    match ended {
        Some(ended) => ended,
        None => end_script(alloc, out, ending, line),
    }
}

/// Ends all calls of a replay.
fn stop<'a, R: Wait>(replayer: &Replayer<'_, 'a, R>, state: &mut ReplayState<'a>)
    requires { IsReplayReady replayer.now state.old }
    ensures same { IsSameHand state.old.hand state.new.hand }
    ensures between { IsBetween replayer.now.server.config replayer.now.server.turns state.new.hand }
    ensures makes { MakesTurn replayer.now.server.config state.old.hand state.new.hand (stop_entry (board_of (made_by state.old.hand))) }
{
    let ReplayState {
        hand,
        desk,
        devices,
        ..
    } = state;
    let Replayer { rt, server, .. } = replayer;
    server.stop(*rt, hand, desk, &mut devices.ports);
}

/// Plays a script that was read, from this state on, by a server that has taken no turn yet.
fn play<'a, O: LineSink, R: Wait>(
    replayer: Replayer<'_, 'a, R>,
    state: ReplayState<'a>,
    steps: &'a [Step],
    ending: Ending,
    out: &mut O,
) -> Ended
    requires most { length steps.now ≤ 50000 }
    requires ready { IsReplayReady replayer state }
    requires none { course_at state [] ≡ at_first }
    ensures log { (seed : ℕ) → WatchStandsFor replayer.entry.server.config seed [] state.entry.watch → Wrote (O.log out.old) (O.log out.new) (DidPlay replayer.entry.server.config seed (map step_meaning steps.now) ending result) }
    ensures fault { result ≡ Ended.PrintFault → Rose (O.faults out.old) (O.faults out.new) }
    ensures later { O.faults out.old ≤ O.faults out.new }
    ensures read { result ≡ Ended.ScriptRead → ending ≡ Ending.Fault }
{
    let (ended, line, state) = play_steps(&replayer, state, steps, out);
    let ended = end_replay(replayer.alloc, out, ended, ending, line + 1);
    let mut state = state;
    stop(&replayer, &mut state);
    let Replayer {
        rt: _,
        alloc: _,
        config: _,
        server,
    } = replayer;
    drop(server.close(state.hand));
    ended
}

/// A replay of these steps before its first one, with devices by this timetable and keys of that seed after those of the lines.
fn begin<'r, 'a, R>(
    rt: &'r R,
    alloc: Global,
    config: &Config,
    seed: u64,
    steps: &'a [Step],
    timetable: &'a Timetable<'a>,
) -> Result<(Replayer<'r, 'a, R>, ReplayState<'a>), OutOfMemory>
    requires { AreFamilies config.now }
    ensures { IfOk result (λ begun. IsFirst config.now seed begun.0 begun.1) }
{
    let watch = Watch::new(alloc, seed)?;
    let receipts = Receipts::new(alloc)?;
    let desk = Desk::new(alloc)?;
    let devices = Devices::new(alloc, steps, timetable, seed)?;
    let (server, hand) = Server::start(alloc, *config)?;
    let replayer = Replayer {
        rt,
        alloc,
        config: *config,
        server,
    };
    let state = ReplayState {
        hand,
        desk,
        devices,
        watch,
        receipts,
        clock: 0,
    };
    Ok((replayer, state))
}

/// Replays the script that a source gives, with this configuration and keys of that seed after those of its lines, and writes a
/// line for each event.
/// It is not shown that each script has a replay.
pub fn replay<S: LineSource, O: LineSink, R: Wait>(
    rt: &R,
    alloc: Global,
    config: &Config,
    seed: u64,
    source: &mut S,
    out: &mut O,
) -> Ended
    requires { AreFamilies config.now }
    ensures replayed { Replays config.now seed result (S.log source.old) (S.log source.new) (O.log out.old) (O.log out.new) }
    ensures script_read { result ≡ Ended.ScriptRead → Rose (S.faults source.old) (S.faults source.new) }
    ensures print_fault { result ≡ Ended.PrintFault → Rose (O.faults out.old) (O.faults out.new) }
    ensures later { (S.faults source.old ≤ S.faults source.new) × (O.faults out.old ≤ O.faults out.new) }
{
    let Ok(script) = read_script(alloc, source) else {
        return Ended::OutOfMemory;
    };
    let Ok(timetable) = Timetable::new(alloc, script.steps()) else {
        return Ended::OutOfMemory;
    };
    let Ok((replayer, state)) = begin(rt, alloc, config, seed, script.steps(), &timetable) else {
        return Ended::OutOfMemory;
    };
    play(replayer, state, script.steps(), script.ending(), out)
}
