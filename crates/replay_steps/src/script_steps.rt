//! The steps of a script in order.
ghost use Rattle.std.specs.Prelude.{◌≡◌, ◌≤◌, ◌≢◌, ℕ, [], None, Some, map, length};
ghost use Rattle.relay_outside.specs.DeviceLogs.{Rose};
ghost use Rattle.turn_table.specs.Hands.{IsSameHand};
ghost use Rattle.relay_core.specs.Turns.{made_by};
ghost use Rattle.relay_script.specs.Steps.{step_meaning};
ghost use Rattle.replay_devices.specs.Watch.{WatchStandsFor};
ghost use Rattle.replay_steps.specs.Ready.{IsReplayReady, course_at};
ghost use Rattle.replay_steps.specs.Steps.{at_first};
ghost use Rattle.replay_steps.specs.declared.ended.Untold.{Untold};
ghost use Rattle.replay_steps.specs.Output.{Wrote, EndsUnwritten, ended_untold, DidTell, DidStep, DidSteps};

use crate::ended::{Ended, Untold};
use crate::state::{ReplayState, Replayer};
use crate::step::{Stepped, make_step};
use relay_outside::LineSink;
use relay_script::{Printed, Step};
use replay_devices::{WriteFault, write_event};
use std::alloc::Global;
use std::sync::Wait;

/// How a replay ends where an event could not be written.
fn write_ended(fault: WriteFault) -> Ended
    ensures { EndsUnwritten fault result }
{
    match fault {
        WriteFault::OutOfMemory => Ended::OutOfMemory,
        WriteFault::Failed => Ended::PrintFault,
    }
}

/// How a replay ends where it can't be told what a step did.
fn untold_ended(why: Untold) -> Ended
    ensures by { result ≡ ended_untold why }
    ensures print { result ≢ Ended.PrintFault }
    ensures read { result ≢ Ended.ScriptRead }
{
    match why {
        Untold::OutOfMemory => Ended::OutOfMemory,
        Untold::DeviceFault => Ended::DeviceFault,
    }
}

/// Tells the number of a faulty line, from 1.
pub(crate) fn tell_fault<O: LineSink>(alloc: Global, out: &mut O, line: u32) -> Ended
    ensures log { Wrote (O.log out.old) (O.log out.new) (DidTell line result) }
    ensures fault { result ≡ Ended.PrintFault → Rose (O.faults out.old) (O.faults out.new) }
    ensures later { O.faults out.old ≤ O.faults out.new }
    ensures end { result ≢ Ended.ScriptRead }
{
    match write_event(alloc, out, &Printed::ScriptFault(line)) {
        Ok(()) => Ended::ScriptFault,
        Err(fault) => write_ended(fault),
    }
}

/// What a step did is written. `None`: the replay goes on.
fn write_step<O: LineSink>(alloc: Global, out: &mut O, stepped: Stepped, line: u32) -> Option<Ended>
    ensures log { Wrote (O.log out.old) (O.log out.new) (DidStep stepped line result) }
    ensures fault { result ≡ Some Ended.PrintFault → Rose (O.faults out.old) (O.faults out.new) }
    ensures later { O.faults out.old ≤ O.faults out.new }
    ensures end { result ≢ Some Ended.ScriptRead }
    ensures known { result ≡ None → (why : Untold) → stepped ≢ Stepped.Untold why }
{
    match stepped {
        Stepped::Quiet => None,
        Stepped::Prints(event) => match write_event(alloc, out, &event) {
            Ok(()) => None,
            Err(fault) => Some(write_ended(fault)),
        },
        Stepped::Faulty => Some(tell_fault(alloc, out, line)),
        Stepped::Untold(why) => Some(untold_ended(why)),
    }
}

/// Makes the steps of a script, each after the ones before it, and writes what each prints, up to the first that is faulty. `None`:
/// all were made. Returns with it the number of the last line whose step was due.
pub(crate) fn play_steps<'a, O: LineSink, R: Wait>(
    replayer: &Replayer<'_, 'a, R>,
    state: ReplayState<'a>,
    steps: &'a [Step],
    out: &mut O,
) -> (Option<Ended>, u32, ReplayState<'a>)
    requires ready { IsReplayReady replayer.now state }
    requires none { course_at state [] ≡ at_first }
    requires most { length steps.now ≤ 50000 }
    ensures same { IsSameHand state.entry.hand result.2.hand }
    ensures ready { IsReplayReady replayer.now result.2 }
    ensures log { (seed : ℕ) → WatchStandsFor replayer.now.server.config seed [] state.entry.watch → Wrote (O.log out.old) (O.log out.new) (DidSteps replayer.now.server.config seed (map step_meaning steps.now) (made_by result.2.hand) result.0) }
    ensures all { result.0 ≡ None → result.1 ≡ length steps.now }
    ensures few { result.1 ≤ 50000 }
    ensures fault { result.0 ≡ Some Ended.PrintFault → Rose (O.faults out.old) (O.faults out.new) }
    ensures later { O.faults out.old ≤ O.faults out.new }
    ensures end { result.0 ≢ Some Ended.ScriptRead }
{
    let alloc = replayer.alloc;
    let mut state = state;
    let mut made = 0;
    let mut line = 0;
    'steps: while made < steps.len() {
        state.devices.begin(made);
        let step = &steps[made];
        let (stepped, next) = make_step(replayer, state, step);
        state = next;
        let Ok(()) = state.watch.made(step) else {
            return (Some(Ended::OutOfMemory), line, state);
        };
        made += 1;
        line += 1;
        match write_step(alloc, out, stepped, line) {
            Some(ended) => return (Some(ended), line, state),
            None => {}
        }
        if !state.devices.tell() {
            return (Some(Ended::OutOfMemory), line, state);
        }
    }
    (None, line, state)
}
