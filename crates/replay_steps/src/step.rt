//! One step of a script.
ghost use Rattle.std.specs.Prelude.{◌≡◌, ◌+◌, ◌<◌, ◌^◌, ℕ, List, Some, Ok, MatchResult};
ghost use Rattle.relay_outside.specs.declared.settings.Config.{Config};
ghost use Rattle.relay_script.specs.Steps.{step_meaning};
ghost use Rattle.relay_script.specs.Steps as line;
ghost use Rattle.relay_script.specs.EventLines.{event_of};
ghost use Rattle.replay_devices.specs.Devices.{Happening};
ghost use Rattle.replay_devices.specs.Watch.{WatchStandsFor};
ghost use Rattle.replay_steps.specs.Ready.{IsReplayReady};
ghost use Rattle.replay_steps.specs.Steps.{replied};
ghost use Rattle.replay_steps.specs.Moves.{MakesStep};

use crate::ended::Untold;
use crate::line_datagram::{LineDatagram, make_turn};
use crate::line_packet::{Arrived, LinePacket, arrive, pass};
use crate::state::{ReplayState, Replayer};
use crate::watched_calls::{count_draws, count_openings, note_calls};
use relay_outside::Addr;
use relay_script::{FailKind, Printed, Step};
use replay_devices::Watch;
use std::sync::Wait;

/// What a step did.
#[derive(Drop)]
pub(crate) enum Stepped {
    /// Nothing is printed.
    Quiet,
    /// This is printed.
    Prints(Printed),
    /// Its line is faulty: a receipt that isn't held is to be relayed, or one more is to be taken than may be held. Nothing was done.
    Faulty,
    /// It can't be told what it did.
    Untold(Untold),
}

/// What is printed, or why it can't be.
fn tell_event(event: Result<Printed, Untold>) -> Stepped
    ensures { MatchResult event (λ e. result ≡ Stepped.Prints e) (λ why. result ≡ Stepped.Untold why) }
{
    match event {
        Ok(event) => Stepped::Prints(event),
        Err(why) => Stepped::Untold(why),
    }
}

/// The packet of a line arrives, and is held for a later line `relay`.
fn take_packet<'a, R: Wait>(
    replayer: &Replayer<'_, 'a, R>,
    state: ReplayState<'a>,
    packet: LinePacket<'_>,
) -> (Stepped, ReplayState<'a>)
    requires ready { IsReplayReady replayer.now state }
    requires number { state.receipts.received + 1 < 2 ^ 32 }
    ensures { MakesStep replayer.now (line.Take packet.entry.port packet.entry.source packet.entry.bytes.now) result.0 state.entry result.1 }
{
    if state.receipts.is_full() {
        return (Stepped::Faulty, state);
    }
    let (arrived, state) = arrive(replayer, state, packet);
    match arrived {
        Arrived::Packet(receipt) => {
            let mut state = state;
            let number = state.receipts.keep(receipt);
            (Stepped::Prints(Printed::Took(number)), state)
        }
        Arrived::Printed(event) => (Stepped::Prints(event), state),
        Arrived::Untold(why) => (Stepped::Untold(why), state),
    }
}

/// The receipt of a number is relayed.
fn relay_receipt<'a, R: Wait>(
    replayer: &Replayer<'_, 'a, R>,
    state: ReplayState<'a>,
    number: u32,
) -> (Stepped, ReplayState<'a>)
    requires ready { IsReplayReady replayer.now state }
    ensures { MakesStep replayer.now (line.Relay number) result.0 state.entry result.1 }
{
    let mut state = state;
    match state.receipts.take(number) {
        Some(receipt) => {
            let (event, state) = pass(replayer, state, receipt);
            (tell_event(event), state)
        }
        None => (Stepped::Faulty, state),
    }
}

/// The packet of a line arrives, and is relayed at once.
fn pass_packet<'a, R: Wait>(
    replayer: &Replayer<'_, 'a, R>,
    state: ReplayState<'a>,
    packet: LinePacket<'_>,
) -> (Stepped, ReplayState<'a>)
    requires ready { IsReplayReady replayer.now state }
    ensures { MakesStep replayer.now (line.Packet packet.entry.port packet.entry.source packet.entry.bytes.now) result.0 state.entry result.1 }
{
    let (arrived, state) = arrive(replayer, state, packet);
    match arrived {
        Arrived::Packet(receipt) => {
            let (event, state) = pass(replayer, state, receipt);
            (tell_event(event), state)
        }
        Arrived::Printed(event) => (Stepped::Prints(event), state),
        Arrived::Untold(why) => (Stepped::Untold(why), state),
    }
}

/// Notes that a reply was sent, or its send failed, where that is the event.
fn note_event(watch: &mut Watch, event: &Printed)
    ensures { (config : Config) (seed : ℕ) (past : List Happening) → WatchStandsFor config seed past watch.old → WatchStandsFor config seed (replied (event_of event.now) past) watch.new }
{
    match event {
        Printed::Reply(_, _) => watch.replied(),
        Printed::ReplyFault => watch.replied(),
        _ => {}
    }
}

/// The same of what is printed.
fn note_reply(watch: &mut Watch, event: &Result<Printed, Untold>)
    ensures { (e : Printed) → event.now ≡ Ok e → (config : Config) (seed : ℕ) (past : List Happening) → WatchStandsFor config seed past watch.old → WatchStandsFor config seed (replied (event_of e) past) watch.new }
{
    match event {
        Ok(event) => note_event(watch, event),
        Err(_) => {}
    }
}

/// The control turn of a line `ng`: the devices were told of the line.
fn control<'a, R: Wait>(
    replayer: &Replayer<'_, 'a, R>,
    state: &mut ReplayState<'a>,
    source: Addr,
    bytes: &[u8],
) -> Stepped
    requires ready { IsReplayReady replayer.now state.old }
    ensures { MakesStep replayer.now (line.Ng source bytes.now) result state.old state.new }
{
    let ReplayState {
        hand,
        desk,
        devices,
        watch,
        clock,
        ..
    } = state;
    let read_fails = watch.fails(FailKind::Read);
    let reply_fails = watch.fails(FailKind::Reply);
    let line = LineDatagram {
        source,
        bytes,
        moment: *clock,
        read_fails,
        reply_fails,
    };
    let config = &replayer.config;
    let opened = count_openings(&devices.ports);
    let drawn = count_draws(&devices.keys);
    let event = make_turn(replayer, hand, desk, devices, line);
    if !note_calls(watch, config, &devices.ports, opened, &devices.keys, drawn) {
        return Stepped::Untold(devices.cause());
    }
    note_reply(watch, &event);
    tell_event(event)
}

/// The tick of a line `tick`: how many calls it ended is printed.
fn tick<'a, R: Wait>(replayer: &Replayer<'_, 'a, R>, state: &mut ReplayState<'a>) -> Stepped
    requires ready { IsReplayReady replayer.now state.old }
    ensures { MakesStep replayer.now line.Tick result state.old state.new }
{
    let ReplayState {
        hand,
        desk,
        devices,
        clock,
        ..
    } = state;
    let Replayer { rt, server, .. } = replayer;
    let ended = server.timer_turn(*rt, hand, desk, &mut devices.ports, *clock);
    Stepped::Prints(Printed::Ended(ended))
}

/// Makes a step: the devices were told of its line.
pub(crate) fn make_step<'a, R: Wait>(
    replayer: &Replayer<'_, 'a, R>,
    state: ReplayState<'a>,
    step: &Step,
) -> (Stepped, ReplayState<'a>)
    requires ready { IsReplayReady replayer.now state }
    requires number { state.receipts.received + 1 < 2 ^ 32 }
    ensures { MakesStep replayer.now (step_meaning step.now) result.0 state.entry result.1 }
{
    let mut state = state;
    match step {
        Step::At(moment) => {
            state.clock = *moment;
            (Stepped::Quiet, state)
        }
        Step::Ng(source, bytes) => {
            let stepped = control(replayer, &mut state, *source, bytes.as_slice());
            (stepped, state)
        }
        Step::Take(port, source, bytes) => {
            let packet = LinePacket {
                port: *port,
                source: *source,
                bytes: bytes.as_slice(),
            };
            take_packet(replayer, state, packet)
        }
        Step::Relay(number) => relay_receipt(replayer, state, *number),
        Step::Packet(port, source, bytes) => {
            let packet = LinePacket {
                port: *port,
                source: *source,
                bytes: bytes.as_slice(),
            };
            pass_packet(replayer, state, packet)
        }
        Step::Tick => {
            let stepped = tick(replayer, &mut state);
            (stepped, state)
        }
        Step::Skip | Step::Key(_) | Step::Fail(_, _) | Step::FailSend(_, _) => (
            Stepped::Quiet,
            state,
        ),
    }
}
