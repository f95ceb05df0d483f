//! The control turns of a load, then its threads of media, and then its end: one after the other, so that each relay stands at its cell after
//! all that the control turns made there, and before all that the stop makes.
ghost use Rattle.std.specs.Prelude.{◌≡◌, ◌≤◌, ◌<◌, ◌^◌, ℕ, []};
ghost use Rattle.turn_table.specs.Hands.{parts};
ghost use Rattle.relay_core.specs.Turns.{made_by};
ghost use Rattle.media_ports.specs.OpenPorts.{LogsHeld};
ghost use Rattle.board_turns.specs.Between.{IsBetween, board_of};
ghost use Rattle.relay_runs.specs.Devices.{AreSame};
ghost use Rattle.relay_runs.specs.Loads.{DidLoadTurns};
ghost use Rattle.relay_runs.specs.Preparations.{IsPreparedRun};
ghost use Rattle.relay_runs.specs.Threads.{IsRoomFor, RelaysDue, due_in};

use crate::control_loop::{ControlLoop, Looped, close_table};
use crate::devices::{Devices, Tells};
use crate::lane_shares::{LaneRoom, join_threads, make_lanes};
use crate::parallel_work::{ControlWork, Relaying, run_after};
use crate::prepared::Prepared;
use crate::status::Status;
use command_line::Settings;
use media_lane::Media;
use relay_core::Relay;
use relay_outside::{
    Clock, ControlLink, Gate, InEnd, KeySource, LaneShare, OutEnd, PortMaker, Timer,
};
use std::alloc::Global;
use std::sync::Wait;
use std::thread::Threads;
use turn_table::{Hand, Turns};

/// Has threads of media relay the datagrams that are due, by hands that are split from the main one for their lanes and joined to it again, and adds what
/// came of them. Before the split and after the join the main hand has the whole history of each place.
fn relay_due<I, O, C, G, R>(
    rt: &R,
    relaying: &Relaying<'_, '_, Turns<Relay<I, O>>, Media<'_, '_, C, G>>,
    hand: &mut Hand<Relay<I, O>>,
    room: LaneRoom<I, O>,
    settings: &Settings,
    looped: &mut Looped,
)
where
    I: InEnd + Send + Drop,
    O: OutEnd + Send + Drop,
    C: Clock + Sync,
    G: Gate + Sync,
    R: Threads + Wait + Sync,
    requires threads { settings.now.threads ≤ 16 }
    requires some { 0 < settings.now.threads }
    requires room { IsRoomFor settings.now.threads settings.now.threads room }
    requires all { parts hand.old ≡ 1024 }
    requires between { IsBetween settings.now.config relaying.now.turns.now hand.old }
    ensures between { IsBetween settings.now.config relaying.now.turns.now hand.new }
    ensures parts { parts hand.new ≡ parts hand.old }
    ensures history { board_of (made_by hand.new) ≡ board_of (made_by hand.old) }
    ensures relays { RelaysDue settings.now.config settings.now.threads (C.range relaying.now.media.now.clock.now) (G.passed relaying.now.media.now.gate.now) hand.old hand.new looped.old.totals looped.new.totals }
    ensures took { looped.old.status ≡ Status.Ok → (n : ℕ) → n ≤ due_in room.threads.items → n < 2 ^ 64 → n ≤ looped.new.totals.taken }
    ensures same { (looped.new.status ≡ looped.old.status) × (looped.new.counts ≡ looped.old.counts) }
{
    let turns = relaying.turns;
    turns.survey(hand);
    let LaneRoom { mut threads, lanes } = room;
    let share = LaneShare::one_each(settings.threads);
    make_lanes(turns, hand, &mut threads, share, &settings.config);
    let went_well = looped.status == Status::Ok;
    run_after(rt, relaying, &mut threads, went_well);
    join_threads(turns, hand, threads, lanes, &mut looped.totals);
    turns.survey(hand);
}

/// Runs a load with a server that has taken no turn yet: its control turns, then as many threads of media as the settings say, each until it took
/// what is due, then the stop, which ends all calls, and the close of its table.
pub(crate) fn load_turns<N, P, K, T, C, G, R>(
    rt: &R,
    alloc: Global,
    settings: &Settings,
    prepared: Prepared<P>,
    devices: &mut Devices<'_, '_, '_, '_, N, P, K, T>,
    media: &Media<'_, '_, C, G>,
) -> Looped
where
    N: ControlLink,
    P: PortMaker,
    P::In: Send + Drop,
    P::Out: Send + Drop,
    K: KeySource,
    T: Timer,
    C: Clock + Sync,
    G: Gate + Sync,
    R: Threads + Wait + Sync,
    requires limit { settings.now.turns < 2 ^ 63 }
    requires threads { settings.now.threads ≤ 16 }
    requires some { 0 < settings.now.threads }
    requires prepared { IsPreparedRun settings.now.config settings.now.threads settings.now.threads prepared }
    requires open { LogsHeld prepared.server.config (P.log devices.old.ports.now) [] }
    ensures same { AreSame devices.old devices.new }
    ensures did { DidLoadTurns settings.now.turns prepared.server.config settings.now.threads (C.range media.now.clock.now) (G.passed media.now.gate.now)
        (⟦<Devices<'static, 'static, 'static, 'static, N, P, K, T> as Tells>⟧.outside devices.old devices.new)
        result.status result.counts result.totals }
    ensures took { result.status ≡ Status.Ok → (n : ℕ) → n ≤ due_in prepared.room.threads.items → n < 2 ^ 64 → n ≤ result.totals.taken }
{
    let Prepared {
        server,
        hand,
        desk,
        room,
    } = prepared;
    let mut control = ControlLoop {
        alloc,
        settings: *settings,
        hand: Some(hand),
        desk,
        looped: Looped::not_begun(),
    };
    control.work(rt, &server, media, devices);
    let ControlLoop {
        alloc: _,
        settings: _,
        hand,
        mut desk,
        mut looped,
    } = control;
    let Some(mut hand) = hand else { unreachable!() };
    let relaying = Relaying {
        turns: server.turns(),
        media,
    };
    relay_due(rt, &relaying, &mut hand, room, settings, &mut looped);
    server.stop(rt, &mut hand, &mut desk, devices.ports);
    close_table(server, hand);
    looped
}
