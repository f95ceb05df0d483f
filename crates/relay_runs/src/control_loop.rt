//! The control turns of a run, with its ticks, and with its sweeps where no thread relays media, and its end: the stop of all calls and the close of the table.
ghost use Rattle.std.specs.Prelude.{◌≡◌, ◌≤◌, ◌<◌, ◌^◌, ℕ, List, [], map, Option, None, Some, IfSome, unwrap_or, if◌then◌else◌};
ghost use Rattle.relay_outside.specs.DeviceLogs.{Gained, Rose};
ghost use Rattle.turn_table.specs.Hands.{IsHandOf, HasNoTurn, IsSameHand, parts, starts, entries};
ghost use Rattle.relay_core.specs.Entries.{Entry};
ghost use Rattle.relay_core.specs.Legal.{Legal};
ghost use Rattle.relay_core.specs.Safe.{Safe};
ghost use Rattle.relay_core.specs.FirstPlaces.{AreParts};
ghost use Rattle.relay_core.specs.Joins.{IsSound};
ghost use Rattle.relay_core.specs.Records.{as_logged};
ghost use Rattle.relay_core.specs.RowMoments.{AreTimed};
ghost use Rattle.relay_core.specs.EndLogs.{InOrder, InsAreTold, OutsAreTold};
ghost use Rattle.relay_core.specs.Turns.{made_by};
ghost use Rattle.media_lane.specs.declared.answers.Totals.{Totals};
ghost use Rattle.media_lane.specs.Gates.{AreGated, GainsGated};
ghost use Rattle.media_ports.specs.Openings.{NoneOpened};
ghost use Rattle.media_ports.specs.OpenPorts.{LogsHeld};
ghost use Rattle.board_turns.specs.Between.{IsBetween};
ghost use Rattle.board_turns.specs.Ties.{PortsFollowRows};
ghost use Rattle.media_lane.specs.Totals.{HasTotals};
ghost use Rattle.ng_server.specs.Servers.{OpensJust, history_of};
ghost use Rattle.relay_runs.specs.Devices.{AreSame};
ghost use Rattle.relay_runs.specs.Rounds.{status_after, is_second_later, lane_count};
ghost use Rattle.relay_runs.specs.Preparations.{IsPreparedRun};
ghost use Rattle.relay_runs.specs.ServeRuns.{DidServe};
ghost use Rattle.relay_runs.specs.RunStates.{AddsSweep, TicksWhenDue, DidTurns, CanWork, DidWork, IsLoopEnd};

use crate::devices::{Devices, Tells};
use crate::lane_shares::{LaneRoom, join_threads, make_lanes, serve_share};
use crate::parallel_work::{ControlWork, Relaying, run_beside};
use crate::prepared::Prepared;
use crate::status::Status;
use crate::totals::{Counts, no_totals};
use command_line::Settings;
use media_lane::{Media, Totals, sweep_between};
use ng_server::{ControlTurn, Desk, Server};
use relay_core::{Happening, Part, Relay};
use relay_outside::{Clock, ControlLink, Gate, InEnd, KeySource, OutEnd, PortMaker, Timer};
use std::alloc::Global;
use std::sync::Wait;
use std::thread::Threads;
use turn_table::{Hand, Machine};

/// How the control turns of a run ended, and what was counted.
#[derive(Clone, Copy)]
pub(crate) struct Looped {
    /// How they ended.
    pub(crate) status: Status,
    /// What they took and sent.
    pub(crate) counts: Counts,
    /// What came of the packets that were taken.
    pub(crate) totals: Totals,
}

impl Looped {
    /// Nothing was done yet: a run that makes no control turn has spent its turns.
    pub(crate) fn not_begun() -> Looped {
        Looped {
            status: Status::TurnsSpent,
            counts: Counts {
                turns: 0,
                datagrams: 0,
                replies: 0,
            },
            totals: no_totals(),
        }
    }
}

/// The status with which a run ends after this control turn; `None` where it goes on.
fn find_status(turn: ControlTurn) -> Option<Status>
    ensures answer { result ≡ status_after turn }
    ensures ends { IfSome result IsLoopEnd }
    ensures fault { result ≡ Some Status.ControlFault → turn ≡ ControlTurn.ReadFault }
{
    match turn {
        ControlTurn::End => Some(Status::Ok),
        ControlTurn::ReadFault => Some(Status::ControlFault),
        ControlTurn::Replied
        | ControlTurn::ReplyFault
        | ControlTurn::Silent
        | ControlTurn::Nothing => None,
    }
}

/// How long the main hand waits for a hint at most, where no thread relays media, in milliseconds.
const WAIT_MILLIS: u32 = 200;

/// Sweeps once by the main hand of a server with these settings, where no thread relays media, when the clock hints that a datagram stands somewhere or a
/// fifth of a second has gone by.
fn sweep_alone<P: PortMaker, C: Clock, G: Gate, R: Wait>(
    rt: &R,
    settings: &Settings,
    server: &Server<P>,
    hand: Hand<Relay<P::In, P::Out>>,
    media: &Media<'_, '_, C, G>,
    totals: &mut Totals,
) -> Hand<Relay<P::In, P::Out>>
    requires config { server.now.config ≡ settings.now.config }
    requires between { IsBetween server.now.config server.now.turns hand }
    ensures same { IsSameHand hand result }
    ensures between { IsBetween server.now.config server.now.turns result }
    ensures history { history_of result ≡ history_of hand }
    ensures swept { AddsSweep server.now.config settings.now.threads (C.range media.now.clock.now) (entries hand) (entries result) }
    ensures gated { GainsGated (G.passed media.now.gate.now) (made_by hand) (made_by result) }
    ensures totals { HasTotals (made_by hand) totals.old → HasTotals (made_by result) totals.new }
{
    if settings.threads > 0 {
        return hand;
    }
    media.clock.ready(0, WAIT_MILLIS, &mut [0]);
    sweep_between(
        rt,
        server.turns(),
        hand,
        &settings.config,
        media.gate,
        media.clock,
        totals,
    )
}

/// How many milliseconds after a tick the next one is due.
const SECOND_MS: u64 = 1_000;

/// The second at whose end a tick is due, at a control turn.
#[derive(Clone, Copy)]
struct Second {
    /// The moment from which it counts: that of the last tick, or of the first control turn, where there was none yet.
    since: Option<u64>,
    /// The moment of the control turn.
    now: u64,
}

impl Second {
    /// Whether it is over.
    fn is_over(self) -> bool
        ensures { result ≡ is_second_later self.since self.now }
    {
        match self.since {
            Some(then) => self.now.saturating_sub(then) >= SECOND_MS,
            None => false,
        }
    }
}

/// Makes a tick at the control turn's moment if the second is over. Returns the moment from which the next second counts.
fn tick_when_due<P: PortMaker, R: Wait>(
    rt: &R,
    server: &Server<P>,
    hand: &mut Hand<Relay<P::In, P::Out>>,
    desk: &mut Desk<P::Out>,
    ports: &mut P,
    second: Second,
) -> u64
    requires between { IsBetween server.now.config server.now.turns hand.old }
    requires open { OpensJust server.now.config (history_of hand.old) (P.log ports.old) }
    ensures same { IsSameHand hand.old hand.new }
    ensures between { IsBetween server.now.config server.now.turns hand.new }
    ensures open { OpensJust server.now.config (history_of hand.new) (P.log ports.new) }
    ensures ticks { TicksWhenDue server.now.config hand.old hand.new second.since second.now }
    ensures since { result ≡ (if is_second_later second.since second.now then second.now else unwrap_or second.since second.now) }
    ensures totals { (totals : Totals) → HasTotals (made_by hand.old) totals → HasTotals (made_by hand.new) totals }
    ensures closes { Gained (P.log ports.old) (P.log ports.new) NoneOpened }
    ensures ties { PortsFollowRows server.now.config (P.log ports.old) (P.log ports.new) (entries hand.old) (entries hand.new) }
    ensures later { P.faults ports.old ≤ P.faults ports.new }
{
    let Second { since, now } = second;
    if !second.is_over() {
        return since.unwrap_or(now);
    }
    server.timer_turn(rt, hand, desk, ports, now);
    now
}

/// The control loop of a run: what it is told, the main hand, the memory of a control turn, and how it ended.
pub(crate) struct ControlLoop<I: InEnd, O: OutEnd>
where
    Relay<I, O>: Machine<State = Part<I, O>, Event = Happening, Outcome = ()>,
{
    pub(crate) alloc: Global,
    pub(crate) settings: Settings,
    /// It stands here before and after the loop.
    pub(crate) hand: Option<Hand<Relay<I, O>>>,
    pub(crate) desk: Desk<O>,
    pub(crate) looped: Looped,
}

impl<N, P, K, T, C, G, I, O> ControlWork<
    Server<P>,
    Media<'_, '_, C, G>,
    Devices<'_, '_, '_, '_, N, P, K, T>,
> for ControlLoop<I, O>
where
    N: ControlLink,
    P: PortMaker<In = I, Out = O>,
    K: KeySource,
    T: Timer,
    C: Clock,
    G: Gate,
    I: InEnd,
    O: OutEnd,
{
    ghost can_work = { λ control server devices. CanWork control.settings server.config server.turns (P.log devices.ports.now) control.hand };

    ghost did = { λ server media old devices new devices_now. AreSame devices devices_now
        × DidWork old.settings server.config server.turns (C.range media.clock.now) (G.passed media.gate.now)
        (⟦<Devices<'static, 'static, 'static, 'static, N, P, K, T> as Tells>⟧.outside devices devices_now)
        (N.faults devices.link.now) (N.faults devices_now.link.now) old.hand new.hand new.looped };

    /// Makes control turns until the link gives no more, a take fails, or as many takes as the settings say gave a datagram or nothing. The
    /// timer is asked once before each. Where no thread relays media, a sweep of it follows each turn after which the run goes on. About once a
    /// second a tick, at the turn's moment, follows that.
    fn work<W: Wait>(
        &mut self,
        rt: &W,
        server: &Server<P>,
        media: &Media<'_, '_, C, G>,
        devices: &mut Devices<'_, '_, '_, '_, N, P, K, T>,
    ) {
        let Some(mut hand) = self.hand.take() else {
            unreachable!()
        };
        let alloc = self.alloc;
        let settings = &self.settings;
        let desk = &mut self.desk;
        let mut totals = no_totals();
        let mut counts = Counts {
            turns: 0,
            datagrams: 0,
            replies: 0,
        };
        let mut since = None;
        'turns: while counts.turns < settings.turns {
            let now = devices.timer.now();
            let turn = server.control_turn(
                rt,
                alloc,
                &mut hand,
                desk,
                devices.link,
                devices.ports,
                devices.keys,
                now,
            );
            counts = counts.with(turn);
            if let Some(status) = find_status(turn) {
                self.looped = Looped {
                    status,
                    counts,
                    totals,
                };
                self.hand = Some(hand);
                return;
            }
            hand = sweep_alone(rt, settings, server, hand, media, &mut totals);
            let second = Second { since, now };
            let next = tick_when_due(rt, server, &mut hand, desk, devices.ports, second);
            since = Some(next);
        }
        let looped = Looped {
            status: Status::TurnsSpent,
            counts,
            totals,
        };
        self.looped = looped;
        self.hand = Some(hand);
    }
}

/// Closes the table of a server by a hand that has all parts, and lets go what its places hold.
pub(crate) fn close_table<P: PortMaker>(server: Server<P>, hand: Hand<Relay<P::In, P::Out>>)
where
    P::In: Drop,
    P::Out: Drop,
    requires table { IsHandOf server.turns hand }
    requires all { parts hand ≡ 1024 }
    requires idle { HasNoTurn hand }
    requires starts { AreParts server.config (starts hand) }
    requires sound { IsSound server.config (entries hand) }
    ensures legal { (l : List Entry) × (map as_logged l ≡ made_by hand) × Legal server.config l × Safe server.config l × OutsAreTold (entries hand) l }
    ensures ins { InOrder (made_by hand) → InsAreTold server.config (entries hand) }
    ensures timed { AreTimed (entries hand) }
{
    drop(server.close(hand));
}

/// Serves with a server that has taken no turn yet: its control turns, with as many threads of media beside them as the settings say, then one more
/// sweep of all pairs by the main hand, which has taken in the hands of all lanes by then, the stop, which ends all calls, and the close of its table. Where no
/// thread relays media, a sweep stands after each control turn too.
pub(crate) fn serve_turns<N, P, K, T, C, G, R>(
    rt: &R,
    alloc: Global,
    settings: &Settings,
    prepared: Prepared<P>,
    devices: &mut Devices<'_, '_, '_, '_, N, P, K, T>,
    media: &Media<'_, '_, C, G>,
) -> Looped
where
    N: ControlLink,
    P: PortMaker,
    P::In: Send + Drop,
    P::Out: Send + Drop,
    K: KeySource,
    T: Timer,
    C: Clock + Sync,
    G: Gate + Sync,
    R: Threads + Wait + Sync,
    requires limit { settings.now.turns < 2 ^ 63 }
    requires threads { settings.now.threads ≤ 16 }
    requires prepared { IsPreparedRun settings.now.config settings.now.threads (lane_count settings.now.config settings.now.threads) prepared }
    requires open { LogsHeld prepared.server.config (P.log devices.old.ports.now) [] }
    ensures same { AreSame devices.old devices.new }
    ensures did { DidServe [] settings.now.turns prepared.server.config settings.now.threads (C.range media.now.clock.now) (G.passed media.now.gate.now)
        (⟦<Devices<'static, 'static, 'static, 'static, N, P, K, T> as Tells>⟧.outside devices.old devices.new)
        result.status result.counts result.totals }
    ensures shut { LogsHeld prepared.server.config (P.log devices.new.ports.now) [] }
    ensures later { ⟦<Devices<'static, 'static, 'static, 'static, N, P, K, T> as Tells>⟧.later devices.old devices.new }
    ensures cause { result.status ≡ Status.ControlFault → Rose (N.faults devices.old.link.now) (N.faults devices.new.link.now) }
    ensures ends { IsLoopEnd result.status }
{
    let Prepared {
        server,
        mut hand,
        desk,
        room: LaneRoom { mut threads, lanes },
    } = prepared;
    let share = serve_share(&settings.config, settings.threads);
    make_lanes(
        server.turns(),
        &mut hand,
        &mut threads,
        share,
        &settings.config,
    );
    let mut control = ControlLoop {
        alloc,
        settings: *settings,
        hand: Some(hand),
        desk,
        looped: Looped::not_begun(),
    };
    let relaying = Relaying {
        turns: server.turns(),
        media,
    };
    run_beside(rt, &server, &relaying, devices, &mut control, &mut threads);
    let ControlLoop {
        alloc: _,
        settings: _,
        hand,
        mut desk,
        looped,
    } = control;
    let Some(mut hand) = hand else { unreachable!() };
    let Looped {
        status,
        counts,
        mut totals,
    } = looped;
    join_threads(server.turns(), &mut hand, threads, lanes, &mut totals);
    server.turns().survey(&mut hand);
    let mut hand = sweep_between(
        rt,
        server.turns(),
        hand,
        &settings.config,
        media.gate,
        media.clock,
        &mut totals,
    );
    server.stop(rt, &mut hand, &mut desk, devices.ports);
    close_table(server, hand);
    Looped {
        status,
        counts,
        totals,
    }
}
