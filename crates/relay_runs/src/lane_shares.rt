//! The main hand shares out hands of the table to the lanes of all threads of media, and takes them in again.
ghost use Rattle.std.specs.Prelude.{◌≡◌, ◌+◌, ◌*◌, ◌<◌, ◌≤◌, ◌++◌, [], All, IfOk, Some, length, vec_capacity, slice_index_or};
ghost use Rattle.std.specs.List.Sorted.{IsPermutation};
ghost use Rattle.turn_table.specs.Hands.{IsHandOf, HasNoTurn, view, starts, entries, parts};
ghost use Rattle.board_turns.specs.Between.{IsBetween};
ghost use Rattle.relay_runs.specs.Rounds.{all_of, lane_count};
ghost use Rattle.relay_runs.specs.Threads.{AreNumbers, AreInOrder, MayJoin, IsFreshLane, IsRoomFor, AddsEach, AddsLane, HasLaneRoom, HasRoomForLanes, JoinsInOrder, all_lanes, due_in, numbers_of, pairs_of_lane, rows_each};
ghost use Rattle.relay_runs.specs.declared.lane_shares.Due.{Due};

use crate::lanes::OwnLane;
use crate::media_thread::{MediaThread, Until};
use crate::totals::no_totals;
use media_lane::{LaneHand, Rooms, Totals};
use relay_core::{Happening, Part, Relay};
use relay_outside::{Config, InEnd, LaneShare, OutEnd, OutOfMemory};
use std::alloc::Global;
use turn_table::{Hand, Machine, Turns};

/// The datagrams of a run of which it is known how many come.
#[derive(Clone, Copy)]
pub(crate) struct Due {
    /// To how many pairs they come: those with the least numbers.
    pub(crate) pairs: u32,
    /// How many come to each.
    pub(crate) packets: u32,
}

impl Due {
    /// How many of them come to the pairs of the lane with this index, of so many lanes.
    fn of_lane(self, index: u32, lanes: u32) -> u64
        requires { index < lanes }
        ensures { result ≡ pairs_of_lane self.pairs lanes index * self.packets }
    {
        if index >= self.pairs {
            return 0;
        }
        let pairs = (self.pairs - 1 - index) / lanes + 1;
        u64::from(pairs) * u64::from(self.packets)
    }
}

impl Until {
    /// How long the thread with this number, of so many threads with one lane each, relays: where it is known how many datagrams come, until its lane
    /// took those that come to that.
    fn of_thread(due: Option<Due>, number: u32, threads: u32) -> Until
        requires { number < threads }
        ensures { (all : Due) → due ≡ Some all → result ≡ Until.Taken (pairs_of_lane all.pairs threads number * all.packets) }
    {
        match due {
            Some(due) => Until::Taken(due.of_lane(number, threads)),
            None => Until::Halted,
        }
    }
}

/// Which lanes each of so many threads of `serve` has; none, where the main hand relays media.
pub(crate) fn serve_share(config: &Config, threads: u32) -> LaneShare
    ensures threads { result.threads ≡ threads }
    ensures lanes { result.lanes ≡ lane_count config.now threads }
{
    if threads == 0 {
        return LaneShare::one_each(0);
    }
    LaneShare::of_pairs(threads, config.pairs())
}

/// Threads of media before they have lanes, and room for those.
#[derive(Drop)]
pub(crate) struct LaneRoom<I: InEnd, O: OutEnd>
where
    Relay<I, O>: Machine<State = Part<I, O>, Event = Happening, Outcome = ()>,
{
    /// The threads, each without a lane and with room for them.
    pub(crate) threads: Vec<MediaThread<I, O>>,
    /// An empty list with room for the lanes of all threads.
    pub(crate) lanes: Vec<OwnLane<I, O>>,
}

impl<I: InEnd, O: OutEnd> LaneRoom<I, O> {
    /// The room of this share. Where it is known how many datagrams come, each thread has one lane, and knows how many come to that.
    pub(crate) fn reserve(
        alloc: Global,
        share: LaneShare,
        due: Option<Due>,
    ) -> Result<LaneRoom<I, O>, OutOfMemory>
        ensures room { IfOk result (λ room. IsRoomFor share.threads share.lanes room) }
        ensures due { (all : Due) → due ≡ Some all → 0 < share.threads → IfOk result (λ room. due_in room.threads.items ≡ all.pairs * all.packets) }
    {
        Ok(LaneRoom {
            threads: thread_room(alloc, share, due)?,
            lanes: Vec::with_capacity(alloc, share.lanes as usize)?,
        })
    }
}

/// The threads of this share, each without a lane and with room for them. Where it is known how many datagrams come, each has one lane, and knows how
/// many come to that.
fn thread_room<I: InEnd, O: OutEnd>(
    alloc: Global,
    share: LaneShare,
    due: Option<Due>,
) -> Result<Vec<MediaThread<I, O>>, OutOfMemory>
    ensures as_many { IfOk result (λ room. length room.items ≡ share.threads) }
    ensures room { IfOk result (λ room. All (λ thread. HasRoomForLanes share.lanes thread) room.items) }
    ensures due { (all : Due) → due ≡ Some all → 0 < share.threads → IfOk result (λ room. due_in room.items ≡ all.pairs * all.packets) }
{
    let mut threads = Vec::with_capacity(alloc, share.threads as usize)?;
    for number in 0..share.threads {
        let lanes = Vec::with_capacity(alloc, share.lanes as usize)?;
        threads.push_reserved(MediaThread {
            lanes,
            number,
            share,
            until: Until::of_thread(due, number, share.threads),
            rooms: Rooms::new(),
        });
    }
    Ok(threads)
}

/// Adds a lane to the thread at this place, which has room for it.
fn add_lane<I: InEnd, O: OutEnd>(
    threads: &mut Vec<MediaThread<I, O>>,
    at: usize,
    own: OwnLane<I, O>,
)
    requires at { at < length threads.old.items }
    requires room { (d : _) → length (slice_index_or threads.old.items at d).lanes.items < vec_capacity (slice_index_or threads.old.items at d).lanes }
    ensures { AddsLane at own threads.old.items threads.new.items }
{
    threads[at].lanes.push_reserved(own);
}

/// Makes all lanes of these threads: each has a part of the main hand, and is of the thread that the share says.
pub(crate) fn make_lanes<I: InEnd, O: OutEnd>(
    turns: &Turns<Relay<I, O>>,
    hand: &mut Hand<Relay<I, O>>,
    threads: &mut Vec<MediaThread<I, O>>,
    share: LaneShare,
    config: &Config,
)
    requires some { 0 < share.lanes → 0 < length threads.old.items }
    requires room { All (λ thread. HasRoomForLanes share.lanes thread) threads.old.items }
    requires between { IsBetween config.now turns.now hand.old }
    requires parts { share.lanes < parts hand.old }
    ensures as_many { length threads.new.items ≡ length threads.old.items }
    ensures fresh { All (λ thread. All (λ own. IsFreshLane config.now turns.now share.lanes own) thread.lanes.items) threads.new.items }
    ensures once { AreNumbers share.lanes (numbers_of (all_lanes threads.new.items)) }
    ensures count { length (all_lanes threads.new.items) ≡ share.lanes }
    ensures parts { parts hand.new + length (all_lanes threads.new.items) ≡ parts hand.old }
    ensures list { entries hand.new ≡ entries hand.old }
    ensures between { IsBetween config.now turns.now hand.new }
    ensures due { due_in threads.new.items ≡ due_in threads.old.items }
{
    for index in 0..share.lanes {
        let part = turns.split_hand(hand);
        let own = OwnLane {
            lane: LaneHand::new(part, index, share.lanes, config),
            totals: no_totals(),
        };
        let at = (share.thread_of(index) as usize).min(threads.len() - 1);
        add_lane(threads, at, own);
    }
}

/// Joins the hands of these lanes to the main one, in their order, and adds what came of their packets.
fn join_lanes<I: InEnd, O: OutEnd>(
    turns: &Turns<Relay<I, O>>,
    hand: &mut Hand<Relay<I, O>>,
    lanes: Vec<OwnLane<I, O>>,
    totals: &mut Totals,
)
    requires table { IsHandOf turns.now hand.old }
    requires idle { HasNoTurn hand.old }
    requires others { All (λ own. MayJoin turns.now own) lanes.items }
    ensures table { IsHandOf turns.now hand.new }
    ensures idle { HasNoTurn hand.new }
    ensures starts { starts hand.new ≡ starts hand.old }
    ensures main { (view hand.new).main ≡ (view hand.old).main }
    ensures parts { parts hand.new ≡ parts hand.old + length lanes.items }
    ensures list { entries hand.new ≡ entries hand.old ++ all_of (rows_each lanes.items) }
    ensures totals { AddsEach lanes.items totals.old totals.new }
{
    let mut lanes = lanes;
    lanes.reverse();
    while let Some(own) = lanes.pop() {
        let OwnLane { lane, totals: more } = own;
        turns.join_hand(hand, lane.into_hand());
        totals.add(more);
    }
}

/// All lanes of these threads, in a list that is empty and has room for them.
fn gather_lanes<I: InEnd, O: OutEnd>(
    threads: Vec<MediaThread<I, O>>,
    room: Vec<OwnLane<I, O>>,
) -> Vec<OwnLane<I, O>>
    requires room { HasLaneRoom (length (all_lanes threads.items)) room }
    ensures { result.items ≡ all_lanes threads.items }
{
    let mut threads = threads;
    let mut lanes = room;
    threads.reverse();
    while let Some(thread) = threads.pop() {
        let MediaThread { lanes: mut own, .. } = thread;
        let Ok(()) = lanes.append(&mut own) else {
            unreachable!()
        };
    }
    lanes
}

/// These lanes, whose numbers are those below their count, in the order of the numbers.
fn put_in_order<I: InEnd, O: OutEnd>(lanes: &mut Vec<OwnLane<I, O>>)
    requires once { AreNumbers (length lanes.old.items) (numbers_of lanes.old.items) }
    ensures are { IsPermutation lanes.old.items lanes.new.items }
    ensures in_order { AreInOrder lanes.new.items }
{
    lanes.sort_unstable_by_key(|own| own.lane.index());
}

/// Joins the hands of all lanes of these threads to the main one, in the order of the lanes' numbers, and adds what came of their packets. The list is
/// empty and has room for all lanes.
pub(crate) fn join_threads<I: InEnd, O: OutEnd>(
    turns: &Turns<Relay<I, O>>,
    hand: &mut Hand<Relay<I, O>>,
    threads: Vec<MediaThread<I, O>>,
    room: Vec<OwnLane<I, O>>,
    totals: &mut Totals,
)
    requires table { IsHandOf turns.now hand.old }
    requires idle { HasNoTurn hand.old }
    requires others { All (λ own. MayJoin turns.now own) (all_lanes threads.items) }
    requires once { AreNumbers (length (all_lanes threads.items)) (numbers_of (all_lanes threads.items)) }
    requires room { HasLaneRoom (length (all_lanes threads.items)) room }
    ensures table { IsHandOf turns.now hand.new }
    ensures idle { HasNoTurn hand.new }
    ensures starts { starts hand.new ≡ starts hand.old }
    ensures main { (view hand.new).main ≡ (view hand.old).main }
    ensures parts { parts hand.new ≡ parts hand.old + length (all_lanes threads.items) }
    ensures joins { JoinsInOrder threads.items hand.old hand.new totals.old totals.new }
{
    let mut lanes = gather_lanes(threads, room);
    put_in_order(&mut lanes);
    join_lanes(turns, hand, lanes, totals);
}
