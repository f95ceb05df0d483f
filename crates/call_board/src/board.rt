//! The board.

ghost use Rattle.call_board.specs.CallNumbers.{AreBelow, AreBelow-prop};

use crate::live_call::LiveCall;
use crate::live_calls::LiveCalls;
use cookie_cache::CookieCache;
use indexmap::IndexMap;
use ng_bencode::Text;
use offer_answer::Dialog;
use port_pool::{Lease, Pool, Side};
use relay_outside::{Addr, Config, Family, OutOfMemory};
use sdp_text::Proto;
use std::alloc::Global;

/// The board: the live calls in order of creation, the port pairs, the kept replies, and how many keys were drawn.
///
/// Contracts see what it keeps of the history of control datagrams, ticks and stops: each call says what it changes of that.
#[derive(Drop)]
pub struct Board {
    /// What the relay is run with.
    pub(crate) config: Config,
    /// The greatest moment so far, in milliseconds.
    pub(crate) moment: u64,
    /// How many calls were begun: the number of the next one.
    pub(crate) begun: u64,
    /// How many keys were drawn: the number of the next one.
    pub(crate) drawn: u64,
    /// The live calls, in order of creation.
    pub(crate) calls: LiveCalls,
    /// For each cell, from 1, whether a live call has it.
    pub(crate) taken: Vec<bool>,
    /// The port pairs.
    pub(crate) pool: Pool,
    /// The kept replies.
    pub(crate) replies: CookieCache,
    ghost numbers: { AreBelow 0 calls.list begun } by { AreBelow-prop 0 calls.list begun },
}

impl Board {
    ghost use Rattle.std.specs.Prelude.{◌≡◌, ◌<◌, ◌+◌, ◌^◌, ℕ, [], ◌∷◌, false, max, map, length, Some, None, IfOk, MatchOption, OnOk, slice_get, option_map, position, ◌==◌};
    ghost use Rattle.relay_outside.specs.declared.settings.Config.{Config};
    ghost use Rattle.cookie_cache.specs.Keepings.{IsCookie};
    ghost use Rattle.cookie_cache.specs.Keepings as keepings;
    ghost use Rattle.cookie_cache.specs.Caches.{HasSparePlace};
    ghost use Rattle.indexmap.specs.IndexMap.{keys, values};
    ghost use Rattle.histories.specs.Words.{has};
    ghost use Rattle.port_pool.specs.Ports.{pairs_of_family};
    ghost use Rattle.port_pool.specs.Pools.{generation, free_pairs, family_in};
    ghost use Rattle.offer_answer.specs.Dialogs.{DialogFor};
    ghost use Rattle.offer_answer.specs.Plan as plan;
    ghost use Rattle.call_board.specs.Views.{View, CallView, view_at_moment, with_keeping, one_drawn, with_returned, without_call, call_of_id, call_numbered};
    ghost use Rattle.call_board.specs.Boards.{BoardMatches, CallMatches, CallsFor, BoardFor, IsLive, KeepsCalls, KeepsReplies};
    ghost use Rattle.call_board.specs.Shapes.{LiveShape, IsFreshShape, board_shape, live_numbered, shape_numbered, shape_with_draw, shape_returned};

    /// The board before the first datagram, with memory for all pairs of the configuration.
    pub fn new(alloc: Global, config: &Config) -> Result<Board, OutOfMemory>
        ensures stands { IfOk result (λ board. BoardFor config.now board []) }
        ensures shape { IfOk result (λ board. IsFreshShape config.now (board_shape board)) }
    {
        let pool = Pool::new(
            alloc,
            config.port_min,
            config.port_max,
            config.interface6.is_some(),
        )?;
        let replies = CookieCache::new(alloc)?;
        let taken = Vec::from_elem(alloc, false, config.max_sessions as usize)?;
        Ok(Board {
            config: *config,
            moment: 0,
            begun: 0,
            drawn: 0,
            calls: LiveCalls::new(alloc),
            taken,
            pool,
            replies,
        })
    }

    /// Raises the board's last moment to `now`, in milliseconds, if that is greater, and returns it.
    pub fn advance(&mut self, now: u64) -> u64
        ensures moment { (config : Config) (v : View) → BoardMatches config self.old v → BoardMatches config self.new (view_at_moment v now) × (result ≡ max now v.moment) }
        ensures calls { KeepsCalls self.old self.new }
        ensures replies { KeepsReplies self.old self.new }
        ensures shape { board_shape self.new ≡ board_shape self.old }
    {
        self.moment = self.moment.max(now);
        self.moment
    }

    /// The reply that is kept for this source and cookie, which has 1 to 255 bytes, at the moment `now`, in milliseconds. `None`: none is.
    pub fn find_reply(&self, source: Addr, cookie: &[u8], now: u64) -> Option<&[u8]>
        requires { IsCookie cookie.now }
        ensures { (config : Config) (v : View) → BoardMatches config self.now v →
            MatchOption result
            (keepings.kept v.keepings source cookie.now (keepings.moment_used v.keepings now) ≡ None)
            (λ reply. keepings.kept v.keepings source cookie.now (keepings.moment_used v.keepings now) ≡ Some reply.now) }
    {
        self.replies.find(source, cookie, now)
    }

    /// Makes room for the one reply that `keep_reply` keeps. Nothing else changes, also when it fails.
    pub fn reserve_reply(&mut self) -> Result<(), OutOfMemory>
        ensures shows { (config : Config) (v : View) → BoardMatches config self.old v → BoardMatches config self.new v }
        ensures place { OnOk result (HasSparePlace self.new.replies) }
        ensures calls { KeepsCalls self.old self.new }
        ensures pool { self.new.pool ≡ self.old.pool }
        ensures shape { board_shape self.new ≡ board_shape self.old }
    {
        self.replies.reserve()
    }

    /// Keeps the reply to a command from this source with this cookie, which has 1 to 255 bytes, in the room that
    /// `reserve_reply` made.
    pub fn keep_reply(&mut self, source: Addr, cookie: Text, reply: Text, now: u64)
        requires cookie { IsCookie cookie.list }
        requires place { HasSparePlace self.old.replies }
        ensures calls { KeepsCalls self.old self.new }
        ensures kept { (config : Config) (v : View) → BoardMatches config self.old v →
            BoardMatches config self.new (with_keeping v (record { source = source; cookie = cookie.list; reply = reply.list; moment = keepings.moment_used v.keepings now })) }
        ensures shape { board_shape self.new ≡ board_shape self.old }
    {
        self.replies.keep(source, cookie, reply, now);
    }

    /// The number that the next drawn key has, from 0.
    pub fn next_key(&self) -> u64
        ensures drawn { (config : Config) (v : View) → BoardMatches config self.now v → result ≡ v.drawn }
        ensures shape { result ≡ (board_shape self.now).drawn }
    {
        self.drawn
    }

    /// Numbers a drawn key, from 0. Fewer than 2^63 keys were drawn before.
    pub fn count_draw(&mut self) -> u64
        requires { self.old.drawn < 2 ^ 63 }
        ensures drawn { (config : Config) (v : View) → BoardMatches config self.old v → BoardMatches config self.new (one_drawn v) × (result ≡ v.drawn) }
        ensures calls { KeepsCalls self.old self.new }
        ensures replies { KeepsReplies self.old self.new }
        ensures shape { (board_shape self.new ≡ shape_with_draw (board_shape self.old)) × (result ≡ (board_shape self.old).drawn) }
    {
        let number = self.drawn;
        self.drawn += 1;
        number
    }

    /// The number of the live call with this call-id. `None`: no live call has it.
    pub fn find_call(&self, call_id: &[u8]) -> Option<u64>
        ensures { (config : Config) (v : View) → BoardMatches config self.now v →
            result ≡ option_map (λ (c : CallView). c.of.number) (call_of_id v call_id.now) }
    {
        let Some(place) = self.calls.place_of_id(call_id) else {
            return None;
        };
        Some(self.calls.at(place).number)
    }

    /// Takes a lease back: its pair waits after all others of its family that are free. It takes no memory. The lease is the last one of
    /// a pair of the board's that isn't free.
    pub fn give_back(&mut self, lease: Lease)
        requires of_pool { lease.pair < length self.old.pool.generations }
        requires not_free { has (free_pairs self.old.pool (family_in self.old.pool lease.pair)) lease.pair ≡ false }
        requires last { generation self.old.pool lease.pair ≡ lease.generation }
        ensures returned { (config : Config) (v : View) → BoardMatches config self.old v → BoardMatches config self.new (with_returned v (lease.pair ∷ [])) }
        ensures calls { KeepsCalls self.old self.new }
        ensures replies { KeepsReplies self.old self.new }
        ensures shape { board_shape self.new ≡ shape_returned lease.pair (board_shape self.old) }
    {
        self.pool.give_back(lease);
    }

    /// How many pairs of a family are free.
    pub fn free_count(&self, family: Family) -> usize
        ensures { (config : Config) (v : View) → BoardMatches config self.now v → result ≡ length (pairs_of_family config v.free family) }
    {
        self.pool.free_count(family)
    }

    /// The live calls, each under the bytes of its call-id, in order of creation.
    pub fn calls(&self) -> &IndexMap<Vec<u8>, LiveCall>
        ensures keys { (config : Config) (v : View) → BoardMatches config self.now v → map (λ key. key.items) (keys result.now) ≡ map (λ (c : CallView). c.of.id) v.calls }
        ensures calls { (config : Config) (v : View) → BoardMatches config self.now v → CallsFor config (values result.now) v.calls }
    {
        self.calls.by_id()
    }

    /// How many calls are live.
    pub fn live_count(&self) -> usize
        ensures count { result ≡ length self.now.calls.list }
        ensures live { (config : Config) (v : View) → BoardMatches config self.now v → result ≡ length v.calls }
        ensures shape { result ≡ length (board_shape self.now).calls }
    {
        self.calls.len()
    }

    /// The number of a live call, by its place in the order of creation, from 0.
    pub fn call_at(&self, index: usize) -> u64
        requires { index < length self.now.calls.list }
        ensures live { (config : Config) (v : View) → BoardMatches config self.now v →
            slice_get (map (λ (c : CallView). c.of.number) v.calls) index ≡ Some result }
        ensures shape { option_map (λ (call : LiveShape). call.number) (slice_get (board_shape self.now).calls index) ≡ Some result }
    {
        self.calls.at(index).number
    }

    /// The cell of a live call, from 1, by the place of the call in the order of creation, from 0.
    pub fn cell_at(&self, index: usize) -> u32
        requires { index < length self.now.calls.list }
        ensures live { (config : Config) (v : View) → BoardMatches config self.now v →
            slice_get (map (λ (c : CallView). c.of.cell) v.calls) index ≡ Some result }
        ensures shape { option_map (λ (call : LiveShape). call.cell) (slice_get (board_shape self.now).calls index) ≡ Some result }
    {
        self.calls.at(index).cell
    }

    /// The call-id of a live call, by the place of the call in the order of creation, from 0.
    pub fn call_id_at(&self, index: usize) -> &[u8]
        requires { index < length self.now.calls.list }
        ensures { (config : Config) (v : View) → BoardMatches config self.now v →
            slice_get (map (λ (c : CallView). c.of.id) v.calls) index ≡ Some result.now }
    {
        self.calls.at(index).id.as_slice()
    }

    /// The place of a live call.
    pub(crate) fn place(&self, call: u64) -> usize
        requires { IsLive self.now call }
        ensures place { position (λ live. live.number == call) self.now.calls.list ≡ Some result }
        ensures within { result < length self.now.calls.list }
    {
        let Some(place) = self.calls.place_of(call) else {
            unreachable!();
        };
        place
    }

    /// A live call.
    pub(crate) fn live(&self, call: u64) -> &LiveCall
        requires { IsLive self.now call }
        ensures shown { (config : Config) (v : View) → BoardMatches config self.now v → CallMatches config v call result.now }
        ensures found { live_numbered self.now call ≡ Some result.now }
    {
        self.calls.at(self.place(call))
    }

    /// The cell of a live call, from 1.
    pub fn cell_of(&self, call: u64) -> u32
        requires { IsLive self.now call }
        ensures live { (config : Config) (v : View) → BoardMatches config self.now v → option_map (λ (c : CallView). c.of.cell) (call_numbered v call) ≡ Some result }
        ensures shape { option_map (λ (live : LiveShape). live.cell) (shape_numbered (board_shape self.now) call) ≡ Some result }
    {
        self.live(call).cell
    }

    /// The call-id of a live call.
    pub fn call_id(&self, call: u64) -> &[u8]
        requires { IsLive self.now call }
        ensures { (config : Config) (v : View) → BoardMatches config self.now v → option_map (λ (c : CallView). c.of.id) (call_numbered v call) ≡ Some result.now }
    {
        self.live(call).id.as_slice()
    }

    /// The tag of a side of a live call, where it has one.
    pub fn tag(&self, call: u64, side: Side) -> Option<&[u8]>
        requires { IsLive self.now call }
        ensures { (config : Config) (v : View) (c : CallView) → BoardMatches config self.now v → call_numbered v call ≡ Some c →
            MatchOption result (plan.tag c.rounds side ≡ None) (λ tag. plan.tag c.rounds side ≡ Some tag.now) }
    {
        self.live(call).dialog.tag(side)
    }

    /// The profile in force on the leg of a section, from 0, of a live call; `None` where the section isn't committed.
    pub fn protocol(&self, call: u64, section: usize, side: Side) -> Option<Proto>
        requires { IsLive self.now call }
        ensures { (config : Config) (v : View) (c : CallView) → BoardMatches config self.now v → call_numbered v call ≡ Some c →
            result ≡ plan.protocol c.rounds section side }
    {
        self.live(call).dialog.protocol(section, side)
    }

    /// The dialog of a live call: its tags, and what is in force in its sections.
    pub fn dialog(&self, call: u64) -> &Dialog
        requires { IsLive self.now call }
        ensures { (config : Config) (v : View) (c : CallView) → BoardMatches config self.now v → call_numbered v call ≡ Some c →
            DialogFor config result.now c.rounds }
    {
        &*self.live(call).dialog
    }

    /// The moments of the first and of the last accepted offer or answer of a live call, in milliseconds.
    pub fn moments(&self, call: u64) -> (u64, u64)
        requires { IsLive self.now call }
        ensures { (config : Config) (v : View) → BoardMatches config self.now v → option_map (λ (c : CallView). (c.first, c.last)) (call_numbered v call) ≡ Some result }
    {
        let live = self.live(call);
        (live.first_moment, live.last_moment)
    }
}
