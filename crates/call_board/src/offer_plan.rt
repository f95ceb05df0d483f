//! What the board plans for an offer.

ghost use Rattle.std.specs.Prelude.{◌≡◌, ◌≢◌, ◌+◌, ℕ, [], List, length, count_by, nat_lt, nat_le, Option, Some, None, Ok, Err, IfOk, IfSome, OnOk, not, map, position, unwrap_or, slice_index_or, ◌<◌, if◌then◌else◌};
ghost use Rattle.std.specs.Str.{bytes_eq};
ghost use Rattle.relay_outside.specs.declared.settings.Config.{Config};
ghost use Rattle.offer_answer.specs.Rounds.{Round, OfferAsk};
ghost use Rattle.offer_answer.specs.Widths.{WritesFrom};
ghost use Rattle.port_pool.specs.Ports.{family_eq};
ghost use Rattle.port_pool.specs.Pools.{free_pairs};
ghost use Rattle.offer_answer.specs.Offers.{AsksOffer, pairs_demanded, legs_demanded};
ghost use Rattle.call_board.specs.Calls.{lowest_but};
ghost use Rattle.call_board.specs.Pairs.{is_short, is_short_of};
ghost use Rattle.call_board.specs.Views.{View, CallView};
ghost use Rattle.call_board.specs.Boards.{BoardMatches, KeepsReplies};
ghost use Rattle.call_board.specs.Plans.{RoomFor, PlansOffer, PlansFor, HasRoomForPlan, NewFor, target_by};
ghost use Rattle.call_board.specs.Shapes.{board_shape, IsFreeCell, PlansOfferOf};

use crate::board::Board;
use crate::board_plan::{BoardPlan, NewCall};
use crate::fault::BoardFault;
use ng_bencode::Text;
use ng_command::OfferIn;
use offer_answer::{Dialog, Plan, offer};
use port_pool::Leases;
use relay_outside::{Family, OutOfMemory};
use sdp_text::Sdp;
use std::alloc::Global;

/// Room for the leases that a plan demands.
pub(crate) fn room_for(alloc: Global, plan: &Plan) -> Result<Option<Leases>, OutOfMemory>
    ensures { IfOk result (RoomFor (pairs_demanded plan.now)) }
{
    let leases = Leases::with_room(alloc, plan.pairs())?;
    Ok(Some(leases))
}

/// What is kept for a call of this call-id, which the side with this tag is to begin.
pub(crate) fn new_call(
    alloc: Global,
    call_id: &Text,
    from_tag: &Text,
) -> Result<NewCall, OutOfMemory>
    ensures { (config : Config) → IfOk result (NewFor config call_id.now.list from_tag.now.list) }
{
    let fresh = Dialog::new(alloc, from_tag)?;
    let dialog = Box::new(alloc, fresh)?;
    let Ok(id) = Text::copy_of(alloc, call_id.as_slice()) else {
        return Err(OutOfMemory);
    };
    let key = Vec::from_slice(alloc, id.as_slice())?;
    Ok(NewCall { id, key, dialog })
}

/// How many pairs of a family the plan demands.
fn pairs_of(plan: &Plan, family: Family) -> usize
    ensures { result ≡ count_by (λ leg. family_eq leg.family family) (legs_demanded plan.now) }
{
    let mut count = 0;
    for index in 0..plan.pairs() {
        if plan.pair_family(index) == family {
            count += 1;
        }
    }
    count
}

/// The place of the first cell that isn't taken.
fn first_free(taken: &[bool]) -> Option<usize>
    ensures place { result ≡ position not taken.now }
    ensures within { IfSome result (λ at. at < length taken.now) }
{
    taken.iter().position(|taken| !*taken)
}

/// The cell of a place, from 1, where there are this many cells. `None`: that is past the last of them.
fn cell_at(place: usize, count: u32) -> Option<u32>
    ensures { result ≡ (if nat_lt place count then Some (place + 1) else None) }
{
    if place < count as usize {
        Some(place as u32 + 1)
    } else {
        None
    }
}

impl Board {
    /// Whether fewer pairs of a family are free than the plan demands of it.
    fn lacks_pairs_of(&self, plan: &Plan, family: Family) -> bool
        ensures { result ≡ is_short_of (free_pairs self.now.pool) (legs_demanded plan.now) family }
    {
        self.pool.free_count(family) < pairs_of(plan, family)
    }

    /// Whether of some family fewer pairs are free than the plan demands.
    fn lacks_pairs(&self, plan: &Plan) -> bool
        ensures { result ≡ is_short (free_pairs self.now.pool) (legs_demanded plan.now) }
    {
        self.lacks_pairs_of(plan, Family::V4) || self.lacks_pairs_of(plan, Family::V6)
    }

    /// Whether as many calls are live as may be.
    fn is_full(&self) -> bool
        ensures { result ≡ nat_le self.now.config.max_sessions (length self.now.calls.list) }
    {
        self.config.max_sessions as usize <= self.calls.len()
    }

    /// The lowest cell that no live call has, from 1. `None`: each cell is taken.
    /// That one is free below the limit of sessions is proved of a board that stands for a history; of any other view an
    /// offer gets `SessionLimit`.
    fn lowest_cell(&self) -> Option<u32>
        ensures lowest { (config : Config) (v : View) → BoardMatches config self.now v → length v.calls < config.max_sessions →
            result ≡ Some (lowest_but (map (λ (c : CallView). c.of.cell) v.calls)) }
        ensures free { IfSome result (IsFreeCell self.now.config.max_sessions self.now.taken.items) }
    {
        let Some(place) = first_free(self.taken.as_slice()) else {
            return None;
        };
        cell_at(place, self.config.max_sessions)
    }

    /// The place of the live call with this call-id.
    pub(crate) fn place_of_call(&self, id: &Text) -> Option<usize>
        ensures place { result ≡ position (λ call. bytes_eq call.id.list id.now.list) self.now.calls.list }
        ensures within { IfSome result (λ at. at < length self.now.calls.list) }
    {
        self.calls.place_of_id(id.as_slice())
    }

    /// The plan of an offer of the live call in this place.
    fn plan_later(
        &self,
        alloc: Global,
        place: usize,
        input: &OfferIn,
        sdp: &Sdp,
    ) -> Result<BoardPlan, BoardFault>
        requires within { place < length self.now.calls.list }
        requires found { position (λ call. bytes_eq call.id.list input.now.call_id.list) self.now.calls.list ≡ Some place }
        ensures plans { (config : Config) (v : View) (ask : OfferAsk) → BoardMatches config self.now v → AsksOffer input.now sdp.now ask →
            PlansOffer config v input.now.call_id.list ask result }
        ensures room { IfOk result (HasRoomForPlan self.now) }
        ensures writes { IfOk result (λ p. WritesFrom p.plan sdp.now) }
        ensures made { IfOk result (λ p. PlansOfferOf self.now p p.begun) }
    {
        let call = self.calls.at(place);
        if call.due_moment.is_some() {
            return Err(BoardFault::Ending);
        }
        let plan = offer(alloc, &self.config, &*call.dialog, input, sdp)?;
        if self.lacks_pairs(&plan) {
            return Err(BoardFault::NoPair);
        }
        let leases = room_for(alloc, &plan)?;
        Ok(BoardPlan {
            plan,
            call: call.number,
            cell: call.cell,
            begun: None,
            leases,
        })
    }

    /// The plan of an offer that begins a call.
    fn plan_first(
        &mut self,
        alloc: Global,
        input: &OfferIn,
        sdp: &Sdp,
    ) -> Result<BoardPlan, BoardFault>
        ensures shows { (config : Config) (v : View) → BoardMatches config self.old v → BoardMatches config self.new v }
        ensures live { self.new.calls.list ≡ self.old.calls.list }
        ensures begun { self.new.begun ≡ self.old.begun }
        ensures pool { self.new.pool ≡ self.old.pool }
        ensures replies { KeepsReplies self.old self.new }
        ensures plans { (config : Config) (v : View) (ask : OfferAsk) → BoardMatches config self.old v → AsksOffer input.now sdp.now ask →
            PlansFor config v (target_by v input.now.call_id.list None) ask result }
        ensures room { IfOk result (HasRoomForPlan self.new) }
        ensures writes { IfOk result (λ p. WritesFrom p.plan sdp.now) }
        ensures shape { board_shape self.new ≡ board_shape self.old }
        ensures made { position (λ call. bytes_eq call.id.list input.now.call_id.list) self.old.calls.list ≡ None →
            IfOk result (λ p. PlansOfferOf self.old p p.begun) }
    {
        let begun = new_call(alloc, &input.call_id, &input.from_tag)?;
        let plan = offer(alloc, &self.config, &*begun.dialog, input, sdp)?;
        if self.is_full() {
            return Err(BoardFault::SessionLimit);
        }
        if self.lacks_pairs(&plan) {
            return Err(BoardFault::NoPair);
        }
        let leases = room_for(alloc, &plan)?;
        let Some(cell) = self.lowest_cell() else {
            return Err(BoardFault::SessionLimit);
        };
        self.calls.reserve()?;
        Ok(BoardPlan {
            plan,
            call: self.begun,
            cell,
            begun: Some(begun),
            leases,
        })
    }

    /// The plan of an offer, or its first fault. It takes all memory that the offer needs of the board, and leases nothing.
    ///
    /// `Ending`: its call is ending. `SessionLimit`: the offer would begin a call while as many are live as may be. `NoPair`: of some family
    /// fewer pairs are free than new active sections have legs of it. A plan that was not leased may be dropped: the board is as before.
    pub fn plan_offer(
        &mut self,
        alloc: Global,
        input: &OfferIn,
        sdp: &Sdp,
    ) -> Result<BoardPlan, BoardFault>
        ensures shows { (config : Config) (v : View) → BoardMatches config self.old v → BoardMatches config self.new v }
        ensures live { self.new.calls.list ≡ self.old.calls.list }
        ensures begun { self.new.begun ≡ self.old.begun }
        ensures pool { self.new.pool ≡ self.old.pool }
        ensures replies { KeepsReplies self.old self.new }
        ensures plans { (config : Config) (v : View) (ask : OfferAsk) → BoardMatches config self.old v → AsksOffer input.now sdp.now ask →
            PlansOffer config v input.now.call_id.list ask result }
        ensures room { IfOk result (HasRoomForPlan self.new) }
        ensures writes { IfOk result (λ p. WritesFrom p.plan sdp.now) }
        ensures shape { board_shape self.new ≡ board_shape self.old }
        ensures made { IfOk result (λ p. PlansOfferOf self.old p p.begun) }
    {
        match self.place_of_call(&input.call_id) {
            Some(place) => self.plan_later(alloc, place, input, sdp),
            None => self.plan_first(alloc, input, sdp),
        }
    }
}
