//! A planned offer, from its first lease to its last close.
ghost use Rattle.std.specs.Prelude.{◌≡◌, ◌≤◌, ◌*◌, ℕ, true, List, [], length, replicate, IfOk, IfErr};
ghost use Rattle.relay_outside.specs.DeviceLogs.{Gained};
ghost use Rattle.offer_answer.specs.Rounds.{OfferAsk};
ghost use Rattle.offer_answer.specs.Offers.{pairs_demanded, key_count};
ghost use Rattle.offer_answer.specs.Widths.{WritesFrom};
ghost use Rattle.call_board.specs.Plans.{HasRoomForPlan};
ghost use Rattle.call_board.specs.Shapes.{PlansOfferOf};
ghost use Rattle.call_board.specs.Views.{view_of};
ghost use Rattle.media_ports.specs.Openings.{OpensAt};
ghost use Rattle.media_ports.specs.Draws.{AreDrawn};
ghost use Rattle.board_turns.specs.BoardTurns.{Begins, Works, past_of};
ghost use Rattle.offer_command.specs.Leases.{pairs_of_plan, keys_of_plan, planned_pairs};
ghost use Rattle.offer_command.specs.Undo.{ComesEarly, DrawsBefore, HasRisen, opens_before};
ghost use Rattle.offer_command.specs.Offers.{CanOffer};
ghost use Rattle.offer_command.specs.Brings.{HasOfferRoom};
ghost use Rattle.offer_command.specs.Doings.{TurnAccepts, Describes, Undoes};

use crate::cell::prepare_offer;
use crate::description::apply_offer;
use crate::lease::{LeaseFault, LeasedOffer, lease_offer};
use crate::memory::OfferRoom;
use board_turns::{BoardTurn, close_legs};
use call_board::BoardPlan;
use media_ports::DrawnList;
use relay_outside::{KeySource, PortMaker};
use sdp_text::{Bytes, Sdp};
use std::sync::Wait;

/// What an accepted offer gives its caller.
#[derive(Drop)]
pub struct AcceptedOffer {
    /// The keys that were drawn for it, in the order in which it demands them.
    pub drawn: DrawnList,
    /// The description for the other side.
    pub text: Bytes,
}

/// An offer that the board planned, before anything is leased.
#[derive(Drop)]
pub struct PlannedOffer<'a, 's, I, O> {
    /// Its plan.
    pub plan: BoardPlan,
    /// Its description.
    pub sdp: &'a Sdp<'s>,
    /// All memory that it takes besides the board's.
    pub room: OfferRoom<I, O>,
}

/// Carries out the plan of an offer in the board's turn: leases its pairs, opens their ports, draws its keys, opens the boxes of
/// its legs, prepares its call's cell, takes the plan in, and closes the legs of the sections that it drops. It takes no memory.
///
/// `Port`: a port could not be opened. `Key`: a draw failed. Then what was opened is closed again, the pairs wait after all free
/// ones, and the keys that were drawn are used up; nothing else has changed.
pub fn offer_act<P: PortMaker, K: KeySource, R: Wait>(
    rt: &R,
    turn: &mut BoardTurn<P>,
    keys: &mut K,
    offer: PlannedOffer<P::In, P::Out>,
) -> Result<AcceptedOffer, LeaseFault>
    requires begins { Begins P.log turn.old }
    requires due { (id : List ℕ) × (ask : OfferAsk) × CanOffer turn.old.main.config.now (past_of turn.old.main) id ask offer.sdp.now offer.plan }
    requires planned { HasRoomForPlan turn.old.board.now offer.plan }
    requires plans { PlansOfferOf turn.old.board.now offer.plan offer.plan.begun }
    requires made { WritesFrom offer.plan.plan offer.sdp.now }
    requires room { HasOfferRoom offer.plan.plan offer.room }
    ensures works { Works P.log P.faults turn.old turn.new }
    ensures later { K.faults keys.old ≤ K.faults keys.new }

    // An accepted offer does what its entry owes, and its description is the one that is due.
    ensures does { IfOk result (λ accepted. TurnAccepts P.log turn.old turn.new offer.entry.sdp.now offer.entry.plan accepted.drawn.list) }
    ensures text { IfOk result (λ accepted. Describes turn.old.main offer.entry.sdp.now offer.entry.plan accepted.drawn.list accepted.text.list) }
    ensures within { IfOk result (λ accepted. length accepted.text.list ≤ offer.entry.plan.plan.reply_len) }
    ensures count { IfOk result (λ accepted. length accepted.drawn.list ≡ key_count offer.entry.plan.plan) }
    ensures opens { let config = turn.old.main.config.now in
        IfOk result (λ accepted. Gained (P.log turn.old.ports.now) (P.log turn.new.ports.now) (OpensAt config (planned_pairs config (view_of config (past_of turn.old.main)) offer.entry.plan) (replicate (2 * pairs_demanded offer.entry.plan.plan) true))) }
    ensures draws { IfOk result (λ accepted. Gained (K.log keys.old) (K.log keys.new) (AreDrawn accepted.drawn.list)) }

    // One that is undone does what its entry owes.
    ensures undoes { IfErr result (Undoes P.log turn.old turn.new offer.entry.sdp.now offer.entry.plan) }
    ensures early { IfErr result (ComesEarly (pairs_of_plan offer.entry.plan) (keys_of_plan offer.entry.plan)) }
    ensures opens_before { let config = turn.old.main.config.now in
        IfErr result (λ fault. Gained (P.log turn.old.ports.now) (P.log turn.new.ports.now) (OpensAt config (planned_pairs config (view_of config (past_of turn.old.main)) offer.entry.plan) (opens_before (pairs_demanded offer.entry.plan.plan) fault))) }
    ensures draws_before { IfErr result (λ fault. DrawsBefore fault (K.log keys.old) (K.log keys.new)) }
    ensures cause { IfErr result (λ fault. HasRisen fault (P.faults turn.old.ports.now) (P.faults turn.new.ports.now) (K.faults keys.old) (K.faults keys.new)) }
{
    let PlannedOffer { plan, sdp, room } = offer;
    let OfferRoom {
        lease,
        prepare,
        mut text,
    } = room;
    let leased = match lease_offer(turn.main.config, turn.board, turn.ports, keys, plan, lease) {
        Ok(leased) => leased,
        Err(fault) => {
            prepare.destroy_empty();
            return Err(fault);
        }
    };
    let LeasedOffer { plan, pairs } = leased;
    prepare_offer(rt, &mut turn.main, &plan, pairs, prepare, turn.gone);
    let drawn = apply_offer(turn.board, plan, sdp, turn.main.entry_id.moment, &mut text);
    close_legs(rt, turn);
    Ok(AcceptedOffer { drawn, text })
}
