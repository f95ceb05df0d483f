//! An offer.
ghost use Rattle.std.specs.Prelude.{◌≤◌, ◌<◌, ◌^◌, Option, length};
ghost use Rattle.ng_bencode.specs.Tree.{Entries};
ghost use Rattle.ng_command.specs.Meanings.{Offer};
ghost use Rattle.board_turns.specs.BoardTurns.{Begins, CarriesOut, Works, past_of};
ghost use Rattle.board_turns.specs.Commands.{record_by};
ghost use Rattle.board_turns.specs.Controls.{entry_pairs};
ghost use Rattle.board_turns.specs.DeviceAnswers.{given_by, IsGivenBy};
ghost use Rattle.board_turns.specs.PlainReplies.{IsAnew, IsAsking};

use crate::act::{PlannedOffer, offer_act};
use crate::memory::{OfferMemory, offer_memory};
use crate::reply::{accepted, undone};
use board_turns::{AskedCommand, BoardTurn, CommandOutcome, misdescribed, short, unplanned};
use control_messages::read_description;
use ng_command::OfferIn;
use offer_answer::ChosenLines;
use relay_outside::{KeySource, PortMaker};
use std::sync::Wait;

/// Carries out an offer in the board's turn of its datagram, for which no reply is kept. It takes all memory that it needs before
/// it leases anything, and where that is short it changes nothing.
pub fn offer<P: PortMaker, K: KeySource, R: Wait>(
    rt: &R,
    turn: &mut BoardTurn<P>,
    keys: &mut K,
    asked: &AskedCommand<OfferIn>,
) -> CommandOutcome
    requires begins { Begins P.log turn.old }
    requires anew { IsAnew (past_of turn.old.main) turn.old.main.entry_id.moment asked.now.request.now }
    requires small { length asked.now.input.now.sdp.list < 2 ^ 31 }
    requires asked { (pairs : Option Entries) × IsAsking asked.now.request.now pairs (Offer asked.now.input.now.call_id.list asked.now.input.now.from_tag.list asked.now.input.now.sdp.list asked.now.input.now.options) }
    ensures works { Works P.log P.faults turn.old turn.new }
    ensures carries { (pairs : Option Entries) → IsAsking asked.now.request.now pairs (Offer asked.now.input.now.call_id.list asked.now.input.now.from_tag.list asked.now.input.now.sdp.list asked.now.input.now.options) →
        CarriesOut P.log turn.old turn.new (record_by asked.now.request.now pairs result) result.reply }
    ensures later { K.faults keys.old ≤ K.faults keys.new }
    ensures given { (pairs : Option Entries) → IsAsking asked.now.request.now pairs (Offer asked.now.input.now.call_id.list asked.now.input.now.from_tag.list asked.now.input.now.sdp.list asked.now.input.now.options) →
        IsGivenBy turn.old.main.config.now (entry_pairs turn.old.main.config.now (past_of turn.old.main) turn.old.main.entry_id.moment (record_by asked.now.request.now pairs result)) (given_by result.device_answers) (P.faults turn.old.ports.now) (P.faults turn.new.ports.now)
        (K.faults keys.old) (K.faults keys.new) (P.log turn.old.ports.now) (P.log turn.new.ports.now) (K.log keys.old) (K.log keys.new) }
{
    let AskedCommand {
        request,
        input,
        alloc,
    } = *asked;
    let family = input.options.family;
    let sdp = match read_description(alloc, turn.main.config, family, input.sdp.as_slice()) {
        Ok(sdp) => sdp,
        Err(fault) => return misdescribed(alloc, request, fault),
    };
    let chosen_lines = ChosenLines::of_offer(&sdp);
    let plan = match turn.board.plan_offer(alloc, input, &sdp) {
        Ok(plan) => plan,
        Err(fault) => return unplanned(alloc, request, fault, chosen_lines),
    };
    let Ok(memory) = offer_memory(alloc, request, plan.planned()) else {
        return short();
    };
    let OfferMemory { room, reply } = memory;
    let opens = 2 * plan.planned().pairs();
    let offer = PlannedOffer {
        plan,
        sdp: &sdp,
        room,
    };
    let offered = match offer_act(rt, turn, keys, offer) {
        Ok(offered) => offered,
        Err(fault) => return undone(request, fault, opens, chosen_lines, reply),
    };
    accepted(request, offered, opens, chosen_lines, reply)
}
