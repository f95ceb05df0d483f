//! The description that an answer is forwarded as.
ghost use Rattle.std.specs.Prelude.{◌≡◌, ◌≤◌, ◌+◌, ◌++◌, List, length};
ghost use Rattle.relay_outside.specs.declared.settings.Config.{Config};
ghost use Rattle.offer_answer.specs.Rounds.{Round, AnswerAsk};
ghost use Rattle.offer_answer.specs.Plan.{answer_text};
ghost use Rattle.offer_answer.specs.Plans.{AnswerPlan, AnswerNext};
ghost use Rattle.offer_answer.specs.Offers.{pairs_demanded, key_count};
ghost use Rattle.offer_answer.specs.Widths.{WritesFrom};
ghost use Rattle.offer_answer.specs.AnswerShapes.{AnswerShapes};
ghost use Rattle.offer_answer.specs.OfferPlaces.{AnswerCounts};
ghost use Rattle.offer_answer.specs.declared.dialog.Dialog.{Dialog};

use call_board::BoardPlan;
use sdp_text::{Bytes, Sdp};

/// Writes the description for the offerer after what `out` holds, by the plan of an answer, which demands no pair and no key. It
/// takes no memory.
pub(crate) fn write_answer(plan: &mut BoardPlan, sdp: &Sdp, out: &mut Bytes)
    requires pairs { pairs_demanded plan.old.plan ≡ 0 }
    requires keys { key_count plan.old.plan ≡ 0 }
    requires made { WritesFrom plan.old.plan sdp.now }
    requires room { plan.old.plan.reply_len ≤ out.old.spare }
    ensures rest { plan.new ≡ record plan.old { plan = plan.new.plan } }
    ensures signal { plan.new.plan.signal ≡ plan.old.plan.signal }
    ensures next { (config : Config) (rounds : List Round) (ask : AnswerAsk) → AnswerPlan config rounds ask sdp.now plan.old.plan →
        AnswerNext config rounds ask plan.new.plan.next }
    ensures text { (config : Config) (rounds : List Round) (ask : AnswerAsk) → AnswerPlan config rounds ask sdp.now plan.old.plan →
        out.new.list ≡ out.old.list ++ answer_text config rounds ask }
    ensures within { length out.new.list ≤ length out.old.list + plan.old.plan.reply_len }
    ensures shapes { (dialog : Dialog) → AnswerShapes plan.old.plan dialog plan.old.plan.next → AnswerShapes plan.old.plan dialog plan.new.plan.next }
    ensures counts { (dialog : Dialog) → AnswerCounts plan.old.plan dialog → AnswerCounts plan.new.plan dialog }
{
    plan.plan().fill(sdp, &[], 0, &[], out);
}
