//! The description of an accepted offer, and its plan, taken in by the board.
ghost use Rattle.std.specs.Prelude.{◌≡◌, ◌≤◌, ◌+◌, ◌^◌, ◌++◌, ℕ, List, [], length, vec_capacity};
ghost use Rattle.relay_outside.specs.declared.settings.Config.{Config};
ghost use Rattle.sdp_text.specs.Lines.{lines_of};
ghost use Rattle.offer_answer.specs.Rounds.{Round, OfferAsk};
ghost use Rattle.offer_answer.specs.Plan.{demand, offer_text};
ghost use Rattle.offer_answer.specs.Plans.{OfferPlan, OfferFilled};
ghost use Rattle.offer_answer.specs.Offers.{pairs_demanded, key_count};
ghost use Rattle.offer_answer.specs.Nexts.{numbered_keys};
ghost use Rattle.offer_answer.specs.Widths.{WritesFrom};
ghost use Rattle.offer_answer.specs.Shapes.{FilledShapes, OfferShapes, keys_demanded};
ghost use Rattle.offer_answer.specs.OfferPlaces.{SameCounts};
ghost use Rattle.offer_answer.specs.declared.dialog.Dialog.{Dialog};
ghost use Rattle.call_board.specs.Acts.{BoardEntry};
ghost use Rattle.call_board.specs.Fits.{IsFitting};
ghost use Rattle.call_board.specs.Views.{View, view_of};
ghost use Rattle.call_board.specs.Boards.{BoardMatches, KeepsReplies};
ghost use Rattle.call_board.specs.NextBoards.{MayApply};
ghost use Rattle.call_board.specs.Shapes.{PlansOfferOf};
ghost use Rattle.offer_command.specs.Brings.{rtp_ports};
ghost use Rattle.offer_command.specs.Offers.{IsDue, next_key_number, offer_of, ports_of_legs, offered_text, with_offer};
ghost use Rattle.offer_command.specs.Shapes.{OfferedBy};

use crate::lease::LeasedPlan;
use call_board::{Board, BoardPlan};
use media_ports::DrawnList;
use port_pool::Leases;
use sdp_text::{Bytes, Sdp};

/// Lists the ports for RTP of leases, in order. The list is empty, and has room. It takes no memory.
pub(crate) fn list_ports(leases: &Leases, numbers: &mut Vec<u16>)
    requires none { numbers.old.items ≡ [] }
    requires room { length leases.now.list ≤ vec_capacity numbers.old }
    ensures { numbers.new.items ≡ rtp_ports leases.now.list }
{
    for index in 0..leases.len() {
        numbers.push_reserved(leases.get(index).rtp_port());
    }
}

/// Puts the ports of its pairs and its drawn keys into the plan of an offer, and writes its description after what `out` holds.
/// It takes no memory.
fn fill_plan(
    plan: &mut BoardPlan,
    sdp: &Sdp,
    numbers: &[u16],
    first_key: u64,
    drawn: &DrawnList,
    out: &mut Bytes,
)
    requires ports { length numbers.now ≡ pairs_demanded plan.old.plan }
    requires keys { length drawn.now.list ≡ key_count plan.old.plan }
    requires first { first_key ≤ 2 ^ 63 }
    requires made { WritesFrom plan.old.plan sdp.now }
    requires room { plan.old.plan.reply_len ≤ out.old.spare }
    ensures rest { plan.new ≡ record plan.old { plan = plan.new.plan } }
    ensures within { length out.new.list ≤ length out.old.list + plan.old.plan.reply_len }
    ensures filled { (config : Config) (rounds : List Round) (ask : OfferAsk) → OfferPlan config rounds ask plan.old.plan →
        OfferFilled config rounds ask numbers.now (numbered_keys first_key drawn.now.list (demand rounds ask).keys) plan.new.plan.next }
    ensures text { (config : Config) (rounds : List Round) (ask : OfferAsk) → OfferPlan config rounds ask plan.old.plan → lines_of ask.sdp ≡ sdp.now →
        out.new.list ≡ out.old.list ++ offer_text config rounds ask numbers.now (numbered_keys first_key drawn.now.list (demand rounds ask).keys) }
    ensures shape { (dialog : Dialog) → OfferShapes plan.old.plan dialog plan.old.plan.next →
        FilledShapes plan.old.plan dialog numbers.now (numbered_keys first_key drawn.now.list (keys_demanded plan.old.plan)) plan.new.plan.next }
    ensures counts { SameCounts plan.old.plan.next plan.new.plan.next }
{
    plan.plan()
        .fill(sdp, numbers, first_key, drawn.as_slice(), out);
}

/// Takes an accepted offer in at the moment `now`, by its plan with the ports of its pairs and its drawn keys, and writes its
/// description after what `out` holds. It gives the keys back, and takes no memory.
pub(crate) fn apply_offer(
    board: &mut Board,
    taken: LeasedPlan,
    sdp: &Sdp,
    now: u64,
    out: &mut Bytes,
) -> DrawnList
    requires ports { length taken.numbers.items ≡ pairs_demanded taken.plan.plan }
    requires keys { length taken.drawn.list ≡ key_count taken.plan.plan }
    requires first { taken.first_key ≤ 2 ^ 63 }
    requires made { WritesFrom taken.plan.plan sdp.now }
    requires room { taken.plan.plan.reply_len ≤ out.old.spare }
    requires may { MayApply board.old taken.plan taken.plan.begun }
    requires plans { PlansOfferOf board.old taken.plan taken.plan.begun }
    ensures taken { (config : Config) (h : List BoardEntry) (id : List ℕ) (ask : OfferAsk) (v : View) → IsFitting config h → IsDue config h id ask taken.plan taken.drawn.list →
        taken.first_key ≡ next_key_number h → taken.numbers.items ≡ ports_of_legs config (offer_of config h id ask taken.drawn.list) →
        BoardMatches config board.old v → v.calls ≡ (view_of config h).calls → v.begun ≡ (view_of config h).begun →
        BoardMatches config board.new (with_offer (offer_of config h id ask taken.drawn.list) now v) }
    ensures text { (config : Config) (h : List BoardEntry) (id : List ℕ) (ask : OfferAsk) → IsFitting config h → IsDue config h id ask taken.plan taken.drawn.list →
        taken.first_key ≡ next_key_number h → taken.numbers.items ≡ ports_of_legs config (offer_of config h id ask taken.drawn.list) → lines_of ask.sdp ≡ sdp.now →
        out.new.list ≡ out.old.list ++ offered_text config h id (offer_of config h id ask taken.drawn.list) }
    ensures within { length out.new.list ≤ length out.old.list + taken.plan.plan.reply_len }
    ensures replies { KeepsReplies board.old board.new }
    ensures keys { result ≡ taken.drawn }
    ensures shape { OfferedBy taken.plan taken.plan.begun taken.numbers.items (numbered_keys taken.first_key taken.drawn.list (keys_demanded taken.plan.plan)) board.old board.new }
{
    let LeasedPlan {
        mut plan,
        numbers,
        drawn,
        first_key,
    } = taken;
    fill_plan(&mut plan, sdp, numbers.as_slice(), first_key, &drawn, out);
    board.apply(plan, now);
    drawn
}
