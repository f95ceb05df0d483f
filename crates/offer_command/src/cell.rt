//! What an accepted offer brings to its call's cell: legs, drawn keys, and the sections whose legs it drops.
ghost use Rattle.std.specs.Prelude.{◌≡◌, ◌≤◌, ◌<◌, ◌+◌, ◌^◌, ◌++◌, ℕ, List, [], ◌∷◌, length, filter};
ghost use Rattle.histories.specs.Words.{has, numbers};
ghost use Rattle.turn_table.specs.Hands.{entries};
ghost use Rattle.port_pool.specs.Signals.{NewKey};
ghost use Rattle.offer_answer.specs.Rounds.{Round, OfferAsk, Demand};
ghost use Rattle.offer_answer.specs.Plan.{demand};
ghost use Rattle.offer_answer.specs.Offers.{PlanFor, pairs_demanded, key_count};
ghost use Rattle.call_board.specs.Boards.{leases_at};
ghost use Rattle.call_board.specs.Pairs.{drawn_keys_from};
ghost use Rattle.call_board.specs.Views.{view_of};
ghost use Rattle.call_cell.specs.Preparations.{PrepareFor, key_room};
ghost use Rattle.media_ports.specs.Addresses.{pairs_of_leases};
ghost use Rattle.media_ports.specs.Ends.{ArePairsOpened};
ghost use Rattle.relay_core.specs.Legal.{Orderly};
ghost use Rattle.relay_core.specs.PlaceHistories.{GoneHome};
ghost use Rattle.relay_core.specs.Turns.{IsAbove};
ghost use Rattle.board_turns.specs.BoardTurns.{CanNest, MakesNested, Nests, hand_list, past_of};
ghost use Rattle.board_turns.specs.Closings.{leases_of_legs};
ghost use Rattle.board_turns.specs.Departures.{AllHaveEnds, AreLeasesOf, cell_kept, leases_going};
ghost use Rattle.board_turns.specs.Ties.{LegsLeave};
ghost use Rattle.offer_command.specs.Brings.{HasLegRoom};
ghost use Rattle.offer_command.specs.LegBoxes.{AreShut};
ghost use Rattle.offer_command.specs.Leases.{planned_pairs};
ghost use Rattle.offer_command.specs.PreparedLegs.{SameLegs, drawn_key};
ghost use Rattle.offer_command.specs.Offers.{IsDue, next_key_number, offer_of, dropped_legs, bringing_of};

use crate::lease::{LeasedPairs, LeasedPlan, last_port};
use crate::legs::open_legs;
use board_turns::{MainHand, prepare_cell};
use call_cell::{Gone, Prepare};
use media_ports::DrawnList;
use offer_answer::Plan;
use port_pool::Side;
use relay_outside::{InEnd, KeyAndSalt, OutEnd};
use sdes_lines::Suite;
use srtp_keys::DrawnKey;
use std::sync::Wait;

/// Adds one drawn key for the leg of a section and side, and a suite.
fn add_one<O>(place: (u8, Side, Suite), number: u64, bytes: KeyAndSalt, prepare: &mut Prepare<O>)
    requires room { 0 < key_room prepare.old }
    ensures stands { (keys : List NewKey) (dropped : List ℕ) → PrepareFor prepare.old keys dropped →
        PrepareFor prepare.new (keys ++ drawn_key place.0 place.1 place.2 (record { number = number; bytes = bytes }) ∷ []) dropped }
    ensures legs { SameLegs prepare.old prepare.new }
    ensures room { key_room prepare.new + 1 ≡ key_room prepare.old }
{
    let (section, side, suite) = place;
    prepare.add_key(section, side, DrawnKey::from_draw(number, bytes), suite);
}

/// Prepares the drawn keys of an offer for the legs and suites that its plan demands keys for, in the order of draws. The keys are
/// as many as the plan demands, and have the numbers from `first_key` on. It takes no memory.
fn add_keys<O>(plan: &Plan, first_key: u64, drawn: &DrawnList, prepare: &mut Prepare<O>)
    requires keys { length drawn.now.list ≡ key_count plan.now }
    requires first { first_key ≤ 2 ^ 63 }
    requires room { key_count plan.now ≤ key_room prepare.old }
    ensures stands { (asked : Demand) (keys : List NewKey) (dropped : List ℕ) → PlanFor plan.now asked → PrepareFor prepare.old keys dropped →
        PrepareFor prepare.new (keys ++ drawn_keys_from first_key drawn.now.list asked.keys) dropped }
    ensures legs { SameLegs prepare.old prepare.new }
{
    let keys = drawn.as_slice();
    for index in 0..keys.len() {
        add_one(
            plan.key_leg(index),
            first_key + index as u64,
            keys[index],
            prepare,
        );
    }
}

/// Drops the legs of one section, where the plan drops it.
fn drop_planned<O>(plan: &Plan, section: u8, prepare: &mut Prepare<O>)
    ensures stands { (asked : Demand) (keys : List NewKey) (dropped : List ℕ) → PlanFor plan.now asked → PrepareFor prepare.old keys dropped →
        PrepareFor prepare.new keys (dropped ++ filter (has asked.dropped) (section ∷ [])) }
    ensures legs { SameLegs prepare.old prepare.new }
{
    if plan.drops(section as usize) {
        prepare.drop_section(section);
    }
}

/// Prepares that the legs of each section that the plan drops are dropped. It takes no memory.
fn add_drops<O>(plan: &Plan, prepare: &mut Prepare<O>)
    ensures stands { (asked : Demand) (keys : List NewKey) → PlanFor plan.now asked → PrepareFor prepare.old keys [] →
        PrepareFor prepare.new keys (filter (has asked.dropped) (numbers 0 8)) }
    ensures legs { SameLegs prepare.old prepare.new }
{
    for section in 0..8u8 {
        drop_planned(plan, section, prepare);
    }
}

/// Prepares the drawn keys of an offer, and that the legs of the sections are dropped that its plan drops. It takes no memory.
fn bring_keys<O>(plan: &Plan, first_key: u64, drawn: &DrawnList, prepare: &mut Prepare<O>)
    requires keys { length drawn.now.list ≡ key_count plan.now }
    requires first { first_key ≤ 2 ^ 63 }
    requires room { key_count plan.now ≤ key_room prepare.old }
    ensures stands { (rounds : List Round) (ask : OfferAsk) → PlanFor plan.now (demand rounds ask) → PrepareFor prepare.old [] [] →
        PrepareFor prepare.new (drawn_keys_from first_key drawn.now.list (demand rounds ask).keys) (demand rounds ask).dropped }
    ensures legs { SameLegs prepare.old prepare.new }
{
    add_keys(plan, first_key, drawn, prepare);
    add_drops(plan, prepare);
}

/// Opens the boxes of an accepted offer's legs, in the order of leases, and prepares its call's cell with them, with the drawn
/// keys and with the dropped sections. The legs of these go to `gone`, which is empty. It takes no memory.
pub(crate) fn prepare_offer<I: InEnd, O: OutEnd, R: Wait>(
    rt: &R,
    main: &mut MainHand<I, O>,
    taken: &LeasedPlan,
    pairs: LeasedPairs<I, O>,
    prepare: Prepare<O>,
    gone: &mut Gone<O>,
)
    requires may { CanNest main.old }
    requires above { IsAbove (hand_list main.old) 0 main.old.entry_id.number }
    requires orderly { Orderly main.old.config.now (hand_list main.old) }
    requires due { (id : List ℕ) × (ask : OfferAsk) × IsDue main.old.config.now (past_of main.old) id ask taken.now.plan taken.now.drawn.list }
    requires leases { let v = view_of main.old.config.now (past_of main.old) in
        pairs.leases.list ≡ leases_at main.old.config.now v (planned_pairs main.old.config.now v taken.now.plan) }
    requires count { length pairs.leases.list ≡ pairs_demanded taken.now.plan.plan }
    requires opened { length pairs.opened.list ≡ pairs_demanded taken.now.plan.plan }
    requires shut { AreShut main.old.config.now main.old.hand.now (pairs_of_leases pairs.leases.list) }
    requires ends { ArePairsOpened I.log O.log main.old.config.now pairs.leases.list pairs.opened.list }
    requires first { taken.now.first_key ≡ next_key_number (past_of main.old) }
    requires low { taken.now.first_key ≤ 2 ^ 63 }
    requires keys { length taken.now.drawn.list ≡ key_count taken.now.plan.plan }
    requires room { HasLegRoom taken.now.plan.plan prepare }
    requires empty { gone.old ≡ [] }
    ensures nests { Nests main.old main.new }
    ensures gained { (id : List ℕ) (ask : OfferAsk) → IsDue main.old.config.now (past_of main.old) id ask taken.now.plan taken.now.drawn.list →
        MakesNested (bringing_of main.old.config.now (offer_of main.old.config.now (past_of main.old) id ask taken.now.drawn.list)) main.old main.new }
    ensures went { (id : List ℕ) (ask : OfferAsk) → IsDue main.old.config.now (past_of main.old) id ask taken.now.plan taken.now.drawn.list →
        AreLeasesOf main.old.config.now gone.new (dropped_legs (past_of main.old) (offer_of main.old.config.now (past_of main.old) id ask taken.now.drawn.list)) }
    ensures left { (id : List ℕ) (ask : OfferAsk) → IsDue main.old.config.now (past_of main.old) id ask taken.now.plan taken.now.drawn.list →
        let kept = cell_kept main.old.config.now main.old.hand.now taken.now.plan.cell in AllHaveEnds kept →
        leases_of_legs gone.new ≡ leases_going (λ leg. has (offer_of main.old.config.now (past_of main.old) id ask taken.now.drawn.list).dropped leg.section) kept }
    ensures home { GoneHome O.log main.old.config.now gone.new }
    ensures leave { LegsLeave O.log gone.new (entries main.old.hand.now) (entries main.new.hand.now) }
{
    let mut prepare = prepare;
    let last = last_port(main.config);
    prove!(last <= 65_535);
    let plan = &taken.plan;
    let demanded = plan.planned();
    open_legs(rt, main, plan, pairs, &mut prepare);
    bring_keys(demanded, taken.first_key, &taken.drawn, &mut prepare);
    prepare_cell(rt, main, plan.cell(), plan.call(), prepare, gone);
}
