//! The new legs of an offer: their boxes are opened, and the call's cell is prepared with them, in the order of leases.
ghost use Rattle.std.specs.Prelude.{◌≡◌, ◌≤◌, ◌<◌, ◌+◌, ◌++◌, ℕ, List, [], ◌∷◌, length, map};
ghost use Rattle.std.specs.List.{AllZip};
ghost use Rattle.port_pool.specs.Ports.{pair_count};
ghost use Rattle.port_pool.specs.Signals.{NewKey};
ghost use Rattle.offer_answer.specs.Offers as offering;
ghost use Rattle.offer_answer.specs.Offers.{PlanFor};
ghost use Rattle.offer_answer.specs.Rounds.{Demand};
ghost use Rattle.call_board.specs.Acts.{Call};
ghost use Rattle.call_board.specs.Whole.{holders_of_new_legs};
ghost use Rattle.call_cell.specs.Preparations.{IsReady, PrepareFor, added, parts_added, leg_room, key_room};
ghost use Rattle.media_ports.specs.Addresses.{AreLeased, pairs_of_leases};
ghost use Rattle.media_ports.specs.Ends as pair_ends;
ghost use Rattle.relay_core.specs.Scripts.{open_owed};
ghost use Rattle.board_turns.specs.BoardTurns.{CanNest, MakesNested, Nests};
ghost use Rattle.board_turns.specs.NestedSteps.{IsShut};
ghost use Rattle.offer_command.specs.Legs.{LegsFor};
ghost use Rattle.offer_command.specs.LegBoxes.{AreShut, IsBoxOpened, leased_parts, leg_parts};

use crate::lease::LeasedPairs;
use board_turns::{MainHand, open_box};
use call_board::BoardPlan;
use call_cell::Prepare;
use media_ports::PairEnds;
use port_pool::{Holder, Lease};
use relay_outside::{InEnd, OutEnd};
use std::sync::Wait;

/// Opens the box of a leg with the in ends of its ports, and prepares the leg with their out ends.
fn open_leg<I: InEnd, O: OutEnd, R: Wait>(
    rt: &R,
    main: &mut MainHand<I, O>,
    holder: Holder,
    lease: Lease,
    ends: PairEnds<I, O>,
    prepare: &mut Prepare<O>,
)
    requires may { CanNest main.old }
    requires pair { (holder.pair < pair_count main.old.config.now) × (lease.pair ≡ holder.pair) }
    requires generation { lease.generation ≡ holder.generation }
    requires cell { (1 ≤ holder.cell) × (holder.cell ≤ main.old.config.now.max_sessions) }
    requires shut { IsShut main.old.config.now main.old.hand.now holder.pair }
    requires ends { pair_ends.IsPairOpened I.log O.log main.old.config.now lease ends }
    requires room { 0 < leg_room prepare.old }
    ensures nests { Nests main.old main.new }
    ensures gained { MakesNested (open_owed main.old.config.now holder ∷ []) main.old main.new }
    ensures opened { IsBoxOpened I.log I.faults O.log O.faults main.old.config.now main.old.entry_id.number main.old.entry_id.moment main.old.hand.now holder ends }
    ensures added { added prepare.new ≡ added prepare.old ++ holder ∷ [] }
    ensures parts { parts_added prepare.new ≡ parts_added prepare.old ++ leg_parts lease ends ∷ [] }
    ensures stands { (keys : List NewKey) (dropped : List ℕ) → PrepareFor prepare.old keys dropped → PrepareFor prepare.new keys dropped }
    ensures room { (leg_room prepare.new + 1 ≡ leg_room prepare.old) × (key_room prepare.new ≡ key_room prepare.old) }
    ensures ready { IsReady prepare.old → IsReady prepare.new }
{
    let PairEnds {
        rtp_in,
        rtp_out,
        rtcp_in,
        rtcp_out,
    } = ends;
    open_box(rt, main, holder, rtp_in, rtcp_in);
    prepare.add_leg(holder, lease, rtp_out, rtcp_out);
}

/// Opens the boxes of a new offer's legs in the order of leases, each with the in ends of its ports, and prepares the legs with
/// their out ends. Leases and opened pairs are as many as the plan demands, in one order. The legs belong to the plan's call and
/// cell, and none is prepared before them. It takes no memory. Cells are numbered from 1.
pub fn open_legs<I: InEnd, O: OutEnd, R: Wait>(
    rt: &R,
    main: &mut MainHand<I, O>,
    plan: &BoardPlan,
    pairs: LeasedPairs<I, O>,
    prepare: &mut Prepare<O>,
)
    requires may { CanNest main.old }
    requires cell { (1 ≤ plan.now.cell) × (plan.now.cell ≤ main.old.config.now.max_sessions) }
    requires leases { length pairs.leases.list ≡ offering.pairs_demanded plan.now.plan }
    requires pairs { length pairs.opened.list ≡ offering.pairs_demanded plan.now.plan }
    requires leased { AreLeased main.old.config.now pairs.leases.list }
    requires shut { AreShut main.old.config.now main.old.hand.now (pairs_of_leases pairs.leases.list) }
    requires opened { pair_ends.ArePairsOpened I.log O.log main.old.config.now pairs.leases.list pairs.opened.list }
    requires room { offering.pairs_demanded plan.now.plan ≤ leg_room prepare.old }
    requires none { added prepare.old ≡ [] }

    // The legs are those that the plan demands, with these leases.
    ensures legs { LegsFor plan.now.plan plan.now.call plan.now.cell pairs.leases.list (added prepare.new) }

    // Their boxes are opened, in order, with these ends.
    ensures nests { Nests main.old main.new }
    ensures gained { MakesNested (map (open_owed main.old.config.now) (added prepare.new)) main.old main.new }
    ensures opened { AllZip (IsBoxOpened I.log I.faults O.log O.faults main.old.config.now main.old.entry_id.number main.old.entry_id.moment main.old.hand.now) (added prepare.new) pairs.opened.list }

    // They are prepared, in order, with their leases and these ends.
    ensures parts { parts_added prepare.new ≡ parts_added prepare.old ++ leased_parts pairs.leases.list pairs.opened.list }
    ensures stands { (keys : List NewKey) (dropped : List ℕ) → PrepareFor prepare.old keys dropped → PrepareFor prepare.new keys dropped }
    ensures room { (leg_room prepare.new + offering.pairs_demanded plan.now.plan ≡ leg_room prepare.old) × (key_room prepare.new ≡ key_room prepare.old) }
    ensures ready { IsReady prepare.old → IsReady prepare.new }
{
    let LeasedPairs {
        mut leases,
        mut opened,
    } = pairs;
    let demanded = plan.planned();
    for index in 0..demanded.pairs() {
        let (section, side) = demanded.pair_leg(index);
        let lease = leases.pop().unwrap();
        let ends = opened.pop().unwrap();
        let holder = Holder {
            cell: plan.cell(),
            call: plan.call(),
            section,
            side,
            pair: lease.pair(),
            generation: lease.generation(),
        };
        open_leg(rt, main, holder, lease, ends, prepare);
    }
    opened.destroy_empty();
}
