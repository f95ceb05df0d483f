//! Leasing the pairs of an offer, and giving them back.

ghost use Rattle.std.specs.Prelude.{◌≡◌, ◌<◌, ◌≤◌, ◌+◌, ◌^◌, ◌∷◌, ◌++◌, [], ℕ, List, Some, map, length};
ghost use Rattle.relay_outside.specs.declared.settings.Config.{Config};
ghost use Rattle.port_pool.specs.Ports as ports;
ghost use Rattle.port_pool.specs.Ports.{pairs_of_family};
ghost use Rattle.port_pool.specs.Pools.{generation, AreFree, free_pairs};
ghost use Rattle.port_pool.specs.LeaseLists.{with_lease};
ghost use Rattle.relay_outside.specs.declared.address.Family.{Family};
ghost use Rattle.offer_answer.specs.Offers.{pairs_demanded, legs_demanded};
ghost use Rattle.call_board.specs.Pairs.{without_front};
ghost use Rattle.call_board.specs.Views.{View, with_leases, with_returned};
ghost use Rattle.call_board.specs.Boards.{BoardMatches, KeepsCalls, KeepsReplies, AreOut, pairs_in, lease_at, fronts_for, leases_at};
ghost use Rattle.call_board.specs.Plans.{HasRoomForPlan, leased};
ghost use Rattle.port_pool.specs.Leases.{LeasesFront};
ghost use Rattle.port_pool.specs.declared.pairs.Lease.{Lease};
ghost use Rattle.call_board.specs.Shapes.{board_shape, with_pool, shape_returned, shape_returns, ShapeLeases};

use crate::board::Board;
use crate::board_plan::BoardPlan;
use port_pool::Leases;
use relay_outside::Family;

impl Board {
    /// Leases the pair of a family that has been free for longest.
    fn lease_one(&mut self, family: Family, leases: &mut Leases)
        requires some { 0 < length (free_pairs self.old.pool family) }
        requires room { length leases.old.list < leases.old.room }
        requires generations { (pair : ℕ) → generation self.old.pool pair < 2 ^ 63 }
        ensures leases { (config : Config) (v : View) (pair : ℕ) (rest : List ℕ) → BoardMatches config self.old v → AreFree (ports.pair_count config) v.free →
            pairs_of_family config v.free family ≡ pair ∷ rest →
            BoardMatches config self.new (with_leases v (pair ∷ [])) × (leases.new ≡ with_lease leases.old (lease_at config v.leases pair)) }
        ensures left { (other : Family) → free_pairs self.new.pool other ≡ without_front (free_pairs self.old.pool) family other }
        ensures longer { length leases.new.list ≡ length leases.old.list + 1 }
        ensures room { leases.new.room ≡ leases.old.room }
        ensures rises { (pair : ℕ) → generation self.new.pool pair ≤ generation self.old.pool pair + 1 }
        ensures calls { KeepsCalls self.old self.new }
        ensures replies { KeepsReplies self.old self.new }
        ensures front { (lease : Lease) × LeasesFront self.old.pool family (free_pairs self.old.pool family) (Some lease) self.new.pool × (leases.new ≡ with_lease leases.old lease) }
        ensures shape { board_shape self.new ≡ with_pool self.new.pool (board_shape self.old) }
    {
        let Some(lease) = self.pool.lease(family) else {
            unreachable!();
        };
        leases.push(lease);
    }

    /// Leases the pairs that a plan demands, in the order of its legs, each the one of its family that has been free for longest. It takes
    /// no memory.
    ///
    /// The plan is that of the last call on this board which planned or changed anything, so enough pairs are free. No pair
    /// reaches 2^63 leases.
    pub fn lease(&mut self, plan: &mut BoardPlan) -> Leases
        requires room { HasRoomForPlan self.old plan.old }
        requires generations { (pair : ℕ) → generation self.old.pool pair + pairs_demanded plan.old.plan ≤ 2 ^ 63 }
        ensures leases { (config : Config) (v : View) → BoardMatches config self.old v → AreFree (ports.pair_count config) v.free →
            BoardMatches config self.new (with_leases v (fronts_for config v (legs_demanded plan.old.plan)))
            × (result.list ≡ leases_at config v (fronts_for config v (legs_demanded plan.old.plan))) }
        ensures plan { plan.new ≡ leased plan.old }
        ensures calls { KeepsCalls self.old self.new }
        ensures replies { KeepsReplies self.old self.new }
        ensures shape { ShapeLeases (legs_demanded plan.old.plan) result.list (board_shape self.old) (board_shape self.new) }
    {
        let mut leases = plan.leases.take().unwrap();
        for index in 0..plan.plan.pairs() {
            self.lease_one(plan.plan.pair_family(index), &mut leases);
        }
        leases
    }

    /// Takes the first of these leases back.
    fn take_back(&mut self, leases: &mut Leases)
        requires some { 0 < length leases.old.list }
        requires out { AreOut self.old.pool leases.old.list }
        ensures out { AreOut self.new.pool leases.new.list }
        ensures shows { (config : Config) (v : View) → BoardMatches config self.old v →
            (pair : ℕ) × (pair ∷ pairs_in leases.new.list ≡ pairs_in leases.old.list) × BoardMatches config self.new (with_returned v (pair ∷ [])) }
        ensures count { length leases.new.list + 1 ≡ length leases.old.list }
        ensures calls { KeepsCalls self.old self.new }
        ensures replies { KeepsReplies self.old self.new }
        ensures shape { (lease : Lease) × (leases.old.list ≡ lease ∷ leases.new.list) × (board_shape self.new ≡ shape_returned lease.pair (board_shape self.old)) }
    {
        let Some(lease) = leases.pop() else {
            unreachable!();
        };
        self.pool.give_back(lease);
    }

    /// Takes back the leases of an offer that was not applied, in their order. It takes no memory. They are those that `lease`
    /// gave for the plan, and none of them was given back.
    pub fn undo_offer(&mut self, plan: BoardPlan, leases: Leases)
        requires { AreOut self.old.pool leases.list }
        ensures returned { (config : Config) (v : View) → BoardMatches config self.old v → BoardMatches config self.new (with_returned v (pairs_in leases.list)) }
        ensures calls { KeepsCalls self.old self.new }
        ensures replies { KeepsReplies self.old self.new }
        ensures shape { board_shape self.new ≡ shape_returns (pairs_in leases.list) (board_shape self.old) }
    {
        let _ = plan;
        let mut left = leases;
        for _back in 0..left.len() {
            self.take_back(&mut left);
        }
    }
}
