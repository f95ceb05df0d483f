//! Taking in a plan.

ghost use Rattle.std.specs.Prelude.{◌≡◌, ◌<◌, ◌^◌, ℕ, [], ◌∷◌, true, false, Some, None};
ghost use Rattle.std.specs.List.{list_any};
ghost use Rattle.std.specs.Str.{bytes_eq};
ghost use Rattle.relay_outside.specs.declared.settings.Config.{Config};
ghost use Rattle.offer_answer.specs.Rounds.{Round};
ghost use Rattle.offer_answer.specs.Sides.{is_begun};
ghost use Rattle.call_board.specs.Acts.{Call};
ghost use Rattle.call_board.specs.Views.{View, CallView, with_calls, with_new_call, goes_on, call_numbered};
ghost use Rattle.call_board.specs.Boards.{BoardMatches, IsLive, KeepsReplies};
ghost use Rattle.call_board.specs.NextBoards.{IsPlanOf, BeginsBy, IsNext, TakesRoundIn, taken_in, MayApply};
ghost use Rattle.call_board.specs.Shapes.{LiveTakesIn, NewTakesIn, TakesPlanIn};

use crate::board::Board;
use crate::board_plan::{BoardPlan, NewCall};
use crate::cell_marks::mark_cell;
use crate::live_call::LiveCall;
use offer_answer::Plan;

impl Board {
    /// Takes in one more offer or answer of a live call.
    fn go_on(&mut self, plan: Plan, call: u64, now: u64)
        requires { IsLive self.old call }
        ensures replies { KeepsReplies self.old self.new }
        ensures taken { (config : Config) (v : View) (c : CallView) (round : Round) → BoardMatches config self.old v → call_numbered v call ≡ Some c → is_begun c.rounds ≡ true →
            IsPlanOf config c.rounds round plan → BoardMatches config self.new (with_calls v (goes_on call round now v.calls)) }
        ensures shape { LiveTakesIn call plan self.old self.new }
    {
        let place = self.place(call);
        self.calls.go_on(place, plan, now);
    }

    /// Takes in the first offer of a call.
    fn begin(&mut self, new: NewCall, plan: Plan, cell: u32, now: u64)
        requires room { 0 < self.old.calls.spare }
        requires few { self.old.begun < 2 ^ 63 }
        ensures replies { KeepsReplies self.old self.new }
        ensures taken { (config : Config) (v : View) (of : Call) (round : Round) → BoardMatches config self.old v → IsNext config v of → cell ≡ of.cell →
            BeginsBy config of.id round new → IsPlanOf config [] round plan →
            BoardMatches config self.new (with_new_call v (record { of = of; rounds = round ∷ []; first = now; last = now; due = None })) }
        ensures shape { list_any (λ live. bytes_eq live.id.list new.id.list) self.old.calls.list ≡ false → NewTakesIn new cell plan self.old self.new }
    {
        let NewCall {
            id,
            key,
            mut dialog,
        } = new;
        dialog.apply(plan);
        let begun = LiveCall {
            number: self.begun,
            cell,
            id,
            dialog,
            first_moment: now,
            last_moment: now,
            due_moment: None,
        };
        self.calls.push(key, begun);
        self.begun += 1;
        mark_cell(self.taken.as_mut_slice(), cell, true);
    }

    /// Takes in a plan at the moment `now`, in milliseconds: that of an offer once its pairs are leased and it is filled, that of
    /// an answer. It takes no memory. Since the plan was made nothing changed the board but its leases, draws and kept replies,
    /// and fewer than 2^63 calls were begun.
    ///
    /// The board numbers a call that begins by its own count of calls: the order of numbers is its invariant, and that the plan's
    /// number is that one is known only by the history.
    pub fn apply(&mut self, plan: BoardPlan, now: u64)
        requires { MayApply self.old plan plan.begun }
        ensures replies { KeepsReplies self.old self.new }
        ensures taken { (config : Config) (v : View) (of : Call) (round : Round) → BoardMatches config self.old v → TakesRoundIn config v of round plan plan.begun →
            BoardMatches config self.new (taken_in v of round now plan plan.begun) }
        ensures shape { TakesPlanIn plan plan.begun self.old self.new }
    {
        let BoardPlan {
            plan,
            call,
            cell,
            begun,
            leases: _,
        } = plan;
        match begun {
            Some(new) => self.begin(new, plan, cell, now),
            None => self.go_on(plan, call, now),
        }
    }
}
