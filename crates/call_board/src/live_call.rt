//! A live call.

ghost use Rattle.std.specs.Prelude.{◌≡◌, true};

use ng_bencode::Text;
use offer_answer::{Dialog, Plan};

/// A live call.
#[derive(Drop)]
pub struct LiveCall {
    /// Its number: no two calls have one.
    pub(crate) number: u64,
    /// Its cell, from 1: no two live calls have one.
    pub(crate) cell: u32,
    /// Its call-id.
    pub(crate) id: Text,
    /// The state that its accepted offers and answers lead to. It is boxed, so that a call is small where it stands among others.
    pub(crate) dialog: Box<Dialog>,
    /// The moment of the first of them, in milliseconds.
    pub(crate) first_moment: u64,
    /// The moment of the last of them.
    pub(crate) last_moment: u64,
    /// The moment from which a tick ends it. `None`: it isn't ending.
    pub(crate) due_moment: Option<u64>,
}

impl LiveCall {
    ghost use Rattle.relay_outside.specs.declared.settings.Config.{Config};
    ghost use Rattle.offer_answer.specs.Rounds.{Round};
    ghost use Rattle.offer_answer.specs.Sides.{is_begun};
    ghost use Rattle.call_board.specs.Views.{CallView, with_round, with_due};
    ghost use Rattle.call_board.specs.Boards.{CallFor};
    ghost use Rattle.call_board.specs.NextBoards.{IsPlanOf};
    ghost use Rattle.call_board.specs.Shapes.{DialogApplies, live_shape};

    /// Takes in one more offer or answer, at the moment `now`.
    pub(crate) fn go_on(&mut self, plan: Plan, now: u64)
        ensures taken { (config : Config) (c : CallView) (round : Round) → CallFor config self.old c → is_begun c.rounds ≡ true → IsPlanOf config c.rounds round plan →
            CallFor config self.new (with_round round now c) }
        ensures id { self.new.id ≡ self.old.id }
        ensures number { self.new.number ≡ self.old.number }
        ensures cell { self.new.cell ≡ self.old.cell }
        ensures applies { DialogApplies plan self.old.dialog.value self.new.dialog.value }
    {
        self.dialog.apply(plan);
        self.last_moment = now;
    }

    /// Has it end at the moment `due`, or earlier if that is due.
    pub(crate) fn mark_ending(&mut self, due: u64)
        ensures marked { (config : Config) (c : CallView) → CallFor config self.old c → CallFor config self.new (with_due due c) }
        ensures id { self.new.id ≡ self.old.id }
        ensures number { self.new.number ≡ self.old.number }
        ensures shape { live_shape self.new ≡ live_shape self.old }
    {
        self.due_moment = Some(match self.due_moment {
            Some(moment) => due.min(moment),
            None => due,
        });
    }
}
