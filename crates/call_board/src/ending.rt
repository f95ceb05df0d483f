//! Calls that are ending.

ghost use Rattle.std.specs.Prelude.{◌≡◌, Some};
ghost use Rattle.relay_outside.specs.declared.settings.Config.{Config};
ghost use Rattle.call_board.specs.Calls.{is_due_by};
ghost use Rattle.call_board.specs.Views.{View, CallView, call_numbered};
ghost use Rattle.call_board.specs.Boards.{BoardMatches, IsLive, KeepsReplies};
ghost use Rattle.call_board.specs.Whole.{with_due_call};
ghost use Rattle.call_board.specs.Shapes.{board_shape};

use crate::board::Board;

impl Board {
    /// Has a live call end at the moment `due`, in milliseconds, or earlier if that is due already. Until a tick ends it the call stays
    /// live, keeps its pairs and takes no offer or answer. It takes no memory.
    pub fn mark_ending(&mut self, call: u64, due: u64)
        requires { IsLive self.old call }
        ensures shows { (config : Config) (v : View) → BoardMatches config self.old v → BoardMatches config self.new (with_due_call call due v) }
        ensures replies { KeepsReplies self.old self.new }
        ensures shape { board_shape self.new ≡ board_shape self.old }
    {
        let place = self.place(call);
        self.calls.mark_ending(place, due);
    }

    /// Whether a live call is ending and its due moment is at most `now`, in milliseconds.
    pub fn is_due(&self, call: u64, now: u64) -> bool
        requires { IsLive self.now call }
        ensures { (config : Config) (v : View) (c : CallView) → BoardMatches config self.now v → call_numbered v call ≡ Some c → result ≡ is_due_by now c.due }
    {
        match self.live(call).due_moment {
            Some(due) => due <= now,
            None => false,
        }
    }
}
