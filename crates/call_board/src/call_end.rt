//! Ending a call.

ghost use Rattle.std.specs.Prelude.{◌≡◌, ℕ, List, Some, option_map};
ghost use Rattle.relay_outside.specs.declared.settings.Config.{Config};
ghost use Rattle.call_board.specs.Views.{View, CallView, without_call, call_numbered};
ghost use Rattle.call_board.specs.Boards.{BoardMatches, IsLive, CellsApart, KeepsReplies};
ghost use Rattle.call_board.specs.Shapes.{board_shape, ShapeEnds};

use crate::board::Board;
use crate::cell_marks::mark_cell;

impl Board {
    /// Ends a live call, and returns its cell, from 1. Its pairs stay leased until they are given back. It takes no memory.
    pub fn end_call(&mut self, call: u64) -> u32
        requires { IsLive self.old call }
        ensures shows { (config : Config) (v : View) → BoardMatches config self.old v → CellsApart v.calls → BoardMatches config self.new (without_call v call) }
        ensures cell { (config : Config) (v : View) → BoardMatches config self.old v → option_map (λ (c : CallView). c.of.cell) (call_numbered v call) ≡ Some result }
        ensures replies { KeepsReplies self.old self.new }
        ensures shape { ShapeEnds call result (board_shape self.old) (board_shape self.new) }
    {
        let place = self.place(call);
        let ended = self.calls.remove(place);
        mark_cell(self.taken.as_mut_slice(), ended.cell, false);
        ended.cell
    }
}
