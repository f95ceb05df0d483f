//! What it means that records go together.

ghost use Rattle.std.specs.Prelude.{◌≡◌, ◌≤◌, ℕ, true, List, length, Option};
ghost use Rattle.relay_outside.specs.declared.settings.Config.{Config};
ghost use Rattle.relay_outside.specs.Settings.{AreFamilies};
ghost use Rattle.histories.specs.Words.{In};
ghost use Rattle.port_pool.specs.declared.holder.Holder.{Holder};
ghost use Rattle.offer_answer.specs.declared.dialog.Dialog.{Dialog};
ghost use Rattle.offer_answer.specs.declared.saved.DialogSaved.{DialogSaved};
ghost use Rattle.offer_answer.specs.SavedDialogs.{DialogSaves};
ghost use Rattle.offer_answer.specs.Shapes.{dialog_shape};
ghost use Rattle.call_cell.specs.declared.leg.Leg.{Leg};
ghost use Rattle.call_cell.specs.declared.cell.Cell.{Cell};
ghost use Rattle.call_cell.specs.declared.saved.CellSaved.{CellSaved};
ghost use Rattle.call_cell.specs.SavedCells.{SavesCell};
ghost use Rattle.call_cell.specs.Shapes.{CellShape, cell_shape};
ghost use Rattle.call_board.specs.declared.live_call.LiveCall.{LiveCall};
ghost use Rattle.call_board.specs.declared.board.Board.{Board};
ghost use Rattle.call_board.specs.declared.saved_board.CallSaved.{CallSaved};
ghost use Rattle.call_board.specs.declared.saved_board.BoardSaved.{BoardSaved};
ghost use Rattle.call_board.specs.SavedBoards.{CallSaves, CallsSave, BoardSaves, WholeBoard};
ghost use Rattle.call_board.specs.Shapes.{live_shape, live_shapes, board_shape};
ghost use Rattle.call_shapes.specs.WholeRelay.{AreWhole, held_legs, holder_among};
ghost use Rattle.whole_records.specs.SavedShapes.{saved_dialog_shape, saved_live_shape, saved_live_shapes, saved_cell_shape, HaveEnds, AreSavedCells};
ghost use Rattle.whole_records.specs.Records.{RecordsAgree};

/// Theorem (no run-time code): the record of a dialog, of a live call and of live calls in order holds the shape of what is saved so.
pub fn records_hold_shapes()
    ensures dialog { (dialog : Dialog) (saved : DialogSaved) → DialogSaves dialog saved → dialog_shape dialog ≡ saved_dialog_shape saved }
    ensures call { (call : LiveCall) (saved : CallSaved) → CallSaves call saved → live_shape call ≡ saved_live_shape saved }
    ensures calls { (calls : List LiveCall) (saved : List CallSaved) → CallsSave calls saved → live_shapes calls ≡ saved_live_shapes saved }
{}

/// Theorem (no run-time code): the record of a cell holds the shape of each cell that is saved so and has all ends: of the loaded one, and of the
/// one that was saved as it was before its ends were taken.
pub fn cells_are_saved_with_their_shapes<O>()
    ensures { (cell : Cell O) (saved : CellSaved) → SavesCell cell saved → HaveEnds cell.legs.items → cell_shape cell ≡ saved_cell_shape saved }
{}

/// Theorem (no run-time code): where the records go together, so do the board that is loaded of them and the cells that have the shapes of their
/// records, with the boxes open just for the legs.
pub fn agreeing_records_are_whole()
    ensures { (config : Config) (board : Board) (saved : BoardSaved) (cells : List CellSaved) (places : ℕ → CellShape) → AreFamilies config → saved.config ≡ config →
        WholeBoard board → BoardSaves board saved → AreSavedCells config cells places → RecordsAgree config saved.pool saved.calls.items cells →
        AreWhole config (board_shape board) places (holder_among (held_legs places (board_shape board).calls)) }
{}

/// Theorem (no run-time code): where a board and as many cells as there are go together, whatever the boxes, so do the records that they are
/// saved as: nothing is refused that a node writes.
pub fn whole_is_saved_agreeing()
    ensures { (config : Config) (board : Board) (saved : BoardSaved) (cells : List CellSaved) (places : ℕ → CellShape) (holders : ℕ → Option Holder) →
        AreWhole config (board_shape board) places holders → BoardSaves board saved → AreSavedCells config cells places → length cells ≡ config.max_sessions →
        RecordsAgree config saved.pool saved.calls.items cells }
{}
