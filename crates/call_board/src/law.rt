ghost use Rattle.std.specs.Prelude.{◌≡◌, List, ◌∷◌};
ghost use Rattle.relay_outside.specs.declared.settings.Config.{Config};
ghost use Rattle.call_board.specs.Acts.{BoardEntry};
ghost use Rattle.call_board.specs.Fits.{FitsBoard, IsFitting};
ghost use Rattle.call_board.specs.Views.{view_of};
ghost use Rattle.call_board.specs.Whole.{IsTimely, view_after};
ghost use Rattle.call_board.specs.declared.board.Board.{Board};
ghost use Rattle.call_board.specs.Boards.{BoardFor};
ghost use Rattle.call_board.specs.Shapes.{board_shape};
ghost use Rattle.call_board.specs.ShapeViews.{ShapeShows};
ghost use Rattle.call_board.specs.Futures.{OneBoardLives, OneBoardAnswers, OneBoardDemands, OneBoardFits, OneBoardGoesOn};

/// Theorem (no run-time code): what the calls of the board make together of what it keeps, in the turn of an entry that the history
/// demands, is what there is to keep of the history with that entry.
pub fn changes_are_entries()
    ensures { (config : Config) (h : List BoardEntry) (e : BoardEntry) → IsFitting config h → FitsBoard config h e → IsTimely h e →
        view_of config (e ∷ h) ≡ view_after h e (view_of config h) }
{}

/// Theorem (no run-time code): two histories that one board stands for have one future. They have the same live calls; a datagram gets
/// the same reply after both, does the same and demands the same; and an entry that one of them demands the other one demands. A board
/// that stands for one of them with such an entry stands for the other with it, where the entry gives back the same pairs in the same
/// order: a board doesn't tell in which order the legs of a call were leased.
pub fn one_board_has_one_future()
    ensures lives { OneBoardLives }
    ensures answers { OneBoardAnswers }
    ensures demands { OneBoardDemands }
    ensures fits { OneBoardFits }
    ensures goes_on { OneBoardGoesOn }
{}

/// Theorem (no run-time code): the shape of a board that stands for a history has the number of the next call and of the next key, the
/// numbers and cells of the live calls, the free pairs and the generations that there are after that history.
pub fn shapes_show_histories()
    ensures { (config : Config) (board : Board) (h : List BoardEntry) → BoardFor config board h →
        ShapeShows config (view_of config h) (board_shape board) }
{}
