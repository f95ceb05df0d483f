//! What the places of the relay hold.

use call_board::Board;
use call_cell::Cell;
use port_pool::PairBox;

/// What a place holds: the board at place 0, then a cell for each call that may be live, then the box of each port pair.
#[derive(Drop)]
pub enum Part<I, O> {
    /// The board.
    Board(Board),
    /// A call's cell.
    Cell(Cell<O>),
    /// The box of a port pair.
    Pair(PairBox<I>),
}
