//! The live calls of a node's board.
ghost use Rattle.std.specs.Prelude.{◌≡◌, ◌<◌, Some, length, option_map, slice_get};
ghost use Rattle.call_board.specs.Shapes.{LiveShape};
ghost use Rattle.hand_over.specs.Closings.{calls_there, live_calls};
ghost use Rattle.hand_over.specs.ClosingSteps.{HoldsBoard, HasBoard};

use relay_core::Part;

/// How many calls of the board are live.
fn count_of_part<I, O>(held: &Part<I, O>) -> usize
    requires { HoldsBoard held.now }
    ensures { result ≡ length (calls_there (Some held.now)) }
{
    match held {
        Part::Board(board) => board.live_count(),
        Part::Cell(_) => unreachable!(),
        Part::Pair(_) => unreachable!(),
    }
}

/// How many calls are live.
pub(crate) fn live_count<I, O>(parts: &[Part<I, O>]) -> usize
    requires within { 0 < length parts.now }
    requires board { HasBoard parts.now }
    ensures { result ≡ length (live_calls parts.now) }
{
    count_of_part(&parts[0])
}

/// The cell of a live call of the board, by the call's place in the order of creation.
fn cell_of_part<I, O>(held: &Part<I, O>, index: usize) -> u32
    requires board { HoldsBoard held.now }
    requires index { index < length (calls_there (Some held.now)) }
    ensures { option_map (λ (call : LiveShape). call.cell) (slice_get (calls_there (Some held.now)) index) ≡ Some result }
{
    match held {
        Part::Board(board) => board.cell_at(index),
        Part::Cell(_) => unreachable!(),
        Part::Pair(_) => unreachable!(),
    }
}

/// The cell of a live call, by the call's place in the order of creation.
pub(crate) fn cell_of_call<I, O>(parts: &[Part<I, O>], index: usize) -> u32
    requires within { 0 < length parts.now }
    requires board { HasBoard parts.now }
    requires index { index < length (live_calls parts.now) }
    ensures { option_map (λ (call : LiveShape). call.cell) (slice_get (live_calls parts.now) index) ≡ Some result }
{
    cell_of_part(&parts[0], index)
}
