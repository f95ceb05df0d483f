//! The third value: the live calls.
ghost use Rattle.std.specs.Prelude.{◌≡◌, List, All, IfOk, IfSome, IfNone};
ghost use Rattle.call_board.specs.declared.saved_board.CallSaved.{CallSaved};
ghost use Rattle.ng_bencode.specs.Tree.{tree_of};
ghost use Rattle.state_values.specs.CallTrees.{calls_tree, FitsCallSaved};
ghost use Rattle.state_reads.specs.Calls.{saved_numbers, saved_cells, saved_ids, CallsStand, IsCallsText, AreCallsOf};

use crate::call_orders::{calls_fit, calls_stand};
use crate::texts::value_of_text;
use call_board::CallSaved;
use ng_bencode::Value;
use relay_outside::OutOfMemory;
use state_values::read_calls;
use std::alloc::Global;

/// The live calls that are read of the value.
fn calls_of_value(
    alloc: Global,
    begun: u64,
    count: u32,
    value: &Value,
) -> Result<Option<Vec<CallSaved>>, OutOfMemory>
    ensures some { IfOk result (λ read. IfSome read (λ calls. tree_of value.now ≡ calls_tree calls.items)) }
    ensures stand { IfOk result (λ read. IfSome read (λ calls.
        CallsStand begun count (saved_numbers calls.items) (saved_cells calls.items) (saved_ids calls.items))) }
    ensures none { IfOk result (λ read. IfNone read ((calls : List CallSaved) → All FitsCallSaved calls → tree_of value.now ≡ calls_tree calls →
        CallsStand begun count (saved_numbers calls) (saved_cells calls) (saved_ids calls) → ⊥)) }
{
    let Some(calls) = read_calls(alloc, value)? else {
        return Ok(None);
    };
    calls_fit(&calls);
    if calls_stand(alloc, begun, count, &calls)? {
        Ok(Some(calls))
    } else {
        Ok(None)
    }
}

/// The live calls that this text is, of a board that began so many calls, and has so many cells. `None`: it is none of such a board: their numbers
/// don't rise below that of the next call, a call-id or a cell stands twice, or a cell is none.
pub fn calls_of_text(
    alloc: Global,
    begun: u64,
    count: u32,
    text: &[u8],
) -> Result<Option<Vec<CallSaved>>, OutOfMemory>
    ensures some { IfOk result (λ read. IfSome read (AreCallsOf begun count text.now)) }
    ensures none { IfOk result (λ read. IfNone read ((calls : List CallSaved) → All FitsCallSaved calls → IsCallsText begun count text.now calls → ⊥)) }
{
    let Some(value) = value_of_text(alloc, text)? else {
        return Ok(None);
    };
    calls_of_value(alloc, begun, count, &value)
}
