//! Which calls are live.
ghost use Rattle.std.specs.Prelude.{◌≡◌, map, take, IfOk};
ghost use Rattle.relay_outside.specs.declared.settings.Config.{Config};
ghost use Rattle.ng_bencode.specs.Row.{list_in};
ghost use Rattle.ng_bencode.specs.Tree.{Bytes, tree_of};
ghost use Rattle.call_board.specs.Views.{CallView, View};
ghost use Rattle.call_board.specs.Boards.{BoardMatches};
ghost use Rattle.call_board.specs.Reports.{listing_tree};

use crate::values::put_item;
use call_board::Board;
use ng_bencode::{Pairs, Text, Value, Values};
use ng_reply::{put_pair, put_text};
use relay_outside::OutOfMemory;
use std::alloc::Global;

/// The listing of the live calls, as the reply to a list has it: a dictionary with `calls`, the call-ids of the first `limit` calls in
/// order of creation, and `result`. It takes as many steps as it lists calls.
///
/// # Errors
///
/// There was no memory for the listing.
pub fn list(alloc: Global, board: &Board, limit: u32) -> Result<Value, OutOfMemory>
    ensures { (config : Config) (v : View) → BoardMatches config board.now v →
        IfOk result (λ value. tree_of value ≡ listing_tree (take limit (map (λ (c : CallView). c.of.id) v.calls))) }
{
    let call_ids = call_ids(alloc, board, limit)?;
    let mut pairs = Pairs::new(alloc);
    put_pair(alloc, &mut pairs, b"calls", Value::list(call_ids))?;
    put_text(alloc, &mut pairs, b"result", b"ok")?;
    Ok(Value::dict(pairs))
}

/// The call-ids of the first `limit` live calls, in order of creation.
fn call_ids(alloc: Global, board: &Board, limit: u32) -> Result<Values, OutOfMemory>
    ensures { (config : Config) (v : View) → BoardMatches config board.now v →
        IfOk result (λ values. map tree_of (list_in values) ≡ map Bytes (take limit (map (λ (c : CallView). c.of.id) v.calls))) }
{
    let count = board.live_count().min(limit as usize);
    let mut call_ids = Values::new(alloc);
    'calls: for index in 0..count {
        let Ok(call_id) = Text::copy_of(alloc, board.call_id_at(index)) else {
            return Err(OutOfMemory);
        };
        put_item(&mut call_ids, Value::bytes(call_id))?;
    }
    Ok(call_ids)
}
