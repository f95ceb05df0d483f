//! All records of a node.

ghost use Rattle.std.specs.Prelude.{◌≡◌, true, false, IfOk};
ghost use Rattle.whole_records.specs.Records.{RecordsAgree};

use crate::calls::{calls_hold, live_cells, others_are_empty};
use crate::pairs::pairs_stand;
use call_board::CallSaved;
use call_cell::CellSaved;
use port_pool::PoolSaved;
use relay_outside::{Config, OutOfMemory};
use std::alloc::Global;

/// Whether the records of a pool, of the live calls and of all cells, from 1 in order, go together under the configuration. `Err`: there was no
/// memory for the marks of pairs and cells.
pub fn records_agree(
    alloc: Global,
    config: &Config,
    pool: &PoolSaved,
    calls: &[CallSaved],
    cells: &[CellSaved],
) -> Result<bool, OutOfMemory>
    ensures agree { IfOk result (λ agree. agree ≡ true → RecordsAgree config.now pool.now calls.now cells.now) }
    ensures differ { IfOk result (λ agree. agree ≡ false → RecordsAgree config.now pool.now calls.now cells.now → ⊥) }
{
    if cells.len() != config.max_sessions as usize {
        return Ok(false);
    }
    if !calls_hold(config, &pool.generations, calls, cells) {
        return Ok(false);
    }
    let marks = live_cells(alloc, cells.len(), calls)?;
    if !others_are_empty(config, &marks, cells) {
        return Ok(false);
    }
    pairs_stand(alloc, config, pool, calls, cells)
}
