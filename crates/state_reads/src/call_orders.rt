//! What tells live calls apart.
ghost use Rattle.std.specs.Prelude.{◌≡◌, ◌↔◌, ◌+◌, IsTrue, IfOk, All};
ghost use Rattle.std.specs.List.{list_any};
ghost use Rattle.std.specs.Str.{bytes_eq};
ghost use Rattle.port_pool.specs.Pools.{AreFree, AreFrom};
ghost use Rattle.call_board.specs.SavedBoards.{IdsApart};
ghost use Rattle.state_reads.specs.Calls.{saved_numbers, saved_cells, saved_ids, AreRising, AreCellsOf, CallsStand, CallRanges};

use call_board::CallSaved;
use relay_outside::OutOfMemory;
use std::alloc::{AllocError, Global};

/// Whether their numbers rise below that of the next call.
fn numbers_rise(begun: u64, calls: &[CallSaved]) -> bool
    ensures { IsTrue result ↔ AreRising 0 (saved_numbers calls.now) begun }
{
    let mut next = 0;
    for call in calls {
        if call.number < next || call.number >= begun {
            return false;
        }
        next = call.number + 1;
    }
    true
}

/// Whether one of them has this call-id.
fn has_id(id: &[u8], calls: &[CallSaved]) -> bool
    ensures { result ≡ list_any (λ other. bytes_eq other id.now) (saved_ids calls.now) }
{
    for call in calls {
        if call.id.as_slice() == id {
            return true;
        }
    }
    false
}

/// Whether no two have one call-id.
fn ids_apart(calls: &[CallSaved]) -> bool
    ensures { IsTrue result ↔ IdsApart (saved_ids calls.now) }
{
    let mut at = 0;
    'calls: while at < calls.len() {
        if has_id(calls[at].id.as_slice(), &calls[at + 1..]) {
            return false;
        }
        at += 1;
    }
    true
}

/// Their cells, in order.
fn cells_of(alloc: Global, calls: &[CallSaved]) -> Result<Vec<u32>, AllocError>
    ensures { IfOk result (λ cells. cells.items ≡ saved_cells calls.now) }
{
    let mut cells = Vec::new(alloc);
    for call in calls {
        cells.push(call.cell)?;
    }
    Ok(cells)
}

/// Whether these are numbers from 1 on and below the end, each once.
fn are_once(alloc: Global, end: usize, cells: &[u32]) -> Result<bool, AllocError>
    ensures { IfOk result (λ are. IsTrue are ↔ (AreFree end cells.now × AreFrom 1 cells.now)) }
{
    let mut marks = Vec::from_elem(alloc, false, end)?;
    'cells: for it in cells {
        let cell = *it;
        if cell < 1 || cell as usize >= end || marks[cell as usize] {
            return Ok(false);
        }
        marks[cell as usize] = true;
    }
    Ok(true)
}

/// Whether each has a cell of its own, of so many.
fn cells_apart(alloc: Global, count: u32, calls: &[CallSaved]) -> Result<bool, OutOfMemory>
    ensures { IfOk result (λ are. IsTrue are ↔ AreCellsOf count (saved_cells calls.now)) }
{
    let cells = cells_of(alloc, calls)?;
    let once = are_once(alloc, count as usize + 1, &cells)?;
    Ok(once)
}

/// Whether a board that began so many calls, and has so many cells, has these. It takes memory for a mark of each cell.
pub(crate) fn calls_stand(
    alloc: Global,
    begun: u64,
    count: u32,
    calls: &[CallSaved],
) -> Result<bool, OutOfMemory>
    ensures { IfOk result (λ stand. IsTrue stand ↔ CallsStand begun count (saved_numbers calls.now) (saved_cells calls.now) (saved_ids calls.now)) }
{
    if !numbers_rise(begun, calls) || !ids_apart(calls) {
        return Ok(false);
    }
    cells_apart(alloc, count, calls)
}

/// Their numbers and cells are in the ranges of their types (no run-time use).
pub(crate) fn calls_fit(calls: &[CallSaved])
    ensures { All CallRanges calls.now }
{
    for call in calls {
        call_fits(call);
    }
}

/// The same of one (no run-time use).
fn call_fits(call: &CallSaved)
    ensures { CallRanges call.now }
{
    let _number = call.number;
    let _cell = call.cell;
}
