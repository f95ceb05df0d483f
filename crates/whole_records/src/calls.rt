//! Calls and their cells.

ghost use Rattle.std.specs.Prelude.{◌≡◌, ◌↔◌, ◌<◌, true, false, Some, IsTrue, IfOk, length};
ghost use Rattle.call_board.specs.Shapes.{with_mark};
ghost use Rattle.call_cell.specs.Shapes.{ended_shape};
ghost use Rattle.call_shapes.specs.WholeRelay.{AreMarked, cells_of_calls};
ghost use Rattle.whole_records.specs.SavedShapes.{saved_cell_shape, saved_cell_at, saved_live_shapes};
ghost use Rattle.whole_records.specs.RecordParts.{CellHolds, CallsHold, OthersAreEmpty};

use crate::legs::are_leased;
use crate::sections::{counts_agree, sections_hold};
use call_board::CallSaved;
use call_cell::CellSaved;
use relay_outside::{Config, OutOfMemory};
use std::alloc::Global;

/// Whether two configurations are the same.
fn is_same(a: &Config, b: &Config) -> bool
    ensures { IsTrue result ↔ (a.now ≡ b.now) }
{
    *a == *b
}

/// Whether the cell holds the call of this number.
fn is_call(call: Option<u64>, number: u64) -> bool
    ensures { IsTrue result ↔ (call ≡ Some number) }
{
    match call {
        None => false,
        Some(held) => held == number,
    }
}

/// Whether the cell holds the call, dialog and cell agree, and its legs have the last leases of their pairs.
fn cell_holds(config: &Config, generations: &[u64], call: &CallSaved, cell: &CellSaved) -> bool
    ensures { IsTrue result ↔ CellHolds config.now generations.now call.now (saved_cell_shape cell.now) }
{
    if !is_same(&cell.config, config) || !is_call(cell.call, call.number) {
        return false;
    }
    if !are_leased(config, generations, call.cell, call.number, &cell.legs) {
        return false;
    }
    sections_hold(config, &call.dialog, &cell.legs) && counts_agree(&call.dialog)
}

/// The same of the cell with the call's number, where there is one.
fn call_holds(config: &Config, generations: &[u64], call: &CallSaved, cells: &[CellSaved]) -> bool
    ensures { IsTrue result ↔ CellHolds config.now generations.now call.now (saved_cell_at config.now cells.now call.now.cell) }
{
    let cell = call.cell as usize;
    if cell == 0 || cell > cells.len() {
        return false;
    }
    cell_holds(config, generations, call, &cells[cell - 1])
}

/// The same of all calls.
pub(crate) fn calls_hold(
    config: &Config,
    generations: &[u64],
    calls: &[CallSaved],
    cells: &[CellSaved],
) -> bool
    ensures { IsTrue result ↔ CallsHold config.now generations.now calls.now cells.now }
{
    for call in calls {
        if !call_holds(config, generations, call, cells) {
            return false;
        }
    }
    true
}

/// Marks the cell, where there is one of this number.
fn mark_live(marks: &mut [bool], cell: u32)
    ensures { marks.new ≡ with_mark cell true marks.old }
{
    let place = cell as usize;
    if place == 0 || place > marks.len() {
        return;
    }
    marks[place - 1] = true;
}

/// For each of so many cells, from 1, whether it is that of a call.
pub(crate) fn live_cells(
    alloc: Global,
    count: usize,
    calls: &[CallSaved],
) -> Result<Vec<bool>, OutOfMemory>
    ensures { IfOk result (λ marks. AreMarked count marks.items (cells_of_calls (saved_live_shapes calls.now))) }
{
    let mut marks = Vec::from_elem(alloc, false, count)?;
    for call in calls {
        mark_live(&mut marks, call.cell);
    }
    Ok(marks)
}

/// Whether the cell has this configuration and is empty: it holds no call, none that an answer committed, and no leg.
fn is_empty(config: &Config, cell: &CellSaved) -> bool
    ensures { IsTrue result ↔ (saved_cell_shape cell.now ≡ ended_shape config.now) }
{
    if !is_same(&cell.config, config) || cell.call.is_some() {
        return false;
    }
    !cell.is_committed && cell.legs.is_empty()
}

/// Whether the cell is empty, where it is that of no call.
fn may_stay(config: &Config, is_live: bool, cell: &CellSaved) -> bool
    ensures { IsTrue result ↔ (is_live ≡ false → saved_cell_shape cell.now ≡ ended_shape config.now) }
{
    is_live || is_empty(config, cell)
}

/// Whether all cells without a mark are empty.
pub(crate) fn others_are_empty(config: &Config, marks: &[bool], cells: &[CellSaved]) -> bool
    requires { length marks.now ≡ length cells.now }
    ensures { IsTrue result ↔ OthersAreEmpty config.now marks.now cells.now }
{
    for place in 0..cells.len() {
        if !may_stay(config, marks[place], &cells[place]) {
            return false;
        }
    }
    true
}
