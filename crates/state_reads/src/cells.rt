//! The value of a cell.
ghost use Rattle.std.specs.Prelude.{◌≡◌, ◌↔◌, IsTrue, IfOk, IfSome, IfNone};
ghost use Rattle.call_cell.specs.declared.saved.CellSaved.{CellSaved};
ghost use Rattle.ng_bencode.specs.Tree.{tree_of};
ghost use Rattle.state_values.specs.CellTrees.{cell_tree, FitsCellSaved};
ghost use Rattle.state_reads.specs.Bounds.{CellCounts};
ghost use Rattle.state_reads.specs.Texts.{IsCellText};

use crate::ranges::{legs_count, legs_fit};
use crate::texts::value_of_text;
use call_cell::CellSaved;
use ng_bencode::Value;
use relay_outside::OutOfMemory;
use state_values::read_cell;
use std::alloc::Global;

/// Whether it is a cell, with no count and no generation of 2^62 or more.
fn cell_stands(saved: &CellSaved) -> bool
    ensures { IsTrue result ↔ CellCounts saved.now }
{
    saved.is_cell() && legs_count(&saved.legs)
}

/// The cell that is read of the value.
fn cell_of_value(alloc: Global, value: &Value) -> Result<Option<CellSaved>, OutOfMemory>
    ensures some { IfOk result (λ read. IfSome read (λ saved. tree_of value.now ≡ cell_tree saved)) }
    ensures counts { IfOk result (λ read. IfSome read CellCounts) }
    ensures none { IfOk result (λ read. IfNone read ((saved : CellSaved) → FitsCellSaved saved → tree_of value.now ≡ cell_tree saved → CellCounts saved → ⊥)) }
{
    let Some(saved) = read_cell(alloc, value)? else {
        return Ok(None);
    };
    legs_fit(&saved.legs);
    if cell_stands(&saved) {
        Ok(Some(saved))
    } else {
        Ok(None)
    }
}

/// The cell that this text is. `None`: it is none, or a count or a generation of a leg is 2^62 or more.
pub fn cell_of_text(alloc: Global, text: &[u8]) -> Result<Option<CellSaved>, OutOfMemory>
    ensures some { IfOk result (λ read. IfSome read (IsCellText text.now)) }
    ensures none { IfOk result (λ read. IfNone read ((saved : CellSaved) → FitsCellSaved saved → IsCellText text.now saved → ⊥)) }
{
    let Some(value) = value_of_text(alloc, text)? else {
        return Ok(None);
    };
    cell_of_value(alloc, &value)
}
