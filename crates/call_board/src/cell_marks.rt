//! Which cells are taken.

ghost use Rattle.std.specs.Prelude.{◌≡◌, ◌≤◌, ◌-◌, slice_set};

/// Says of a cell, from 1, whether a live call has it. A number that no cell has, as 0, changes nothing.
pub(crate) fn mark_cell(taken: &mut [bool], cell: u32, is_taken: bool)
    ensures cell { 1 ≤ cell → taken.new ≡ slice_set taken.old (cell - 1) is_taken }
    ensures none { cell ≡ 0 → taken.new ≡ taken.old }
{
    if cell == 0 {
        return;
    }
    let place = cell as usize - 1;
    if place < taken.len() {
        taken[place] = is_taken;
    }
}
