//! The cell of a call: asked whether its call is due, asked what is told of its legs, and ended.
ghost use Rattle.std.specs.Prelude.{◌≡◌, ◌≤◌, [], ◌∷◌, map};
ghost use Rattle.board_turns.specs.BoardTurns.{CanNest, MakesNested, Nests, hand_list};
ghost use Rattle.histories.specs.Words.{In};
ghost use Rattle.port_pool.specs.declared.reports.LegReport.{LegReport};
ghost use Rattle.port_pool.specs.Reports.{CountsFit};
ghost use Rattle.call_cell.specs.Cells.{Expire, Read, End};
ghost use Rattle.call_cell.specs.Shapes.{CellLegShape, IsSmall};
ghost use Rattle.relay_core.specs.Entries.{Cell};
ghost use Rattle.relay_core.specs.PlaceHistories.{GoneHome};
ghost use Rattle.board_turns.specs.NestedSteps.{gone_left, AddsRow};
ghost use Rattle.board_turns.specs.InCells.{HasNewKeys, in_cell_of, Ends, Expires, Reads};
ghost use Rattle.board_turns.specs.Closings.{leases_of_legs};
ghost use Rattle.board_turns.specs.Departures.{AllHaveEnds, AllRemoved, cell_kept};

use crate::board_turn::MainHand;
use crate::puts::put_step;
use call_cell::{Gone, LegReports};
use relay_core::{Part, Relay};
use relay_outside::{Config, InEnd, OutEnd};
use std::marker::Brand;
use std::sync::Wait;

/// The place of a cell, after the board.
pub(crate) fn cell_place(config: &Config, cell: u32) -> usize
    requires { cell ≤ config.now.max_sessions }
    ensures { result ≡ cell }
{
    prove!(cell <= config.max_sessions);
    cell as usize
}

/// Ends the call of a cell: the legs that it had go to `gone`, which is empty. Cells are numbered from 1.
pub fn end_cell<I: InEnd, O: OutEnd, R: Wait>(
    rt: &R,
    main: &mut MainHand<I, O>,
    cell: u32,
    gone: &mut Gone<O>,
)
    requires may { CanNest main.old }
    requires cell { (1 ≤ cell) × (cell ≤ main.old.config.now.max_sessions) }
    requires small { IsSmall (cell_kept main.old.config.now main.old.hand.now cell).legs }
    requires empty { gone.old ≡ [] }
    ensures nests { Nests main.old main.new }
    ensures gained { MakesNested (in_cell_of cell End ∷ []) main.old main.new }
    ensures row { AddsRow cell (Cell End) (gone_left O.log gone.new) main.old.hand.now main.new.hand.now }
    ensures ended { HasNewKeys (hand_list main.old) cell → Ends I.log I.faults O.log O.faults main.old.config.now main.old.hand.now cell gone.new }
    ensures went { HasNewKeys (hand_list main.old) cell → AllRemoved main.old.config.now (hand_list main.old) cell gone.new }
    ensures left { let kept = cell_kept main.old.config.now main.old.hand.now cell in AllHaveEnds kept →
        leases_of_legs gone.new ≡ map (λ (leg : CellLegShape). leg.lease) kept.legs }
    ensures home { GoneHome O.log main.old.config.now gone.new }
{
    let mut step = main
        .turns
        .turn(rt, main.hand, cell_place(main.config, cell));
    let held = match step.state() {
        Part::Cell(held) => held,
        Part::Board(_) => unreachable!(),
        Part::Pair(_) => unreachable!(),
    };
    held.end(gone);
    put_step::<I, O, (), Gone<O>, Brand>(main.turns, main.hand, step, main.entry_id, &(), gone);
}

/// Whether the call of a cell is due to end at the moment of the board's entry. Nothing changes but the cell's last moment.
/// Cells are numbered from 1.
pub fn expire_cell<I: InEnd, O: OutEnd, R: Wait>(
    rt: &R,
    main: &mut MainHand<I, O>,
    cell: u32,
) -> bool
    requires may { CanNest main.old }
    requires cell { (1 ≤ cell) × (cell ≤ main.old.config.now.max_sessions) }
    ensures nests { Nests main.old main.new }
    ensures gained { MakesNested (in_cell_of cell (Expire result) ∷ []) main.old main.new }
    ensures asked { HasNewKeys (hand_list main.old) cell → Expires I.log I.faults O.log O.faults main.old.config.now main.old.hand.now cell main.old.entry_id.moment result }
{
    let mut step = main
        .turns
        .turn(rt, main.hand, cell_place(main.config, cell));
    let held = match step.state() {
        Part::Cell(held) => held,
        Part::Board(_) => unreachable!(),
        Part::Pair(_) => unreachable!(),
    };
    let due = held.expire(main.entry_id.moment);
    put_step::<I, O, bool, (), Brand>(main.turns, main.hand, step, main.entry_id, &due, &());
    due
}

/// Puts a report of each leg of the cell's committed sections in place of what `out` had, by section and then side A first.
/// Nothing else changes. Cells are numbered from 1.
pub fn read_cell<I: InEnd, O: OutEnd, R: Wait>(
    rt: &R,
    main: &mut MainHand<I, O>,
    cell: u32,
    out: &mut LegReports,
)
    requires may { CanNest main.old }
    requires cell { (1 ≤ cell) × (cell ≤ main.old.config.now.max_sessions) }
    requires keys { HasNewKeys (hand_list main.old) cell }
    ensures nests { Nests main.old main.new }
    ensures gained { MakesNested (in_cell_of cell (Read out.new) ∷ []) main.old main.new }
    ensures log { Reads I.log I.faults O.log O.faults main.old.config.now main.old.hand.now cell out.new }
    ensures counts { (report : LegReport) → In report out.new → CountsFit report }
{
    let mut step = main
        .turns
        .turn(rt, main.hand, cell_place(main.config, cell));
    let held = match step.state() {
        Part::Cell(held) => held,
        Part::Board(_) => unreachable!(),
        Part::Pair(_) => unreachable!(),
    };
    held.read_legs(out);
    put_step::<I, O, LegReports, (), Brand>(main.turns, main.hand, step, main.entry_id, out, &());
}
