//! The cell of a call: prepared by an offer, and committed by an answer.
ghost use Rattle.std.specs.Prelude.{◌≡◌, ◌≤◌, [], ◌∷◌};
ghost use Rattle.board_turns.specs.BoardTurns.{CanNest, MakesNested, Nests, hand_list};
ghost use Rattle.histories.specs.Words.{has};
ghost use Rattle.port_pool.specs.Signals.{is_rejected};
ghost use Rattle.call_cell.specs.Cells.{Commit};
ghost use Rattle.call_cell.specs.Preparations.{IsReady, PrepareFor, prepared_keys, drops_of};
ghost use Rattle.relay_core.specs.Entries.{Cell};
ghost use Rattle.relay_core.specs.PlaceHistories.{GoneHome};
ghost use Rattle.relay_core.specs.Steps.{AreOpened};
ghost use Rattle.board_turns.specs.NestedSteps.{gone_left, AddsRow};
ghost use Rattle.board_turns.specs.OfferEvents.{brings};
ghost use Rattle.board_turns.specs.InCells.{HasNewKeys, in_cell_of, CanPrepare, CanCommit, HasSpace, Prepares, Commits};
ghost use Rattle.board_turns.specs.Closings.{leases_of_legs};
ghost use Rattle.board_turns.specs.Departures.{AllHaveEnds, DroppedRemoved, RejectedRemoved, cell_kept, leases_going};

use crate::board_turn::MainHand;
use crate::cells::cell_place;
use crate::puts::put_step;
use call_cell::{Gone, InContexts, Prepare};
use port_pool::Signal;
use relay_core::{Part, Relay};
use relay_outside::{InEnd, OutEnd};
use std::marker::Brand;
use std::snapshot::Snapshot;
use std::sync::Wait;

/// Takes into a cell what an offer brings to the call with this number. The legs of the sections that it drops go to `gone`, which
/// is empty. The out ends of its legs were opened for the ports of their pairs, and not called since. Cells are numbered from 1.
/// Ends that were called could have lists that begin with sends that are no relay's, or stand at another port.
pub fn prepare_cell<I: InEnd, O: OutEnd, R: Wait>(
    rt: &R,
    main: &mut MainHand<I, O>,
    cell: u32,
    call: u64,
    signal: Prepare<O>,
    gone: &mut Gone<O>,
)
    requires may { CanNest main.old }
    requires cell { (1 ≤ cell) × (cell ≤ main.old.config.now.max_sessions) }
    requires keys { HasNewKeys (hand_list main.old) cell }
    requires tells { PrepareFor signal (prepared_keys signal) (drops_of signal) }
    requires comes { CanPrepare main.old.config.now (hand_list main.old) cell signal call (prepared_keys signal) (drops_of signal) }
    requires ready { IsReady signal }
    requires opened { AreOpened O.log main.old.config.now signal }
    requires empty { gone.old ≡ [] }
    ensures nests { Nests main.old main.new }
    ensures gained { MakesNested (in_cell_of cell (brings call signal) ∷ []) main.old main.new }
    ensures row { AddsRow cell (Cell (brings call signal)) (gone_left O.log gone.new) main.old.hand.now main.new.hand.now }
    ensures prepared { Prepares I.log I.faults O.log O.faults main.old.config.now main.old.hand.now cell signal call (prepared_keys signal) (drops_of signal) main.old.entry_id.moment gone.new }
    ensures went { DroppedRemoved main.old.config.now (hand_list main.old) cell (drops_of signal) gone.new }
    ensures left { let kept = cell_kept main.old.config.now main.old.hand.now cell in AllHaveEnds kept →
        leases_of_legs gone.new ≡ leases_going (λ leg. has (drops_of signal) leg.section) kept }
    ensures home { GoneHome O.log main.old.config.now gone.new }
{
    let brought = Snapshot::of(&signal);
    let mut step = main
        .turns
        .turn(rt, main.hand, cell_place(main.config, cell));
    let held = match step.state() {
        Part::Cell(held) => held,
        Part::Board(_) => unreachable!(),
        Part::Pair(_) => unreachable!(),
    };
    held.prepare(call, signal, gone, main.entry_id.moment);
    put_step::<I, O, (u64, Snapshot<Prepare<O>>), Gone<O>, Brand>(
        main.turns,
        main.hand,
        step,
        main.entry_id,
        &(call, brought),
        gone,
    );
}

/// Commits in a cell what an answer says of the call's legs. The legs of the sections that it rejects go to `gone`, which is
/// empty. `contexts` has room for each inbound key or suite other than the one in force, or for each inbound key that the answer
/// names. Cells are numbered from 1.
pub fn commit_cell<I: InEnd, O: OutEnd, R: Wait>(
    rt: &R,
    main: &mut MainHand<I, O>,
    cell: u32,
    signal: &Signal,
    contexts: InContexts,
    gone: &mut Gone<O>,
)
    requires may { CanNest main.old }
    requires cell { (1 ≤ cell) × (cell ≤ main.old.config.now.max_sessions) }
    requires keys { HasNewKeys (hand_list main.old) cell }
    requires names { CanCommit (hand_list main.old) cell signal.now }
    requires room { HasSpace (hand_list main.old) cell signal.now contexts }
    requires empty { gone.old ≡ [] }
    ensures nests { Nests main.old main.new }
    ensures gained { MakesNested (in_cell_of cell (Commit signal.now) ∷ []) main.old main.new }
    ensures row { AddsRow cell (Cell (Commit signal.now)) (gone_left O.log gone.new) main.old.hand.now main.new.hand.now }
    ensures committed { Commits I.log I.faults O.log O.faults main.old.config.now main.old.hand.now cell signal.now main.old.entry_id.moment gone.new }
    ensures went { RejectedRemoved main.old.config.now (hand_list main.old) cell signal.now gone.new }
    ensures left { let kept = cell_kept main.old.config.now main.old.hand.now cell in AllHaveEnds kept →
        leases_of_legs gone.new ≡ leases_going (λ leg. is_rejected signal.now leg.section) kept }
    ensures home { GoneHome O.log main.old.config.now gone.new }
{
    let mut step = main
        .turns
        .turn(rt, main.hand, cell_place(main.config, cell));
    let held = match step.state() {
        Part::Cell(held) => held,
        Part::Board(_) => unreachable!(),
        Part::Pair(_) => unreachable!(),
    };
    held.commit(signal, contexts, gone, main.entry_id.moment);
    put_step::<I, O, Signal, Gone<O>, Brand>(
        main.turns,
        main.hand,
        step,
        main.entry_id,
        signal,
        gone,
    );
}
