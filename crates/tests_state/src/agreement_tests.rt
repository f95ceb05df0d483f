use crate::board_tests::answered_call;
use crate::cell_tests::used_cell;
use crate::cells::saved_cell;
use crate::configs::{CONFIG, leased_pool};
use crate::port_ends::PortEnd;
use call_board::CallSaved;
use call_cell::{Cell, CellSaved};
use port_pool::PoolSaved;
use std::alloc::Global;
use std::process::Abort;
use whole_records::records_agree;

/// The cells of a node with one live call.
fn cells(rt: &impl Abort, alloc: Global) -> Vec<CellSaved> {
    let mut ends = Vec::new(alloc);
    let used = saved_cell(rt, used_cell(rt, alloc), &mut ends);
    let other: Cell<PortEnd> = Cell::empty(alloc, &CONFIG);
    let other = saved_cell(rt, other, &mut ends);
    Vec::from_array(alloc, [used, other]).expect(rt, "memory")
}

fn calls(rt: &impl Abort, alloc: Global) -> Vec<CallSaved> {
    Vec::from_array(alloc, [answered_call(rt, alloc)]).expect(rt, "memory")
}

/// Its pool: the pairs of version 4 are those of the call's legs.
fn pool(rt: &impl Abort, alloc: Global) -> PoolSaved {
    let (pool, _, _) = leased_pool(rt, alloc);
    pool.into_saved().expect(rt, "memory")
}

/// Whether this pool goes together with the call and the cells.
fn agrees(rt: &impl Abort, alloc: Global, pool: &PoolSaved) -> bool {
    let calls = calls(rt, alloc);
    let cells = cells(rt, alloc);
    records_agree(alloc, &CONFIG, pool, calls.as_slice(), cells.as_slice()).expect(rt, "memory")
}

#[test]
fn records_of_a_live_call_agree(rt: HostRuntime) {
    let alloc = rt.alloc();
    assert!(rt; agrees(&rt, alloc, &pool(&rt, alloc)));
}

#[test]
fn records_with_a_held_pair_among_the_free_ones_do_not_agree(rt: HostRuntime) {
    let alloc = rt.alloc();
    let mut pool = pool(&rt, alloc);
    assert!(rt; pool.free4.push(0).is_ok());
    assert!(rt; !agrees(&rt, alloc, &pool));
}
