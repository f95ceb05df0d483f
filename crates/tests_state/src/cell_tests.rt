use crate::cells::{commit, ends_for, first_unsent, loaded_cell, offered_cell, saved_cell};
use crate::configs::{CONFIG, leased_pool};
use crate::dialogs::{new_dialog, planned_answer, take_first_offer};
use crate::port_ends::{LegEnds, PortEnd};
use crate::written_again::{cell_again, cell_bytes};
use call_cell::Cell;
use ng_bencode::Text;
use std::alloc::Global;
use std::process::Abort;

/// An empty cell as it is written.
pub(crate) const EMPTY: &[u8] =
    b"d6:activei0e5:begani0e4:callle6:configd9:interface4:\xcb\x00\x71\x0110:interface6l16:\x20\x01\x0d\xb8\x00\x00\x00\x00\x00\x00\x00\x00\x00\x00\x00\x01e12:max_sessionsi2e16:offer_timeout_msi120000e8:port_maxi30003e8:port_mini30000e10:timeout_msi60000ee12:is_committedi0e4:legsle6:momenti0ee";

/// The cell of a call that was offered and answered, and relayed packets: SRTP on side B.
pub(crate) fn used_cell(rt: &impl Abort, alloc: Global) -> Cell<PortEnd> {
    let (_, first, second) = leased_pool(rt, alloc);
    let mut cell = offered_cell(rt, alloc, first, second);
    let mut dialog = new_dialog(rt, alloc);
    take_first_offer(rt, alloc, &mut dialog);
    let plan = planned_answer(rt, alloc, &dialog);
    commit(rt, alloc, &mut cell, plan.signal());
    let unsent = first_unsent(&mut cell);
    assert!(rt; unsent.is_none(), "packet {unsent:?}");
    cell
}

/// That cell as it is written.
pub(crate) fn written_cell(rt: &impl Abort, alloc: Global) -> Text {
    let mut ends = Vec::new(alloc);
    let saved = saved_cell(rt, used_cell(rt, alloc), &mut ends);
    cell_bytes(rt, alloc, saved)
}

#[test]
fn a_cell_that_relayed_there_and_back(rt: HostRuntime) {
    let alloc = rt.alloc();
    let bytes = written_cell(&rt, alloc);
    let again = cell_again(&rt, alloc, bytes.as_slice()).expect(&rt, "a cell");
    assert!(rt; again.as_slice() == bytes.as_slice());
}

#[test]
fn an_empty_cell_there_and_back(rt: HostRuntime) {
    let alloc = rt.alloc();
    let cell: Cell<PortEnd> = Cell::empty(alloc, &CONFIG);
    let saved = saved_cell(&rt, cell, &mut Vec::new(alloc));
    assert!(rt; cell_bytes(&rt, alloc, saved).as_slice() == EMPTY);
    let again = cell_again(&rt, alloc, EMPTY).expect(&rt, "a cell");
    assert!(rt; again.as_slice() == EMPTY);
}

/// Whether these are the ends of this port for RTP.
fn is_at(ends: &[LegEnds], index: usize, port: u16) -> bool {
    match ends.get(index) {
        Some((at, rtp, rtcp)) => at.port == port && rtp.at == *at && rtcp.at == *at,
        None => false,
    }
}

#[test]
fn a_loaded_cell_has_the_ends_of_its_ports(rt: HostRuntime) {
    let alloc = rt.alloc();
    let mut taken = Vec::new(alloc);
    let saved = saved_cell(&rt, used_cell(&rt, alloc), &mut taken);
    assert!(rt; is_at(&taken, 0, 30_000) && is_at(&taken, 1, 30_002));
    let mut ends = ends_for(&rt, alloc, &saved);
    assert!(rt; is_at(&ends, 0, 30_002) && is_at(&ends, 1, 30_000) && is_at(&ends, 2, 9));
    let cell = loaded_cell(&rt, alloc, saved, &mut ends);
    assert!(rt; ends.len() == 1 && is_at(&ends, 0, 9), "one was too many");
    let saved = saved_cell(&rt, cell, &mut ends);
    assert!(rt; saved.leg_count() == 2);
    assert!(rt; is_at(&ends, 1, 30_000) && is_at(&ends, 2, 30_002));
}
