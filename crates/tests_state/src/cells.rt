//! Cells that calls made, and their out ends.
ghost use Rattle.std.specs.Prelude.{◌≡◌, ◌≤◌, [], length};
ghost use Rattle.call_cell.specs.SavedCells.{AreEmptied};
ghost use Rattle.call_cell.specs.GivenEnds.{HasEndsFor};

use crate::configs::CONFIG;
use crate::dialogs::KEYS;
use crate::port_ends::{LegEnds, PortEnd, ends_at};
use call_cell::{Cell, CellSaved, Gone, InContexts, Incoming, Outcome, Prepare, saved_cells_stand};
use port_pool::{Holder, Lease, MOST_LEGS, Side, Signal};
use relay_outside::{Addr, Ip};
use rtp_packet::Half;
use sdes_lines::Suite;
use srtp_keys::DrawnKey;
use std::alloc::Global;
use std::process::Abort;

/// The leg of a side of the first section, in this lease of this pair.
fn holder(side: Side, pair: u32, generation: u64) -> Holder
    ensures { (result.pair ≡ pair) × (result.generation ≡ generation) }
{
    Holder {
        cell: 1,
        call: 0,
        section: 0,
        side,
        pair,
        generation,
    }
}

fn no_legs(rt: &impl Abort, alloc: Global) -> Gone<PortEnd>
    ensures { result ≡ [] }
{
    let Ok(gone) = Gone::new(alloc) else {
        panic!(rt; "no memory");
    };
    gone
}

/// A cell whose call was offered at moment 5 with a leg of side B, which has two keys, and one of side A.
pub(crate) fn offered_cell(
    rt: &impl Abort,
    alloc: Global,
    first: Lease,
    second: Lease,
) -> Cell<PortEnd>
    ensures { length result.legs.items ≤ 2 }
{
    let Ok(mut signal) = Prepare::reserve(alloc, 2, 2) else {
        panic!(rt; "no memory");
    };
    let ends = ends_at(first.rtp_port());
    let leg = holder(Side::B, first.pair(), first.generation());
    signal.add_leg(leg, first, ends.1, ends.2);
    let ends = ends_at(second.rtp_port());
    let leg = holder(Side::A, second.pair(), second.generation());
    signal.add_leg(leg, second, ends.1, ends.2);
    signal.add_key(0, Side::B, DrawnKey::from_draw(0, KEYS[0]), Suite::Tag80);
    signal.add_key(0, Side::B, DrawnKey::from_draw(1, KEYS[1]), Suite::Tag32);
    let mut cell: Cell<PortEnd> = Cell::empty(alloc, &CONFIG);
    cell.prepare(0, signal, &mut no_legs(rt, alloc), 5);
    cell
}

/// Commits an answer at moment 6.
pub(crate) fn commit(rt: &impl Abort, alloc: Global, cell: &mut Cell<PortEnd>, signal: &Signal)
    requires { length cell.old.legs.items ≤ 2 }
{
    let Ok(contexts) = InContexts::reserve(alloc, 2) else {
        panic!(rt; "no memory");
    };
    cell.commit(signal, contexts, &mut no_legs(rt, alloc), 6);
}

/// Packets, each from one side: RTP from alice before and after its numbers begin again, and a receiver report with a negative
/// loss; those of libsrtp's own test (test/srtp_driver.c, srtp_validate) from bob.
const PACKETS: &[(Side, Half, &[u8])] = &[
    (
        Side::A,
        Half::Rtp,
        b"\x80\x00\xff\xff\x00\x00\x00\x00\x00\x00\x00\x07",
    ),
    (
        Side::A,
        Half::Rtp,
        b"\x80\x00\x00\x00\x00\x00\x00\x00\x00\x00\x00\x07",
    ),
    (
        Side::A,
        Half::Rtcp,
        b"\x81\xc9\x00\x07\x00\x00\x00\x07\xca\xfe\xba\xbe\x03\xff\xff\xfe\x00\x01\x12\x34\x00\x00\x00\x09\x00\x00\x00\x00\x00\x00\x00\x00",
    ),
    (
        Side::B,
        Half::Rtp,
        b"\x80\x0f\x12\x34\xde\xca\xfb\xad\xca\xfe\xba\xbe\x4e\x55\xdc\x4c\xe7\x99\x78\xd8\x8c\xa4\xd2\x15\x94\x9d\x24\x02\xb7\x8d\x6a\xcc\x99\xea\x17\x9b\x8d\xbb",
    ),
    (
        Side::B,
        Half::Rtcp,
        b"\x81\xc8\x00\x0b\xca\xfe\xba\xbe\x71\x28\x03\x5b\xe4\x87\xb9\xbd\xbe\xf8\x90\x41\xf9\x77\xa5\xa8\x80\x00\x00\x01\x99\x3e\x08\xcd\x54\xd6\xc1\x23\x07\x98",
    ),
];

/// Whether the cell sends a packet from this side, at moment 7.
fn is_sent(cell: &mut Cell<PortEnd>, side: Side, half: Half, bytes: &[u8]) -> bool {
    if bytes.len() > 2_000 {
        return false;
    }
    let (pair, host) = match side {
        Side::A => (1, [192, 0, 2, 10]),
        Side::B => (0, [198, 51, 100, 20]),
    };
    let mut buf = [0; 2_064];
    buf[..bytes.len()].copy_from_slice(bytes);
    let packet = Incoming {
        holder: holder(side, pair, 1),
        half,
        source: Addr {
            ip: Ip::V4(host),
            port: 6_000,
        },
        len: bytes.len(),
    };
    matches!(cell.relay(&packet, &mut buf, 7), Outcome::Sent { .. })
}

/// The number of the first packet, from 0, that the cell doesn't send.
pub(crate) fn first_unsent(cell: &mut Cell<PortEnd>) -> Option<usize> {
    for (number, (side, half, bytes)) in PACKETS.iter().enumerate() {
        if !is_sent(cell, *side, *half, bytes) {
            return Some(number);
        }
    }
    None
}

/// The cell without the out ends of its legs, which are put behind the others.
pub(crate) fn emptied(
    rt: &impl Abort,
    cell: Cell<PortEnd>,
    ends: &mut Vec<LegEnds>,
) -> Cell<PortEnd>
    ensures { AreEmptied result.legs.items }
{
    saved_cells_stand::<PortEnd>();
    let mut cell = cell;
    for _ in 0..=MOST_LEGS {
        let Some(those) = cell.take_ends() else {
            return cell;
        };
        ends.push(those).expect(rt, "memory");
    }
    panic!(rt; "a call has at most 16 legs")
}

/// What the cell is saved as. The out ends of its legs are put behind the others.
pub(crate) fn saved_cell(
    rt: &impl Abort,
    cell: Cell<PortEnd>,
    ends: &mut Vec<LegEnds>,
) -> CellSaved {
    emptied(rt, cell, ends).into_saved().expect(rt, "memory")
}

/// Ends for the legs of a saved cell, those of its last leg in front, and behind them ends of another port.
pub(crate) fn ends_for(rt: &impl Abort, alloc: Global, saved: &CellSaved) -> Vec<LegEnds>
    ensures { HasEndsFor saved.now.config saved.now.legs.items result.items }
{
    let mut ends = Vec::new(alloc);
    ends.push(ends_at(9)).expect(rt, "memory");
    for index in 0..saved.leg_count() {
        let at = saved.leg_address(index);
        let those = (at, PortEnd { at }, PortEnd { at });
        ends.insert(0, those).expect(rt, "memory");
    }
    ends
}

/// The cell that was saved so, with ends from the list. Without memory for it the list is as it was.
pub(crate) fn loaded_cell(
    rt: &impl Abort,
    alloc: Global,
    saved: CellSaved,
    ends: &mut Vec<LegEnds>,
) -> Cell<PortEnd>
    requires { HasEndsFor saved.config saved.legs.items ends.old.items }
{
    let count = ends.len();
    match Cell::from_saved(alloc, saved, ends) {
        Ok(Some(cell)) => cell,
        Ok(None) => panic!(rt; "each record is one of some cell"),
        Err(_) => {
            assert!(rt; ends.len() == count, "the list has changed");
            panic!(rt; "no memory")
        }
    }
}
