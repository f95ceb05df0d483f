use crate::written_again::{Record, written_again};
use crate::{board_tests, cache_tests, cell_tests, pool_tests};
use std::alloc::Global;
use std::process::Abort;

/// These bytes with one changed: in turn each that stands 101 after the last one, around the end, by 1, and then by 2, and so on.
fn changed(rt: &impl Abort, alloc: Global, bytes: &[u8], number: u32) -> Vec<u8> {
    let mut copy = Vec::from_slice(alloc, bytes).expect(rt, "memory");
    assert!(rt; !copy.is_empty());
    let place = number as usize * 101 % copy.len();
    let more = number as usize / copy.len() % 255;
    copy[place] = copy[place].wrapping_add(1 + more as u8);
    copy
}

/// How many of so many changes are refused. Fails where changed bytes are read into something that is written otherwise.
fn count_refused(
    rt: &impl Abort,
    alloc: Global,
    record: Record,
    bytes: &[u8],
    changes: u32,
) -> u32 {
    let mut refused = 0;
    for number in 0..changes {
        let copy = changed(rt, alloc, bytes, number);
        match written_again(rt, alloc, record, copy.as_slice()) {
            None => refused += 1,
            Some(text) => {
                assert!(rt; text.as_slice() == copy.as_slice(), "change {number}");
            }
        }
    }
    refused
}

/// Fails where changed bytes are read into something that is written otherwise, or where all changes are refused, or none is.
fn try_changes(rt: &impl Abort, alloc: Global, record: Record, bytes: &[u8], changes: u32) {
    let refused = count_refused(rt, alloc, record, bytes, changes);
    assert!(rt; 0 < refused && refused < changes, "{refused} of {changes}");
}

#[test]
fn a_changed_pool_is_another_one_or_refused(rt: HostRuntime) {
    try_changes(&rt, rt.alloc(), Record::Pool, pool_tests::WRITTEN, 4_000);
}

#[test]
fn a_changed_cache_is_another_one_or_refused(rt: HostRuntime) {
    try_changes(&rt, rt.alloc(), Record::Cache, cache_tests::WRITTEN, 4_000);
}

#[test]
fn a_changed_relay_is_another_one_or_refused(rt: HostRuntime) {
    try_changes(&rt, rt.alloc(), Record::Relay, board_tests::RELAY, 4_000);
}

#[test]
fn changed_calls_are_others_or_refused(rt: HostRuntime) {
    let alloc = rt.alloc();
    let bytes = board_tests::written_calls(&rt, alloc);
    try_changes(&rt, alloc, Record::Calls, bytes.as_slice(), 2_000);
}

#[test]
fn a_changed_cell_is_another_one_or_refused(rt: HostRuntime) {
    let alloc = rt.alloc();
    let bytes = cell_tests::written_cell(&rt, alloc);
    try_changes(&rt, alloc, Record::Cell, bytes.as_slice(), 2_000);
}
