use crate::cases::expect_case;
use crate::table_lines::{TableLines, TableSink};
use ng_bencode::Text;
use relay_outside::{Addr, Ip};
use relay_script::{Printed, Step};
use replay_devices::{Ending, Script, WriteFault, read_script, write_event};
use std::alloc::Global;
use std::process::Abort;

const CALLER: Addr = Addr {
    ip: Ip::V4([192, 0, 2, 10]),
    port: 6000,
};

/// Reads a script of these lines: with a number above 0, the read with that number fails.
fn script_of(rt: &impl Abort, alloc: Global, lines: &[&[u8]], failing: u64) -> Script {
    let Ok(script) = read_script(alloc, &mut TableLines::new(lines, failing)) else {
        panic!(rt; "no memory");
    };
    script
}

/// A line of each of five kinds.
const KINDS: &[&[u8]] = &[
    b"# a comment",
    b"at 5",
    b"",
    b"packet 30000 192.0.2.10:6000 x:80ff",
    b"relay 7",
    b"ng 192.0.2.10:6000 t:a\\r\\n",
];

/// Whether it is a packet of the caller to this port, with these bytes.
fn is_packet(step: &Step, at: u16, bytes: &[u8]) -> bool {
    match step {
        Step::Packet(port, from, packet) => {
            *port == at && *from == CALLER && packet.as_slice() == bytes
        }
        _ => false,
    }
}

/// Whether it is a datagram of the caller with these bytes.
fn is_datagram(step: &Step, bytes: &[u8]) -> bool {
    match step {
        Step::Ng(from, datagram) => *from == CALLER && datagram.as_slice() == bytes,
        _ => false,
    }
}

/// The place of the first step that is not that of its line, where there are as many.
fn first_other(steps: &[Step]) -> Option<usize> {
    let [first, second, third, fourth, fifth, sixth] = steps else {
        return Some(steps.len());
    };
    let are_so = [
        matches!(first, Step::Skip),
        matches!(second, Step::At(5)),
        matches!(third, Step::Skip),
        is_packet(fourth, 30_000, b"\x80\xff"),
        matches!(fifth, Step::Relay(7)),
        is_datagram(sixth, b"a\r\n"),
    ];
    are_so.iter().position(|is_so| !*is_so)
}

#[test]
fn each_line_is_one_step(rt: HostRuntime) {
    let script = script_of(&rt, rt.alloc(), KINDS, 0);
    let other = first_other(script.steps());
    assert!(rt; other.is_none(), "step {other:?}");
    assert!(rt; script.ending() == Ending::End);
}

/// How many steps from the first on are `at 1`, `at 2` and so on.
fn counted_up(steps: &[Step]) -> usize {
    for index in 0..steps.len() {
        if !matches!(&steps[index], Step::At(moment) if *moment == index as u64 + 1) {
            return index;
        }
    }
    steps.len()
}

/// Whether the script of these lines has this many steps, `at 1`, `at 2` and so on, and this ending.
fn counts_up(
    rt: &impl Abort,
    alloc: Global,
    lines: &[&[u8]],
    failing: u64,
    count: usize,
    ending: Ending,
) -> bool {
    let script = script_of(rt, alloc, lines, failing);
    let steps = script.steps();
    steps.len() == count && counted_up(steps) == count && script.ending() == ending
}

/// Lines, the number of the read that fails, how many steps the script has and how it ends.
const READ: &[(&[&[u8]], u64, usize, Ending)] = &[
    (&[], 0, 0, Ending::End),
    (&[b"at 1"], 0, 1, Ending::End),
    (&[b"at 1", b"at 2"], 0, 2, Ending::End),
    (&[b"tick "], 0, 0, Ending::Outside),
    (&[b"at 01", b"at 1"], 0, 0, Ending::Outside),
    (&[b"at 1", b"at", b"at 2"], 0, 1, Ending::Outside),
    (&[b"at 1", b"at 2", b"at 3\r"], 0, 2, Ending::Outside),
    (&[], 1, 0, Ending::Fault),
    (&[b"at 1", b"at 2"], 1, 0, Ending::Fault),
    (&[b"at 1", b"at 2"], 2, 1, Ending::Fault),
    (&[b"at 1", b"at 2"], 3, 2, Ending::Fault),
    // the reading doesn't go on after a line outside the grammar
    (&[b"at 1", b"relay 0"], 3, 1, Ending::Outside),
];

#[test]
fn a_script_is_read_to_its_end_or_its_first_fault(rt: HostRuntime) {
    for (place, (lines, failing, count, ending)) in READ.iter().enumerate() {
        let is_so = counts_up(&rt, rt.alloc(), lines, *failing, *count, *ending);
        expect_case(&rt, place, is_so);
    }
}

/// How many steps the script of these lines has, and how it ends.
fn measured(rt: &impl Abort, alloc: Global, lines: &[&[u8]], failing: u64) -> (usize, Ending) {
    let script = script_of(rt, alloc, lines, failing);
    (script.steps().len(), script.ending())
}

/// The same of a comment of this many bytes and an empty line.
fn measured_comment(rt: &impl Abort, alloc: Global, len: usize) -> (usize, Ending) {
    let Ok(comment) = vec![in alloc; b'#'; len] else {
        panic!(rt; "no memory");
    };
    measured(rt, alloc, &[comment.as_slice(), b""], 0)
}

const COMMENTS: &[(usize, usize, Ending)] = &[
    (39_999, 2, Ending::End),
    (40_000, 2, Ending::End),
    (40_001, 0, Ending::Outside),
    (40_002, 0, Ending::Outside),
    (80_001, 0, Ending::Outside),
];

#[test]
fn no_line_has_more_than_40000_bytes(rt: HostRuntime) {
    for (place, (len, count, ending)) in COMMENTS.iter().enumerate() {
        let is_so = measured_comment(&rt, rt.alloc(), *len) == (*count, *ending);
        expect_case(&rt, place, is_so);
    }
}

/// The same of this many empty lines.
fn measured_empty(rt: &impl Abort, alloc: Global, count: usize, failing: u64) -> (usize, Ending) {
    let Ok(lines) = vec![in alloc; b"".as_slice(); count] else {
        panic!(rt; "no memory");
    };
    measured(rt, alloc, lines.as_slice(), failing)
}

const EMPTY: &[(usize, u64, usize, Ending)] = &[
    (49_999, 0, 49_999, Ending::End),
    (50_000, 0, 50_000, Ending::End),
    (50_001, 0, 50_000, Ending::Outside),
    (50_002, 50_002, 50_000, Ending::Outside),
    (50_001, 50_001, 50_000, Ending::Fault),
];

#[test]
fn no_script_has_more_than_50000_lines(rt: HostRuntime) {
    for (place, (count, failing, steps, ending)) in EMPTY.iter().enumerate() {
        let is_so = measured_empty(&rt, rt.alloc(), *count, *failing) == (*steps, *ending);
        expect_case(&rt, place, is_so);
    }
}

/// Whether the event is written as this line and no other.
fn is_written(alloc: Global, event: Printed, line: &[u8]) -> bool {
    let mut sink = TableSink::new(line, 0);
    write_event(alloc, &mut sink, &event) == Ok(()) && sink.is_written()
}

#[test]
fn an_event_is_written_as_its_line(rt: HostRuntime) {
    assert!(rt; is_written(rt.alloc(), Printed::Silent, b"silent\n"));
    assert!(rt; is_written(rt.alloc(), Printed::Took(64), b"took 64\n"));
    let Ok(bytes) = Text::copy_of(rt.alloc(), b"a\n") else {
        panic!(rt; "no memory");
    };
    let reply = Printed::Reply(CALLER, bytes);
    assert!(rt; is_written(rt.alloc(), reply, b"reply 192.0.2.10:6000 t:a\\x0a\n"));
}

#[test]
fn a_sink_that_fails_is_not_called_again(rt: HostRuntime) {
    let mut sink = TableSink::new(b"nothing\n", 1);
    let wrote = write_event(rt.alloc(), &mut sink, &Printed::Nothing);
    assert!(rt; wrote == Err(WriteFault::Failed) && sink.is_written());
}
