use relay_outside::{Copied, SteadyLines, SteadySink, WriteCall};
use state_lines::{
    LineFault, StateReader, StateWriter, refused_endings_refuse_states,
    refused_headings_refuse_states, refused_values_refuse_states, states_are_read_once,
    write_ending, write_heading,
};
use std::alloc::Global;
use std::process::Abort;

/// A value whose last line of digits has one byte.
fn long_value(rt: &impl Abort, alloc: Global) -> Vec<u8> {
    Vec::from_elem(alloc, 0xab, 8_001).expect(rt, "memory")
}

/// A state of an empty value and a long one, as it is written.
fn written(rt: &impl Abort, alloc: Global) -> SteadySink {
    let mut sink = SteadySink::new(alloc);
    let mut writer = StateWriter::new(alloc).expect(rt, "memory");
    assert!(rt; write_heading(&mut sink).is_ok());
    assert!(rt; writer.write_value(&mut sink, b"").is_ok());
    let long = long_value(rt, alloc);
    assert!(rt; writer.write_value(&mut sink, long.as_slice()).is_ok());
    assert!(rt; write_ending(&mut sink).is_ok());
    sink
}

/// The first so many lines, without their line feeds.
fn first_lines(rt: &impl Abort, alloc: Global, calls: &[WriteCall], count: usize) -> Vec<Copied> {
    let mut lines = Vec::new(alloc);
    for call in calls {
        let WriteCall::Write { line, .. } = call;
        let text = line
            .as_slice()
            .strip_suffix(b"\n")
            .expect(rt, "a line feed");
        let line = Copied::of(alloc, text).expect(rt, "memory");
        if lines.len() < count {
            assert!(rt; lines.push(line).is_ok());
        }
    }
    lines
}

fn is_line(lines: &[Copied], number: usize, text: &[u8]) -> bool {
    match lines.get(number) {
        Some(line) => line.as_slice() == text,
        None => false,
    }
}

fn is_value(read: Result<Vec<u8>, LineFault>, value: &[u8]) -> bool {
    match read {
        Ok(text) => text.as_slice() == value,
        Err(_) => false,
    }
}

fn is_refused(read: Result<Vec<u8>, LineFault>, fault: LineFault) -> bool {
    match read {
        Ok(_) => false,
        Err(found) => found == fault,
    }
}

#[test]
fn a_state_is_read_as_it_was_written(rt: HostRuntime) {
    let alloc = rt.alloc();
    let sink = written(&rt, alloc);
    let lines = first_lines(&rt, alloc, sink.calls().expect(&rt, "a log"), 7);
    assert!(rt; is_line(lines.as_slice(), 0, b"rtpengine-state 1"));
    assert!(rt; is_line(lines.as_slice(), 1, b"value 0"));
    assert!(rt; is_line(lines.as_slice(), 2, b"value 8001"));
    assert!(rt; is_line(lines.as_slice(), 4, b"ab"));
    assert!(rt; is_line(lines.as_slice(), 5, b"end"));
    let mut source = SteadyLines::new(alloc, lines);
    let mut reader = StateReader::new(alloc).expect(&rt, "memory");
    assert!(rt; reader.read_heading(&mut source).is_ok());
    assert!(rt; is_value(reader.read_value(&mut source), b""));
    let long = long_value(&rt, alloc);
    assert!(rt; is_value(reader.read_value(&mut source), long.as_slice()));
    assert!(rt; reader.read_ending(&mut source).is_ok());
    assert!(rt; reader.read_ending(&mut source) == Err(LineFault::NotState(7)));
}

#[test]
fn the_line_that_is_missing_is_at_fault(rt: HostRuntime) {
    let alloc = rt.alloc();
    let sink = written(&rt, alloc);
    let lines = first_lines(&rt, alloc, sink.calls().expect(&rt, "a log"), 4);
    let mut source = SteadyLines::new(alloc, lines);
    let mut reader = StateReader::new(alloc).expect(&rt, "memory");
    assert!(rt; reader.read_heading(&mut source).is_ok());
    assert!(rt; is_value(reader.read_value(&mut source), b""));
    assert!(rt; is_refused(reader.read_value(&mut source), LineFault::NotState(5)));
    refused_headings_refuse_states();
    refused_values_refuse_states();
    refused_endings_refuse_states();
    states_are_read_once();
}
