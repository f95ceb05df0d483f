use crate::cases::expect_case;
use call_cell::{Lost, Outcome, Refused};
use ng_bencode::Text;
use relay_outside::{Addr, Family, Ip};
use relay_script::{
    FailKind, ParseFault, Printed, Step, one_step, parse, print, printed_text_is_read,
};
use std::alloc::Global;
use std::process::Abort;

const FOUR: Addr = Addr {
    ip: Ip::V4([192, 0, 2, 10]),
    port: 6000,
};

const SIX: Addr = Addr {
    ip: Ip::V6([0x20, 1, 0xd, 0xb8, 0, 0, 0, 0, 0, 0, 0, 0, 0, 0, 0, 1]),
    port: 65_535,
};

/// Its longest run of zeros is the one that `::` stands for (RFC 5952 section 4.2).
const ZEROS: Addr = Addr {
    ip: Ip::V6([0x20, 1, 0xd, 0xb8, 0, 0, 0, 1, 0, 0, 0, 0, 0, 0, 0, 0x20]),
    port: 7000,
};

/// What a line asks for, its bytes as they are.
#[derive(Clone, Copy)]
enum Wanted {
    Skip,
    At(u64),
    Key([u8; 30]),
    Fail(FailKind, u32),
    FailSend(u16, u32),
    Ng(Addr, &'static [u8]),
    Take(u16, Addr, &'static [u8]),
    Relay(u32),
    Packet(u16, Addr, &'static [u8]),
    Tick,
}

/// The key of thirty bytes of which the first is 0xff and each other is 0x0a.
const KEY: [u8; 30] = [
    0xff, 10, 10, 10, 10, 10, 10, 10, 10, 10, 10, 10, 10, 10, 10, 10, 10, 10, 10, 10, 10, 10, 10,
    10, 10, 10, 10, 10, 10, 10,
];

/// Lines, and what each asks for.
const LINES: &[(&[u8], Wanted)] = &[
    (b"", Wanted::Skip),
    (b"#", Wanted::Skip),
    (b"# at 5", Wanted::Skip),
    (b"at 0", Wanted::At(0)),
    (
        b"at 18446744073709551615",
        Wanted::At(18_446_744_073_709_551_615),
    ),
    (
        b"key ff0a0a0a0a0a0a0a0a0a0a0a0a0a0a0a0a0a0a0a0a0a0a0a0a0a0a0a0a0a",
        Wanted::Key(KEY),
    ),
    (b"fail open 1", Wanted::Fail(FailKind::Open, 1)),
    (b"fail draw 2", Wanted::Fail(FailKind::Draw, 2)),
    (b"fail take 30", Wanted::Fail(FailKind::Take, 30)),
    (
        b"fail read 4294967295",
        Wanted::Fail(FailKind::Read, 4_294_967_295),
    ),
    (b"fail reply 10", Wanted::Fail(FailKind::Reply, 10)),
    (b"fail send 30000 7", Wanted::FailSend(30_000, 7)),
    (b"fail send 0 1", Wanted::FailSend(0, 1)),
    (
        b"ng 192.0.2.10:6000 t:4 d7:command4:pinge",
        Wanted::Ng(FOUR, b"4 d7:command4:pinge"),
    ),
    (b"ng 192.00.002.010:6000 t:", Wanted::Ng(FOUR, b"")),
    (
        b"ng [2001:db8::1]:65535 t:\\r\\n\\\\\\x00\\xff t:# ",
        Wanted::Ng(SIX, b"\r\n\\\x00\xff t:# "),
    ),
    (b"ng 192.0.2.10:6000 x:", Wanted::Ng(FOUR, b"")),
    (
        b"take 30002 192.0.2.10:6000 x:8000ff",
        Wanted::Take(30_002, FOUR, b"\x80\x00\xff"),
    ),
    (b"relay 9", Wanted::Relay(9)),
    (b"tick", Wanted::Tick),
    (
        b"packet 65535 [2001:DB8:0::1]:65535 t:x",
        Wanted::Packet(65_535, SIX, b"x"),
    ),
    (
        b"take 30000 [2001:0db8:0:1:0:0:0:0020]:7000 x:80",
        Wanted::Take(30_000, ZEROS, b"\x80"),
    ),
];

fn is_same(bytes: &Text, wanted: &[u8]) -> bool {
    bytes.as_slice() == wanted
}

fn is_wanted(step: &Step, wanted: &Wanted) -> bool {
    match (step, wanted) {
        (Step::Skip, Wanted::Skip) => true,
        (Step::At(moment), Wanted::At(other)) => *moment == *other,
        (Step::Key(key), Wanted::Key(other)) => *key == *other,
        (Step::Fail(kind, count), Wanted::Fail(other, n)) => *kind == *other && *count == *n,
        (Step::FailSend(port, count), Wanted::FailSend(other, n)) => *port == *other
            && *count == *n,
        (Step::Ng(from, bytes), Wanted::Ng(other, text)) => *from == *other
            && is_same(bytes, *text),
        (Step::Take(port, from, bytes), Wanted::Take(at, other, text)) => {
            *port == *at && *from == *other && is_same(bytes, *text)
        }
        (Step::Relay(receipt), Wanted::Relay(other)) => *receipt == *other,
        (Step::Tick, Wanted::Tick) => true,
        (Step::Packet(port, from, bytes), Wanted::Packet(at, other, text)) => {
            *port == *at && *from == *other && is_same(bytes, *text)
        }
        _ => false,
    }
}

/// Whether the line asks for this.
fn asks_for(alloc: Global, line: &[u8], wanted: &Wanted) -> bool {
    match parse(alloc, line) {
        Ok(step) => is_wanted(&step, wanted),
        Err(_) => false,
    }
}

#[test]
fn lines_ask_for_their_steps(rt: HostRuntime) {
    for (place, (line, wanted)) in LINES.iter().enumerate() {
        expect_case(&rt, place, asks_for(rt.alloc(), *line, wanted));
    }
    one_step();
    printed_text_is_read();
}

/// Lines that ask for nothing.
const OUTSIDE: &[&[u8]] = &[
    b" ",
    b" #",
    b"at",
    b"at ",
    b"at  1",
    b" at 1",
    b"at 1 ",
    b"at 01",
    b"at +1",
    b"at -1",
    b"at 1x",
    b"At 1",
    b"at 18446744073709551616",
    b"at\t1",
    b"at 1\r",
    b"tick ",
    b"tick 1",
    b" tick",
    b"Tick",
    b"ticks",
    b"tick\r",
    b"key",
    b"key ",
    b"key ff0a0a0a0a0a0a0a0a0a0a0a0a0a0a0a0a0a0a0a0a0a0a0a0a0a0a0a0a",
    b"key ff0a0a0a0a0a0a0a0a0a0a0a0a0a0a0a0a0a0a0a0a0a0a0a0a0a0a0a0a0a0a",
    b"key FF0a0a0a0a0a0a0a0a0a0a0a0a0a0a0a0a0a0a0a0a0a0a0a0a0a0a0a0a0a",
    b"key gg0a0a0a0a0a0a0a0a0a0a0a0a0a0a0a0a0a0a0a0a0a0a0a0a0a0a0a0a0a",
    b"fail",
    b"fail open",
    b"fail open 0",
    b"fail open 01",
    b"fail open 4294967296",
    b"fail open 1 2",
    b"fail close 1",
    b"fail  open 1",
    b"fail send 1",
    b"fail send 65536 1",
    b"fail send 1 0",
    b"fail send 1 2 3",
    b"ng",
    b"ng 192.0.2.10:6000",
    b"ng 192.0.2.10 t:",
    b"ng 192.0.2.10: t:",
    b"ng 192.0.2.10:65536 t:",
    b"ng 192.0.2.10:06000 t:",
    b"ng 192.0.2.256:1 t:",
    b"ng 192.0.2:1 t:",
    b"ng 2001:db8::1:1 t:",
    b"ng [192.0.2.10]:1 t:",
    b"ng [2001:db8::1] t:",
    b"ng [2001:db8::1:1 t:",
    b"ng []:1 t:",
    b"ng host:1 t:",
    b"ng 192.0.2.10:6000 ",
    b"ng 192.0.2.10:6000 t",
    b"ng 192.0.2.10:6000 y:00",
    b"ng 192.0.2.10:6000  t:",
    b"ng 192.0.2.10:6000 x:0",
    b"ng 192.0.2.10:6000 x:0G",
    b"ng 192.0.2.10:6000 x:FF",
    b"ng 192.0.2.10:6000 x:00 ",
    b"ng 192.0.2.10:6000 t:\\",
    b"ng 192.0.2.10:6000 t:\\t",
    b"ng 192.0.2.10:6000 t:\\x",
    b"ng 192.0.2.10:6000 t:\\x0",
    b"ng 192.0.2.10:6000 t:\\xFF",
    b"ng 192.0.2.10:6000 t:\\x0g",
    b"ng 192.0.2.10:6000 t:\\R",
    b"take 192.0.2.10:6000 x:00",
    b"take 65536 192.0.2.10:6000 x:00",
    b"take 1 192.0.2.10:6000",
    b"packet 01 192.0.2.10:6000 x:00",
    b"relay",
    b"relay 0",
    b"relay 1 ",
    b"relay -1",
    b"relays 1",
    b"packets 1",
];

fn is_outside(alloc: Global, line: &[u8]) -> bool {
    matches!(parse(alloc, line), Err(ParseFault::NotInGrammar))
}

/// Whether a comment of this many bytes is outside the grammar.
fn is_comment_outside(rt: &impl Abort, alloc: Global, len: usize) -> bool {
    let Ok(comment) = vec![in alloc; b'#'; len] else {
        panic!(rt; "no memory");
    };
    is_outside(alloc, comment.as_slice())
}

#[test]
fn other_lines_are_outside_the_grammar(rt: HostRuntime) {
    for (place, line) in OUTSIDE.iter().enumerate() {
        expect_case(&rt, place, is_outside(rt.alloc(), *line));
    }
    assert!(rt; !is_comment_outside(&rt, rt.alloc(), 40_000), "40000 bytes");
    assert!(rt; is_comment_outside(&rt, rt.alloc(), 40_001), "40001 bytes");
}

fn text_of(rt: &impl Abort, alloc: Global, bytes: &[u8]) -> Text {
    let Ok(text) = Text::copy_of(alloc, bytes) else {
        panic!(rt; "no memory");
    };
    text
}

/// Whether the event is printed as this line.
fn is_printed(alloc: Global, event: Printed, wanted: &[u8]) -> bool {
    match print(alloc, &event) {
        Ok(line) => line.as_slice() == wanted,
        Err(_) => false,
    }
}

#[test]
fn events_are_printed_as_their_lines(rt: HostRuntime) {
    let alloc = rt.alloc();
    assert!(rt; is_printed(alloc, Printed::Silent, b"silent"));
    assert!(rt; is_printed(alloc, Printed::ReadFault, b"read-fault"));
    assert!(rt; is_printed(alloc, Printed::ReplyFault, b"reply-fault"));
    assert!(rt; is_printed(alloc, Printed::Took(1), b"took 1"));
    assert!(rt; is_printed(alloc, Printed::Took(4_294_967_295), b"took 4294967295"));
    assert!(rt; is_printed(alloc, Printed::Nothing, b"nothing"));
    assert!(rt; is_printed(alloc, Printed::TooLong, b"too-long"));
    assert!(rt; is_printed(alloc, Printed::TakeFault, b"take-fault"));
    assert!(rt; is_printed(alloc, Printed::Ended(0), b"ended 0"));
    assert!(rt;
        is_printed(
            alloc,
            Printed::ScriptFault(50_001),
            b"script fault: line 50001"
        )
    );
}

#[test]
fn replies_are_printed_as_texts(rt: HostRuntime) {
    let alloc = rt.alloc();
    let text = text_of(&rt, alloc, b"4 d3:a\\be\r\n\x00\x1f ~\x7f\x80\xff");
    let line = b"reply 192.0.2.10:6000 t:4 d3:a\\\\be\\x0d\\x0a\\x00\\x1f ~\\x7f\\x80\\xff";
    assert!(rt; is_printed(alloc, Printed::Reply(FOUR, text), line));
    let line = b"reply [2001:db8::1]:65535 t:";
    assert!(rt; is_printed(alloc, Printed::Reply(SIX, Text::new(alloc)), line));
}

/// Outcomes of a packet of the bytes 80 00 ab ff, and their lines.
const OUTCOMES: &[(Outcome, &[u8])] = &[
    (Outcome::Refused(Refused::Stale), b"refused Stale"),
    (
        Outcome::Refused(Refused::NotAnswered),
        b"refused NotAnswered",
    ),
    (Outcome::Refused(Refused::Malformed), b"refused Malformed"),
    (
        Outcome::Refused(Refused::WrongSource),
        b"refused WrongSource",
    ),
    (Outcome::Refused(Refused::Short), b"refused Short"),
    (
        Outcome::Refused(Refused::NotAuthentic),
        b"refused NotAuthentic",
    ),
    (Outcome::Refused(Refused::TooOld), b"refused TooOld"),
    (Outcome::Refused(Refused::Replayed), b"refused Replayed"),
    (
        Outcome::Refused(Refused::TooManySources),
        b"refused TooManySources",
    ),
    (Outcome::Lost(Lost::Hold), b"lost Hold"),
    (Outcome::Lost(Lost::OutTooOld), b"lost OutTooOld"),
    (Outcome::Lost(Lost::IndexUsed), b"lost IndexUsed"),
    (Outcome::Lost(Lost::OutSources), b"lost OutSources"),
    (Outcome::Lost(Lost::KeySpent), b"lost KeySpent"),
    (
        Outcome::Lost(Lost::SendFault {
            family: Family::V6,
            port: 30_000,
        }),
        b"lost SendFault",
    ),
    (
        Outcome::Sent {
            family: Family::V4,
            port: 30_000,
            to: FOUR,
            len: 4,
        },
        b"sent 30000 192.0.2.10:6000 x:8000abff",
    ),
    (
        Outcome::Sent {
            family: Family::V6,
            port: 1,
            to: SIX,
            len: 4,
        },
        b"sent 1 [2001:db8::1]:65535 x:8000abff",
    ),
    (
        Outcome::Sent {
            family: Family::V6,
            port: 30_000,
            to: ZEROS,
            len: 4,
        },
        b"sent 30000 [2001:db8:0:1::20]:7000 x:8000abff",
    ),
];

#[test]
fn outcomes_are_printed_by_their_names(rt: HostRuntime) {
    for (place, (outcome, line)) in OUTCOMES.iter().enumerate() {
        let event = Printed::Relayed {
            outcome: *outcome,
            bytes: text_of(&rt, rt.alloc(), b"\x80\x00\xab\xff"),
        };
        expect_case(&rt, place, is_printed(rt.alloc(), event, *line));
    }
}
