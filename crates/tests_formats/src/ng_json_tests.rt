ghost use Rattle.std.specs.Prelude.{◌≤◌};
ghost use Rattle.ng_bencode.specs.Tree.{depth, tree_of};

use crate::cases::none_failed;
use ng_bencode::{Text, Value, decode, encode};
use ng_json::{JsonFault, put_bytes, read, write, written_is_read};
use std::alloc::Global;
use std::process::Abort;

/// JSON texts, and the bencode texts that say the same.
const TWINS: &[(&[u8], &[u8])] = &[
    (b"{\"command\":\"ping\"}", b"d7:command4:pinge"),
    (
        b" {\"b\" : 1 , \"a\":[-2, \"x\"]} ",
        b"d1:ali-2e1:xe1:bi1ee",
    ),
    (b"{\"a\":1,\"a\":2}", b"d1:ai2ee"),
    (b"\"x:00ff\"", b"2:\x00\xff"),
    (b"\"x:\"", b"0:"),
    (b"\"x:0\"", b"3:x:0"),
    (b"\"x:0F\"", b"4:x:0F"),
    (b"\"\\u00e9\\n\"", b"3:\xc3\xa9\n"),
    (b"\"\\ud83d\\ude00\"", b"4:\xf0\x9f\x98\x80"),
    (b"9223372036854775807", b"i9223372036854775807e"),
    (b"-9223372036854775808", b"i-9223372036854775808e"),
    (b"0", b"i0e"),
    (b"{\"x:ff\":1,\"y\":2}", b"d1:yi2e1:\xffi1ee"),
    (
        b"[[[[[[[[[[[[[[[[]]]]]]]]]]]]]]]]",
        b"lllllllllllllllleeeeeeeeeeeeeeee",
    ),
];

/// Texts that are no JSON.
const NOT_JSON: &[&[u8]] = &[
    b"",
    b"{\"command\":\"ping\"",
    b"{\"command\":\"ping\"}}",
    b"{command:\"ping\"}",
    b"\"\\ud83d\"",
    b"\"\xff\"",
    b"\"\n\"",
    b"01",
    b"d7:command4:pinge",
];

/// JSON texts that no bencode text says.
const NO_TWIN: &[&[u8]] = &[
    b"null",
    b"[true]",
    b"1.0",
    b"1e2",
    b"-0",
    b"9223372036854775808",
    b"-9223372036854775809",
    b"{\"y\":1,\"x:79\":2}",
    b"{\"command\":\"ping\",\"x\":1.5}",
    b"[[[[[[[[[[[[[[[[[]]]]]]]]]]]]]]]]]",
];

/// Bencode texts, and the JSON texts that are written for them.
const WRITTEN: &[(&[u8], &[u8])] = &[
    (b"d6:result4:ponge", b"{\"result\":\"pong\"}"),
    (b"d1:bi-1e1:ale0:dee", b"{\"\":{},\"a\":[],\"b\":-1}"),
    (b"d1:ai1e1:ai2ee", b"{\"a\":1,\"a\":2}"),
    (b"d1:yi2e1:\xffi1ee", b"{\"x:ff\":1,\"y\":2}"),
    (b"l3:x:a1:\x80e", b"[\"x:783a61\",\"x:80\"]"),
    (
        b"8:\"\\/\x00\x1f\r\n\t",
        b"\"\\\"\\\\/\\u0000\\u001f\\r\\n\\t\"",
    ),
    (b"3:\xc3\xa9\x7f", b"\"\xc3\xa9\x7f\""),
];

fn says(alloc: Global, json: &[u8], bencode: &[u8]) -> bool {
    let Ok(value) = read(alloc, json) else {
        return false;
    };
    let Ok(same) = decode(alloc, bencode) else {
        return false;
    };
    same_text(alloc, &value, &same)
}

fn same_text(alloc: Global, one: &Value, other: &Value) -> bool
    requires one { depth (tree_of one.now) ≤ 16 }
    requires other { depth (tree_of other.now) ≤ 16 }
{
    let Ok(one) = encode(alloc, one) else {
        return false;
    };
    let Ok(other) = encode(alloc, other) else {
        return false;
    };
    one.as_slice() == other.as_slice()
}

fn is_refused(alloc: Global, json: &[u8], fault: JsonFault) -> bool {
    match read(alloc, json) {
        Ok(_) => false,
        Err(other) => other == fault,
    }
}

fn is_written(alloc: Global, bencode: &[u8], json: &[u8]) -> bool {
    match decode(alloc, bencode) {
        Ok(value) => match write(alloc, &value) {
            Ok(text) => text.as_slice() == json,
            Err(_) => false,
        },
        Err(_) => false,
    }
}

fn other_twin(alloc: Global) -> Option<usize> {
    for (number, (json, bencode)) in TWINS.iter().enumerate() {
        if !says(alloc, json, bencode) {
            return Some(number);
        }
    }
    None
}

fn not_refused(alloc: Global, texts: &[&[u8]], fault: JsonFault) -> Option<usize> {
    for (number, text) in texts.iter().enumerate() {
        if !is_refused(alloc, text, fault) {
            return Some(number);
        }
    }
    None
}

fn other_text(alloc: Global) -> Option<usize> {
    for (number, (bencode, json)) in WRITTEN.iter().enumerate() {
        if !is_written(alloc, bencode, json) {
            return Some(number);
        }
    }
    None
}

#[test]
fn a_text_is_read_as_the_value_that_says_the_same(rt: HostRuntime) {
    none_failed(&rt, "TWINS", other_twin(rt.alloc()));
    let not_json = not_refused(rt.alloc(), NOT_JSON, JsonFault::NotJson);
    none_failed(&rt, "NOT_JSON", not_json);
    let no_twin = not_refused(rt.alloc(), NO_TWIN, JsonFault::NoTwin);
    none_failed(&rt, "NO_TWIN", no_twin);
}

#[test]
fn a_value_is_written_with_its_keys_in_order(rt: HostRuntime) {
    none_failed(&rt, "WRITTEN", other_text(rt.alloc()));
    written_is_read();
    let mut out = Text::new(rt.alloc());
    let Ok(()) = out.reserve(16) else {
        panic!(rt; "no memory");
    };
    put_bytes(&mut out, b"\xff");
    assert!(rt; out.as_slice() == b"\"x:ff\"".as_slice());
}
