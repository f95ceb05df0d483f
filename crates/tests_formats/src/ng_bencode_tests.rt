use crate::cases::none_failed;
use ng_bencode::{Bad, Pairs, Text, Value, Values, decode, encode, lookup, one_reading, same_key};
use std::alloc::Global;
use std::process::Abort;

const SIXTEEN: &[u8] = b"lllllllllllllllleeeeeeeeeeeeeeee";

const SEVENTEEN: &[u8] = b"llllllllllllllllleeeeeeeeeeeeeeeee";

/// Whether `text` is taken, and written again byte for byte.
fn is_taken(alloc: Global, text: &[u8]) -> bool {
    match decode(alloc, text) {
        Ok(value) => match encode(alloc, &value) {
            Ok(spelled) => spelled.as_slice() == text,
            Err(_) => false,
        },
        Err(_) => false,
    }
}

fn is_refused(alloc: Global, text: &[u8]) -> bool {
    match decode(alloc, text) {
        Ok(_) => false,
        Err(bad) => bad == Bad::NotBencode,
    }
}

/// Whether this letter 16,384 times is refused.
fn is_row_refused(alloc: Global, letter: u8) -> bool {
    let Ok(letters) = Vec::from_elem(alloc, letter, 16384usize) else {
        return false;
    };
    is_refused(alloc, letters.as_slice())
}

/// Texts of the grammar.
const TEXTS: &[&[u8]] = &[
    b"i0e",
    b"i-1e",
    b"i42e",
    b"i9223372036854775807e",
    b"i-9223372036854775808e",
    b"0:",
    b"3:abc",
    b"10:0123456789",
    b"2:::",
    b"le",
    b"de",
    b"l1:eli1eede0:e",
    b"d1:bi1e1:ai2ee",
    b"d1:ai1e1:ai2ee",
    b"d0:0:e",
    b"d7:command4:pinge",
    SIXTEEN,
];

/// Texts that are not of the grammar.
const OTHER_TEXTS: &[&[u8]] = &[
    b"",
    b"e",
    b"x",
    b"ie",
    b"i-e",
    b"i5",
    b"i01e",
    b"i00e",
    b"i-0e",
    b"i-01e",
    b"i+1e",
    b"i 1e",
    b"i1.5e",
    b"i9223372036854775808e",
    b"i-9223372036854775809e",
    b"03:abc",
    b"00:",
    b"-1:a",
    b"+1:a",
    b":a",
    b"4:abc",
    b"3abc",
    b"18446744073709551615:abc",
    b"18446744073709551616:abc",
    b"l",
    b"li1e",
    b"le4",
    b"d",
    b"d1:a",
    b"d1:ae",
    b"di1e1:ae",
    b"d1:a1:be1:",
    b"i1ei2e",
    b"3:abcd",
    SEVENTEEN,
];

fn not_taken(alloc: Global) -> Option<usize> {
    for (number, text) in TEXTS.iter().enumerate() {
        if !is_taken(alloc, text) {
            return Some(number);
        }
    }
    None
}

fn not_refused(alloc: Global) -> Option<usize> {
    for (number, text) in OTHER_TEXTS.iter().enumerate() {
        if !is_refused(alloc, text) {
            return Some(number);
        }
    }
    None
}

#[test]
fn texts_of_the_grammar_are_taken_and_no_others(rt: HostRuntime) {
    none_failed(&rt, "TEXTS", not_taken(rt.alloc()));
    none_failed(&rt, "OTHER_TEXTS", not_refused(rt.alloc()));
    assert!(rt; is_row_refused(rt.alloc(), b'i'));
    assert!(rt; is_row_refused(rt.alloc(), b'l'));
    one_reading();
}

/// The integer under a key, or -1.
fn int_at(dict: &Pairs, key: &[u8]) -> i64 {
    match lookup(dict, key) {
        Some(value) => value.as_int().unwrap_or(-1),
        None => -1,
    }
}

/// Keys, and the integer under each.
const KEYS: &[(&[u8], i64)] = &[
    (b"from-tag", 1),
    (b"from tag", 1),
    (b"from_tag", 3),
    (b"call-id", 4),
    (b"call id", 4),
    (b"via--b", 5),
    (b"via- b", 5),
    (b"via -c", -1),
    (b"call-i", -1),
    (b"call-idd", -1),
    (b"", -1),
];

fn other_key(dict: &Pairs) -> Option<usize> {
    for (number, (key, want)) in KEYS.iter().enumerate() {
        if int_at(dict, key) != *want {
            return Some(number);
        }
    }
    None
}

#[test]
fn a_key_finds_its_first_pair(rt: HostRuntime) {
    let text = b"d8:from-tagi1e8:from tagi2e8:from_tagi3e7:call-idi4e6:via  bi5ee";
    let Ok(value) = decode(rt.alloc(), text) else {
        panic!(rt; "not taken");
    };
    let Some(dict) = value.as_dict() else {
        panic!(rt; "no dictionary");
    };
    none_failed(&rt, "KEYS", other_key(dict));
    assert!(rt;
        same_key(b"SIP source address", b"SIP-source-address") && !same_key(b"fatal", b"Fatal")
    );
}

fn key(rt: &impl Abort, alloc: Global) -> Text {
    let mut key = Text::new(alloc);
    let Ok(()) = key.reserve(4) else {
        panic!(rt; "no memory");
    };
    key.push(b'k');
    key.extend(b"ey");
    assert!(rt; key.as_slice() == b"key".as_slice());
    key
}

/// A list of the integer -7 and of an empty text.
fn list(rt: &impl Abort, alloc: Global) -> Value {
    let mut values = Values::new(alloc);
    let Ok(()) = values.reserve(2) else {
        panic!(rt; "no memory");
    };
    values.push(Value::int(-7));
    values.push(Value::bytes(Text::new(alloc)));
    assert!(rt; values.as_slice().len() == 2);
    Value::list(values)
}

/// The dictionary of that list under that key.
fn dict(rt: &impl Abort, alloc: Global) -> Value {
    let mut pairs = Pairs::new(alloc);
    let Ok(()) = pairs.reserve(1) else {
        panic!(rt; "no memory");
    };
    pairs.push((key(rt, alloc), list(rt, alloc)));
    Value::dict(pairs)
}

fn is_dict_alone(value: &Value) -> bool {
    value.as_int().is_none() && value.as_bytes().is_none() && value.as_list().is_none()
}

/// Whether each item of a list is the integer -7 or a text.
fn has_its_items(list: &Value) -> bool {
    let Some(items) = list.as_list() else {
        return false;
    };
    for item in items.as_slice() {
        if item.as_int() != Some(-7) && item.as_bytes().is_none() {
            return false;
        }
    }
    true
}

#[test]
fn a_value_is_put_together_and_taken_apart(rt: HostRuntime) {
    let value = dict(&rt, rt.alloc());
    assert!(rt; is_dict_alone(&value));
    let Some(dict) = value.as_dict() else {
        panic!(rt; "no dictionary");
    };
    let Some(list) = lookup(dict, b"key") else {
        panic!(rt; "no such key");
    };
    assert!(rt; has_its_items(list));
}
