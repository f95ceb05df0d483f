//! A value as JSON.
ghost use Rattle.std.specs.Prelude.{◌≡◌, ◌≤◌, ◌++◌, ◌∷◌, ◌+◌, ◌*◌, [], false, length, OnOk, IfOk, IfSome};
ghost use Rattle.std.specs.Fmt.{signed_decimal};
ghost use Rattle.std.specs.List.{insert};
ghost use Rattle.std.specs.Borrow.{Bor};
ghost use Rattle.json.specs.Print.{quoted};
ghost use Rattle.serde_json.specs.Data.{no_members};
ghost use Rattle.serde_json.specs.Written.{compact_text, items_text, members_text, comma_if};
ghost use Rattle.ng_bencode.specs.Room.{Room};
ghost use Rattle.ng_bencode.specs.Row.{list_in};
ghost use Rattle.ng_bencode.specs.Tree.{tree_of, trees_of, pairs_of, depth};
ghost use Rattle.ng_bencode.specs.declared.value.Value.{Value as SpecValue};
ghost use Rattle.ng_json.specs.JsonText.{data_of, items_data, members_data, with_member, json_text};
ghost use Rattle.ng_json.specs.Members.{members_in};
ghost use Rattle.ng_json.specs.Strings.{string_of_bytes};

use crate::strings::{put_bytes, put_quoted, string_of_bytes};
use itoa::Buffer;
use ng_bencode::{OutOfMemory, Pairs, Text, Value, Values};
use std::alloc::Global;
use std::cmp::Ordering;

/// The JSON text of a value: without blanks, the members of each object in the byte order of their keys.
pub fn write(alloc: Global, value: &Value) -> Result<Text, OutOfMemory>
    requires { depth (tree_of value.now) ≤ 16 }
    ensures { IfOk result (λ text. text.list ≡ json_text (tree_of value.now)) }
{
    let mut out = Text::new(alloc);
    write_value(alloc, &mut out, value)?;
    Ok(out)
}

#[cycle(write)]
fn write_value(alloc: Global, out: &mut Text, value: &Value) -> Result<(), OutOfMemory>
    ensures { OnOk result (out.new.list ≡ out.old.list ++ compact_text (data_of (tree_of value.now))) }
{
    match value {
        Value::Int(number) => put_number(out, *number),
        Value::Bytes(text) => put_string(out, text.as_slice()),
        Value::List(values) => write_items(alloc, out, values),
        Value::Dict(pairs) => write_pairs(alloc, out, pairs),
    }
}

#[cycle(write)]
fn write_items(alloc: Global, out: &mut Text, values: &Values) -> Result<(), OutOfMemory>
    ensures { OnOk result (out.new.list ≡ out.old.list ++ 91 ∷ items_text false (items_data (trees_of (list_in values.now)))) }
{
    put(out, b"[")?;
    let mut later = false;
    for item in values.as_slice() {
        put_comma(out, later)?;
        write_value(alloc, out, item)?;
        later = true;
    }
    put(out, b"]")
}

#[cycle(write)]
fn write_pairs(alloc: Global, out: &mut Text, pairs: &Pairs) -> Result<(), OutOfMemory>
    ensures { OnOk result (out.new.list ≡ out.old.list ++ 123 ∷ members_text false (members_data (pairs_of (list_in pairs.now)) no_members)) }
{
    let members = sorted(alloc, pairs)?;
    put(out, b"{")?;
    let mut later = false;
    for member in members.as_slice() {
        put_key(out, later, member.0.as_slice())?;
        write_value(alloc, out, member.1)?;
        later = true;
    }
    put(out, b"}")
}

/// The pairs of a dictionary with their keys as they are written, in the byte order of these, equal ones in the dictionary's order.
fn sorted<'a>(alloc: Global, pairs: &'a Pairs) -> Result<Vec<(Text, &'a Value)>, OutOfMemory>
    ensures { IfOk result (λ members. members_in members.items ≡ members_data (pairs_of (list_in pairs.now)) no_members) }
{
    let mut members = Vec::new(alloc);
    for pair in pairs.as_slice() {
        let key = string_of_bytes(alloc, pair.0.as_slice())?;
        let at = place_of(&members, key.as_slice());
        members.insert(at, (key, &pair.1))?;
    }
    Ok(members)
}

/// How many members stand before the first whose key is greater.
/// It searches from the front: a body of 16,384 bytes has a few thousand keys at most.
fn place_of(members: &[(Text, &Value)], key: &[u8]) -> usize
    ensures within { result ≤ length members.now }
    ensures place { (name : Room _) (value : Bor SpecValue) → name.list ≡ key.now →
        members_in (insert members.now result (name, value)) ≡ with_member key.now (data_of (tree_of value.now)) (members_in members.now) }
{
    for i in 0..members.len() {
        match key.cmp(members[i].0.as_slice()) {
            Ordering::Less => return i,
            _ => {}
        }
    }
    members.len()
}

fn put_number(out: &mut Text, number: i64) -> Result<(), OutOfMemory>
    ensures { OnOk result (out.new.list ≡ out.old.list ++ signed_decimal number) }
{
    let mut buffer = Buffer::new();
    put(out, buffer.format(number).as_bytes())
}

/// Puts the string of these bytes at the end.
fn put_string(out: &mut Text, bytes: &[u8]) -> Result<(), OutOfMemory>
    ensures { OnOk result (out.new.list ≡ out.old.list ++ quoted (string_of_bytes bytes.now)) }
{
    let len = quoted_len(bytes.len()).ok_or(OutOfMemory)?;
    out.reserve(len)?;
    put_bytes(out, bytes);
    Ok(())
}

/// Puts a key and its colon at the end, after a comma where another member stands before.
fn put_key(out: &mut Text, later: bool, key: &[u8]) -> Result<(), OutOfMemory>
    ensures { OnOk result (out.new.list ≡ out.old.list ++ (comma_if later ++ (quoted key.now ++ 58 ∷ []))) }
{
    put_comma(out, later)?;
    let len = quoted_len(key.len()).ok_or(OutOfMemory)?;
    out.reserve(len)?;
    put_quoted(out, key);
    put(out, b":")
}

/// How many bytes a string of this length has at most in its quotes. `None`: more than there can be.
fn quoted_len(len: usize) -> Option<usize>
    ensures { IfSome result (λ most. most ≡ 6 * len + 4) }
{
    len.checked_mul(6)?.checked_add(4)
}

fn put_comma(out: &mut Text, later: bool) -> Result<(), OutOfMemory>
    ensures { OnOk result (out.new.list ≡ out.old.list ++ comma_if later) }
{
    if later { put(out, b",") } else { Ok(()) }
}

/// Puts bytes at the end, and makes the room for them.
fn put(out: &mut Text, bytes: &[u8]) -> Result<(), OutOfMemory>
    ensures { OnOk result (out.new.list ≡ out.old.list ++ bytes.now) }
{
    out.reserve(bytes.len())?;
    out.extend(bytes);
    Ok(())
}
