//! The spelling of a value.
ghost use Rattle.std.specs.Prelude.{◌≡◌, ◌≤◌, ◌+◌, ◌++◌, ◌∷◌, [], length, decimal, OnOk, IfOk};
ghost use Rattle.std.specs.Fmt.{signed_decimal};
ghost use Rattle.ng_bencode.specs.Row.{list_in};
ghost use Rattle.ng_bencode.specs.Tree.{tree_of, trees_of, pairs_of, depth};
ghost use Rattle.ng_bencode.specs.Spells.{string, spelling, spellings, entry_spellings};

use crate::errors::OutOfMemory;
use crate::text::Text;
use crate::value::{Pairs, Value, Values};
use itoa::Buffer;
use std::alloc::Global;

/// The spelling of a value, its pairs in their order.
pub fn encode(alloc: Global, value: &Value) -> Result<Text, OutOfMemory>
    requires { depth (tree_of value.now) ≤ 16 }
    ensures { IfOk result (λ text. text.list ≡ spelling (tree_of value.now)) }
{
    let mut out = Text::new(alloc);
    write_value(&mut out, value)?;
    Ok(out)
}

#[cycle(write)]
fn write_value(out: &mut Text, value: &Value) -> Result<(), OutOfMemory>
    ensures { OnOk result (out.new.list ≡ out.old.list ++ spelling (tree_of value.now)) }
{
    match value {
        Value::Int(number) => put_int(out, *number),
        Value::Bytes(text) => put_string(out, text.as_slice()),
        Value::List(values) => write_items(out, values),
        Value::Dict(pairs) => write_pairs(out, pairs),
    }
}

#[cycle(write)]
fn write_items(out: &mut Text, values: &Values) -> Result<(), OutOfMemory>
    ensures { OnOk result (out.new.list ≡ out.old.list
        ++ 108 ∷ spellings (trees_of (list_in values.now)) ++ 101 ∷ []) }
{
    put(out, b"l")?;
    for item in values.as_slice() {
        write_value(out, item)?;
    }
    put(out, b"e")
}

#[cycle(write)]
fn write_pairs(out: &mut Text, pairs: &Pairs) -> Result<(), OutOfMemory>
    ensures { OnOk result (out.new.list ≡ out.old.list
        ++ 100 ∷ entry_spellings (pairs_of (list_in pairs.now)) ++ 101 ∷ []) }
{
    put(out, b"d")?;
    for pair in pairs.as_slice() {
        put_string(out, pair.0.as_slice())?;
        write_value(out, &pair.1)?;
    }
    put(out, b"e")
}

fn put_int(out: &mut Text, number: i64) -> Result<(), OutOfMemory>
    ensures { OnOk result (out.new.list ≡ out.old.list ++ 105 ∷ signed_decimal number ++ 101 ∷ []) }
{
    let mut buffer = Buffer::new();
    let digits = buffer.format(number).as_bytes();
    put(out, b"i")?;
    put(out, digits)?;
    put(out, b"e")
}

fn put_string(out: &mut Text, bytes: &[u8]) -> Result<(), OutOfMemory>
    ensures { OnOk result (out.new.list ≡ out.old.list ++ string bytes.now) }
{
    let mut buffer = Buffer::new();
    let digits = buffer.format(bytes.len()).as_bytes();
    put(out, digits)?;
    put(out, b":")?;
    put(out, bytes)
}

/// Puts bytes at the end, and makes the room for them.
fn put(out: &mut Text, bytes: &[u8]) -> Result<(), OutOfMemory>
    ensures { OnOk result (out.new.list ≡ out.old.list ++ bytes.now) }
{
    out.reserve(bytes.len())?;
    out.extend(bytes);
    Ok(())
}
