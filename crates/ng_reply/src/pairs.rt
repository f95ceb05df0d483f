//! Dictionaries that are made pair by pair.
ghost use Rattle.std.specs.Prelude.{◌≡◌, OnOk, OnErr};
ghost use Rattle.ng_bencode.specs.Row.{list_in};
ghost use Rattle.ng_bencode.specs.Tree.{Bytes, tree_of, pairs_of};
ghost use Rattle.ng_reply.specs.Pairs.{with_pair};

use ng_bencode::{Pairs, Text, Value};
use relay_outside::OutOfMemory;
use std::alloc::Global;

/// Puts a pair at the end of a dictionary. Out of memory leaves its pairs as they were.
pub fn put_pair(
    alloc: Global,
    pairs: &mut Pairs,
    key: &[u8],
    value: Value,
) -> Result<(), OutOfMemory>
    ensures put { OnOk result (pairs_of (list_in pairs.new) ≡ with_pair (pairs_of (list_in pairs.old)) key.now (tree_of value)) }
    ensures refused { OnErr result (list_in pairs.new ≡ list_in pairs.old) }
{
    let Ok(name) = Text::copy_of(alloc, key) else {
        return Err(OutOfMemory);
    };
    let Ok(()) = pairs.reserve(1) else {
        return Err(OutOfMemory);
    };
    pairs.push((name, value));
    Ok(())
}

/// Puts a pair of a key and a byte string at the end of a dictionary. Out of memory leaves its pairs as they were.
pub fn put_text(
    alloc: Global,
    pairs: &mut Pairs,
    key: &[u8],
    text: &[u8],
) -> Result<(), OutOfMemory>
    ensures put { OnOk result (pairs_of (list_in pairs.new) ≡ with_pair (pairs_of (list_in pairs.old)) key.now (Bytes text.now)) }
    ensures refused { OnErr result (list_in pairs.new ≡ list_in pairs.old) }
{
    let Ok(own) = Text::copy_of(alloc, text) else {
        return Err(OutOfMemory);
    };
    put_pair(alloc, pairs, key, Value::bytes(own))
}
