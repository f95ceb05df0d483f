//! Dictionaries with fixed keys, and lists.
ghost use Rattle.std.specs.Prelude.{◌≡◌, ◌++◌, ◌∷◌, [], ℕ, List, IfSome, IfNone, IfOk, OnOk};
ghost use Rattle.ng_bencode.specs.Row.{list_in};
ghost use Rattle.ng_bencode.specs.Tree.{Tree, Bytes, Dict, Entries, entry, no_entries, pairs_of, tree_of};

use ng_bencode::{Pairs, Row, Text, Value, Values};
use relay_outside::OutOfMemory;
use std::alloc::Global;

/// The pairs of a dictionary.
pub(crate) fn pairs_in(value: &Value) -> Option<&[(Text, Value)]>
    ensures some { IfSome result (λ pairs. tree_of value.now ≡ Dict (pairs_of pairs.now)) }
    ensures none { IfNone result ((entries : Entries) → tree_of value.now ≡ Dict entries → ⊥) }
{
    Some(value.as_dict()?.as_slice())
}

/// Takes the pair in front, where it has this key, and gives its value.
pub(crate) fn next_field<'a>(pairs: &mut &'a [(Text, Value)], key: &[u8]) -> Option<&'a Value>
    ensures some { IfSome result (λ value. pairs_of pairs.old.now ≡ entry key.now (tree_of value.now) (pairs_of pairs.new.now)) }
    ensures none { IfNone result ((tree : Tree) (rest : Entries) → pairs_of pairs.old.now ≡ entry key.now tree rest → ⊥) }
{
    let Some((pair, rest)) = pairs.split_first() else {
        return None;
    };
    if pair.0.as_slice() == key {
        *pairs = rest;
        Some(&pair.1)
    } else {
        None
    }
}

/// That no pair is left.
pub(crate) fn none_left(pairs: &[(Text, Value)]) -> Option<()>
    ensures some { IfSome result (λ _. pairs_of pairs.now ≡ no_entries) }
    ensures none { IfNone result ((pairs_of pairs.now ≡ no_entries) → ⊥) }
{
    if pairs.is_empty() { Some(()) } else { None }
}

/// Puts a pair at the end of a dictionary.
pub(crate) fn put_pair(
    alloc: Global,
    pairs: &mut Pairs,
    key: &[u8],
    value: Value,
) -> Result<(), OutOfMemory>
    ensures { OnOk result ((text : _) × (text.list ≡ key.now) × (list_in pairs.new ≡ list_in pairs.old ++ (text, value) ∷ [])) }
{
    let Ok(text) = Text::copy_of(alloc, key) else {
        return Err(OutOfMemory);
    };
    let Ok(()) = pairs.reserve(1) else {
        return Err(OutOfMemory);
    };
    pairs.push((text, value));
    Ok(())
}

/// Puts a value at the end of a list.
pub(crate) fn put_item(values: &mut Values, value: Value) -> Result<(), OutOfMemory>
    ensures { OnOk result (list_in values.new ≡ list_in values.old ++ value ∷ []) }
{
    let Ok(()) = values.reserve(1) else {
        return Err(OutOfMemory);
    };
    values.push(value);
    Ok(())
}

/// A byte string.
pub(crate) fn text_value(alloc: Global, bytes: &[u8]) -> Result<Value, OutOfMemory>
    ensures { IfOk result (λ value. tree_of value ≡ Bytes bytes.now) }
{
    let Ok(text) = Text::copy_of(alloc, bytes) else {
        return Err(OutOfMemory);
    };
    Ok(Value::bytes(text))
}

/// The byte string that is written so.
pub(crate) fn read_text(alloc: Global, value: &Value) -> Result<Option<Text>, OutOfMemory>
    ensures some { IfOk result (λ read. IfSome read (λ text. tree_of value.now ≡ Bytes text.list)) }
    ensures none { IfOk result (λ read. IfNone read ((bytes : List ℕ) → tree_of value.now ≡ Bytes bytes → ⊥)) }
{
    let Some(bytes) = value.as_bytes() else {
        return Ok(None);
    };
    let Ok(text) = Text::copy_of(alloc, bytes.as_slice()) else {
        return Err(OutOfMemory);
    };
    Ok(Some(text))
}
