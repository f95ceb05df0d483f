//! Flags, options and byte strings of a fixed length.
ghost use Rattle.std.specs.Prelude.{◌≡◌, ◌∷◌, [], ◌<◌, ◌^◌, ℕ, Bool, List, Option, length, IfOk, IfSome, IfNone};
ghost use Rattle.ng_bencode.specs.Tree.{Tree, Bytes, Items, no_items, item, tree_of};
ghost use Rattle.state_values.specs.Numbers.{number_tree};
ghost use Rattle.state_values.specs.Forms.{option_tree, flag_tree};

use crate::fields::put_item;
use crate::numbers::{read_number, word_value};
use ng_bencode::{Row, Value, Values};
use relay_outside::OutOfMemory;
use std::alloc::Global;

/// A flag.
pub(crate) fn flag_value(flag: bool) -> Value
    ensures { tree_of result ≡ flag_tree flag }
{
    word_value(u32::from(flag))
}

/// The flag that is written so.
pub(crate) fn read_flag(value: &Value) -> Option<bool>
    ensures some { IfSome result (λ flag. tree_of value.now ≡ flag_tree flag) }
    ensures none { IfNone result ((flag : Bool) → tree_of value.now ≡ flag_tree flag → ⊥) }
{
    match read_number(value)? {
        0 => Some(false),
        1 => Some(true),
        _ => None,
    }
}

/// An option of nothing. It takes no memory.
pub(crate) fn none_value(alloc: Global) -> Value
    ensures { tree_of result ≡ Items no_items }
{
    Value::list(Row::new(alloc))
}

/// An option of what is written as this value.
pub(crate) fn some_value(alloc: Global, inner: Value) -> Result<Value, OutOfMemory>
    ensures { IfOk result (λ value. tree_of value ≡ Items (item (tree_of inner) no_items)) }
{
    let mut values: Values = Row::new(alloc);
    put_item(&mut values, inner)?;
    Ok(Value::list(values))
}

/// The value of what may be there. The outer `None`: no option is written so.
pub(crate) fn read_option(value: &Value) -> Option<Option<&Value>>
    ensures some { IfSome result (λ there. tree_of value.now ≡ option_tree (λ inner. tree_of inner.now) there) }
    ensures none { IfNone result ((there : Option Tree) → tree_of value.now ≡ option_tree (λ tree. tree) there → ⊥) }
{
    match value.as_list()?.as_slice() {
        [] => Some(None),
        [inner] => Some(Some(inner)),
        _ => None,
    }
}

/// The array of bytes that is written so.
pub(crate) fn read_array<const N: usize>(value: &Value) -> Option<[u8; N]>
    ensures some { IfSome result (λ array. tree_of value.now ≡ Bytes array) }
    ensures none { IfNone result ((array : List ℕ) → length array ≡ N → tree_of value.now ≡ Bytes array → ⊥) }
{
    let bytes = value.as_bytes()?.as_slice();
    if bytes.len() != N {
        return None;
    }
    let mut array = [0; N];
    array.copy_from_slice(bytes);
    Some(array)
}

/// Two values, where there are just two.
pub(crate) fn two(values: &[Value]) -> Option<(&Value, &Value)>
    ensures some { IfSome result (λ found. values.now ≡ found.0.now ∷ found.1.now ∷ []) }
    ensures none { IfNone result (length values.now ≡ 2 → ⊥) }
{
    match values {
        [a, b] => Some((a, b)),
        _ => None,
    }
}
