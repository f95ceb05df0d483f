//! Numbers, and lists of them.
ghost use Rattle.std.specs.Prelude.{◌≡◌, ◌<◌, ◌≤◌, ◌^◌, ℕ, List, All, IfOk, IfSome, IfNone};
ghost use Rattle.std.specs.Int.{w64, to_be_bytes};
ghost use Rattle.ng_bencode.specs.Row.{list_in};
ghost use Rattle.ng_bencode.specs.Tree.{tree_of};
ghost use Rattle.state_values.specs.Numbers.{number_tree, list_tree};

use crate::fields::put_item;
use ng_bencode::{Row, Text, Value, Values};
use relay_outside::OutOfMemory;
use std::alloc::Global;

/// A number.
pub(crate) fn number_value(alloc: Global, number: u64) -> Result<Value, OutOfMemory>
    ensures { IfOk result (λ value. tree_of value ≡ number_tree number) }
{
    if number < 0x8000_0000_0000_0000 {
        return Ok(Value::int(number as i64));
    }
    let Ok(bytes) = Text::copy_of(alloc, &number.to_be_bytes()) else {
        return Err(OutOfMemory);
    };
    Ok(Value::bytes(bytes))
}

/// A number below 2^32. It takes no memory.
pub(crate) fn word_value(number: u32) -> Value
    ensures { tree_of result ≡ number_tree number }
{
    Value::int(i64::from(number))
}

/// The number above 2^63 - 1 that these bytes are.
fn large_number(bytes: &[u8]) -> Option<u64>
    ensures some { IfSome result (λ number. (bytes.now ≡ to_be_bytes w64 number) × (2 ^ 63 ≤ number)) }
    ensures none { IfNone result ((number : ℕ) → number < 2 ^ 64 → 2 ^ 63 ≤ number → bytes.now ≡ to_be_bytes w64 number → ⊥) }
{
    if bytes.len() != 8 {
        return None;
    }
    let b = bytes;
    let number = u64::from_be_bytes([b[0], b[1], b[2], b[3], b[4], b[5], b[6], b[7]]);
    if number < 0x8000_0000_0000_0000 {
        None
    } else {
        Some(number)
    }
}

/// The number that is written so.
pub(crate) fn read_number(value: &Value) -> Option<u64>
    ensures some { IfSome result (λ number. tree_of value.now ≡ number_tree number) }
    ensures none { IfNone result ((number : ℕ) → number < 2 ^ 64 → tree_of value.now ≡ number_tree number → ⊥) }
{
    if let Some(small) = value.as_int() {
        if small < 0 {
            return None;
        }
        return Some(small as u64);
    }
    let Some(bytes) = value.as_bytes() else {
        return None;
    };
    large_number(bytes.as_slice())
}

/// The number below 2^32 that is written so.
pub(crate) fn read_word(value: &Value) -> Option<u32>
    ensures some { IfSome result (λ number. tree_of value.now ≡ number_tree number) }
    ensures none { IfNone result ((number : ℕ) → number < 2 ^ 32 → tree_of value.now ≡ number_tree number → ⊥) }
{
    let Some(number) = read_number(value) else {
        return None;
    };
    if number < 0x1_0000_0000 {
        Some(number as u32)
    } else {
        None
    }
}

/// The number below 2^16 that is written so, as a port.
pub(crate) fn read_port(value: &Value) -> Option<u16>
    ensures some { IfSome result (λ number. tree_of value.now ≡ number_tree number) }
    ensures none { IfNone result ((number : ℕ) → number < 2 ^ 16 → tree_of value.now ≡ number_tree number → ⊥) }
{
    let Some(number) = read_number(value) else {
        return None;
    };
    if number < 0x1_0000 {
        Some(number as u16)
    } else {
        None
    }
}

/// Numbers in their order.
pub(crate) fn numbers_value(alloc: Global, numbers: &[u64]) -> Result<Value, OutOfMemory>
    ensures { IfOk result (λ value. tree_of value ≡ list_tree number_tree numbers.now) }
{
    let mut values: Values = Row::new(alloc);
    for number in numbers {
        let value = number_value(alloc, *number)?;
        put_item(&mut values, value)?;
    }
    Ok(Value::list(values))
}

/// Numbers below 2^32 in their order.
pub(crate) fn words_value(alloc: Global, numbers: &[u32]) -> Result<Value, OutOfMemory>
    ensures { IfOk result (λ value. tree_of value ≡ list_tree number_tree numbers.now) }
{
    let mut values: Values = Row::new(alloc);
    for number in numbers {
        let value = number_value(alloc, u64::from(*number))?;
        put_item(&mut values, value)?;
    }
    Ok(Value::list(values))
}

/// The numbers that are written so.
pub(crate) fn read_numbers(alloc: Global, value: &Value) -> Result<Option<Vec<u64>>, OutOfMemory>
    ensures some { IfOk result (λ read. IfSome read (λ numbers. tree_of value.now ≡ list_tree number_tree numbers.items)) }
    ensures none { IfOk result (λ read. IfNone read ((numbers : List ℕ) → All (λ n. n < 2 ^ 64) numbers →
        tree_of value.now ≡ list_tree number_tree numbers → ⊥)) }
{
    let Some(values) = value.as_list() else {
        return Ok(None);
    };
    let mut numbers = Vec::new(alloc);
    for item in values.as_slice() {
        let Some(number) = read_number(item) else {
            return Ok(None);
        };
        numbers.push(number)?;
    }
    Ok(Some(numbers))
}

/// The numbers below 2^32 that are written so.
pub(crate) fn read_words(alloc: Global, value: &Value) -> Result<Option<Vec<u32>>, OutOfMemory>
    ensures some { IfOk result (λ read. IfSome read (λ numbers. tree_of value.now ≡ list_tree number_tree numbers.items)) }
    ensures none { IfOk result (λ read. IfNone read ((numbers : List ℕ) → All (λ n. n < 2 ^ 32) numbers →
        tree_of value.now ≡ list_tree number_tree numbers → ⊥)) }
{
    let Some(values) = value.as_list() else {
        return Ok(None);
    };
    let mut numbers = Vec::new(alloc);
    for item in values.as_slice() {
        let Some(number) = read_word(item) else {
            return Ok(None);
        };
        numbers.push(number)?;
    }
    Ok(Some(numbers))
}
