//! Numbers that may be missing.
ghost use Rattle.std.specs.Prelude.{◌≡◌, ◌<◌, ◌^◌, ℕ, Option, IfOk, IfSome, IfNone};
ghost use Rattle.ng_bencode.specs.Tree.{tree_of};
ghost use Rattle.state_values.specs.Numbers.{number_tree};
ghost use Rattle.state_values.specs.Forms.{option_tree};

use crate::forms::{none_value, read_option, some_value};
use crate::numbers::{number_value, read_number};
use ng_bencode::Value;
use relay_outside::OutOfMemory;
use std::alloc::Global;

/// A number that may be missing.
pub(crate) fn number_option(alloc: Global, number: Option<u64>) -> Result<Value, OutOfMemory>
    ensures { IfOk result (λ value. tree_of value ≡ option_tree number_tree number) }
{
    match number {
        None => Ok(none_value(alloc)),
        Some(number) => some_value(alloc, number_value(alloc, number)?),
    }
}

/// The number that may be missing, where it is written so.
pub(crate) fn read_number_option(value: &Value) -> Option<Option<u64>>
    ensures some { IfSome result (λ number. tree_of value.now ≡ option_tree number_tree number) }
    ensures none { IfNone result ((number : Option ℕ) → IfSome number (λ n. n < 2 ^ 64) → tree_of value.now ≡ option_tree number_tree number → ⊥) }
{
    match read_option(value)? {
        None => Some(None),
        Some(one) => Some(Some(read_number(one)?)),
    }
}
