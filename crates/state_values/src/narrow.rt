//! Numbers of few bits, and with a sign.
ghost use Rattle.std.specs.Prelude.{◌≡◌, ◌<◌, ◌^◌, ℕ, ℤ, FitsSigned, IfSome, IfNone};
ghost use Rattle.std.specs.Int.{w32};
ghost use Rattle.ng_bencode.specs.Tree.{Int, tree_of};
ghost use Rattle.state_values.specs.Numbers.{number_tree};

use crate::numbers::read_number;
use ng_bencode::Value;

/// The number below 2^8 that is written so.
pub(crate) fn read_octet(value: &Value) -> Option<u8>
    ensures some { IfSome result (λ number. tree_of value.now ≡ number_tree number) }
    ensures none { IfNone result ((number : ℕ) → number < 2 ^ 8 → tree_of value.now ≡ number_tree number → ⊥) }
{
    let number = read_number(value)?;
    if number < 256 {
        Some(number as u8)
    } else {
        None
    }
}

/// A number with a sign.
pub(crate) fn signed_value(number: i32) -> Value
    ensures { tree_of result ≡ Int number }
{
    Value::int(i64::from(number))
}

/// The number with a sign of 32 bits that is written so.
pub(crate) fn read_signed(value: &Value) -> Option<i32>
    ensures some { IfSome result (λ number. tree_of value.now ≡ Int number) }
    ensures none { IfNone result ((number : ℤ) → FitsSigned w32 number → tree_of value.now ≡ Int number → ⊥) }
{
    i32::try_from(value.as_int()?).ok()
}
