//! Integers and lists.
ghost use Rattle.std.specs.Prelude.{◌≡◌, ◌++◌, ◌∷◌, [], ◌<◌, ◌^◌, OnOk};
ghost use Rattle.ng_bencode.specs.Row.{list_in};
ghost use Rattle.ng_bencode.specs.Tree.{Int, tree_of};
ghost use Rattle.call_board.specs.Reports.{whole, moment_value};

use ng_bencode::{Value, Values};
use relay_outside::OutOfMemory;

/// An integer, below 2^63.
pub(crate) fn whole(number: u64) -> Value
    requires { number < 2 ^ 63 }
    ensures { tree_of result ≡ whole number }
{
    Value::int(number as i64)
}

/// An integer that may be negative.
pub(crate) fn signed(number: i32) -> Value
    ensures { tree_of result ≡ Int number }
{
    Value::int(number as i64)
}

/// A moment in milliseconds; 2^63 - 1 where it is greater.
pub(crate) fn moment_value(moment: u64) -> Value
    ensures { tree_of result ≡ moment_value moment }
{
    whole(moment.min(i64::MAX as u64))
}

/// Puts a value at the end of a list.
pub(crate) fn put_item(values: &mut Values, value: Value) -> Result<(), OutOfMemory>
    ensures { OnOk result (list_in values.new ≡ list_in values.old ++ value ∷ []) }
{
    let Ok(()) = values.reserve(1) else {
        return Err(OutOfMemory);
    };
    values.push(value);
    Ok(())
}
