//! The bytes in which values are written, and the values that bytes spell.
ghost use Rattle.std.specs.Prelude.{◌≤◌, IfOk};
ghost use Rattle.ng_bencode.specs.Tree.{depth, tree_of};

use ng_bencode::{Bad, Text, Value, decode, encode};
use relay_outside::OutOfMemory;
use std::alloc::Global;
use std::process::Abort;

/// The bytes in which a value is written.
pub(crate) fn bytes_of(rt: &impl Abort, alloc: Global, value: Result<Value, OutOfMemory>) -> Text
    requires { IfOk value (λ value. depth (tree_of value) ≤ 16) }
{
    let Ok(value) = value else {
        panic!(rt; "no memory");
    };
    let Ok(text) = encode(alloc, &value) else {
        panic!(rt; "no memory");
    };
    text
}

/// The value that these bytes spell.
pub(crate) fn value_of(rt: &impl Abort, alloc: Global, bytes: &[u8]) -> Option<Value> {
    match decode(alloc, bytes) {
        Ok(value) => Some(value),
        Err(Bad::NotBencode) => None,
        Err(Bad::OutOfMemory) => panic!(rt; "no memory"),
    }
}
