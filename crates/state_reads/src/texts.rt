//! The value that a text spells.
ghost use Rattle.std.specs.Prelude.{◌≡◌, IfOk, IfSome, IfNone};
ghost use Rattle.ng_bencode.specs.Tree.{Tree, tree_of};
ghost use Rattle.ng_bencode.specs.Spells.{Spells};

use ng_bencode::{Bad, Value, decode};
use relay_outside::OutOfMemory;
use std::alloc::Global;

/// The value that is spelled so. `None`: none is.
pub(crate) fn value_of_text(alloc: Global, text: &[u8]) -> Result<Option<Value>, OutOfMemory>
    ensures value { IfOk result (λ found. IfSome found (λ value. Spells text.now (tree_of value))) }
    ensures only { IfOk result (λ found. IfSome found (λ value. (tree : Tree) → Spells text.now tree → tree ≡ tree_of value)) }
    ensures none { IfOk result (λ found. IfNone found ((tree : Tree) → Spells text.now tree → ⊥)) }
{
    match decode(alloc, text) {
        Ok(value) => Ok(Some(value)),
        Err(Bad::NotBencode) => Ok(None),
        Err(Bad::OutOfMemory) => Err(OutOfMemory),
    }
}
