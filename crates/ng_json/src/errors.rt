//! What can go wrong in a call of this crate, and how want of memory becomes it.
ghost use Rattle.std.specs.Prelude.{◌≡◌};
ghost use Rattle.ng_json.specs.declared.errors.JsonFault.TheVariants.{OutOfMemory as out_of_memory};

use ng_bencode::OutOfMemory;
use std::alloc::AllocFailed;

/// Why a text was not read.
#[derive(Clone, Copy, Debug, PartialEq, Eq)]
pub enum JsonFault {
    /// The bytes are not the JSON text of one value.
    NotJson,
    /// They are, and no bencoded value says the same: there is a number that is no integer or doesn't fit an i64, `true`, `false` or
    /// `null`, an object with two keys that stand for the same bytes, or more than 16 arrays and objects stand in one another.
    NoTwin,
    /// Out of memory.
    OutOfMemory,
}

impl From<OutOfMemory> for JsonFault {
    ghost from_gives = { λ _ fault. fault ≡ out_of_memory };

    fn from(_refused: OutOfMemory) -> JsonFault {
        JsonFault::OutOfMemory
    }
}

impl<T: Drop> From<AllocFailed<T>> for JsonFault {
    ghost from_gives = { λ _ fault. fault ≡ out_of_memory };

    fn from(_refused: AllocFailed<T>) -> JsonFault {
        JsonFault::OutOfMemory
    }
}
