//! What can go wrong in a call of this crate, and how a refused growth becomes it.
ghost use Rattle.std.specs.Prelude.{◌≡◌};
ghost use Rattle.ng_bencode.specs.declared.errors.Bad.TheVariants.{OutOfMemory as out_of_memory};

use std::alloc::{AllocError, AllocFailed};

/// There was no memory for the call. Nothing that was handed in has changed.
#[derive(Clone, Copy, Debug, PartialEq, Eq)]
pub struct OutOfMemory;

/// Why a text was not decoded.
#[derive(Clone, Copy, Debug, PartialEq, Eq)]
pub enum Bad {
    /// The bytes are not one bencoded value from their first to their last.
    NotBencode,
    /// There was no memory for the value.
    OutOfMemory,
}

impl From<AllocError> for OutOfMemory {
    fn from(_refused: AllocError) -> OutOfMemory {
        OutOfMemory
    }
}

impl<T: Drop> From<AllocFailed<T>> for OutOfMemory {
    fn from(_refused: AllocFailed<T>) -> OutOfMemory {
        OutOfMemory
    }
}

impl From<OutOfMemory> for Bad {
    ghost from_gives = { λ _ bad. bad ≡ out_of_memory };

    fn from(_refused: OutOfMemory) -> Bad {
        Bad::OutOfMemory
    }
}
