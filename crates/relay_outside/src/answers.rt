/// The error of a device that met a fault outside the program; its count of faults rose in that call.
#[derive(Clone, Copy, PartialEq, Eq, Debug)]
pub struct Failed;

/// Out of memory.
#[derive(Clone, Copy, PartialEq, Eq, Debug)]
pub struct OutOfMemory;

impl From<AllocError> for OutOfMemory {
    fn from(_refused: AllocError) -> OutOfMemory {
        OutOfMemory
    }
}

/// Of what a call gives back with the value that found no memory; the value is dropped.
impl<T: Drop> From<AllocFailed<T>> for OutOfMemory {
    fn from(_refused: AllocFailed<T>) -> OutOfMemory {
        OutOfMemory
    }
}

/// The result of a take of the control link.
#[derive(Clone, Copy, PartialEq, Eq, Debug)]
pub enum Taken {
    /// A datagram from this source fills the first `len` bytes of the buffer.
    Datagram {
        /// Where the datagram came from.
        from: Addr,
        /// How many bytes it filled, at most the buffer's length; a longer datagram is cut there.
        len: usize,
    },
    /// Nothing was there at this call.
    Nothing,
    /// The link will give no more.
    End,
}

/// The result of a read of a line.
#[derive(Clone, Copy, PartialEq, Eq, Debug)]
pub enum LineRead {
    /// A line, without its line feed, fills the first `len` bytes of the buffer.
    Text {
        /// How many bytes it filled; where that is the buffer's length, the line is at least so long.
        len: usize,
    },
    /// The source has no more lines.
    End,
}

use crate::address::Addr;
use std::alloc::{AllocError, AllocFailed};
