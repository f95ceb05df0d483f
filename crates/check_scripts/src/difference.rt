//! What is wrong with a script.

use std::alloc::AllocError;
use thiserror::Error;

/// The first thing in which the play of a script is not as its files tell.
#[derive(Debug, Drop, Error)]
pub(crate) enum Difference {
    /// There is no script of this name, or it can't be read as text.
    #[error("no script that can be read")]
    NoScript,
    /// What the script prints stands in no file, or in one that can't be read as text.
    #[error("no file of what it prints that can be read")]
    NoPrints,
    /// The line of this number, from 1, is the first that was printed otherwise, is missing, or is one too many.
    #[error("line {0} of what it prints differs")]
    Line(usize),
    /// It printed what it should, and ended otherwise: with this status of the program.
    #[error("it ends with status {0}")]
    Ended(u8),
    /// Memory for the play was refused.
    #[error("out of memory")]
    OutOfMemory(#[from(alloc)] AllocError),
}
