//! How a test over a table tells which case went another way.

use std::process::Abort;

/// Fails where a case of this table failed, with its number, from 0.
pub(crate) fn none_failed(rt: &impl Abort, table: &str, case: Option<usize>) {
    if let Some(number) = case {
        panic!(rt; "case {number} of {table}");
    }
}
