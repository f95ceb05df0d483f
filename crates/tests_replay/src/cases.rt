//! How a case of a table is named where it fails.

use std::process::Abort;

/// Stops the test where a case isn't so: a message names it by its place, from 0, in its table.
pub(crate) fn expect_case(rt: &impl Abort, place: usize, is_so: bool) {
    assert!(rt; is_so, "case {place}");
}
