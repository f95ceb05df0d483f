//! Laws of addresses as texts: an address that is written is read as itself, and the run that stands as `::` is the longest one.
//!
//! Module `law` states them. `specs/Addresses.antt` says what an address is and what a run of zero groups is. There is nothing to run here, and
//! nothing stands on this crate.
#![tactic(auto)]

mod law;

pub use law::{double_colon_is_longest, written_host_is_read};
