//! The replay window of SRTP and SRTCP: which packet index a sequence number stands for, and whether that index may still
//! be taken. A `Window` stands for the list of all indices that were noted in it, of which it keeps the last 128; `near`
//! estimates an index by RFC 3711 section 3.3.1, `fresh` and `note` are the check and the update of section 3.3.2.
//!
//! A window is saved as 25 bytes, and loaded from them, so that another process goes on with it.
//!
//! Module `answers` has the results of a window's calls, `window` the window, `saved` its bytes; `specs/Indices.antt` and
//! `specs/SavedWindows.antt` say what they mean.
#![tactic(auto)]

mod answers;
mod saved;
mod window;

pub use answers::{Fresh, Near};
pub use saved::saved_windows_differ;
pub use window::{Window, near_is_nearest};
