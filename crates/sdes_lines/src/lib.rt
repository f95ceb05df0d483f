//! Crypto lines of a session description (SDES, RFC 4568): `a=crypto` attributes of the two suites
//! that this proxy speaks, read and written.
//!
//! [`usable`] returns a line's tag, suite and key exactly where the line is of the grammar that
//! `specs/CryptoLine.antt` states, and [`write_line`] writes a line that is usable again.
//! A line with an MKI, a session parameter, a further key or another suite is passed over.
//!
//! - `crypto_line`: the types
//! - `read`: reading a line, part by part from the left
//! - `write`: writing a line
#![tactic(auto)]

mod crypto_line;
mod read;
mod write;

pub use crypto_line::{CryptoLine, Suite};
pub use read::usable;
pub use write::{write_line, written_line_is_usable};
