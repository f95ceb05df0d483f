//! AES-128 (FIPS 197) and its counter mode (RFC 3711, section 4.1.1), as SRTP uses them.
//!
//! A `Cipher` is made of a key once and keeps the key schedule. `block` enciphers one block, and
//! `apply` enciphers or deciphers bytes in place, with the keystream from a counter on.
#![tactic(auto)]

mod cipher;
mod key_schedule;
mod law;
mod state;
mod substitution;
mod tables;

pub use cipher::Cipher;
pub use law::power_254_is_the_inverse;
