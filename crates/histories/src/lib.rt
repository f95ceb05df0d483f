//! Words on lists, for the crates that speak of histories. A history is a list of what happened at one place, the latest
//! first; each question to it is a filter, a last, a greatest or a count.
//!
//! There is nothing to run here: `specs/Words.antt` has the words, `proofs/` what follows from them.
#![tactic(auto)]
