//! Tests of the written state: each record there and back over what calls made, changed bytes, and whether records go together.
//! Nothing stands on this crate: the libraries that it tests are proved once, without their tests.
#![tactic(auto)]

#[cfg(test)]
mod agreement_tests;
#[cfg(test)]
mod board_tests;
#[cfg(test)]
mod cache_tests;
#[cfg(test)]
mod cell_tests;
#[cfg(test)]
mod cells;
#[cfg(test)]
mod change_tests;
#[cfg(test)]
mod configs;
#[cfg(test)]
mod dialogs;
#[cfg(test)]
mod pool_tests;
#[cfg(test)]
mod port_ends;
#[cfg(test)]
mod spellings;
#[cfg(test)]
mod written_again;
