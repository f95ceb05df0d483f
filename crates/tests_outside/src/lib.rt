//! Tests of devices in memory and of the real ones.
//! Nothing stands on this crate: the libraries that it tests are proved once, without their tests.
#![tactic(auto)]

#[cfg(test)]
mod families_tests;
#[cfg(test)]
mod load_maker_tests;
#[cfg(test)]
mod outside_real_tests;
#[cfg(test)]
mod relay_outside_tests;
#[cfg(test)]
mod seed_tests;
