//! Tests of lanes and of the main hand's sweeps.
//! Nothing stands on this crate: the libraries that it tests are proved once, without their tests.
#![tactic(auto)]

#[cfg(test)]
mod main_sweep_tests;
#[cfg(test)]
mod media_lane_tests;
