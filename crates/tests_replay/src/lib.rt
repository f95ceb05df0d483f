//! Tests of scripts, of the devices of a replay, and of what is read and written.
//! Nothing stands on this crate: the libraries that it tests are proved once, without their tests.
#![tactic(auto)]

#[cfg(test)]
mod cases;
#[cfg(test)]
mod relay_script_tests;
#[cfg(test)]
mod replay_devices_tests;
#[cfg(test)]
mod replay_reading_tests;
#[cfg(test)]
mod table_lines;
