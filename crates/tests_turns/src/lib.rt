//! Tests of the turn table and of the steps of one turn of the board.
//! Nothing stands on this crate: the libraries that it tests are proved once, without their tests.
#![tactic(auto)]

#[cfg(test)]
mod board_entry_tests;
#[cfg(test)]
mod board_turns_tests;
#[cfg(test)]
mod control_bodies_tests;
#[cfg(test)]
mod control_reply_tests;
#[cfg(test)]
mod first_relay;
#[cfg(test)]
mod media_ports_tests;
#[cfg(test)]
mod nested_step_tests;
#[cfg(test)]
mod offer_memory_tests;
#[cfg(test)]
mod one_datagram_tests;
#[cfg(test)]
mod quiet_devices;
#[cfg(test)]
mod turn_example_tests;
#[cfg(test)]
mod turn_table_tests;
