//! Tests of ports, offers and answers, calls and the relay's places.
//! Nothing stands on this crate: the libraries that it tests are proved once, without their tests.
#![tactic(auto)]

#[cfg(test)]
mod call_board_tests;
#[cfg(test)]
mod call_cell_tests;
#[cfg(test)]
mod call_report_tests;
#[cfg(test)]
mod endpoint_learn_tests;
#[cfg(test)]
mod offer_answer_tests;
#[cfg(test)]
mod port_pool_tests;
#[cfg(test)]
mod relay_core_tests;
#[cfg(test)]
mod two_pairs;
