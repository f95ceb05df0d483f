//! Tests of the server and of the whole relay as one call.
//! Nothing stands on this crate: the libraries that it tests are proved once, without their tests.
#![tactic(auto)]

#[cfg(test)]
mod ng_server_tests;
#[cfg(test)]
mod relay_app_load_tests;
#[cfg(test)]
mod relay_app_packets_tests;
#[cfg(test)]
mod relay_app_replay_tests;
#[cfg(test)]
mod relay_app_runs;
#[cfg(test)]
mod relay_app_tests;
#[cfg(test)]
mod relay_app_threads_tests;
#[cfg(test)]
mod relay_app_timeouts_tests;
#[cfg(test)]
mod relay_app_words_tests;
#[cfg(test)]
mod table_devices;
