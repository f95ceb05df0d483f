//! Tests of threads of media beside the control loop.
//! Nothing stands on this crate: the libraries that it tests are proved once, without their tests.
#![tactic(auto)]

#[cfg(test)]
mod calls_link;
#[cfg(test)]
mod fifty_calls_tests;
#[cfg(test)]
mod traffic;
