//! The relay as one call: `run` reads the words of a command line, drives the devices that it is handed,
//! and returns how it ended. Its contract says what was taken, sent and printed, for every status.
//! The program `rtpengine` makes the real devices and calls it.
#![tactic(auto)]

mod app;
mod replay_command;
mod usage;

pub use app::run;
pub use relay_runs::Status;
