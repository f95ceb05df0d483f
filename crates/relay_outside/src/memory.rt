//! Devices in memory, for tests and for replayed scripts.

pub(crate) mod clock;
pub(crate) mod failing_ports;
mod fill;
pub(crate) mod gate;
pub(crate) mod keys;
pub(crate) mod lines;
pub(crate) mod link;
pub(crate) mod ports;
pub(crate) mod sink;
