//! What a replay is made with, and what it carries from step to step.
use crate::devices::Devices;
use crate::receipts::Receipts;
use ng_server::{Desk, Server};
use relay_core::Relay;
use relay_outside::Config;
use replay_devices::{ReplayIn, ReplayOut, ReplayPorts, Watch};
use std::alloc::Global;
use turn_table::Hand;

/// What a replay is made with: what every step is handed, and none changes.
pub(crate) struct Replayer<'r, 'a, R> {
    /// Turns wait with it.
    pub(crate) rt: &'r R,
    /// Where memory is taken from.
    pub(crate) alloc: Global,
    /// The configuration of the server.
    pub(crate) config: Config,
    /// The relay under the control protocol, with its table.
    pub(crate) server: Server<ReplayPorts<'a>>,
}

/// What a replay carries from step to step.
#[derive(Drop)]
pub(crate) struct ReplayState<'a> {
    /// The one hand of the table.
    pub(crate) hand: Hand<Relay<ReplayIn<'a>, ReplayOut<'a>>>,
    /// The memory of a control turn.
    pub(crate) desk: Desk<ReplayOut<'a>>,
    /// The control link, the port maker and the key source.
    pub(crate) devices: Devices<'a>,
    /// Which calls of the devices have to fail.
    pub(crate) watch: Watch,
    /// The receipts that are held for later lines.
    pub(crate) receipts: Receipts,
    /// The moment of the clock, in milliseconds.
    pub(crate) clock: u64,
}
