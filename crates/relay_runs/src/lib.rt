//! Runs of the relay: `serve` makes control turns over the devices that it is handed, with threads of media beside them, and `load` does so with
//! generated calls over devices in memory. Each ends all calls, closes the table, and prints a line of what came of the packets.
//! What a run did is one list of all its steps, legal and safe, which fits what each device told.
#![tactic(auto)]

mod control_loop;
mod devices;
mod halt;
mod lane_shares;
mod lanes;
mod load_command;
mod load_end;
mod load_run;
mod media_thread;
mod parallel_work;
mod prepared;
mod rota;
mod seed_keys;
mod serve_command;
mod status;
mod totals;

pub use devices::{Devices, Tells};
pub use load_command::load;
pub use load_end::{LoadEnd, Shortfall};
pub use media_lane::Media;
pub use serve_command::serve;
pub use status::Status;
