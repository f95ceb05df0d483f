//! A replay: the steps of a script are made one after the other, by one hand, over devices in memory, and what each prints is
//! written.
//!
//! Module `whole_replay` reads the script and plays it, `script_steps` makes its steps in order, `step` one step, `line_datagram` that of a
//! line `ng`, `line_packet` those of packets with their sends, `watched_calls` notes the calls of a control turn; `receipts` has the receipts that are
//! held, `devices` the devices, `state` all that is kept between two steps, `ends` which end has a port, `open_ports` which ports are open.
//!
//! `specs/Ready.antt` says what holds between two steps, `specs/Receipts.antt` which receipts are held, `specs/Arrivals.antt` at which
//! end a packet arrives, `specs/Steps.antt` what each step does and prints, `specs/Output.antt` what a replay writes.
#![tactic(auto)]

mod devices;
mod ended;
mod ends;
mod line_datagram;
mod line_packet;
mod open_ports;
mod receipts;
mod script_steps;
mod state;
mod step;
mod watched_calls;
mod whole_replay;

pub use ended::Ended;
pub use whole_replay::replay;
