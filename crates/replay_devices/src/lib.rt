//! The devices of a replayed script, in memory: its lines, the control link, the ports with their ends, and the key source. Each is
//! told which line of the script is made next, and gives and fails by the lines.
//!
//! Module `script_reader` reads a script from its source into the steps that its lines ask for, up to the first line outside the grammar,
//! and `event_writer` writes what a replay prints, a line each. `specs/Scripts.antt` says which reads a script takes and how they stand for its
//! steps and its ending.
//!
//! `specs/Lines.antt` says what single lines ask of the devices; `specs/Link.antt`, `specs/Ports.antt` and `specs/Keys.antt` say what
//! each of them gives. Independently of them `Watch` says which of their calls the lines ask to fail, and which keys the draws give
//! (`specs/Watch.antt`), by definitions over what has happened: `specs/Steps.antt` has the steps that were made, `specs/Devices.antt` the
//! calls of the devices, the latest first, and the questions to them. What each step does and prints is in `replay_steps`.
#![tactic(auto)]

mod countdowns;
mod due;
mod ends;
mod event_writer;
mod failures;
mod keys;
mod lines;
mod link;
mod ports;
mod script;
mod script_reader;
mod timetable;
mod watch;

pub use ends::{ReplayIn, ReplayOut};
pub use event_writer::{WriteFault, write_event};
pub use keys::ReplayKeys;
pub use link::ReplayLink;
pub use ports::ReplayPorts;
pub use script::{Ending, Script};
pub use script_reader::read_script;
pub use timetable::Timetable;
pub use watch::Watch;
