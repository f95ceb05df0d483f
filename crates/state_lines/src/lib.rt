//! The text form of a node's written state: a heading, then for each value its length and its bytes as hexadecimal digits, and a last
//! line. Each call writes or reads the lines of one part, so that whoever hands a state over can do something between its values.
//!
//! `specs/StateLines.antt` says what the lines are, `specs/LineReads.antt` which reads a part takes and which line is at fault,
//! `specs/LineWrites.antt` which writes a part takes.
#![tactic(auto)]

mod digits;
mod faults;
mod law;
mod lengths;
mod next_line;
mod reader;
mod values;
mod writer;

pub use faults::LineFault;
pub use law::{
    refused_endings_refuse_states, refused_headings_refuse_states, refused_values_refuse_states,
    states_are_read_once,
};
pub use reader::StateReader;
pub use writer::{StateWriter, write_ending, write_heading};
