//! Reads the body of a control datagram as a command of the ng protocol: ping, offer, answer, delete,
//! query or list, with its options. A body that is no command is told by its first fault, in a fixed
//! order of causes and keys. `specs/Bodies.antt` says how a body is read, `specs/Faults.antt` has the
//! order of keys, `specs/Effects.antt` what each key says.
#![tactic(auto)]

mod command;
mod fault;
mod kind;
mod options;
mod parser;
mod values;
mod verdict;

pub use command::{AnswerIn, Command, DeleteIn, OfferIn, Options, QueryIn};
pub use fault::{CommandFault, KeyName};
pub use parser::{read, read_pairs};
