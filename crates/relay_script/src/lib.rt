//! The language of replayed scripts: `parse` reads one line as the step that it asks for, and `print` writes one line of
//! what a replay prints. No memory is kept, nothing is done: the steps are made elsewhere.
//!
//! `specs/Fields.antt` has the fields of a line, `specs/Lines.antt` which lines are in the grammar and what each asks for.
#![tactic(auto)]

mod event;
mod fields;
mod law;
mod parser;
mod payload;
mod printer;
mod step;

pub use event::Printed;
pub use law::{one_step, printed_text_is_read};
pub use parser::parse;
pub use printer::print;
pub use step::{FailKind, ParseFault, Step};
