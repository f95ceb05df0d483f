//! Rewrites a session description: the ports, protocols, addresses and crypto lines that the proxy puts
//! in place of those of the side that sent it. The edited text is stated line by line in `specs/`: what
//! becomes of each line, and which lines are added after it. All other lines are passed on unchanged.
//!
//! - `edits`: what is to be written in each section
//! - `place`, `ahead`: what the lines before and after a line say of it
//! - `attribute`: which attributes are removed
//! - `image`: what becomes of a line
//! - `field`, `text`: the texts of rewritten lines
//! - `out_lines`: the lines that are written
//! - `step`: one line's part of the edited text
//! - `edited_text`: the edited text and its length
//! - `chosen_line`: which crypto line of a section is used
#![tactic(auto)]

mod ahead;
mod attribute;
mod chosen_line;
mod edited_text;
mod edits;
mod field;
mod image;
mod out_lines;
mod place;
mod step;
mod text;

pub use chosen_line::{choose, choose_among};
pub use edited_text::{edit, edit_into, edit_len};
pub use edits::{Edit, SectionEdit, SectionEdits};
