//! Where packets go that are sent to one leg and half: the signalled address, or the source that was learned from the packets
//! that came from there. A `Learner` stands for the list of what was signalled and received.
//!
//! A learner is saved as 41 bytes, and loaded from them, so that another process goes on with it.
//!
//! Module `learner` has the learner, `saved` the bytes of its addresses; `specs/Lessons.antt` says what is learned from such
//! a list, and `specs/SavedLearners.antt` which bytes a learner is saved as.
#![tactic(auto)]

mod learner;
mod saved;

pub use learner::{Judge, Learner};
pub use saved::saved_learners_differ;
