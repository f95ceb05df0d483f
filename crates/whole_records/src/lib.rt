//! Whether the records of a node go together: its pool, its live calls with their dialogs, and its cells. A node that reads them goes on only
//! with such as do, and what a node writes does.
//!
//! `specs/SavedShapes.antt` says which shapes records hold, `specs/Records.antt` when they go together, and `specs/RecordParts.antt` what that
//! asks of their parts. `records_agree` decides it; module `law` states what it means for the board and the cells that are loaded.
#![tactic(auto)]

mod calls;
mod law;
mod legs;
mod pairs;
mod records;
mod sections;

pub use law::{
    agreeing_records_are_whole, cells_are_saved_with_their_shapes, records_hold_shapes,
    whole_is_saved_agreeing,
};
pub use records::records_agree;
