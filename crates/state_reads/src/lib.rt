//! The values of a node's written state, read one by one: each is a record that a node of this configuration goes on with, or it is told which
//! line is at fault.
//!
//! `relays`, `pools`, `calls`, `cells` and `caches` have each kind of value, from its text; `value_reads` reads them from a source of lines.
//! `ranges` has the bounds of counts, `call_orders` what tells live calls apart. `specs/Bounds.antt` says how great counts may be,
//! `specs/Texts.antt` and `specs/Calls.antt` which texts are the values of which records, `specs/Refusals.antt` which are those of none, and
//! `specs/ValueReads.antt` what the reads of a value show.
#![tactic(auto)]

mod caches;
mod call_orders;
mod calls;
mod cells;
mod pools;
mod ranges;
mod relays;
mod texts;
mod value_reads;

pub use caches::cache_of_text;
pub use calls::calls_of_text;
pub use cells::cell_of_text;
pub use pools::pool_of_text;
pub use relays::relay_of_text;
pub use value_reads::{
    read_cache_value, read_calls_value, read_cell_value, read_pool_value, read_relay_value,
};
