//! The written state of a relay: each record that a node hands over as one bencoded value, and back. A value is read just where it
//! is the one spelling of a record.
//!
//! Module `fields` has dictionaries with fixed keys, `numbers` integers and lists of them, `forms` flags, options and arrays of bytes,
//! `variants` enumerations, `sources` and `hosts` addresses. `pools` has the pool's record, `caches` the cache's, `configs` the
//! configuration, `relays` it with the last moment and the counts, `calls` the live calls, `boards` how a board comes apart into these.
//! `dialogs` has a dialog's: `kept_sections`, `legs` and `drawn_keys` its sections, `offers`, `made_sections`, `described`, `lines` and
//! `options` its last offer. `cells` has a cell's: `cell_legs` its legs, `holders`, `signals`, `cell_contexts` and `cell_leg_parts` the
//! parts of these. `specs/` says how each is written.
#![tactic(auto)]

mod boards;
mod caches;
mod calls;
mod cell_contexts;
mod cell_leg_parts;
mod cell_legs;
mod cells;
mod configs;
mod described;
mod dialogs;
mod drawn_keys;
mod fields;
mod forms;
mod holders;
mod hosts;
mod kept_sections;
mod law;
mod legs;
mod lines;
mod made_sections;
mod narrow;
mod number_options;
mod numbers;
mod offers;
mod options;
mod pools;
mod relays;
mod signals;
mod sources;
mod variants;

pub use boards::{BoardParts, board_of_parts, board_parts};
pub use caches::{cache_value, read_cache};
pub use calls::{calls_value, read_calls};
pub use cells::{cell_value, read_cell};
pub use configs::{config_value, read_config};
pub use law::{
    caches_are_spelled, caches_differ, calls_are_spelled, calls_differ, cells_are_spelled,
    cells_differ, configs_are_spelled, configs_differ, dialogs_are_spelled, dialogs_differ,
    pools_are_spelled, pools_differ, relays_are_spelled, relays_differ,
};
pub use pools::{pool_value, read_pool};
pub use relays::{RelaySaved, read_relay, relay_value};
