//! The reports of the ng protocol, as bencoded values: what is told of a live call, and which calls are live.
//!
//! Module `report` reports a call: the moments of its first and of its last accepted offer or answer, and its tags. `medias` has
//! the committed legs of a side, `leg` one of them with its counts of packets and what its side reported of its reception;
//! `tag_order` says which of two tags stands first.
//! `live_calls` has the call-ids of the live calls. `values` makes the integers, the lists and the dictionaries of a report.
//! Reports are `report_tree` and `listing_tree` of `call_board`'s `specs/Reports.antt`; `specs/Tags.antt` has the order of a
//! call's tags, `specs/Blocks.antt` a leg with what was reported and without.
#![tactic(auto)]

mod leg;
mod live_calls;
mod medias;
mod report;
mod tag_order;
mod values;

pub use live_calls::list;
pub use report::query;
