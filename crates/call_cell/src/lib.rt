//! The state of one call's media: which packets are taken, where they go, and under which keys.
//!
//! Module `cell` has the cell, `leg` one leg of its call, whose `receiver` keeps a learner for each half and the contexts
//! of `contexts`, and whose `sender` sends; `heads` reads a packet's head, which is handed down; `counts` counts its packets, and
//! `leg_reports` tells of the legs that are committed; `gone` takes the legs that went. An offer is collected by `prepare`, and
//! `new_legs` brings its legs and keys to those that are there; `in_contexts` is room for what an answer brings, `signals` reads
//! what it says, and `dropped_legs` parts the legs that go from those that stay; `taken_ends` takes the out ends out of a cell that
//! is saved by `saving`, and `given_ends` gives out ends to one that is loaded by `loading`. Module `outcome` says what becomes of a packet that a
//! leg received, `law` that no packet is protected under an index that another had, and what a caller knows of a cell by its
//! history; that what it knows of one history holds of each for which the cell stands.
//!
//! `specs/Cells.antt` has the history of a cell and its legs, `specs/Lessons.antt` where packets go, `specs/Protection.antt` what is
//! taken and sent under a key, `specs/Deeds.antt` what a relay does, `specs/Demands.antt` when a call is due to end and what is
//! told of its legs, `specs/Good.antt` which histories fit, `specs/SignalEntries.antt` on which entries legs and keys hang, and
//! `specs/Numbers.antt` that each key has a number of its own. `specs/CellHistories.antt` says for which histories a cell stands and
//! what a relay does to it, `specs/Preparations.antt`, `specs/Commits.antt`, `specs/Expiries.antt` and `specs/CellEnds.antt` the
//! same of offers, answers, the question whether the call is due, and its end, `specs/LegReports.antt` of reports; they stand over
//! `specs/LegHistories.antt` for legs, `specs/LegKeys.antt` for their keys, `specs/Counts.antt` for their counts,
//! `specs/DroppedLegs.antt` for legs that go, `specs/TakenEnds.antt` for ends that are taken, `specs/GivenEnds.antt` for ends that are given again, `specs/Parts.antt` for the parts of a leg, `specs/Contexts.antt` for the contexts of
//! one key, and `specs/Heads.antt` for the heads of packets. `specs/Shapes.antt` says what the calls make of a cell's legs, keys,
//! leases, out ends and counts whatever its history. `proofs/rows` has worked examples.
#![tactic(auto)]

mod cell;
mod contexts;
mod counts;
mod dropped_legs;
mod given_ends;
mod gone;
mod heads;
mod in_contexts;
mod law;
mod leg;
mod leg_reports;
mod loading;
mod new_legs;
mod outcome;
mod places;
mod prepare;
mod receiver;
mod saved;
mod saving;
mod sender;
mod signals;
mod taken_ends;

pub use cell::Cell;
pub use contexts::{Inbound, Outbound};
pub use counts::Counts;
pub use gone::Gone;
pub use in_contexts::InContexts;
pub use law::{
    answers_name_keys_after_each_history, contexts_are_counted,
    counts_are_below_after_each_history, legs_are_few, legs_find_places, listed_ends_are_given,
    notes_are_new, offers_come_after_each_history, packets_change_no_condition, saved_cells_stand,
};
pub use outcome::{Incoming, LocalPort, Lost, Outcome, PacketBuffer, Refused};
pub use port_pool::{LegReport, LegReports};
pub use prepare::Prepare;
pub use saved::{CellSaved, LegSaved};
