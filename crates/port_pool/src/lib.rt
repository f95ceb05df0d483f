//! Port pairs: who holds one, which are free, what arrives at one, and what an answer commits for the legs that hold them.
//!
//! Module `pairs` has the pool of port pairs and its leases, `lease_list` leases in order, `boxes` the box of a pair with
//! its in ends, `address` the addresses of a pair, `holder` the leg that holds a pair, `signal` what an answer commits for a section and
//! `sections` for all, and `reports` what is told of legs.
//!
//! `specs/Pools.antt` says what a pool holds, `specs/Ports.antt` has the ports of a pair, `specs/Boxes.antt` the history of
//! a box and `specs/Takes.antt` what a take tells of it, `specs/Signals.antt` the questions to a signal, `specs/Reports.antt`
//! that the counts of a report fit.
#![tactic(auto)]

mod address;
mod boxes;
mod holder;
mod lease_list;
mod pairs;
mod reports;
mod saved_lease;
mod saved_pool;
mod sections;
mod signal;

pub use address::port_address;
pub use boxes::{BoxTake, MOST_PACKET, PairBox, TakeBuffer};
pub use holder::{Holder, Side};
pub use lease_list::Leases;
pub use pairs::{Lease, Pool};
pub use reports::{LegReport, LegReports, MOST_LEGS};
pub use saved_lease::saved_leases_differ;
pub use saved_pool::{PoolSaved, pool_moves};
pub use sections::Signal;
pub use signal::{LegSignal, SectionSignal};
