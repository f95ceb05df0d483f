//! A lane of media: it takes datagrams from the boxes of port pairs, and relays each in the cell of the call that held the box.
//!
//! A lane has a hand of the turn table, and holds one turn at a time. `receive_try` and `relay_try` never wait and take no
//! memory: each makes one compare-exchange, and is busy exactly where another hand has the turn of that very place.
//! `receive` and `relay` do the same by a hand that may wait, and try the place's mark until it is free.
//!
//! Module `receipt` has what a take gave, `answers` what the calls return, `lane` the lane and its hand, `rooms` where its packets stand, which many lanes
//! of one thread share, `take` and `relay` its two steps, `sweep` a round over its pairs, which may wait for turns and relays each datagram where
//! it was taken, `sweep_loop` sweep after sweep until the lane is told to end, `puts` the way to put each kind of turn, `laws` what callers know.
//!
//! `specs/Starts.antt` says what the places of a lane's table begin as, `specs/Lanes.antt` what contracts see in a lane, `specs/Rooms.antt` in its rooms,
//! `specs/Receipts.antt` what a receipt of a hand's list is, `specs/Busy.antt` what a busy call does, `specs/Takes.antt` and
//! `specs/Relays.antt` what a take and a relay add to the list of its hand, `specs/Visits.antt` and `specs/Sweeps.antt` what a
//! sweep adds, `specs/Progress.antt` how far it has come, `specs/SweepLoops.antt` what sweep after sweep adds,
//! `specs/Gates.antt` at whose cells a gate was passed.
//!
//! Where no lane has a thread of its own, the main hand relays media between two turns of the board, by a lane of all pairs:
//! `main_sweep` makes a sweep and adds what came of it to the totals; `main_take` takes once at one port, `main_relay` relays one
//! packet. `specs/Totals.antt` says which counts over a list of entries the totals are, `specs/Steps.antt` what one take and one relay
//! add to the list, and which receipts it keeps.
#![tactic(auto)]

mod answers;
mod lane;
mod laws;
mod main_relay;
mod main_sweep;
mod main_take;
mod puts;
mod receipt;
mod relay;
mod rooms;
mod sweep;
mod sweep_loop;
mod take;

pub use answers::{Received, Relayed, Totals};
pub use lane::{Lane, LaneHand};
pub use laws::{lanes_take_and_relay, lists_of_lanes_stay, main_hand_relays, parts_begin_lanes};
pub use main_relay::relay_between;
pub use main_sweep::sweep_between;
pub use main_take::receive_between;
pub use receipt::Receipt;
pub use rooms::Rooms;
pub use sweep::Media;
pub use sweep_loop::lane_loop;
