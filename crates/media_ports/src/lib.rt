//! The ports of leased pairs, and drawn keys: what an offer asks of the port maker and of the key source.
//!
//! Module `opened_ports` opens the ports of an offer's leases pair by pair, RTP first, and closes them again after a fault;
//! `closed_ports` closes the ports of a pair and of opened pairs; `ends` has the ends of opened pairs in order;
//! `drawn_keys` draws keys into a list, `law` says which ports are open then. `specs/Calls.antt` and `specs/Draws.antt` say what that adds to the lists of the port
//! maker and of the key source, `specs/Openings.antt` which ports were opened and with which answers, `specs/Addresses.antt` has the
//! addresses, `specs/OpenPorts.antt` which ports are open.
#![tactic(auto)]

mod closed_ports;
mod drawn_keys;
mod ends;
mod law;
mod opened_ports;

pub use closed_ports::{close_opened, close_pair};
pub use drawn_keys::{DrawnList, KeyFault, draw_keys};
pub use ends::{OpenedPairs, PairEnds};
pub use law::{
    closed_pairs_are_not_held, held_pairs_are_open, leases_have_addresses, opened_pairs_are_held,
    other_pairs_are_closed, undone_pairs_are_not_held,
};
pub use opened_ports::{PortFault, open_pairs};
