//! Laws of runs: how a run of `serve` ends is said by what its control link gave, and by whether its line of totals was written; and each of its
//! datagrams is answered, where no port and no key fails; and in a run of `load` each relay stands at its cell before every End there.
//!
//! Module `law` states it. `specs/Causes.antt` says for each status what the calls of the link were, `specs/Answers.antt` which turn a datagram of a
//! run is, and `specs/LoadEnds.antt` how relays and Ends stand. There is nothing to run here, and nothing stands on this crate.
#![tactic(auto)]

mod law;

pub use law::{
    datagrams_of_a_run_are_answered, relays_of_a_load_stand_before_its_ends,
    serve_ends_with_its_link,
};
