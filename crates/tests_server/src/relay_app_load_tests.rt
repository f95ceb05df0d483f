//! Runs of `load`: what it prints, and that each packet was relayed inside the gate.

use crate::relay_app_runs::{Case, REPLAYING, check_cases};
use relay_app::Status;

/// A run of `load` with its defaults.
const LOADING: Case = Case {
    words: &["load"],
    relays: 20_000,
    lines: &[b"calls 50 sent 20000 refused 0 lost 0\n"],
    ..REPLAYING
};

/// One packet of each side of one call, in one lane.
const LEAST: Case = Case {
    words: &["load", "--calls=1", "--packets=1", "--lanes=1"],
    relays: 2,
    lines: &[b"calls 1 sent 2 refused 0 lost 0\n"],
    ..REPLAYING
};

/// A plain call and one that is protected towards one side; more lanes than pairs.
const TWO: Case = Case {
    words: &["load", "--calls=2", "--packets=3", "--lanes=16"],
    relays: 12,
    lines: &[b"calls 2 sent 12 refused 0 lost 0\n"],
    ..REPLAYING
};

/// The same line for every number of lanes.
const LANES: &[Case] = &[
    LOADING,
    LEAST,
    TWO,
    Case {
        words: &["load", "--calls=2", "--packets=3", "--lanes=1"],
        ..TWO
    },
    Case {
        words: &["load", "--calls=2", "--packets=3", "--lanes=3"],
        ..TWO
    },
    Case {
        words: &[
            "load",
            "--lanes=2",
            "--packets=3",
            "--calls=2",
            "--seed=18446744073709551615",
        ],
        ..TWO
    },
    // the sink doesn't take the line
    Case {
        write_fails: 1,
        status: Status::PrintFault,
        ..LEAST
    },
];

#[test]
fn each_packet_of_a_load_is_relayed(rt: HostRuntime) {
    check_cases(&rt, rt.alloc(), LANES);
}
