use crate::relay_app_runs::{Case, REPLAYING, check_cases};
use relay_app::Status;

const SCRIPTS: &[Case] = &[
    Case {
        script: &[b"# a ping, and a packet to a port that no call has"],
        ..REPLAYING
    },
    Case {
        script: &[
            b"# a ping, and a packet to a port that no call has",
            b"ng 192.0.2.9:5060 t:1 d7:command4:pinge",
            b"packet 30000 192.0.2.10:6000 x:80",
        ],
        lines: &[b"reply 192.0.2.9:5060 t:1 d6:result4:ponge\n", b"nothing\n"],
        ..REPLAYING
    },
    Case {
        script: &[
            b"# a ping, and a packet to a port that no call has",
            b"ng 192.0.2.9:5060 t:1 d7:command4:pinge",
            b"packet 30000 192.0.2.10:6000 x:80",
            b"relay 9",
        ],
        status: Status::ScriptFault,
        lines: &[
            b"reply 192.0.2.9:5060 t:1 d6:result4:ponge\n",
            b"nothing\n",
            b"script fault: line 4\n",
        ],
        ..REPLAYING
    },
    // the second read fails
    Case {
        words: &["replay", "--seed=7"],
        script: &[b"packet 30000 192.0.2.10:6000 x:80", b"at 5"],
        read_fails: 2,
        status: Status::ScriptRead,
        lines: &[b"nothing\n"],
        ..REPLAYING
    },
];

#[test]
fn a_script_is_replayed_to_its_end_or_its_first_fault(rt: HostRuntime) {
    check_cases(&rt, rt.alloc(), SCRIPTS);
}
