use endpoint_learn::{Judge, Learner};
use relay_outside::{Addr, Flags, Ip};

const PLAIN: Flags = Flags {
    strict: false,
    handover: false,
    asymmetric: false,
};

const STRICT: Flags = Flags {
    strict: true,
    handover: false,
    asymmetric: false,
};

const HANDOVER: Flags = Flags {
    strict: false,
    handover: true,
    asymmetric: false,
};

const STRICT_HANDOVER: Flags = Flags {
    strict: true,
    handover: true,
    asymmetric: false,
};

const ASYMMETRIC: Flags = Flags {
    strict: true,
    handover: true,
    asymmetric: true,
};

fn at(port: u16) -> Addr {
    Addr {
        ip: Ip::V4([192, 0, 2, 10]),
        port,
    }
}

/// A learner of address 6000 after packets from 6001 and 6002.
fn taught(flags: Flags) -> Learner {
    let mut learner = Learner::new(at(6000), flags);
    learner.learn(at(6001));
    learner.learn(at(6002));
    learner
}

#[test]
fn before_learning(rt: HostRuntime) {
    let learner = Learner::new(at(6000), STRICT);
    assert!(rt; learner.endpoint() == at(6000));
    assert!(rt; learner.judge(at(7000)) == Judge::Pass);
}

#[test]
fn what_is_learned(rt: HostRuntime) {
    let table = [
        (PLAIN, 6001),
        (STRICT, 6001),
        (HANDOVER, 6002),
        (STRICT_HANDOVER, 6001),
        (ASYMMETRIC, 6000),
    ];
    for (flags, port) in table {
        let learner = taught(flags);
        assert!(rt; learner.endpoint() == at(port), "{flags:?}");
    }
}

#[test]
fn who_may_send(rt: HostRuntime) {
    let table = [
        (PLAIN, Judge::Pass),
        (STRICT, Judge::WrongSource),
        (HANDOVER, Judge::Pass),
        (STRICT_HANDOVER, Judge::WrongSource),
        (ASYMMETRIC, Judge::Pass),
    ];
    for (flags, wanted) in table {
        let learner = taught(flags);
        assert!(rt; learner.judge(at(6003)) == wanted, "{flags:?}");
        assert!(rt; learner.judge(at(6001)) == Judge::Pass, "{flags:?}");
    }
}

#[test]
fn a_new_signal(rt: HostRuntime) {
    let mut learner = taught(PLAIN);
    learner.signal(at(6000), STRICT);
    assert!(rt; learner.endpoint() == at(6001));
    assert!(rt; learner.judge(at(6002)) == Judge::WrongSource);
    learner.signal(at(6004), STRICT);
    assert!(rt; learner.endpoint() == at(6004));
    assert!(rt; learner.judge(at(6002)) == Judge::Pass);
}

#[test]
fn a_learner_there_and_back(rt: HostRuntime) {
    for flags in [PLAIN, STRICT, HANDOVER, STRICT_HANDOVER, ASYMMETRIC] {
        let learner = taught(flags);
        assert!(rt;
            Learner::load(&learner.save()) == Some(learner),
            "{flags:?}"
        );
    }
    let untaught = Learner::new(
        Addr {
            ip: Ip::V6([0x20, 1, 0xd, 0xb8, 0, 0, 0, 0, 0, 0, 0, 0, 0, 0, 0, 10]),
            port: 6000,
        },
        STRICT,
    );
    let bytes = untaught.save();
    // 6,000 is 0x1770.
    assert!(rt; bytes[0] == 6 && bytes[1] == 0x20 && bytes[16] == 10 && bytes[17] == 0x17);
    assert!(rt; bytes[18] == 0x70 && bytes[19] == 1 && bytes[20] == 0 && bytes[22] == 0);
    assert!(rt; Learner::load(&bytes) == Some(untaught));
}

#[test]
fn bytes_of_no_learner(rt: HostRuntime) {
    // A version, a byte behind an address of version 4, a flag, and what was learned.
    for (place, byte) in [(0, 5), (0, 0), (5, 1), (19, 2), (22, 0), (38, 1)] {
        let mut bytes = taught(STRICT).save();
        bytes[place] = byte;
        assert!(rt; Learner::load(&bytes).is_none(), "{place}");
    }
}
