ghost use Rattle.std.specs.Prelude.{◌<◌};

use port_pool::{LegSignal, SectionSignal, Signal};
use relay_outside::{Addr, Flags, Ip};

/// An address of documentation (RFC 5737) with this port.
fn address(port: u16) -> Addr {
    Addr {
        ip: Ip::V4([192, 0, 2, 1]),
        port,
    }
}

/// What is committed for a leg that expects RTP at this port and RTCP at the next.
fn leg(port: u16) -> LegSignal
    requires { port < 65535 }
{
    LegSignal {
        rtp: address(port),
        rtcp: address(port + 1),
        flags: Flags {
            strict: false,
            handover: false,
            asymmetric: false,
        },
        hold: false,
        mux: false,
        inbound: None,
        outbound: Some(7),
    }
}

#[test]
fn a_signal_gives_its_sections_in_order(rt: HostRuntime) {
    let Ok(mut signal) = Signal::new(rt.alloc()) else {
        panic!(rt; "no memory");
    };
    let sections = [
        SectionSignal::Commit(leg(6000), leg(7000)),
        SectionSignal::Reject,
        SectionSignal::Commit(leg(6002), leg(7002)),
    ];
    assert!(rt; signal.len() == 0);
    signal.push(sections[0]);
    signal.push(sections[1]);
    signal.push(sections[2]);
    assert!(rt; signal.len() == 3);
    assert!(rt; signal.section(0) == sections[0]);
    assert!(rt; signal.section(1) == sections[1]);
    assert!(rt; signal.section(2) == sections[2]);
}
