use port_pool::{LegReport, LegReports, Side};
use relay_outside::{Addr, Ip};

fn report(side: Side, port: u16) -> LegReport {
    LegReport {
        section: 0,
        side,
        port,
        endpoint: Addr {
            ip: Ip::V4([192, 0, 2, 10]),
            port: 6000,
        },
        rtp_accepted: 1,
        rtp_sent: 2,
        rtcp_accepted: 3,
        rtcp_sent: 4,
        report: None,
    }
}

#[test]
fn reports_stand_in_the_order_in_which_they_came(rt: HostRuntime) {
    let Ok(mut log) = LegReports::new(rt.alloc()) else {
        panic!(rt; "no memory");
    };
    log.push(report(Side::A, 30_000));
    log.push(report(Side::B, 30_002));
    assert!(rt; log.len() == 2 && log.get(0) == report(Side::A, 30_000));
    assert!(rt; log.get(1) == report(Side::B, 30_002));
    log.clear();
    assert!(rt; log.len() == 0);
}
