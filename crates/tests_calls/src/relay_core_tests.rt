ghost use Rattle.std.specs.Prelude.{◌≡◌, None};

use relay_core::{Part, Relay, close_relay, parts};
use relay_outside::{Addr, Config, Failed, InEnd, Ip, OutEnd};
use turn_table::{Hand, Turns};

const CONFIG: Config = Config {
    interface: Ip::V4([192, 0, 2, 1]),
    interface6: None,
    port_min: 30_000,
    port_max: 30_006,
    timeout_ms: 60_000,
    offer_timeout_ms: 120_000,
    max_sessions: 2,
};

// An in end at which nothing is.
#[derive(Drop)]
struct Quiet {
    at: Addr,
}

impl InEnd for Quiet {
    ghost log = { λ end. record { at = end.at; calls = None } };

    ghost faults = { λ end. 0 };

    fn take(&mut self, _buf: &mut [u8]) -> Result<Option<(Addr, usize)>, Failed> {
        Ok(None)
    }
}

// An out end that no packet leaves.
#[derive(Drop)]
struct Mute {
    at: Addr,
}

impl OutEnd for Mute {
    ghost log = { λ end. record { at = end.at; calls = None } };

    ghost faults = { λ end. 0 };

    fn send(&mut self, _to: Addr, _bytes: &[u8]) -> Result<(), Failed> {
        Ok(())
    }
}

// How many boards, cells and boxes there are, and whether they stand in this order.
fn kinds(places: &[Part<Quiet, Mute>]) -> (u32, u32, u32, bool) {
    let (mut boards, mut cells, mut boxes) = (0u32, 0u32, 0u32);
    let mut in_order = true;
    for place in places {
        match place {
            Part::Board(_) => {
                in_order = in_order && cells == 0 && boxes == 0;
                boards = boards.saturating_add(1);
            }
            Part::Cell(_) => {
                in_order = in_order && boxes == 0;
                cells = cells.saturating_add(1);
            }
            Part::Pair(_) => boxes = boxes.saturating_add(1),
        }
    }
    (boards, cells, boxes, in_order)
}

#[test]
fn a_relay_begins_with_its_board_its_cells_and_its_boxes(rt: HostRuntime) {
    let Ok(places) = parts::<Quiet, Mute>(rt.alloc(), &CONFIG) else {
        panic!(rt; "no memory");
    };
    assert!(rt; kinds(places.as_slice()) == (1, 2, 3, true));
}

#[test]
fn a_relay_without_a_step_is_closed_as_it_began(rt: HostRuntime) {
    let Ok(places) = parts::<Quiet, Mute>(rt.alloc(), &CONFIG) else {
        panic!(rt; "no memory");
    };
    let Ok((turns, hand)) = Turns::<Relay<Quiet, Mute>>::start(rt.alloc(), places) else {
        panic!(rt; "no memory");
    };
    let places = close_relay(turns, hand);
    assert!(rt; kinds(places.as_slice()) == (1, 2, 3, true));
}
