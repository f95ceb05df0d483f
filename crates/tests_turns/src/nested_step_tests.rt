ghost use Rattle.std.specs.Prelude.{◌≡◌};
ghost use Rattle.port_pool.specs.Ports.{port_address};

use crate::first_relay::{CONFIG, begin};
use crate::quiet_devices::{Mute, Quiet};
use board_turns::{BoardEntryId, MainHand, open_box, shut_box};
use port_pool::{BoxTake, Holder, Side, port_address};
use relay_core::Part;
use rtp_packet::Half;

mod cells;

const HOLDER: Holder = Holder {
    cell: 1,
    call: 0,
    section: 0,
    side: Side::A,
    pair: 1,
    generation: 1,
};

// The entry of the board to which the steps belong.
const ENTRY: BoardEntryId = BoardEntryId {
    number: 0,
    moment: 5,
};

// The in end of a port of the holder's pair, at which nothing is.
#[tactic(auto, unfolding(port_pool::specs::Ports::pair_count, port_pool::specs::Ports::range_pairs))]
fn quiet(half: Half) -> Quiet
    ensures { result.at ≡ port_address CONFIG HOLDER.pair half }
{
    Quiet {
        at: port_address(&CONFIG, HOLDER.pair, half),
    }
}

// The result of a take of the box of a place.
fn taken(places: &mut [Part<Quiet, Mute>], place: usize) -> Option<BoxTake> {
    let mut buf = [0u8; 2001];
    match places.get_mut(place)? {
        Part::Pair(pair) => Some(pair.take(Half::Rtp, &mut buf)),
        Part::Board(_) => None,
        Part::Cell(_) => None,
    }
}

#[test]
fn a_box_is_opened_for_its_leg(rt: HostRuntime) {
    let Some((turns, mut hand)) = begin(rt.alloc()) else {
        panic!(rt; "no memory");
    };
    let mut main = MainHand {
        turns: &turns,
        config: &CONFIG,
        hand: &mut hand,
        entry_id: ENTRY,
    };
    let (rtp, rtcp) = (quiet(Half::Rtp), quiet(Half::Rtcp));
    open_box(&rt, &mut main, HOLDER, rtp, rtcp);
    let mut places = turns.close(hand);
    assert!(rt; taken(places.as_mut_slice(), 3) == Some(BoxTake::Closed));
    assert!(rt; taken(places.as_mut_slice(), 4) == Some(BoxTake::Nothing));
}

#[test]
fn a_box_that_is_shut_gives_its_ends_back(rt: HostRuntime) {
    let Some((turns, mut hand)) = begin(rt.alloc()) else {
        panic!(rt; "no memory");
    };
    let mut main = MainHand {
        turns: &turns,
        config: &CONFIG,
        hand: &mut hand,
        entry_id: ENTRY,
    };
    let (rtp, rtcp) = (quiet(Half::Rtp), quiet(Half::Rtcp));
    open_box(&rt, &mut main, HOLDER, rtp, rtcp);
    let mut main = MainHand {
        turns: &turns,
        config: &CONFIG,
        hand: &mut hand,
        entry_id: ENTRY,
    };
    let (rtp, rtcp) = shut_box(&rt, &mut main, HOLDER.pair);
    assert!(rt; (rtp.at.port, rtcp.at.port) == (30_002, 30_003));
    let mut places = turns.close(hand);
    assert!(rt; taken(places.as_mut_slice(), 4) == Some(BoxTake::Closed));
}
