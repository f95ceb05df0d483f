//! The memory of the first offer of a board with two pairs.

use crate::quiet_devices::{Mute, Quiet};
use call_board::{Board, BoardPlan};
use ng_bencode::Text;
use ng_command::{OfferIn, Options};
use offer_command::OfferRoom;
use relay_outside::{Config, Flags, Ip};
use sdp_text::{Proto, read};
use std::alloc::Global;
use std::process::Abort;

/// One call may be live, over two pairs of ports.
const CONFIG: Config = Config {
    interface: Ip::V4([203, 0, 113, 1]),
    interface6: None,
    port_min: 30000,
    port_max: 30003,
    timeout_ms: 60000,
    offer_timeout_ms: 60000,
    max_sessions: 1,
};

const AUDIO: &[u8] =
    b"v=0\r\no=- 1 1 IN IP4 192.0.2.10\r\ns=-\r\nc=IN IP4 192.0.2.10\r\nt=0 0\r\nm=audio 4000 RTP/AVP 0\r\n";

/// SRTP is written for the other side, which then has a key for each of two suites.
const OPTIONS: Options = Options {
    flags: Flags {
        strict: false,
        handover: false,
        asymmetric: false,
    },
    replace_origin: false,
    replace_session: false,
    transport: Some(Proto::Savp),
    source: None,
    family: None,
    mux_offer: false,
    mux_demux: false,
    mux_accept: false,
};

fn text(rt: &impl Abort, alloc: Global, bytes: &[u8]) -> Text {
    let mut text = Text::new(alloc);
    text.reserve(bytes.len()).expect(rt, "memory");
    text.extend(bytes);
    text
}

/// What a first offer is planned as: it demands two pairs and two keys.
fn first_plan(rt: &impl Abort, alloc: Global) -> BoardPlan {
    let mut board = Board::new(alloc, &CONFIG).expect(rt, "memory");
    let sdp = read(alloc, AUDIO).expect(rt, "the description is read");
    let input = OfferIn {
        call_id: text(rt, alloc, b"call"),
        from_tag: text(rt, alloc, b"alice"),
        sdp: Text::new(alloc),
        options: OPTIONS,
    };
    board
        .plan_offer(alloc, &input, &sdp)
        .expect(rt, "the offer is planned")
}

#[test]
fn an_offer_has_room_for_two_pairs_and_two_keys(rt: HostRuntime) {
    let plan = first_plan(&rt, rt.alloc());
    let planned = plan.planned();
    assert!(rt; planned.pairs() == 2 && planned.keys() == 2);
    let room = OfferRoom::<Quiet, Mute>::reserve(rt.alloc(), planned);
    assert!(rt; room.is_ok());
}
