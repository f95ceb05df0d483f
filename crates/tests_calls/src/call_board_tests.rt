//! What a new board plans, refuses and keeps.

ghost use Rattle.std.specs.Prelude.{◌≡◌};

use call_board::*;
use ng_bencode::Text;
use ng_command::{AnswerIn, OfferIn, Options};
use offer_answer::Plan;
use relay_outside::{Addr, Config, Family, Flags, Ip, OutOfMemory};
use sdp_text::{Sdp, read};
use std::alloc::Global;
use std::process::Abort;

/// One call may be live, over two pairs of ports.
pub(crate) const CONFIG: Config = Config {
    interface: Ip::V4([203, 0, 113, 1]),
    interface6: None,
    port_min: 30000,
    port_max: 30003,
    timeout_ms: 60000,
    offer_timeout_ms: 60000,
    max_sessions: 1,
};

/// The same with as many pairs of version 6.
const BOTH: Config = Config {
    interface: Ip::V4([203, 0, 113, 1]),
    interface6: Some(Ip::V6([0x20, 1, 0x0d, 0xb8, 0, 0, 0, 0, 0, 0, 0, 0, 0, 0, 0, 1])),
    port_min: 30000,
    port_max: 30003,
    timeout_ms: 60000,
    offer_timeout_ms: 60000,
    max_sessions: 1,
};

const AUDIO: &[u8] =
    b"v=0\r\no=- 1 1 IN IP4 192.0.2.10\r\ns=-\r\nc=IN IP4 192.0.2.10\r\nt=0 0\r\nm=audio 4000 RTP/AVP 0\r\n";

const AUDIO_AND_VIDEO: &[u8] =
    b"v=0\r\no=- 1 1 IN IP4 192.0.2.10\r\ns=-\r\nc=IN IP4 192.0.2.10\r\nt=0 0\r\nm=audio 4000 RTP/AVP 0\r\nm=video 4002 RTP/AVP 96\r\n";

const AUDIO_AND_VIDEO_OVER_IPV6: &[u8] =
    b"v=0\r\no=- 1 1 IN IP6 2001:db8::10\r\ns=-\r\nc=IN IP6 2001:db8::10\r\nt=0 0\r\nm=audio 4000 RTP/AVP 0\r\nm=video 4002 RTP/AVP 96\r\n";

const OPTIONS: Options = Options {
    flags: Flags {
        strict: false,
        handover: false,
        asymmetric: false,
    },
    replace_origin: false,
    replace_session: false,
    transport: None,
    source: None,
    family: None,
    mux_offer: false,
    mux_demux: false,
    mux_accept: false,
};

fn text(rt: &impl Abort, alloc: Global, bytes: &[u8]) -> Text
    ensures { result.list ≡ bytes.now }
{
    let mut text = Text::new(alloc);
    let Ok(()) = text.reserve(bytes.len()) else {
        panic!(rt; "no memory");
    };
    text.extend(bytes);
    text
}

fn board_of(rt: &impl Abort, alloc: Global, config: &Config) -> Board {
    Board::new(alloc, config).expect(rt, "memory")
}

/// The plan of a first offer of this description that asks for this family, or its fault.
fn planned(
    rt: &impl Abort,
    alloc: Global,
    board: &mut Board,
    description: &[u8],
    family: Option<Family>,
) -> Result<BoardPlan, BoardFault> {
    assert!(rt; description.len() < 65_536);
    let Ok(sdp) = read(alloc, description) else {
        panic!(rt; "the description is read");
    };
    let input = OfferIn {
        call_id: text(rt, alloc, b"call"),
        from_tag: text(rt, alloc, b"alice"),
        sdp: Text::new(alloc),
        options: Options { family, ..OPTIONS },
    };
    board.plan_offer(alloc, &input, &sdp)
}

#[test]
fn a_first_offer_begins_the_first_call_in_the_first_cell(rt: HostRuntime) {
    let mut board = board_of(&rt, rt.alloc(), &CONFIG);
    let Ok(mut plan) = planned(&rt, rt.alloc(), &mut board, AUDIO, None) else {
        panic!(rt; "the offer is planned");
    };
    assert!(rt; plan.call() == 0 && plan.cell() == 1 && plan.plan().pairs() == 2);
    assert!(rt;
        board.free_count(Family::V4) == 2
            && board.free_count(Family::V6) == 0
            && board.live_count() == 0
    );
    assert!(rt; board.find_call(b"call").is_none() && board.calls().is_empty());
}

/// Why a first offer of this description that asks for this family is refused by a board of this configuration.
fn refusal(
    rt: &impl Abort,
    alloc: Global,
    config: &Config,
    description: &[u8],
    family: Option<Family>,
) -> Option<BoardFault> {
    let mut board = board_of(rt, alloc, config);
    planned(rt, alloc, &mut board, description, family).err()
}

#[test]
fn an_offer_fails_for_want_of_pairs_or_sessions(rt: HostRuntime) {
    let full = Config {
        max_sessions: 0,
        ..CONFIG
    };
    assert!(rt;
        refusal(&rt, rt.alloc(), &CONFIG, AUDIO_AND_VIDEO, None) == Some(BoardFault::NoPair)
    );
    assert!(rt;
        refusal(&rt, rt.alloc(), &full, AUDIO_AND_VIDEO, None) == Some(BoardFault::SessionLimit)
    );
}

#[test]
fn each_family_has_as_many_free_pairs(rt: HostRuntime) {
    let board = board_of(&rt, rt.alloc(), &BOTH);
    assert!(rt; board.free_count(Family::V4) == 2 && board.free_count(Family::V6) == 2);
}

/// The family of each pair that the plan demands.
fn families(plan: &Plan, alloc: Global) -> Result<Vec<Family>, OutOfMemory> {
    let mut families = Vec::new(alloc);
    for index in 0..plan.pairs() {
        families.push(plan.pair_family(index))?;
    }
    Ok(families)
}

#[test]
fn pairs_are_demanded_of_the_families_of_their_legs(rt: HostRuntime) {
    let mut board = board_of(&rt, rt.alloc(), &BOTH);
    let six = Some(Family::V6);
    let Ok(mut plan) = planned(&rt, rt.alloc(), &mut board, AUDIO_AND_VIDEO, six) else {
        panic!(rt; "two pairs of each family are free");
    };
    let Ok(families) = families(plan.plan(), rt.alloc()) else {
        panic!(rt; "no memory");
    };
    // (the leg that the reply names stands before that of the offerer)
    let want = [Family::V6, Family::V4, Family::V6, Family::V4];
    assert!(rt; families.as_slice() == want.as_slice());
}

#[test]
fn an_offer_fails_for_want_of_pairs_of_one_family(rt: HostRuntime) {
    let wants_four = refusal(&rt, rt.alloc(), &BOTH, AUDIO_AND_VIDEO, None);
    assert!(rt;
        wants_four == Some(BoardFault::NoPair),
        "two of version 4 are free"
    );
    let wants_four = refusal(&rt, rt.alloc(), &BOTH, AUDIO_AND_VIDEO_OVER_IPV6, None);
    assert!(rt;
        wants_four == Some(BoardFault::NoPair),
        "two of version 6 are free"
    );
    let wants_one = refusal(&rt, rt.alloc(), &CONFIG, AUDIO, Some(Family::V6));
    assert!(rt;
        wants_one == Some(BoardFault::NoPair),
        "there is none of version 6"
    );
}

/// Why an answer of this description to no call is refused.
fn answer_refusal(
    rt: &impl Abort,
    alloc: Global,
    board: &mut Board,
    sdp: &Sdp,
) -> Option<BoardFault> {
    let input = AnswerIn {
        call_id: text(rt, alloc, b"call"),
        from_tag: text(rt, alloc, b"alice"),
        to_tag: text(rt, alloc, b"bob"),
        sdp: Text::new(alloc),
        options: OPTIONS,
    };
    board.plan_answer(alloc, &input, sdp).err()
}

#[test]
fn an_answer_to_no_call_is_refused(rt: HostRuntime) {
    let mut board = board_of(&rt, rt.alloc(), &CONFIG);
    let Ok(sdp) = read(rt.alloc(), AUDIO) else {
        panic!(rt; "the description is read");
    };
    let refused = answer_refusal(&rt, rt.alloc(), &mut board, &sdp);
    assert!(rt; refused == Some(BoardFault::UnknownCall));
    assert!(rt; board.hear_answer(b"call", &sdp).lines().is_empty());
}

#[test]
fn a_kept_reply_is_found_for_a_minute(rt: HostRuntime) {
    let source = Addr {
        ip: Ip::V4([192, 0, 2, 1]),
        port: 2223,
    };
    let mut board = board_of(&rt, rt.alloc(), &CONFIG);
    let Ok(()) = board.reserve_reply() else {
        panic!(rt; "no memory");
    };
    let now = board.advance(5);
    let cookie = text(&rt, rt.alloc(), b"8_a");
    board.keep_reply(source, cookie, text(&rt, rt.alloc(), b"pong"), now);
    assert!(rt; board.find_reply(source, b"8_a", 60_004) == Some(b"pong".as_slice()));
    assert!(rt; board.find_reply(source, b"8_a", 60_005).is_none());
}
