use crate::cache_tests::used_cache;
use crate::configs::{CONFIG, leased_pool};
use crate::dialogs::{new_dialog, planned_answer, take_first_offer, take_later_offer, text};
use crate::spellings::value_of;
use crate::written_again::{
    cache_bytes, calls_bytes, config_again, config_bytes, pool_bytes, relay_again, relay_bytes,
};
use call_board::{Board, BoardSaved, CallSaved};
use ng_bencode::Text;
use offer_answer::Dialog;
use state_values::*;
use std::alloc::Global;
use std::process::Abort;

/// What a relay keeps that began two calls and drew two keys, as it is written.
pub(crate) const RELAY: &[u8] =
    b"d5:beguni2e6:configd9:interface4:\xcb\x00\x71\x0110:interface6l16:\x20\x01\x0d\xb8\x00\x00\x00\x00\x00\x00\x00\x00\x00\x00\x00\x01e12:max_sessionsi2e16:offer_timeout_msi120000e8:port_maxi30003e8:port_mini30000e10:timeout_msi60000ee5:drawni2e6:momenti9ee";

/// A live call with this dialog, in the cell after its number.
fn live_call(
    rt: &impl Abort,
    number: u8,
    id: Text,
    dialog: Dialog,
    due_moment: Option<u64>,
) -> CallSaved {
    CallSaved {
        number: u64::from(number),
        cell: u32::from(number) + 1,
        id,
        dialog: dialog.into_saved().expect(rt, "a record"),
        first_moment: 5,
        last_moment: 8,
        due_moment,
    }
}

/// The dialog of a call that was offered and answered.
pub(crate) fn answered_dialog(rt: &impl Abort, alloc: Global) -> Dialog {
    let mut dialog = new_dialog(rt, alloc);
    take_first_offer(rt, alloc, &mut dialog);
    let plan = planned_answer(rt, alloc, &dialog);
    dialog.apply(plan);
    dialog
}

/// The first call, once it was answered.
pub(crate) fn answered_call(rt: &impl Abort, alloc: Global) -> CallSaved {
    let dialog = answered_dialog(rt, alloc);
    live_call(rt, 0, text(rt, alloc, b"call"), dialog, None)
}

/// Two calls: one was answered and has an open offer, the other has its first offer and is ending.
fn live_calls(rt: &impl Abort, alloc: Global) -> Vec<CallSaved> {
    let mut first = answered_dialog(rt, alloc);
    take_later_offer(rt, alloc, &mut first);
    let first = live_call(rt, 0, text(rt, alloc, b"call"), first, None);
    let mut second = new_dialog(rt, alloc);
    take_first_offer(rt, alloc, &mut second);
    let id = text(rt, alloc, b"other");
    let second = live_call(rt, 1, id, second, Some(u64::MAX));
    Vec::from_array(alloc, [first, second]).expect(rt, "memory")
}

/// These calls as they are written.
pub(crate) fn written_calls(rt: &impl Abort, alloc: Global) -> Text {
    calls_bytes(rt, alloc, live_calls(rt, alloc).as_slice())
}

/// A board with these calls.
fn used_board(rt: &impl Abort, alloc: Global) -> Board {
    let (pool, _, _) = leased_pool(rt, alloc);
    let saved = BoardSaved {
        config: CONFIG,
        moment: 8,
        begun: 2,
        drawn: 2,
        calls: live_calls(rt, alloc),
        pool: pool.into_saved().expect(rt, "memory"),
        replies: used_cache(rt, alloc).into_saved().expect(rt, "memory"),
    };
    let board = Board::from_saved(alloc, saved).expect(rt, "memory");
    let mut board = board.expect(rt, "a board");
    assert!(rt; board.advance(9) == 9);
    board
}

/// The records of a board as they are written.
#[derive(Drop)]
struct Texts {
    relay: Text,
    pool: Text,
    calls: Text,
    replies: Text,
}

fn board_texts(rt: &impl Abort, alloc: Global, board: Board) -> Texts {
    let saved = board.into_saved(alloc).expect(rt, "memory");
    let parts = board_parts(saved);
    Texts {
        relay: relay_bytes(rt, alloc, &parts.relay),
        pool: pool_bytes(rt, alloc, &parts.pool),
        calls: calls_bytes(rt, alloc, parts.calls.as_slice()),
        replies: cache_bytes(rt, alloc, &parts.replies),
    }
}

/// The records that are written so.
fn read_parts(rt: &impl Abort, alloc: Global, texts: &Texts) -> Option<BoardParts> {
    let relay = value_of(rt, alloc, texts.relay.as_slice())?;
    let pool = value_of(rt, alloc, texts.pool.as_slice())?;
    let calls = value_of(rt, alloc, texts.calls.as_slice())?;
    let replies = value_of(rt, alloc, texts.replies.as_slice())?;
    Some(BoardParts {
        relay: read_relay(&relay)?,
        pool: read_pool(alloc, 30_000, 2, &pool).expect(rt, "memory")?,
        calls: read_calls(alloc, &calls).expect(rt, "memory")?,
        replies: read_cache(alloc, &replies).expect(rt, "memory")?,
    })
}

fn is_same(a: &Text, b: &Text) -> bool {
    a.as_slice() == b.as_slice()
}

#[test]
fn a_board_there_and_back(rt: HostRuntime) {
    let alloc = rt.alloc();
    let texts = board_texts(&rt, alloc, used_board(&rt, alloc));
    assert!(rt; texts.relay.as_slice() == RELAY);
    let parts = read_parts(&rt, alloc, &texts).expect(&rt, "records");
    let loaded = Board::from_saved(alloc, board_of_parts(parts)).expect(&rt, "memory");
    let loaded = loaded.expect(&rt, "a board");
    assert!(rt; loaded.live_count() == 2 && loaded.find_call(b"other") == Some(1));
    let again = board_texts(&rt, alloc, loaded);
    assert!(rt; is_same(&again.relay, &texts.relay) && is_same(&again.pool, &texts.pool));
    assert!(rt; is_same(&again.calls, &texts.calls));
    assert!(rt; is_same(&again.replies, &texts.replies));
}

#[test]
fn a_relay_there_and_back(rt: HostRuntime) {
    let again = relay_again(&rt, rt.alloc(), RELAY).expect(&rt, "a relay");
    assert!(rt; again.as_slice() == RELAY);
}

/// The configuration as it is written.
const CONFIGURED: &[u8] =
    b"d9:interface4:\xcb\x00\x71\x0110:interface6l16:\x20\x01\x0d\xb8\x00\x00\x00\x00\x00\x00\x00\x00\x00\x00\x00\x01e12:max_sessionsi2e16:offer_timeout_msi120000e8:port_maxi30003e8:port_mini30000e10:timeout_msi60000ee";

#[test]
fn a_configuration_there_and_back(rt: HostRuntime) {
    let alloc = rt.alloc();
    assert!(rt; config_bytes(&rt, alloc, &CONFIG).as_slice() == CONFIGURED);
    let again = config_again(&rt, alloc, CONFIGURED).expect(&rt, "a configuration");
    assert!(rt; again.as_slice() == CONFIGURED);
}
