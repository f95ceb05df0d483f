//! The replies to an offer that is refused.

use board_turns::{CommandOutcome, misdescribed, unplanned};
use call_board::BoardFault;
use control_messages::{DescriptionFault, Request};
use ng_reply::ErrorCode;
use offer_answer::ChosenLines;
use relay_outside::{Addr, Ip};
use std::alloc::Global;

const REQUEST: Request<'static> = Request {
    source: Addr {
        ip: Ip::V4([192, 0, 2, 9]),
        port: 5060,
    },
    cookie: b"5323_1",
    body: b"",
    too_long: false,
};

/// Whether this is the reply that was made.
fn is_told(done: &CommandOutcome, reply: &str) -> bool {
    match &done.reply {
        Some(text) => text.as_slice() == reply.as_bytes(),
        None => false,
    }
}

/// Whether the reply to an offer that has this fault is this one.
fn is_refused(alloc: Global, fault: BoardFault, reply: &str) -> bool {
    let done = unplanned(alloc, &REQUEST, fault, ChosenLines::none());
    is_told(&done, reply)
}

#[test]
fn an_offer_that_is_refused_is_told_why(rt: HostRuntime) {
    let other_side = "5323_1 d12:error-reason28:offer open on the other side6:result5:errore";
    assert!(rt; is_refused(rt.alloc(), BoardFault::OtherSide, other_side));
    let no_pair = "5323_1 d12:error-reason17:no free port pair6:result5:errore";
    assert!(rt; is_refused(rt.alloc(), BoardFault::NoPair, no_pair));
    let fault = DescriptionFault::Error(ErrorCode::E6(1));
    let done = misdescribed(rt.alloc(), &REQUEST, fault);
    let malformed = "5323_1 d12:error-reason21:malformed SDP: line 16:result5:errore";
    assert!(rt; is_told(&done, malformed));
}
