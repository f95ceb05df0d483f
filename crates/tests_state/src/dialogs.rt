//! Dialogs that offers and answers made.
ghost use Rattle.offer_answer.specs.Widths.{WritesFrom};

use crate::configs::CONFIG;
use ng_bencode::Text;
use ng_command::{AnswerIn, OfferIn, Options};
use offer_answer::{Dialog, Plan, answer, offer};
use relay_outside::Flags;
use sdp_text::{Bytes, Proto, Sdp, read};
use std::alloc::Global;
use std::process::Abort;

/// Alice's offer, at a documentation address (RFC 5737).
const ALICE: &[u8] =
    b"v=0\r\no=alice 1 1 IN IP4 192.0.2.10\r\ns=-\r\nc=IN IP4 192.0.2.10\r\nt=0 0\r\nm=audio 6000 RTP/AVP 0 8\r\na=sendrecv\r\n";

/// Bob's answer, with the master key and salt of RFC 3711, appendix B.3.
const BOB: &[u8] =
    b"v=0\r\no=bob 2 2 IN IP4 198.51.100.20\r\ns=-\r\nc=IN IP4 198.51.100.20\r\nt=0 0\r\nm=audio 7000 RTP/SAVP 0\r\na=crypto:1 AES_CM_128_HMAC_SHA1_80 inline:4fl6DT4Bi+DWT6MsBt5BOQ7Gda1Jiv7rtpYLOqvm\r\n";

/// The keys that are drawn for the first offer of a call.
pub(crate) const KEYS: [[u8; 30]; 2] = [[1; 30], [2; 30]];

/// The ports of the pairs that are leased for it: side B's stands before side A's.
const PORTS: [u16; 2] = [30_000, 30_002];

pub(crate) fn text(rt: &impl Abort, alloc: Global, bytes: &[u8]) -> Text {
    let Ok(text) = Text::copy_of(alloc, bytes) else {
        panic!(rt; "no memory");
    };
    text
}

fn read_sdp<'a>(rt: &impl Abort, alloc: Global, description: &'a [u8]) -> Sdp<'a> {
    assert!(rt; description.len() < 65_536);
    read(alloc, description).expect(rt, "the description is read")
}

/// The dialog of a call that alice is to begin.
pub(crate) fn new_dialog(rt: &impl Abort, alloc: Global) -> Dialog {
    let tag = text(rt, alloc, b"alice");
    Dialog::new(alloc, &tag).expect(rt, "memory")
}

/// Bob is to be offered SRTP.
fn options() -> Options {
    Options {
        flags: Flags {
            strict: false,
            handover: false,
            asymmetric: false,
        },
        replace_origin: true,
        replace_session: true,
        transport: Some(Proto::Savp),
        source: None,
        family: None,
        mux_offer: false,
        mux_demux: false,
        mux_accept: false,
    }
}

/// Fills a plan with these ports and keys.
fn filled(
    rt: &impl Abort,
    alloc: Global,
    plan: &mut Plan,
    sdp: &Sdp,
    ports: &[u16],
    keys: &[[u8; 30]],
)
    requires { WritesFrom plan.old sdp.now }
{
    assert!(rt; plan.pairs() == ports.len() && plan.keys() == keys.len());
    let mut out = Bytes::new(alloc);
    let Ok(()) = out.reserve(plan.reply_len()) else {
        panic!(rt; "no memory");
    };
    plan.fill(sdp, ports, 0, keys, &mut out);
}

/// Takes in an offer of alice, which demands as many pairs and keys.
fn take_offer(
    rt: &impl Abort,
    alloc: Global,
    dialog: &mut Dialog,
    ports: &[u16],
    keys: &[[u8; 30]],
) {
    let input = OfferIn {
        call_id: text(rt, alloc, b"call"),
        from_tag: text(rt, alloc, b"alice"),
        sdp: Text::new(alloc),
        options: options(),
    };
    let sdp = read_sdp(rt, alloc, ALICE);
    let Ok(mut plan) = offer(alloc, &CONFIG, dialog, &input, &sdp) else {
        panic!(rt; "the offer is planned");
    };
    filled(rt, alloc, &mut plan, &sdp, ports, keys);
    dialog.apply(plan);
}

/// Takes in the first offer of a call: of SRTP to bob, where alice offers RTP.
pub(crate) fn take_first_offer(rt: &impl Abort, alloc: Global, dialog: &mut Dialog) {
    take_offer(rt, alloc, dialog, &PORTS, &KEYS);
}

/// Takes in a later one, which no answer has come to.
pub(crate) fn take_later_offer(rt: &impl Abort, alloc: Global, dialog: &mut Dialog) {
    take_offer(rt, alloc, dialog, &[], &[]);
}

/// The plan of bob's answer.
pub(crate) fn planned_answer(rt: &impl Abort, alloc: Global, dialog: &Dialog) -> Plan {
    let input = AnswerIn {
        call_id: text(rt, alloc, b"call"),
        from_tag: text(rt, alloc, b"alice"),
        to_tag: text(rt, alloc, b"bob"),
        sdp: Text::new(alloc),
        options: options(),
    };
    let sdp = read_sdp(rt, alloc, BOB);
    let Ok(plan) = answer(alloc, &CONFIG, dialog, &input, &sdp) else {
        panic!(rt; "the answer is planned");
    };
    plan
}
