//! What first offers demand, and what becomes of descriptions.

ghost use Rattle.offer_answer.specs.Widths.{WritesFrom};

use ng_bencode::Text;
use ng_command::{AnswerIn, OfferIn, Options};
use offer_answer::*;
use port_pool::{SectionSignal, Side, Signal};
use relay_outside::{Config, Flags, Ip};
use sdes_lines::{CryptoLine, Suite};
use sdp_text::{Bytes, Proto, Sdp, read};
use std::alloc::Global;
use std::process::Abort;

const CONFIG: Config = Config {
    interface: Ip::V4([203, 0, 113, 1]),
    interface6: None,
    port_min: 30000,
    port_max: 40000,
    timeout_ms: 60000,
    offer_timeout_ms: 60000,
    max_sessions: 100,
};

const PLAIN: &[u8] =
    b"v=0\r\no=- 1 1 IN IP4 192.0.2.10\r\ns=-\r\nc=IN IP4 192.0.2.10\r\nt=0 0\r\nm=audio 4000 RTP/AVP 0\r\nm=video 0 RTP/AVP 96\r\n";

const SECURE: &[u8] =
    b"v=0\r\no=- 1 1 IN IP4 192.0.2.10\r\ns=-\r\nc=IN IP4 192.0.2.10\r\nt=0 0\r\nm=video 0 RTP/AVP 96\r\nm=audio 4000 RTP/SAVP 0\r\na=crypto:7 AES_CM_128_HMAC_SHA1_32 inline:AQEBAQEBAQEBAQEBAQEBAQEBAQEBAQEBAQEBAQEB\r\n";

const BARE: &[u8] =
    b"v=0\r\no=- 1 1 IN IP4 192.0.2.10\r\ns=-\r\nc=IN IP4 192.0.2.10\r\nt=0 0\r\nm=audio 4000 RTP/SAVP 0\r\n";

/// A description with the protocol that is asked for, and what a first offer of it demands.
#[derive(Clone, Copy)]
struct Case {
    text: &'static [u8],
    transport: Option<Proto>,
    pairs: &'static [(u8, Side)],
    keys: &'static [(u8, Side, Suite)],
}

fn cases() -> [Case; 4] {
    [
        Case {
            text: PLAIN,
            transport: None,
            pairs: &[(0, Side::B), (0, Side::A)],
            keys: &[],
        },
        Case {
            text: PLAIN,
            transport: Some(Proto::Savpf),
            pairs: &[(0, Side::B), (0, Side::A)],
            keys: &[(0, Side::B, Suite::Tag80), (0, Side::B, Suite::Tag32)],
        },
        Case {
            text: SECURE,
            transport: None,
            pairs: &[(1, Side::B), (1, Side::A)],
            keys: &[
                (1, Side::A, Suite::Tag32),
                (1, Side::B, Suite::Tag80),
                (1, Side::B, Suite::Tag32),
            ],
        },
        Case {
            text: SECURE,
            transport: Some(Proto::Avp),
            pairs: &[(1, Side::B), (1, Side::A)],
            keys: &[(1, Side::A, Suite::Tag32)],
        },
    ]
}

fn text(rt: &impl Abort, alloc: Global, bytes: &[u8]) -> Text {
    let mut text = Text::new(alloc);
    text.reserve(bytes.len()).expect(rt, "memory");
    text.extend(bytes);
    text
}

fn read_sdp<'a>(rt: &impl Abort, alloc: Global, description: &'a [u8]) -> Sdp<'a> {
    assert!(rt; description.len() < 65_536);
    read(alloc, description).expect(rt, "the description is read")
}

fn alices_dialog(rt: &impl Abort, alloc: Global) -> Dialog {
    let tag = text(rt, alloc, b"alice");
    Dialog::new(alloc, &tag).expect(rt, "memory")
}

fn asked(rt: &impl Abort, alloc: Global, transport: Option<Proto>) -> OfferIn {
    OfferIn {
        call_id: text(rt, alloc, b"call"),
        from_tag: text(rt, alloc, b"alice"),
        sdp: Text::new(alloc),
        options: Options {
            flags: Flags {
                strict: false,
                handover: false,
                asymmetric: false,
            },
            replace_origin: true,
            replace_session: true,
            transport,
            source: None,
            family: None,
            mux_offer: false,
            mux_demux: false,
            mux_accept: false,
        },
    }
}

/// The plan of a first offer of this description, or its fault.
fn answered(
    rt: &impl Abort,
    alloc: Global,
    description: &[u8],
    transport: Option<Proto>,
) -> Result<Plan, OaFault> {
    let sdp = read_sdp(rt, alloc, description);
    let input = asked(rt, alloc, transport);
    let dialog = alices_dialog(rt, alloc);
    offer(alloc, &CONFIG, &dialog, &input, &sdp)
}

/// Whether the plan demands just these pairs of ports.
fn has_pairs(plan: &Plan, want: &[(u8, Side)]) -> bool {
    let count = plan.pairs();
    if count != want.len() {
        return false;
    }
    for index in 0..count {
        if plan.pair_leg(index) != want[index] {
            return false;
        }
    }
    true
}

/// Whether the plan demands just these keys.
fn has_keys(plan: &Plan, want: &[(u8, Side, Suite)]) -> bool {
    let count = plan.keys();
    if count != want.len() {
        return false;
    }
    for index in 0..count {
        if plan.key_leg(index) != want[index] {
            return false;
        }
    }
    true
}

#[test]
fn first_offers_demand_pairs_and_keys(rt: HostRuntime) {
    for case in cases() {
        let Ok(plan) = answered(&rt, rt.alloc(), case.text, case.transport) else {
            panic!(rt; "the offer is planned");
        };
        assert!(rt; has_pairs(&plan, case.pairs), "{:?}", case.pairs);
        assert!(rt; has_keys(&plan, case.keys), "{:?}", case.keys);
        assert!(rt; !plan.drops(0));
    }
}

#[test]
fn an_offer_with_srtp_needs_a_crypto_line(rt: HostRuntime) {
    let refused = answered(&rt, rt.alloc(), BARE, None);
    assert!(rt; matches!(refused, Err(OaFault::NoCrypto)));
}

#[test]
fn a_new_dialog_has_no_tag_and_no_profile(rt: HostRuntime) {
    let dialog = alices_dialog(&rt, rt.alloc());
    assert!(rt; dialog.tag(Side::A).is_none() && dialog.tag(Side::B).is_none());
    assert!(rt; dialog.protocol(0, Side::A).is_none() && dialog.protocol(9, Side::B).is_none());
}

const KEYS: [[u8; 30]; 2] = [[1; 30], [2; 30]];

/// The offer of the worked examples: alice's, at 192.0.2.10.
const ALICE: &[u8] =
    b"v=0\r\no=alice 1 1 IN IP4 192.0.2.10\r\ns=-\r\nc=IN IP4 192.0.2.10\r\nt=0 0\r\nm=audio 6000 RTP/AVP 0 8\r\na=rtpmap:0 PCMU/8000\r\na=sendrecv\r\n";

/// What bob gets of it, with the origin and the session's address replaced.
const ALICE_OFFERED: &[u8] =
    b"v=0\r\no=alice 1 1 IN IP4 203.0.113.1\r\ns=-\r\nc=IN IP4 203.0.113.1\r\nt=0 0\r\nm=audio 30000 RTP/AVP 0 8\r\nc=IN IP4 203.0.113.1\r\na=rtpmap:0 PCMU/8000\r\na=sendrecv\r\n";

/// What bob gets of it where SRTP is asked for.
const ALICE_SECURED: &[u8] =
    b"v=0\r\no=alice 1 1 IN IP4 203.0.113.1\r\ns=-\r\nc=IN IP4 203.0.113.1\r\nt=0 0\r\nm=audio 30000 RTP/SAVP 0 8\r\nc=IN IP4 203.0.113.1\r\na=rtpmap:0 PCMU/8000\r\na=sendrecv\r\na=crypto:1 AES_CM_128_HMAC_SHA1_80 inline:AQEBAQEBAQEBAQEBAQEBAQEBAQEBAQEBAQEBAQEB\r\na=crypto:2 AES_CM_128_HMAC_SHA1_32 inline:AgICAgICAgICAgICAgICAgICAgICAgICAgICAgIC\r\n";

/// What bob gets of it when it is offered again: the key in force alone.
const ALICE_AGAIN: &[u8] =
    b"v=0\r\no=alice 1 1 IN IP4 203.0.113.1\r\ns=-\r\nc=IN IP4 203.0.113.1\r\nt=0 0\r\nm=audio 30000 RTP/SAVP 0 8\r\nc=IN IP4 203.0.113.1\r\na=rtpmap:0 PCMU/8000\r\na=sendrecv\r\na=crypto:1 AES_CM_128_HMAC_SHA1_80 inline:AQEBAQEBAQEBAQEBAQEBAQEBAQEBAQEBAQEBAQEB\r\n";

const BOB: &[u8] =
    b"v=0\r\no=bob 2 2 IN IP4 198.51.100.20\r\ns=-\r\nc=IN IP4 198.51.100.20\r\nt=0 0\r\nm=audio 7000 RTP/AVP 0\r\n";

const BOB_SECURED: &[u8] =
    b"v=0\r\no=bob 2 2 IN IP4 198.51.100.20\r\ns=-\r\nc=IN IP4 198.51.100.20\r\nt=0 0\r\nm=audio 7000 RTP/SAVP 0\r\na=crypto:1 AES_CM_128_HMAC_SHA1_80 inline:4fl6DT4Bi+DWT6MsBt5BOQ7Gda1Jiv7rtpYLOqvm\r\n";

/// What alice gets of bob's answers, plain or not: she offered no SRTP.
const BOB_ANSWERED: &[u8] =
    b"v=0\r\no=bob 2 2 IN IP4 203.0.113.1\r\ns=-\r\nc=IN IP4 203.0.113.1\r\nt=0 0\r\nm=audio 30002 RTP/AVP 0\r\nc=IN IP4 203.0.113.1\r\n";

fn replied(rt: &impl Abort, alloc: Global) -> AnswerIn {
    let OfferIn {
        call_id,
        from_tag,
        sdp,
        options,
    } = asked(rt, alloc, None);
    AnswerIn {
        call_id,
        from_tag,
        to_tag: text(rt, alloc, b"bob"),
        sdp,
        options,
    }
}

/// What the plan writes, with these ports and keys.
fn written(
    rt: &impl Abort,
    alloc: Global,
    plan: &mut Plan,
    sdp: &Sdp,
    ports: &[u16],
    keys: &[[u8; 30]],
) -> Bytes
    requires { WritesFrom plan.old sdp.now }
{
    assert!(rt; plan.pairs() == ports.len() && plan.keys() == keys.len());
    let mut out = Bytes::new(alloc);
    let Ok(()) = out.reserve(plan.reply_len()) else {
        panic!(rt; "no memory");
    };
    plan.fill(sdp, ports, 0, keys, &mut out);
    out
}

/// Whether bob gets this of an offer by alice that asks for this protocol. The dialog takes it in.
fn is_offered(
    rt: &impl Abort,
    alloc: Global,
    dialog: &mut Dialog,
    transport: Option<Proto>,
    ports: &[u16],
    keys: &[[u8; 30]],
    want: &[u8],
) -> bool {
    let input = asked(rt, alloc, transport);
    let sdp = read_sdp(rt, alloc, ALICE);
    let Ok(mut plan) = offer(alloc, &CONFIG, dialog, &input, &sdp) else {
        panic!(rt; "the offer is planned");
    };
    let out = written(rt, alloc, &mut plan, &sdp, ports, keys);
    dialog.apply(plan);
    out.as_slice() == want
}

/// Whether alice gets this of this answer by bob. The dialog takes it in.
fn is_answered(
    rt: &impl Abort,
    alloc: Global,
    dialog: &mut Dialog,
    description: &[u8],
    want: &[u8],
) -> bool {
    let input = replied(rt, alloc);
    let sdp = read_sdp(rt, alloc, description);
    let Ok(mut plan) = answer(alloc, &CONFIG, dialog, &input, &sdp) else {
        panic!(rt; "the answer is planned");
    };
    let out = written(rt, alloc, &mut plan, &sdp, &[], &[]);
    let sections = plan.signal().len();
    dialog.apply(plan);
    sections == 1 && out.as_slice() == want
}

const PORTS: [u16; 2] = [30_000, 30_002];

/// Alice's offer with RTP and RTCP on one port.
const ALICE_MUXED: &[u8] =
    b"v=0\r\no=alice 1 1 IN IP4 192.0.2.10\r\ns=-\r\nc=IN IP4 192.0.2.10\r\nt=0 0\r\nm=audio 6000 RTP/AVP 0 8\r\na=rtpmap:0 PCMU/8000\r\na=rtcp-mux\r\na=sendrecv\r\n";

/// What alice gets of bob's answer, who has two ports, where the proxy has one for her.
const BOB_MUXED: &[u8] =
    b"v=0\r\no=bob 2 2 IN IP4 203.0.113.1\r\ns=-\r\nc=IN IP4 203.0.113.1\r\nt=0 0\r\nm=audio 30002 RTP/AVP 0\r\nc=IN IP4 203.0.113.1\r\na=rtcp-mux\r\n";

/// Whether the signal commits one section with the offerer's leg muxed and the other one not.
fn muxes_the_offerer_alone(signal: &Signal) -> bool {
    signal.len() == 1 && matches!(signal.section(0), SectionSignal::Commit(a, b) if a.mux && !b.mux)
}

#[test]
fn one_side_has_one_port_and_the_other_two(rt: HostRuntime) {
    let alloc = rt.alloc();
    let mut dialog = alices_dialog(&rt, alloc);
    let mut asked = asked(&rt, alloc, None);
    asked.options.mux_demux = true;
    let offered = read_sdp(&rt, alloc, ALICE_MUXED);
    let Ok(mut plan) = offer(alloc, &CONFIG, &dialog, &asked, &offered) else {
        panic!(rt; "the offer is planned");
    };
    let to_bob = written(&rt, alloc, &mut plan, &offered, &PORTS, &[]);
    assert!(rt; to_bob.as_slice() == ALICE_OFFERED);
    dialog.apply(plan);
    let replied = replied(&rt, alloc);
    let answered = read_sdp(&rt, alloc, BOB);
    let Ok(plan) = answer(alloc, &CONFIG, &dialog, &replied, &answered) else {
        panic!(rt; "the answer is planned");
    };
    assert!(rt; muxes_the_offerer_alone(plan.signal()));
    assert!(rt; is_answered(&rt, alloc, &mut dialog, BOB, BOB_MUXED));
}

#[test]
fn a_call_is_offered_and_answered(rt: HostRuntime) {
    let alloc = rt.alloc();
    let mut dialog = alices_dialog(&rt, alloc);
    assert!(rt; is_offered(&rt, alloc, &mut dialog, None, &PORTS, &[], ALICE_OFFERED));
    assert!(rt; is_answered(&rt, alloc, &mut dialog, BOB, BOB_ANSWERED));
    assert!(rt; dialog.protocol(0, Side::B) == Some(Proto::Avp));
}

#[test]
fn a_later_offer_carries_the_key_in_force_alone(rt: HostRuntime) {
    let alloc = rt.alloc();
    let secure = Some(Proto::Savp);
    let mut dialog = alices_dialog(&rt, alloc);
    assert!(rt;
        is_offered(
            &rt,
            alloc,
            &mut dialog,
            secure,
            &PORTS,
            &KEYS,
            ALICE_SECURED
        )
    );
    assert!(rt; is_answered(&rt, alloc, &mut dialog, BOB_SECURED, BOB_ANSWERED));
    assert!(rt; is_offered(&rt, alloc, &mut dialog, None, &[], &[], ALICE_AGAIN));
}

#[test]
fn an_offer_is_heard_section_by_section(rt: HostRuntime) {
    let sdp = read_sdp(&rt, rt.alloc(), SECURE);
    let heard = ChosenLines::of_offer(&sdp);
    let line = CryptoLine {
        tag: 7,
        suite: Suite::Tag32,
        key: KEYS[0],
    };
    assert!(rt; heard.lines() == [None, Some(line)].as_slice());
    assert!(rt; ChosenLines::none().lines().is_empty());
}

#[test]
fn an_answer_is_heard_by_the_lines_that_were_offered(rt: HostRuntime) {
    let alloc = rt.alloc();
    let mut dialog = alices_dialog(&rt, alloc);
    let sdp = read_sdp(&rt, alloc, BOB_SECURED);
    let unheard = dialog.hear(&sdp);
    assert!(rt; matches!(unheard.lines(), [None]));
    let secure = Some(Proto::Savp);
    assert!(rt;
        is_offered(
            &rt,
            alloc,
            &mut dialog,
            secure,
            &PORTS,
            &KEYS,
            ALICE_SECURED
        )
    );
    let heard = dialog.hear(&sdp);
    assert!(rt; matches!(heard.lines(), [Some(line)] if line.tag == 1));
}

/// The same dialog, after it was a record.
fn moved(rt: &impl Abort, dialog: Dialog) -> Dialog {
    let saved = dialog.into_saved().expect(rt, "a record");
    let loaded = Dialog::from_saved(saved).expect(rt, "memory");
    loaded.expect(rt, "a dialog")
}

#[test]
fn a_saved_dialog_goes_on_with_its_open_offer(rt: HostRuntime) {
    let alloc = rt.alloc();
    let secure = Some(Proto::Savp);
    let mut dialog = alices_dialog(&rt, alloc);
    assert!(rt;
        is_offered(
            &rt,
            alloc,
            &mut dialog,
            secure,
            &PORTS,
            &KEYS,
            ALICE_SECURED
        )
    );
    let mut dialog = moved(&rt, dialog);
    assert!(rt; is_answered(&rt, alloc, &mut dialog, BOB_SECURED, BOB_ANSWERED));
    assert!(rt; is_offered(&rt, alloc, &mut dialog, None, &[], &[], ALICE_AGAIN));
    let mut dialog = moved(&rt, dialog);
    assert!(rt; is_answered(&rt, alloc, &mut dialog, BOB_SECURED, BOB_ANSWERED));
    assert!(rt; dialog.protocol(0, Side::B) == Some(Proto::Savp));
}
