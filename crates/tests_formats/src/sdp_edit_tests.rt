//! The table of descriptions, and the choice among crypto lines.

ghost use Rattle.sdp_edit.specs.EditedText.{KeysHaveTags, HaveTags};

use crate::cases::none_failed;
use crate::sdp_edit_descriptions::{
    CONNECTIONS_AND_ENDS, FAMILIES_AND_NAMES, ORDERS_AND_SIZES, TITLES_AND_PROTOCOLS, WHOLE_CALLS,
};
use sdes_lines::{CryptoLine, Suite};
use sdp_edit::*;
use sdp_text::{Bytes, Host, Proto, Sdp, read};
use std::alloc::Global;
use std::process::Abort;

#[derive(Clone, Copy)]
pub(crate) enum Keys {
    None,
    One,
    Both,
}

pub(crate) struct SectionCase {
    pub(crate) port: u16,
    pub(crate) proto: Proto,
    pub(crate) address: Host,
    pub(crate) mux: bool,
    pub(crate) keys: Keys,
}

pub(crate) struct Case {
    pub(crate) text: &'static [u8],
    pub(crate) address: Host,
    pub(crate) replace_origin: bool,
    pub(crate) replace_session: bool,
    pub(crate) sections: &'static [SectionCase],
    pub(crate) edited: &'static [u8],
}

const FIRST: CryptoLine = CryptoLine {
    tag: 1,
    suite: Suite::Tag80,
    key: [1; 30],
};

const SECOND: CryptoLine = CryptoLine {
    tag: 2,
    suite: Suite::Tag32,
    key: [2; 30],
};

fn section_edit(case: &SectionCase) -> SectionEdit
    ensures { KeysHaveTags result.crypto }
{
    let crypto = match case.keys {
        Keys::None => [None, None],
        Keys::One => [Some(FIRST), None],
        Keys::Both => [Some(FIRST), Some(SECOND)],
    };
    SectionEdit {
        port: case.port,
        proto: case.proto,
        address: case.address,
        mux: case.mux,
        crypto,
    }
}

fn section_edits(rt: &impl Abort, alloc: Global, cases: &[SectionCase]) -> SectionEdits
    ensures { HaveTags result.list }
{
    let mut edits = SectionEdits::new(alloc);
    let Ok(()) = edits.reserve(cases.len()) else {
        panic!(rt; "no memory");
    };
    for case in cases {
        edits.push(section_edit(case));
    }
    edits
}

fn wanted(rt: &impl Abort, alloc: Global, case: &Case) -> Edit
    ensures { HaveTags result.sections.list }
{
    Edit {
        address: case.address,
        replace_origin: case.replace_origin,
        replace_session: case.replace_session,
        sections: section_edits(rt, alloc, case.sections),
    }
}

/// Whether the description is edited as it is wanted, and the edited text is as long as it was told.
fn is_edited(rt: &impl Abort, alloc: Global, case: &Case) -> bool {
    assert!(rt; case.text.len() < 65_536);
    let Ok(sdp) = read(alloc, case.text) else {
        return false;
    };
    let wanted = wanted(rt, alloc, case);
    let Ok(text) = edit(alloc, &sdp, &wanted) else {
        panic!(rt; "no memory");
    };
    wanted.sections.as_slice().len() == case.sections.len()
        && text.as_slice() == case.edited
        && edit_len(&sdp, &wanted) == case.edited.len()
}

fn other_edited(rt: &impl Abort, alloc: Global, cases: &[Case]) -> Option<usize> {
    for (number, case) in cases.iter().enumerate() {
        if !is_edited(rt, alloc, case) {
            return Some(number);
        }
    }
    None
}

#[test]
fn descriptions_are_edited(rt: HostRuntime) {
    none_failed(
        &rt,
        "WHOLE_CALLS",
        other_edited(&rt, rt.alloc(), WHOLE_CALLS),
    );
    none_failed(
        &rt,
        "CONNECTIONS_AND_ENDS",
        other_edited(&rt, rt.alloc(), CONNECTIONS_AND_ENDS),
    );
    none_failed(
        &rt,
        "TITLES_AND_PROTOCOLS",
        other_edited(&rt, rt.alloc(), TITLES_AND_PROTOCOLS),
    );
    none_failed(
        &rt,
        "FAMILIES_AND_NAMES",
        other_edited(&rt, rt.alloc(), FAMILIES_AND_NAMES),
    );
    none_failed(
        &rt,
        "ORDERS_AND_SIZES",
        other_edited(&rt, rt.alloc(), ORDERS_AND_SIZES),
    );
}

/// Writes the edited text after what is there, with room for it.
fn write_behind(rt: &impl Abort, sdp: &Sdp, wanted: &Edit, out: &mut Bytes)
    requires { HaveTags wanted.now.sections.list }
{
    let Ok(()) = out.reserve(edit_len(sdp, wanted)) else {
        panic!(rt; "no memory");
    };
    edit_into(sdp, wanted, out);
}

#[test]
fn the_text_is_written_behind_what_is_there(rt: HostRuntime) {
    let case = &WHOLE_CALLS[3];
    assert!(rt; case.text.len() < 65_536);
    let Ok(sdp) = read(rt.alloc(), case.text) else {
        panic!(rt; "the description is read");
    };
    let wanted = wanted(&rt, rt.alloc(), case);
    let mut out = Bytes::new(rt.alloc());
    write_behind(&rt, &sdp, &wanted, &mut out);
    assert!(rt; out.as_slice() == case.edited);
    write_behind(&rt, &sdp, &wanted, &mut out);
    assert!(rt; is_twice(out.as_slice(), case.edited));
}

fn is_twice(text: &[u8], once: &[u8]) -> bool {
    text.len() / 2 == once.len()
        && text.len() % 2 == 0
        && text.starts_with(once)
        && text.ends_with(once)
}

const OFFER: &[u8] = b"v=0\r\no=- 1 1 IN IP4 192.0.2.7\r\ns=-\r\nc=IN IP4 192.0.2.7\r\nt=0 0\r\n\
a=crypto:9 AES_CM_128_HMAC_SHA1_80 inline:AgICAgICAgICAgICAgICAgICAgICAgICAgICAgIC\r\n\
m=audio 6000 RTP/SAVP 0\r\n\
a=crypto:1 AES_CM_128_HMAC_SHA1_80 inline:AQEBAQEBAQEBAQEBAQEBAQEBAQEBAQEBAQEBAQEB|2^20|1:4\r\n\
m=audio 6002 RTP/SAVP 0\r\n\
a=crypto:1 AES_CM_128_HMAC_SHA1_80 inline:AQEBAQEBAQEBAQEBAQEBAQEBAQEBAQEBAQEBAQEB|2^20|1:4\r\n\
a=crypto:7 AES_CM_128_HMAC_SHA1_32 inline:AgICAgICAgICAgICAgICAgICAgICAgICAgICAgIC|2^31\r\n\
a=crypto:1 AES_CM_128_HMAC_SHA1_80 inline:AQEBAQEBAQEBAQEBAQEBAQEBAQEBAQEBAQEBAQEB\r\n\
a=crypto:1 AES_CM_128_HMAC_SHA1_80 inline:AgICAgICAgICAgICAgICAgICAgICAgICAgICAgIC\r\n\
m=video 6004 RTP/AVP 34\r\n";

fn is_chosen(sdp: &Sdp, section: usize, want: Option<CryptoLine>) -> bool {
    choose(sdp, section) == want
}

fn is_chosen_among(
    sdp: &Sdp,
    section: usize,
    offered: &[Option<CryptoLine>; 2],
    want: Option<CryptoLine>,
) -> bool {
    choose_among(sdp, section, offered) == want
}

const SEVENTH: CryptoLine = CryptoLine { tag: 7, ..SECOND };

/// The second line, with the first one's tag.
const OTHER_SUITE: CryptoLine = CryptoLine { tag: 1, ..SECOND };

#[test]
fn a_crypto_line_is_chosen(rt: HostRuntime) {
    let Ok(sdp) = read(rt.alloc(), OFFER) else {
        panic!(rt; "the description is read");
    };
    assert!(rt; is_chosen(&sdp, 0, None));
    assert!(rt; is_chosen(&sdp, 1, Some(SEVENTH)));
    assert!(rt; is_chosen(&sdp, 2, None));
    assert!(rt; is_chosen(&sdp, 3, None));
}

#[test]
fn a_crypto_line_is_chosen_among_those_offered(rt: HostRuntime) {
    let Ok(sdp) = read(rt.alloc(), OFFER) else {
        panic!(rt; "the description is read");
    };
    let offered = [Some(FIRST), Some(SECOND)];
    assert!(rt; is_chosen_among(&sdp, 1, &offered, Some(FIRST)));
    assert!(rt; is_chosen_among(&sdp, 0, &offered, None));
    assert!(rt; is_chosen_among(&sdp, 1, &[None, None], None));
    assert!(rt; is_chosen_among(&sdp, 1, &[None, Some(SEVENTH)], Some(SEVENTH)));
    assert!(rt; is_chosen_among(&sdp, 1, &[Some(OTHER_SUITE), Some(SECOND)], None));
}
