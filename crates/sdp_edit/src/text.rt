//! The texts of rewritten lines.

ghost use Rattle.std.specs.Prelude.{◌≡◌, ◌≤◌, ◌+◌, List, ℕ, [], ◌++◌, true, length, codes, decimal, MatchOption, IfSome, IfNone};
ghost use Rattle.sdp_text.specs.Roles.{is_media, is_origin};
ghost use Rattle.sdp_text.specs.Hosts.{text_of};
ghost use Rattle.sdp_edit.specs.Texts.{with_end, family_of, proto_text, connection_text, media_text, origin_fields, origin_text, IsOriginTail};
ghost use Rattle.sdp_text.specs.Pieces.{fields};
ghost use Rattle.sdp_text.specs.declared.host.Host.{Host};

use crate::edits::SectionEdit;
use crate::field::cut;
use crate::out_lines::{Inserted, OutLine};
use itoa::Buffer;
use sdp_text::{Host, Proto, host_text};

fn family(host: &Host) -> &'static [u8]
    ensures family { result.now ≡ family_of host.now }
    ensures short { length result.now ≤ 3 }
{
    match host {
        Host::V4(_) => b"IP4",
        Host::V6(_) => b"IP6",
    }
}

/// A `c=` line with this address (RFC 8866 section 5.7).
#[tactic(auto, unfolding(crate::specs::Texts::connection_text, crate::specs::Texts::with_end))]
pub(crate) fn connection_line<'a>(host: &Host) -> OutLine<'a>
    ensures text { result ≡ with_end (connection_text host.now) }
    ensures short { length result ≤ 50 }
{
    let mut text = Inserted::new();
    text.push(b"c=IN ");
    text.push(family(host));
    text.push(b" ");
    text.push(host_text(host).as_slice());
    OutLine::inserted(text)
}

// The text of a protocol of RTP.
fn proto_name(proto: Proto) -> Option<&'static [u8]>
    ensures name { MatchOption result ((own : List ℕ) → proto_text proto own ≡ own)
        (λ name. (own : List ℕ) → proto_text proto own ≡ name.now) }
    ensures short { MatchOption result (Unit {0}) (λ name. length name.now ≤ 9) }
{
    match proto {
        Proto::Avp => Some(b"RTP/AVP"),
        Proto::Avpf => Some(b"RTP/AVPF"),
        Proto::Savp => Some(b"RTP/SAVP"),
        Proto::Savpf => Some(b"RTP/SAVPF"),
        Proto::Other => None,
    }
}

// A port between two spaces.
fn spaced_port(port: u16) -> Inserted
    ensures text { result ≡ codes " " ++ decimal port ++ codes " " }
    ensures short { length result ≤ 7 }
{
    let mut digits = Buffer::new();
    let mut text = Inserted::new();
    text.push(b" ");
    text.push(digits.format(port).as_bytes());
    text.push(b" ");
    text
}

/// An `m=` line with the edit's port, without a number of ports, and its protocol (RFC 8866 section 5.14).
pub(crate) fn media_line<'a>(edit: &SectionEdit, line: &'a [u8]) -> OutLine<'a>
    requires { is_media line.now ≡ true }
    ensures text { result ≡ with_end (media_text edit.now line.now) }
    ensures short { length result ≤ length line.now + 19 }
{
    let Some((media, rest)) = cut(&line[2..]) else {
        return OutLine::whole(line);
    };
    let Some((_port, rest)) = cut(rest) else {
        return OutLine::whole(line);
    };
    let Some((_proto, formats)) = cut(rest) else {
        return OutLine::whole(line);
    };
    let head = &line[..2 + media.len()];
    let mut text = spaced_port(edit.port);
    match proto_name(edit.proto) {
        None => OutLine::around(head, text, rest),
        Some(name) => {
            text.push(name);
            text.push(b" ");
            OutLine::around(head, text, formats)
        }
    }
}

// What follows the first four of exactly six fields.
fn origin_tail(text: &[u8]) -> Option<&[u8]>
    ensures tail { IfSome result (λ tail. IsOriginTail text.now tail.now) }
    ensures other { IfNone result ((host : Host) → origin_fields host (fields text.now) ≡ fields text.now) }
{
    let (_name, rest) = cut(text)?;
    let (_id, rest) = cut(rest)?;
    let (_version, rest) = cut(rest)?;
    let (_network, rest) = cut(rest)?;
    let (_family, address) = cut(rest)?;
    match cut(address) {
        None => Some(rest),
        Some((_address, _more)) => None,
    }
}

/// An `o=` line with this address (RFC 8866 section 5.2).
pub(crate) fn origin_line<'a>(host: &Host, line: &'a [u8]) -> OutLine<'a>
    requires { is_origin line.now ≡ true }
    ensures text { result ≡ with_end (origin_text host.now line.now) }
    ensures short { length result ≤ length line.now + 45 }
{
    let Some(tail) = origin_tail(&line[2..]) else {
        return OutLine::whole(line);
    };
    let head = &line[..line.len() - tail.len()];
    let mut text = Inserted::new();
    text.push(family(host));
    text.push(b" ");
    text.push(host_text(host).as_slice());
    OutLine::around(head, text, &line[line.len()..])
}
