ghost use Rattle.std.specs.Prelude.{◌≡◌, None, Some, MatchOption};
ghost use Rattle.sdp_text.specs.Pieces.{fields};
ghost use Rattle.sdp_text.specs.Roles.{proto_of, media_port, media, named, three, connection, with_address, rtcp, role};

use crate::host::{Host, read_host};
use crate::piece::{cut, read_number, read_port};
use crate::proto::Proto;

/// The address that a `c=` or `a=rtcp` line names.
#[derive(Clone, Copy)]
pub(crate) enum Address {
    Known(Host),
    Unreadable,
}

/// The port of an `m=` line, and whether it stands for one port alone.
#[derive(Clone, Copy)]
pub(crate) struct MediaPort {
    pub(crate) port: u16,
    pub(crate) is_single: bool,
}

/// What an `m=` line says (RFC 8866 section 5.14).
#[derive(Clone, Copy)]
pub(crate) struct MediaLine {
    pub(crate) port: u16,
    /// Whether it asks for one port alone.
    pub(crate) is_single: bool,
    pub(crate) proto: Proto,
    /// Whether the protocol begins `UDP/TLS/`.
    pub(crate) is_dtls: bool,
}

/// What an `a=rtcp` line says (RFC 3605 section 2.1).
#[derive(Clone, Copy)]
pub(crate) struct RtcpLine {
    pub(crate) port: u16,
    /// The address, if one follows the port.
    pub(crate) address: Option<Address>,
}

/// What a line says, as far as reading a description goes.
#[derive(Clone, Copy)]
pub(crate) enum Role {
    Media(MediaLine),
    Connection(Address),
    Rtcp(RtcpLine),
    /// The line is `a=rtcp-mux`.
    Mux,
    Plain,
}

fn proto_of(text: &[u8]) -> Proto
    ensures { result ≡ proto_of text.now }
{
    if text == b"RTP/AVP".as_slice() {
        Proto::Avp
    } else if text == b"RTP/AVPF".as_slice() {
        Proto::Avpf
    } else if text == b"RTP/SAVP".as_slice() {
        Proto::Savp
    } else if text == b"RTP/SAVPF".as_slice() {
        Proto::Savpf
    } else {
        Proto::Other
    }
}

fn read_media_port(field: &[u8]) -> Option<MediaPort>
    ensures { result ≡ media_port field.now }
{
    let (first, after_first) = cut(field, b'/');
    let Some(port) = read_port(first) else {
        return None;
    };
    let Some(rest) = after_first else {
        return Some(MediaPort {
            port,
            is_single: true,
        });
    };
    let (second, after_second) = cut(rest, b'/');
    if after_second.is_some() {
        return None;
    }
    let Some(count) = read_number(second, 2) else {
        return None;
    };
    Some(MediaPort {
        port,
        is_single: count == 1,
    })
}

/// Reads what follows `m=`.
pub(crate) fn read_media(text: &[u8]) -> Option<MediaLine>
    ensures { result ≡ media text.now }
{
    let (media, rest) = cut(text, b' ');
    let (port, rest) = cut(rest?, b' ');
    let (proto, rest) = cut(rest?, b' ');
    let (format, _) = cut(rest?, b' ');
    if media.is_empty() || port.is_empty() || proto.is_empty() || format.is_empty() {
        return None;
    }
    let Some(at) = read_media_port(port) else {
        return None;
    };
    Some(MediaLine {
        port: at.port,
        is_single: at.is_single,
        proto: proto_of(proto),
        is_dtls: proto.starts_with(b"UDP/TLS/"),
    })
}

fn named(host: Option<Host>) -> Address
    ensures { result ≡ named host }
{
    match host {
        Some(host) => Address::Known(host),
        None => Address::Unreadable,
    }
}

// Three fields, none of them empty.
fn three_fields(text: &[u8]) -> Option<(&[u8], &[u8], &[u8])>
    ensures { MatchOption result (three (fields text.now) ≡ None) (λ f. three (fields text.now) ≡ Some (f.0.now, f.1.now, f.2.now)) }
{
    let (first, after_first) = cut(text, b' ');
    let Some(rest) = after_first else {
        return None;
    };
    let (second, after_second) = cut(rest, b' ');
    let Some(rest) = after_second else {
        return None;
    };
    let (third, after_third) = cut(rest, b' ');
    if after_third.is_some() {
        return None;
    }
    if first.is_empty() || second.is_empty() || third.is_empty() {
        return None;
    }
    Some((first, second, third))
}

/// Reads what follows `c=`.
pub(crate) fn read_connection(text: &[u8]) -> Option<Address>
    ensures { result ≡ connection text.now }
{
    let Some((network, family, address)) = three_fields(text) else {
        return None;
    };
    if network == b"IN".as_slice() {
        Some(named(read_host(family, address)))
    } else {
        Some(Address::Unreadable)
    }
}

// Reads what follows the port and a space in an `a=rtcp` line.
fn read_rtcp_address(port: u16, text: &[u8]) -> Option<RtcpLine>
    ensures { result ≡ with_address port (three (fields text.now)) }
{
    let Some((network, family, address)) = three_fields(text) else {
        return None;
    };
    if network != b"IN".as_slice() {
        return None;
    }
    Some(RtcpLine {
        port,
        address: Some(named(read_host(family, address))),
    })
}

/// Reads what follows `a=rtcp:`.
pub(crate) fn read_rtcp(text: &[u8]) -> Option<RtcpLine>
    ensures { result ≡ rtcp text.now }
{
    let (first, rest) = cut(text, b' ');
    let Some(port) = read_port(first) else {
        return None;
    };
    if port == 0 {
        return None;
    }
    match rest {
        None => Some(RtcpLine {
            port,
            address: None,
        }),
        Some(rest) => read_rtcp_address(port, rest),
    }
}

/// What a line says. A line that can't be read says nothing.
pub(crate) fn role_of(line: &[u8]) -> Role
    ensures { result ≡ role line.now }
{
    if line.starts_with(b"m=") {
        match read_media(&line[2..]) {
            Some(media) => Role::Media(media),
            None => Role::Plain,
        }
    } else if line.starts_with(b"c=") {
        match read_connection(&line[2..]) {
            Some(address) => Role::Connection(address),
            None => Role::Plain,
        }
    } else if line.starts_with(b"a=rtcp:") {
        match read_rtcp(&line[7..]) {
            Some(rtcp) => Role::Rtcp(rtcp),
            None => Role::Plain,
        }
    } else if line == b"a=rtcp-mux".as_slice() {
        Role::Mux
    } else {
        Role::Plain
    }
}
