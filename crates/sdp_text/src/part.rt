ghost use Rattle.std.specs.Prelude.{◌≡◌, ◌<◌, ◌≤◌, ◌^◌, ◌-◌, length, IfOk};
ghost use Rattle.std.specs.List.{list_any};
ghost use Rattle.sdp_text.specs.Parts.{first_connection, parts_of_roles, is_active_line, is_unplaced, is_dtls_part, fault_line, earlier, address_fault, connection_fault, given_fault, rtcp_fault, count_fault, part_fault, served_fault};
ghost use Rattle.sdp_text.specs.Descriptions.{unplaced_fault, sections_fault};

use crate::bytes::OutOfMemory;
use crate::fault::SdpFault;
use crate::proto::Proto;
use crate::role::{Address, MediaLine, Role, RtcpLine};
use std::alloc::Global;

/// How many sections a description, and so a call, may have.
pub const MOST_SECTIONS: usize = 8;

/// A section with the lines that are in effect for it, and their numbers from 1.
#[derive(Clone, Copy)]
pub(crate) struct Part {
    /// The number of its `m=` line.
    pub(crate) line: u32,
    pub(crate) media: MediaLine,
    /// Its first `c=` line, else the first one of the session.
    pub(crate) connection: Option<(u32, Address)>,
    /// Its first `a=rtcp` line.
    pub(crate) rtcp: Option<(u32, RtcpLine)>,
    /// Whether one of its lines is `a=rtcp-mux`.
    pub(crate) mux: bool,
}

// The first `c=` line before the first `m=` line.
fn session_connection(roles: &[Role]) -> Option<(u32, Address)>
    requires { length roles.now < 2 ^ 32 - 1 }
    ensures { result ≡ first_connection 1 roles.now }
{
    let mut number = 1;
    for role in roles {
        match role {
            Role::Media(_) => return None,
            Role::Connection(address) => return Some((number, *address)),
            _ => {}
        }
        number += 1;
    }
    None
}

/// The sections of a description, from what its lines say. The lines are read from the last to the first,
/// so that of several `c=` lines of a section the first one stays.
pub(crate) fn parts_of(alloc: Global, roles: &[Role]) -> Result<Vec<Part>, OutOfMemory>
    requires { length roles.now < 2 ^ 32 - 1 }
    ensures parts { IfOk result (λ parts. parts.items ≡ parts_of_roles roles.now) }
    ensures few { IfOk result (λ parts. length parts.items ≤ length roles.now) }
{
    let session = session_connection(roles);
    let mut parts = Vec::new(alloc);
    let mut connection: Option<(u32, Address)> = None;
    let mut rtcp: Option<(u32, RtcpLine)> = None;
    let mut mux = false;
    let mut number = roles.len();
    while number > 0 {
        let line = number as u32;
        match roles[number - 1] {
            Role::Media(media) => {
                let part = Part {
                    line,
                    media,
                    connection: connection.or(session),
                    rtcp,
                    mux,
                };
                parts.push(part)?;
                connection = None;
                rtcp = None;
                mux = false;
            }
            Role::Connection(address) => connection = Some((line, address)),
            Role::Rtcp(at) => rtcp = Some((line, at)),
            Role::Mux => mux = true,
            Role::Plain => {}
        }
        number -= 1;
    }
    parts.reverse();
    Ok(parts)
}

/// Whether a section carries RTP: its port isn't 0, and its protocol is one of the four.
pub(crate) fn is_active(media: &MediaLine) -> bool
    ensures { result ≡ is_active_line media.now }
{
    media.port != 0 && !matches!(media.proto, Proto::Other)
}

fn is_unplaced(part: &Part) -> bool
    ensures { result ≡ is_unplaced part.now }
{
    is_active(&part.media)
        && (part.connection.is_none() || (part.media.port == u16::MAX && part.rtcp.is_none()))
}

// The first active section without an address or without a port for RTCP.
fn unplaced_fault(parts: &[Part]) -> Option<SdpFault>
    ensures { result ≡ unplaced_fault parts.now }
{
    for part in parts {
        if is_unplaced(part) {
            return Some(SdpFault::Line(part.line));
        }
    }
    None
}

fn asks_for_dtls(parts: &[Part]) -> bool
    ensures { result ≡ list_any is_dtls_part parts.now }
{
    for part in parts {
        if part.media.port != 0 && part.media.is_dtls {
            return true;
        }
    }
    false
}

fn line_of(fault: &SdpFault) -> u32
    ensures { result ≡ fault_line fault.now }
{
    match fault {
        SdpFault::Line(line) => *line,
        SdpFault::Address(line) => *line,
        SdpFault::PortCount(line) => *line,
        SdpFault::TooManyMedia(_) => 0,
        SdpFault::Dtls => 0,
        SdpFault::OutOfMemory => 0,
    }
}

// The fault of the earlier line.
fn earlier(first: Option<SdpFault>, second: Option<SdpFault>) -> Option<SdpFault>
    ensures { result ≡ earlier first second }
{
    let Some(a) = first else {
        return second;
    };
    let Some(b) = second else {
        return Some(a);
    };
    if line_of(&b) < line_of(&a) {
        Some(b)
    } else {
        Some(a)
    }
}

fn address_fault(line: u32, address: Address) -> Option<SdpFault>
    ensures { result ≡ address_fault line address }
{
    match address {
        Address::Known(_) => None,
        Address::Unreadable => Some(SdpFault::Address(line)),
    }
}

fn connection_fault(connection: Option<(u32, Address)>) -> Option<SdpFault>
    ensures { result ≡ connection_fault connection }
{
    match connection {
        Some((line, address)) => address_fault(line, address),
        None => None,
    }
}

fn given_fault(line: u32, address: Option<Address>) -> Option<SdpFault>
    ensures { result ≡ given_fault line address }
{
    match address {
        Some(address) => address_fault(line, address),
        None => None,
    }
}

fn rtcp_fault(rtcp: Option<(u32, RtcpLine)>) -> Option<SdpFault>
    ensures { result ≡ rtcp_fault rtcp }
{
    match rtcp {
        Some((line, rtcp)) => given_fault(line, rtcp.address),
        None => None,
    }
}

fn count_fault(part: &Part) -> Option<SdpFault>
    ensures { result ≡ count_fault part.now }
{
    if part.media.is_single {
        None
    } else {
        Some(SdpFault::PortCount(part.line))
    }
}

// The first line in effect for an active section that can't be served.
fn part_fault(part: &Part) -> Option<SdpFault>
    ensures { result ≡ part_fault part.now }
{
    if !is_active(&part.media) {
        return None;
    }
    let addresses = earlier(connection_fault(part.connection), rtcp_fault(part.rtcp));
    earlier(count_fault(part), addresses)
}

fn served_fault(parts: &[Part]) -> Option<SdpFault>
    ensures { result ≡ served_fault parts.now }
{
    let mut fault = None;
    let mut i = parts.len();
    while i > 0 {
        i -= 1;
        fault = earlier(part_fault(&parts[i]), fault);
    }
    fault
}

/// The first fault of the sections, in the order of the causes.
pub(crate) fn sections_fault(parts: &[Part]) -> Option<SdpFault>
    requires { length parts.now < 2 ^ 32 }
    ensures { result ≡ sections_fault parts.now }
{
    if let Some(fault) = unplaced_fault(parts) {
        return Some(fault);
    }
    if asks_for_dtls(parts) {
        return Some(SdpFault::Dtls);
    }
    let count = parts.len();
    if count > MOST_SECTIONS {
        return Some(SdpFault::TooManyMedia(count as u32));
    }
    served_fault(parts)
}
