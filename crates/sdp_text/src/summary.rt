ghost use Rattle.std.specs.Prelude.{◌≡◌, map, IfOk};
ghost use Rattle.sdp_text.specs.Parts.{lower, v6_address, v6_connection, v6_given, v6_rtcp, v6_part, v6_line, is_active_line, known, connection_host, next_port, rtcp_port, given_host, rtcp_host, is_held, section_of};

use crate::bytes::OutOfMemory;
use crate::host::Host;
use crate::part::{Part, is_active};
use crate::role::{Address, RtcpLine};
use crate::section::Section;
use std::alloc::Global;

// The lower of two line numbers.
fn lower(first: Option<u32>, second: Option<u32>) -> Option<u32>
    ensures { result ≡ lower first second }
{
    let Some(a) = first else {
        return second;
    };
    let Some(b) = second else {
        return Some(a);
    };
    if b < a { Some(b) } else { Some(a) }
}

fn v6_address(line: u32, address: Address) -> Option<u32>
    ensures { result ≡ v6_address line address }
{
    match address {
        Address::Known(host) => { if host.is_v6() { Some(line) } else { None } }
        Address::Unreadable => None,
    }
}

fn v6_connection(connection: Option<(u32, Address)>) -> Option<u32>
    ensures { result ≡ v6_connection connection }
{
    match connection {
        Some((line, address)) => v6_address(line, address),
        None => None,
    }
}

fn v6_given(line: u32, address: Option<Address>) -> Option<u32>
    ensures { result ≡ v6_given line address }
{
    match address {
        Some(address) => v6_address(line, address),
        None => None,
    }
}

fn v6_rtcp(rtcp: Option<(u32, RtcpLine)>) -> Option<u32>
    ensures { result ≡ v6_rtcp rtcp }
{
    match rtcp {
        Some((line, rtcp)) => v6_given(line, rtcp.address),
        None => None,
    }
}

fn v6_part(part: &Part) -> Option<u32>
    ensures { result ≡ v6_part part.now }
{
    if is_active(&part.media) {
        lower(v6_connection(part.connection), v6_rtcp(part.rtcp))
    } else {
        None
    }
}

/// The first line in effect for an active section that names an IPv6 address.
pub(crate) fn v6_line(parts: &[Part]) -> Option<u32>
    ensures { result ≡ v6_line parts.now }
{
    let mut line = None;
    let mut i = parts.len();
    while i > 0 {
        i -= 1;
        line = lower(v6_part(&parts[i]), line);
    }
    line
}

fn known(address: Address) -> Option<Host>
    ensures { result ≡ known address }
{
    match address {
        Address::Known(host) => Some(host),
        Address::Unreadable => None,
    }
}

fn connection_host(connection: Option<(u32, Address)>) -> Option<Host>
    ensures { result ≡ connection_host connection }
{
    match connection {
        Some((_, address)) => known(address),
        None => None,
    }
}

fn next_port(port: u16) -> u16
    ensures { result ≡ next_port port }
{
    if port == u16::MAX { 0 } else { port + 1 }
}

fn rtcp_port(port: u16, rtcp: Option<(u32, RtcpLine)>) -> u16
    ensures { result ≡ rtcp_port port rtcp }
{
    match rtcp {
        Some((_, rtcp)) => rtcp.port,
        None => next_port(port),
    }
}

fn given_host(host: Option<Host>, address: Option<Address>) -> Option<Host>
    ensures { result ≡ given_host host address }
{
    match address {
        Some(address) => known(address),
        None => host,
    }
}

fn rtcp_host(host: Option<Host>, rtcp: Option<(u32, RtcpLine)>) -> Option<Host>
    ensures { result ≡ rtcp_host host rtcp }
{
    match rtcp {
        Some((_, rtcp)) => given_host(host, rtcp.address),
        None => host,
    }
}

fn is_held(host: Option<Host>) -> bool
    ensures { result ≡ is_held host }
{
    match host {
        Some(host) => host.is_unspecified(),
        None => false,
    }
}

fn section_of(part: &Part) -> Section
    ensures { result ≡ section_of part.now }
{
    let address = connection_host(part.connection);
    Section {
        line: part.line,
        port: part.media.port,
        proto: part.media.proto,
        address,
        rtcp_port: rtcp_port(part.media.port, part.rtcp),
        rtcp_address: rtcp_host(address, part.rtcp),
        hold: is_held(address),
        mux: part.mux,
    }
}

/// The sections as callers see them.
pub(crate) fn sections_of(alloc: Global, parts: &[Part]) -> Result<Vec<Section>, OutOfMemory>
    ensures { IfOk result (λ sections. sections.items ≡ map section_of parts.now) }
{
    let mut sections = Vec::new(alloc);
    for part in parts {
        sections.push(section_of(part))?;
    }
    Ok(sections)
}
