ghost use Rattle.std.specs.Prelude.{◌≡◌, ◌==◌};
ghost use Rattle.std.specs.List.{list_all};
ghost use Rattle.sdp_text.specs.Hosts.{octet, ipv4_bytes, ipv4, ipv6, host_of, is_unspecified, is_v6};

use crate::group::eight_groups;
use crate::piece::{cut, read_number_up_to};

/// The address of a host: bytes in network order.
#[derive(Clone, Copy, Debug, PartialEq, Eq)]
pub enum Host {
    /// An IPv4 address.
    V4([u8; 4]),
    /// An IPv6 address.
    V6([u8; 16]),
}

fn read_octet(text: &[u8]) -> Option<u8>
    ensures { result ≡ octet text.now }
{
    match read_number_up_to(text, 255) {
        Some(octet) => Some(octet as u8),
        None => None,
    }
}

fn read_ipv4_bytes(text: &[u8]) -> Option<[u8; 4]>
    ensures { result ≡ ipv4_bytes text.now }
{
    let (first, rest) = cut(text, b'.');
    let a = read_octet(first)?;
    let (second, rest) = cut(rest?, b'.');
    let b = read_octet(second)?;
    let (third, rest) = cut(rest?, b'.');
    let c = read_octet(third)?;
    let (fourth, rest) = cut(rest?, b'.');
    let d = read_octet(fourth)?;
    match rest {
        None => Some([a, b, c, d]),
        Some(_) => None,
    }
}

/// Reads four decimal numbers of at most 255 joined by dots. Leading zeros are allowed.
pub fn read_ipv4(text: &[u8]) -> Option<Host>
    ensures { result ≡ ipv4 text.now }
{
    match read_ipv4_bytes(text) {
        Some(bytes) => Some(Host::V4(bytes)),
        None => None,
    }
}

/// Reads an IPv6 address: eight groups of one to four hexadecimal digits, or fewer with one `::` for at
/// least one group (RFC 4291 section 2.2). Zones and forms with a dotted part are not read.
pub fn read_ipv6(text: &[u8]) -> Option<Host>
    ensures { result ≡ ipv6 text.now }
{
    match eight_groups(text) {
        Some(groups) => Some(Host::V6(groups.bytes())),
        None => None,
    }
}

/// Reads an address of the family `IP4` or `IP6`. Any other family has none.
pub fn read_host(family: &[u8], text: &[u8]) -> Option<Host>
    ensures { result ≡ host_of family.now text.now }
{
    if family == b"IP4".as_slice() {
        read_ipv4(text)
    } else if family == b"IP6".as_slice() {
        read_ipv6(text)
    } else {
        None
    }
}

fn all_zero(bytes: &[u8]) -> bool
    ensures { result ≡ list_all (λ b. b == 0) bytes.now }
{
    bytes.iter().all(|b| *b == 0)
}

impl Host {
    /// Whether this is `0.0.0.0` or `::`.
    pub fn is_unspecified(&self) -> bool
        ensures { result ≡ is_unspecified self.now }
    {
        match self {
            Host::V4(bytes) => all_zero(bytes),
            Host::V6(bytes) => all_zero(bytes),
        }
    }

    /// Whether this is an IPv6 address.
    pub fn is_v6(&self) -> bool
        ensures { result ≡ is_v6 self.now }
    {
        match self {
            Host::V4(_) => false,
            Host::V6(_) => true,
        }
    }
}
