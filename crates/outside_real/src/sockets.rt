ghost use Rattle.std.specs.Prelude.{◌≡◌, ◌+◌, ◌≤◌, ◌↔◌, pos, ◌≤ℤ◌, ◌++◌, ℕ, List, length, IsOk};
ghost use Rattle.std.specs.Net.SockAddr.{in_storage};
ghost use Rattle.outside_real.specs.Sockets.{sockaddr_in6};

use crate::address::socket_addr;
use libc::net as c;
use os::FromRawFd;
use relay_outside::{Addr, Ip};
use std::io;
use std::net::{Net, UdpSocket};
use std::os::fd::{AsRawFd, OwnedFd};

/// How many bytes C's `sockaddr_in6` has.
const V6_LEN: u32 = 28;

/// An `int` of 1 as the value of an option.
const ON: [u8; 16] = [1, 0, 0, 0, 0, 0, 0, 0, 0, 0, 0, 0, 0, 0, 0, 0];

/// The flow and the zone of an address that has neither.
const NO_FLOW: [u8; 4] = [0, 0, 0, 0];

const NO_ZONE: [u8; 4] = [0, 0, 0, 0];

/// A UDP socket that is bound here and never waits.
///
/// One of version 6 is of that version alone (RFC 3493 section 5.3): at whatever address it is bound, the socket of version 4 with its port can be
/// opened too, and no datagram of version 4 comes in at it. An IPv4-mapped address is an error then.
pub(crate) fn bind<R: Net>(net: &R, at: Addr) -> io::Result<UdpSocket> {
    match at.ip {
        Ip::V4(_) => {
            let socket = UdpSocket::bind(net, socket_addr(at))?;
            socket.set_nonblocking(true)?;
            Ok(socket)
        }
        Ip::V6(ip) => bind_v6(ip, at.port),
    }
}

/// A UDP socket of version 6 alone, as `bind` says. The standard library has none: its sockets are bound before an option can be set.
fn bind_v6(ip: [u8; 16], port: u16) -> io::Result<UdpSocket> {
    let kind = c::SOCK_DGRAM | c::SOCK_NONBLOCK | c::SOCK_CLOEXEC;
    let number = unsafe { c::socket(c::AF_INET6, kind, 0) };
    check(number)?;
    let socket = unsafe { OwnedFd::from_raw_fd(number) };
    let number = socket.as_raw_fd();
    check(unsafe { c::setsockopt(number, c::IPPROTO_IPV6, c::IPV6_V6ONLY, &ON, 4) })?;
    check(unsafe { c::bind(number, &sockaddr_in6(ip, port), V6_LEN) })?;
    Ok(UdpSocket::from(socket))
}

/// The system's error, where a call of C's answered that it failed.
fn check(answer: i32) -> io::Result<()>
    ensures { IsOk result ↔ (pos 0 ≤ℤ answer) }
{
    if answer < 0 {
        Err(io::Error::from_raw_os_error(os::errno()))
    } else {
        Ok(())
    }
}

/// Writes the next field of an address.
fn put(raw: &mut [u8; c::_SS_SIZE], at: usize, bytes: &[u8])
    requires { at + length bytes.now ≤ 128 }
    ensures { (front : List ℕ) → length front ≡ at → raw.old ≡ in_storage front → raw.new ≡ in_storage (front ++ bytes.now) }
{
    raw[at..at + bytes.len()].copy_from_slice(bytes);
}

/// The bytes of an address as C's calls take it.
fn sockaddr_in6(ip: [u8; 16], port: u16) -> [u8; c::_SS_SIZE]
    ensures { result ≡ in_storage (sockaddr_in6 ip port) }
{
    let mut raw = [0; c::_SS_SIZE];
    put(&mut raw, 0, &(c::AF_INET6 as u16).to_ne_bytes());
    put(&mut raw, 2, &port.to_be_bytes());
    put(&mut raw, 4, &NO_FLOW);
    put(&mut raw, 8, &ip);
    put(&mut raw, 24, &NO_ZONE);
    raw
}
