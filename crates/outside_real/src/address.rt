use relay_outside::{Addr, Ip};
use std::net::{IpAddr, SocketAddr};

/// The address of a socket of the system.
pub fn socket_addr(at: Addr) -> SocketAddr {
    let ip = match at.ip {
        Ip::V4(bytes) => IpAddr::from(bytes),
        Ip::V6(bytes) => IpAddr::from(bytes),
    };
    SocketAddr::new(ip, at.port)
}

/// The address that a socket of the system has.
pub fn addr_of(address: SocketAddr) -> Addr {
    let ip = match address.ip() {
        IpAddr::V4(ip) => Ip::V4(ip.octets()),
        IpAddr::V6(ip) => Ip::V6(ip.octets()),
    };
    Addr {
        ip,
        port: address.port(),
    }
}
