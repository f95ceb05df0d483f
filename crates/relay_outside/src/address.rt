/// An address of the Internet Protocol, its bytes in network order.
#[derive(Clone, Copy, PartialEq, Eq, Debug)]
pub enum Ip {
    /// Version 4 (RFC 791).
    V4([u8; 4]),
    /// Version 6 (RFC 4291).
    V6([u8; 16]),
}

/// The family of an address.
#[derive(Clone, Copy, PartialEq, Eq, Debug)]
pub enum Family {
    /// Version 4.
    V4,
    /// Version 6.
    V6,
}

impl Ip {
    ghost use Rattle.std.specs.Prelude.{◌≡◌};
    ghost use Rattle.relay_outside.specs.Settings.{ip_family};

    /// The family of the address.
    pub fn family(&self) -> Family
        ensures { result ≡ ip_family self.now }
    {
        match self {
            Ip::V4(_) => Family::V4,
            Ip::V6(_) => Family::V6,
        }
    }
}

/// A transport address: where a datagram comes from or goes to (RFC 768).
#[derive(Clone, Copy, PartialEq, Eq, Debug)]
pub struct Addr {
    /// The host's address.
    pub ip: Ip,
    /// The UDP port, 0 to 65,535.
    pub port: u16,
}
