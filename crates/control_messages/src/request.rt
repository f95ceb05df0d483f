//! A control datagram.
ghost use Rattle.std.specs.Prelude.{◌≡◌};
ghost use Rattle.call_board.specs.Dialects.{is_json};

use relay_outside::Addr;

/// A control datagram that has a frame.
#[derive(Clone, Copy)]
pub struct Request<'a> {
    /// Where it came from.
    pub source: Addr,
    /// Its cookie, of 1 to 255 bytes.
    pub cookie: &'a [u8],
    /// Its body, whose dialect is that of the reply.
    pub body: &'a [u8],
    /// Whether it has more bytes than a datagram may have: it filled 16,385.
    pub too_long: bool,
}

/// Whether a body is JSON: it begins with `{`. Every other is bencode.
pub fn is_json(body: &[u8]) -> bool
    ensures { result ≡ is_json body.now }
{
    !body.is_empty() && body[0] == b'{'
}
