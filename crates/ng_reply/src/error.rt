ghost use Rattle.std.specs.Prelude.{◌≡◌, ◌+◌, ◌<◌, ◌≤◌, ◌++◌, length, take, codes};
ghost use Rattle.ng_reply.specs.Replies.{error_datagram};

use crate::code::ErrorCode;
use crate::words::code_text;
use itoa::Buffer;

/// Writes the datagram of an error, the cookie, a space and the reply, and returns its length.
/// It takes no memory. What stands in `out` after the datagram is left open.
pub fn fixed_error(cookie: &[u8], code: ErrorCode, out: &mut [u8; 512]) -> usize
    requires some { 0 < length cookie.now }
    requires short { length cookie.now ≤ 255 }
    ensures within { result ≤ 512 }
    ensures datagram { take result out.new ≡ error_datagram cookie.now code }
{
    let words = code_text(code);
    let text = words.as_slice();
    let mut buffer = Buffer::new();
    let len = buffer.format(text.len()).as_bytes();
    let at = put(out, 0, cookie);
    let at = put(out, at, b" d12:error-reason");
    let at = put(out, at, len);
    let at = put(out, at, b":");
    let at = put(out, at, text);
    put(out, at, b"6:result5:errore")
}

/// Writes bytes at a place, and returns the place after them.
pub(crate) fn put(out: &mut [u8; 512], at: usize, bytes: &[u8]) -> usize
    requires { at + length bytes.now ≤ 512 }
    ensures place { result ≡ at + length bytes.now }
    ensures front { take result out.new ≡ take at out.old ++ bytes.now }
{
    out[at..at + bytes.len()].copy_from_slice(bytes);
    at + bytes.len()
}
