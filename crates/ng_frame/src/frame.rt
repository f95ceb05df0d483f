ghost use Rattle.std.specs.Prelude.{◌≡◌, ◌++◌, ◌∷◌, ◌==◌, ◌<◌, ℕ, List, Some, None, length, position, MatchOption, IfSome, IfNone, IfOk};
ghost use Rattle.ng_frame.specs.Frame.{IsFrame, frame};

use ng_bencode::{OutOfMemory, Text};
use std::alloc::Global;

/// The shortest and the longest cookie, in bytes.
const MIN_COOKIE: usize = 1;

const MAX_COOKIE: usize = 255;

/// The cookie and the body of a datagram: the bytes before and after its first space.
/// `None` where no space stands among the first 256 bytes, or the first byte is one.
pub fn split(datagram: &[u8]) -> Option<(&[u8], &[u8])>
    ensures found { IfSome result (λ parts. IsFrame datagram.now parts.0.now parts.1.now) }
    ensures missing { IfNone result ((cookie body : List ℕ) → IsFrame datagram.now cookie body → ⊥) }
    ensures frame { MatchOption result
        (frame datagram.now ≡ None)
        (λ parts. frame datagram.now ≡ Some (parts.0.now, parts.1.now)) }
{
    let Some(at) = first_space(datagram) else {
        return None;
    };
    if at < MIN_COOKIE || at > MAX_COOKIE {
        return None;
    }
    Some((&datagram[..at], &datagram[at + 1..]))
}

/// Where the first space stands, among the bytes that may hold one.
fn first_space(datagram: &[u8]) -> Option<usize>
    ensures place { result ≡ position (λ byte. byte == 32) datagram.now }
    ensures within { IfSome result (λ at. at < length datagram.now) }
{
    datagram.iter().position(|byte| *byte == b' ')
}

/// The datagram of a cookie and a body: the cookie, a space, the body.
pub fn join(alloc: Global, cookie: &[u8], body: &[u8]) -> Result<Text, OutOfMemory>
    ensures { IfOk result (λ datagram. datagram.list ≡ cookie.now ++ 32 ∷ body.now) }
{
    let parts = cookie.len().checked_add(body.len()).ok_or(OutOfMemory)?;
    let len = parts.checked_add(1).ok_or(OutOfMemory)?;
    let mut datagram = Text::new(alloc);
    datagram.reserve(len)?;
    datagram.extend(cookie);
    datagram.push(b' ');
    datagram.extend(body);
    Ok(datagram)
}

/// A datagram's frame is where its bytes say so: `frame`, which looks for the first space, gives
/// exactly the cookie and the body of which the datagram consists, so that there is one such pair at most.
pub fn one_frame()
    ensures found { (datagram cookie body : List ℕ) →
        IsFrame datagram cookie body → frame datagram ≡ Some (cookie, body) }
    ensures real { (datagram cookie body : List ℕ) →
        frame datagram ≡ Some (cookie, body) → IsFrame datagram cookie body }
{}
