//! The fields of a line that take no memory: words, numbers, addresses, keys.
ghost use Rattle.std.specs.Prelude.{◌≡◌, ◌==◌, ◌<◌, ◌≤◌, ◌^◌, ◌+◌, ◌++◌, ◌∷◌, ℕ, List, length, take, drop, decimal, position, MatchOption, IfSome, IfNone};
ghost use Rattle.ng_bencode.specs.Fits.{IsFreeOf};
ghost use Rattle.relay_outside.specs.declared.address.Addr.{Addr};
ghost use Rattle.relay_outside.specs.declared.address.Ip.{Ip};
ghost use Rattle.relay_script.specs.Fields.{IsNumber, IsCount, IsHostText, IsAddr, InBrackets};
ghost use Rattle.relay_script.specs.Lines.{IsKeyText};

use ng_bencode::{read_decimal, read_until};
use relay_outside::{Addr, Ip, KeyAndSalt};
use sdp_text::{Host, read_ipv4, read_ipv6};

/// What stands before and after the first space.
pub(crate) fn read_word(text: &[u8]) -> Option<(&[u8], &[u8])>
    ensures found { IfSome result (λ parts. text.now ≡ parts.0.now ++ 32 ∷ parts.1.now) }
    ensures first { IfSome result (λ parts. IsFreeOf 32 parts.0.now) }
    ensures missing { IfNone result ((front rest : List ℕ) → text.now ≡ front ++ 32 ∷ rest → ⊥) }
{
    read_until(text, b' ')
}

/// A moment.
pub(crate) fn read_moment(text: &[u8]) -> Option<u64>
    ensures { MatchOption result ((n : ℕ) → IsNumber (2 ^ 64) text.now n → ⊥) (λ n. IsNumber (2 ^ 64) text.now n) }
{
    read_decimal(text)
}

/// A port.
pub(crate) fn read_port(text: &[u8]) -> Option<u16>
    ensures { MatchOption result ((n : ℕ) → IsNumber (2 ^ 16) text.now n → ⊥) (λ n. IsNumber (2 ^ 16) text.now n) }
{
    let port = read_decimal(text)?;
    if port > 65_535 {
        return None;
    }
    Some(port as u16)
}

/// A count, or the number of a receipt.
pub(crate) fn read_count(text: &[u8]) -> Option<u32>
    ensures { MatchOption result ((n : ℕ) → IsCount text.now n → ⊥) (λ n. IsCount text.now n) }
{
    let count = read_decimal(text)?;
    if count == 0 || count > 4_294_967_295 {
        return None;
    }
    Some(count as u32)
}

/// An IPv6 address in brackets.
fn read_bracketed(text: &[u8]) -> Option<[u8; 16]>
    ensures { MatchOption result ((bytes : List ℕ) → InBrackets text.now bytes → ⊥) (λ bytes. InBrackets text.now bytes) }
{
    let len = text.len();
    if len < 2 || text[0] != b'[' || text[len - 1] != b']' {
        return None;
    }
    match read_ipv6(&text[1..len - 1]) {
        Some(Host::V6(bytes)) => Some(bytes),
        _ => None,
    }
}

/// The address of a host.
fn read_ip(text: &[u8]) -> Option<Ip>
    ensures { MatchOption result ((ip : Ip) → IsHostText text.now ip → ⊥) (λ ip. IsHostText text.now ip) }
{
    if let Some(Host::V4(bytes)) = read_ipv4(text) {
        return Some(Ip::V4(bytes));
    }
    match read_bracketed(text) {
        Some(bytes) => Some(Ip::V6(bytes)),
        None => None,
    }
}

/// The place of the last colon.
fn last_colon(text: &[u8]) -> Option<usize>
    ensures within { IfSome result (λ at. at < length text.now) }
    ensures found { IfSome result (λ at. text.now ≡ take at text.now ++ 58 ∷ drop (at + 1) text.now) }
    ensures last { MatchOption result (IsFreeOf 58 text.now) (λ at. IsFreeOf 58 (drop (at + 1) text.now)) }
{
    let mut at = text.len();
    while at > 0 {
        at -= 1;
        if text[at] == b':' {
            return Some(at);
        }
    }
    None
}

/// A host and a port, in a word.
pub(crate) fn read_addr(word: &[u8]) -> Option<Addr>
    requires { IsFreeOf 32 word.now }
    ensures { MatchOption result ((addr : Addr) → IsAddr word.now addr → ⊥) (λ addr. IsAddr word.now addr) }
{
    let at = last_colon(word)?;
    let ip = read_ip(&word[..at])?;
    let port = read_port(&word[at + 1..])?;
    Some(Addr { ip, port })
}

/// The 30 bytes of a key.
pub(crate) fn read_key(digits: &[u8]) -> Option<KeyAndSalt>
    ensures { MatchOption result ((bytes : List ℕ) → IsKeyText digits.now bytes → ⊥) (λ bytes. IsKeyText digits.now bytes) }
{
    let mut key = [0; 30];
    let Ok(()) = hex::decode_to_slice(digits, &mut key) else {
        return None;
    };
    let mut written = [0; 60];
    let _ = hex::encode_to_slice(key, &mut written);
    if written.as_slice() == digits {
        Some(key)
    } else {
        None
    }
}
