//! What stands at the head of a text: a byte, a number, a byte string.
ghost use Rattle.std.specs.Prelude.{◌≡◌, ◌==◌, ◌<◌, ◌^◌, ◌++◌, ◌∷◌, ℕ, ℤ, List, [], length, decimal, position, MatchOption, IfSome, IfNone, FitsSigned};
ghost use Rattle.std.specs.Fmt.{signed_decimal};
ghost use Rattle.std.specs.Int.{w64};
ghost use Rattle.ng_bencode.specs.Spells.{string};
ghost use Rattle.ng_bencode.specs.Fits.{IsFreeOf};

use itoa::Buffer;

/// What ends an integer, a list and a dictionary.
pub(crate) const END: u8 = b'e';

/// What stands between the length of a byte string and its bytes.
const COLON: u8 = b':';

/// The first byte and what follows it. `None` at the end of the text.
pub(crate) fn read_head(bytes: &[u8]) -> Option<(u8, &[u8])>
    ensures { MatchOption result (bytes.now ≡ []) (λ parts. bytes.now ≡ parts.0 ∷ parts.1.now) }
{
    if bytes.is_empty() {
        return None;
    }
    Some((bytes[0], &bytes[1..]))
}

/// What follows the end of a list or a dictionary, where it ends here.
pub(crate) fn read_end(bytes: &[u8]) -> Option<&[u8]>
    ensures { MatchOption result
        ((rest : List ℕ) → bytes.now ≡ 101 ∷ rest → ⊥)
        (λ rest. bytes.now ≡ 101 ∷ rest.now) }
{
    if bytes.is_empty() || bytes[0] != END {
        return None;
    }
    Some(&bytes[1..])
}

/// What stands before and after the first `stop`. `None`: there is none.
pub fn read_until(bytes: &[u8], stop: u8) -> Option<(&[u8], &[u8])>
    ensures found { IfSome result (λ parts. bytes.now ≡ parts.0.now ++ stop ∷ parts.1.now) }
    ensures first { IfSome result (λ parts. IsFreeOf stop parts.0.now) }
    ensures missing { IfNone result ((front rest : List ℕ) → bytes.now ≡ front ++ stop ∷ rest → ⊥) }
{
    let Some(at) = first_place(bytes, stop) else {
        return None;
    };
    Some((&bytes[..at], &bytes[at + 1..]))
}

fn first_place(bytes: &[u8], stop: u8) -> Option<usize>
    ensures place { result ≡ position (λ byte. byte == stop) bytes.now }
    ensures within { IfSome result (λ at. at < length bytes.now) }
{
    bytes.iter().position(|byte| *byte == stop)
}

/// The integer that these bytes write, where they write one as an i64 is written.
fn read_signed(digits: &[u8]) -> Option<i64>
    ensures number { MatchOption result
        ((z : ℤ) → FitsSigned w64 z → digits.now ≡ signed_decimal z → ⊥)
        (λ z. digits.now ≡ signed_decimal z) }
    ensures fits { IfSome result (λ z. FitsSigned w64 z) }
{
    let Ok(text) = str::from_utf8(digits) else {
        return None;
    };
    let Ok(number) = text.parse::<i64>() else {
        return None;
    };
    let mut buffer = Buffer::new();
    if buffer.format(number).as_bytes() == digits {
        Some(number)
    } else {
        None
    }
}

/// The number that these bytes write, where they write one below 2^64 in decimal without a leading zero.
///
/// For lengths and scripts. Ports, octets and options may have leading zeros
/// (`sdp_text::read_number_up_to`), and `sdes_lines` reads tags itself, so as not to stand above
/// bencode.
pub fn read_decimal(digits: &[u8]) -> Option<u64>
    ensures { MatchOption result
        ((n : ℕ) → n < 2 ^ 64 → digits.now ≡ decimal n → ⊥)
        (λ n. digits.now ≡ decimal n) }
{
    let Ok(text) = str::from_utf8(digits) else {
        return None;
    };
    let Ok(value) = text.parse::<u64>() else {
        return None;
    };
    let mut buffer = Buffer::new();
    if buffer.format(value).as_bytes() == digits {
        Some(value)
    } else {
        None
    }
}

/// An integer after its `i`, and what follows its `e`.
pub(crate) fn read_int(bytes: &[u8]) -> Option<(i64, &[u8])>
    ensures number { MatchOption result
        ((z : ℤ) (rest : List ℕ) → FitsSigned w64 z → bytes.now ≡ signed_decimal z ++ 101 ∷ rest → ⊥)
        (λ parts. bytes.now ≡ signed_decimal parts.0 ++ 101 ∷ parts.1.now) }
    ensures fits { IfSome result (λ parts. FitsSigned w64 parts.0) }
{
    let Some((digits, rest)) = read_until(bytes, END) else {
        return None;
    };
    match read_signed(digits) {
        Some(number) => Some((number, rest)),
        None => None,
    }
}

/// The length of a byte string, and what follows its colon.
fn read_length(bytes: &[u8]) -> Option<(usize, &[u8])>
    ensures { MatchOption result
        ((n : ℕ) (rest : List ℕ) → n < 2 ^ 64 → bytes.now ≡ decimal n ++ 58 ∷ rest → ⊥)
        (λ parts. bytes.now ≡ decimal parts.0 ++ 58 ∷ parts.1.now) }
{
    let Some((digits, rest)) = read_until(bytes, COLON) else {
        return None;
    };
    match read_decimal(digits) {
        Some(len) => Some((len as usize, rest)),
        None => None,
    }
}

/// A byte string, and what follows it.
pub(crate) fn read_string(bytes: &[u8]) -> Option<(&[u8], &[u8])>
    ensures string { MatchOption result
        ((text rest : List ℕ) → length text < 2 ^ 64 → bytes.now ≡ string text ++ rest → ⊥)
        (λ parts. bytes.now ≡ string parts.0.now ++ parts.1.now) }
    ensures fits { IfSome result (λ parts. length parts.0.now < 2 ^ 64) }
{
    let Some((len, rest)) = read_length(bytes) else {
        return None;
    };
    if len > rest.len() {
        return None;
    }
    Some((&rest[..len], &rest[len..]))
}
