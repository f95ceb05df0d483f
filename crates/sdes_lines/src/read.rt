//! Reading a crypto line, part by part from the left.

ghost use Rattle.std.specs.Prelude.{◌≡◌, ◌≢◌, ℕ, ◌≤◌, ◌++◌, ◌↔◌, List, length, take_while, codes, decimal, All, IsTrue, IfSome, IsSomeAnd, MatchOption};
ghost use Rattle.std.specs.Str.Parse.{AllDigits, digits_value};
ghost use Rattle.std.specs.Char.{is_ascii_digit};
ghost use Rattle.base64.specs.Engines.{standard};
ghost use Rattle.base64.specs.GeneralPurpose.{encode_of};
ghost use Rattle.sdes_lines.specs.declared.crypto_line.Suite.{Suite};
ghost use Rattle.sdes_lines.specs.CryptoLine.{IsUsable, IsTag, IsKey, IsLineEnd, suite_name};
ghost use Rattle.sdes_lines.specs.LineParts.{IsNumberThenSpaces, IsTagNumeral};

use crate::crypto_line::{CryptoLine, Suite};
use base64::engine::general_purpose::STANDARD;
use relay_outside::KeyAndSalt;

/// The tag, suite and key of a usable crypto line, and `None` of every other line.
/// The line comes without its line end. A lifetime is passed over; it isn't enforced.
pub fn usable(line: &[u8]) -> Option<CryptoLine>
    ensures sound { IfSome result (λ found. IsUsable line.now found.tag found.suite found.key) }

    // every way to read the line as a usable one is the one that is returned: so tag, suite and key
    // are determined by the line, and `None` means that it is usable in no way
    ensures complete { (tag : ℕ) (suite : Suite) (key : List ℕ) → IsUsable line.now tag suite key
        → result ≡ Some (record { tag = tag; suite = suite; key = key }) }
{
    let rest = rest_after(line, b"a=crypto:")?;
    let (tag, rest) = read_tag(rest)?;
    let rest = rest_after(rest, b" ")?;
    let (suite, rest) = read_suite(rest)?;
    let rest = rest_after(rest, b" inline:")?;
    let (key, end) = read_key(rest)?;
    if is_line_end(end) {
        Some(CryptoLine { tag, suite, key })
    } else {
        None
    }
}

/// What follows `prefix` in a text that begins with it.
fn rest_after<'a>(text: &'a [u8], prefix: &[u8]) -> Option<&'a [u8]>
    ensures { MatchOption result ((rest : List ℕ) → text.now ≢ prefix.now ++ rest)
        (λ rest. text.now ≡ prefix.now ++ rest.now) }
{
    text.strip_prefix(prefix)
}

/// How many digits the text begins with.
fn digit_count(text: &[u8]) -> usize
    ensures { result ≡ length (take_while is_ascii_digit text.now) }
{
    text.iter().take_while(|byte| byte.is_ascii_digit()).count()
}

/// The tag at the start of a text in which something else than a digit follows it, and what follows.
fn read_tag(text: &[u8]) -> Option<(u32, &[u8])>
    ensures sound { IfSome result (λ found. (text.now ≡ decimal found.0 ++ found.1.now) × IsTag found.0) }
    ensures complete { (tag : ℕ) (rest : List ℕ) → IsTag tag → text.now ≡ decimal tag ++ (codes " " ++ rest)
        → IsSomeAnd result (λ found. (found.0 ≡ tag) × (found.1.now ≡ codes " " ++ rest)) }
{
    let (digits, rest) = text.split_at(digit_count(text));
    let tag = tag_number(digits)?;
    Some((tag, rest))
}

/// The tag that these digits write.
fn tag_number(digits: &[u8]) -> Option<u32>
    requires { AllDigits 10 digits.now }
    ensures sound { IfSome result (λ tag. (digits.now ≡ decimal tag) × IsTag tag) }
    ensures complete { (tag : ℕ) → IsTag tag → digits.now ≡ decimal tag → result ≡ Some tag }
{
    if is_tag_numeral(digits) {
        Some(digits_number(digits))
    } else {
        None
    }
}

/// One to nine digits without a leading zero.
fn is_tag_numeral(digits: &[u8]) -> bool
    ensures { IsTrue result ↔ IsTagNumeral digits.now }
{
    match digits.len() {
        1 => true,
        2..=9 => digits[0] != b'0',
        _ => false,
    }
}

/// The number that these digits write.
fn digits_number(digits: &[u8]) -> u32
    requires digits { AllDigits 10 digits.now }
    requires short { length digits.now ≤ 9 }
    ensures { result ≡ digits_value 10 digits.now }
{
    let mut number = 0;
    for digit in digits {
        number = number * 10 + u32::from(*digit - b'0');
    }
    number
}

/// The suite at the start of a text, and what follows.
fn read_suite(text: &[u8]) -> Option<(Suite, &[u8])>
    ensures sound { IfSome result (λ found. text.now ≡ suite_name found.0 ++ found.1.now) }
    ensures complete { (suite : Suite) (rest : List ℕ) → text.now ≡ suite_name suite ++ rest
        → IsSomeAnd result (λ found. (found.0 ≡ suite) × (found.1.now ≡ rest)) }
{
    if let Some(rest) = rest_after(text, Suite::Tag80.name()) {
        return Some((Suite::Tag80, rest));
    }
    let rest = rest_after(text, Suite::Tag32.name())?;
    Some((Suite::Tag32, rest))
}

/// The key at the start of a text, and what follows.
fn read_key(text: &[u8]) -> Option<(KeyAndSalt, &[u8])>
    ensures sound { IfSome result (λ found. (text.now ≡ encode_of standard found.0 ++ found.1.now) × IsKey found.0) }
    ensures complete { (key rest : List ℕ) → IsKey key → text.now ≡ encode_of standard key ++ rest
        → IsSomeAnd result (λ found. (found.0 ≡ key) × (found.1.now ≡ rest)) }
{
    let (characters, rest) = text.split_first_chunk::<40>()?;
    let key = decode_key(characters)?;
    Some((key, rest))
}

/// The key that 40 characters of base64 stand for. Fewer than 30 bytes, after padding, are no key.
fn decode_key(characters: &[u8; 40]) -> Option<KeyAndSalt>
    ensures sound { IfSome result (λ key. (characters.now ≡ encode_of standard key) × IsKey key) }
    ensures complete { (key : List ℕ) → IsKey key → characters.now ≡ encode_of standard key → result ≡ Some key }
{
    let mut key = [0; 30];
    let Ok(decoded) = STANDARD.decode_slice(characters, &mut key) else {
        return None;
    };
    if decoded == 30 { Some(key) } else { None }
}

/// Nothing, or a lifetime, and then nothing but spaces.
fn is_line_end(text: &[u8]) -> bool
    ensures { IsTrue result ↔ IsLineEnd text.now }
{
    match rest_after(text, b"|") {
        None => is_spaces(text),
        Some(lifetime) => is_lifetime_and_spaces(lifetime),
    }
}

/// A lifetime, whose `|` was read, and then nothing but spaces.
fn is_lifetime_and_spaces(text: &[u8]) -> bool
    ensures { IsTrue result ↔ IsLineEnd (codes "|" ++ text.now) }
{
    match rest_after(text, b"2^") {
        None => is_number_and_spaces(text),
        Some(exponent) => is_number_and_spaces(exponent),
    }
}

/// Nothing but spaces.
fn is_spaces(text: &[u8]) -> bool
    ensures { IsTrue result ↔ All (λ byte. byte ≡ 32) text.now }
{
    text.iter().all(|byte| *byte == b' ')
}

/// One digit or more, and then nothing but spaces.
fn is_number_and_spaces(text: &[u8]) -> bool
    ensures { IsTrue result ↔ IsNumberThenSpaces text.now }
{
    let (digits, spaces) = text.split_at(digit_count(text));
    !digits.is_empty() && is_spaces(spaces)
}
