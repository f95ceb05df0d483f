//! Strings that stand for any bytes.
ghost use Rattle.std.specs.Prelude.{◌≡◌, ◌≤◌, ◌<◌, ◌+◌, ◌*◌, ◌++◌, ◌∷◌, [], ℕ, length, MatchOption, IfOk, OnOk, IfSome, ◌&&◌, not};
ghost use Rattle.std.specs.Char.{digit_char};
ghost use Rattle.std.specs.Str.{is_utf8};
ghost use Rattle.json.specs.Print.{escape_letter, escape_byte, quoted};
ghost use Rattle.ng_json.specs.Strings.{value_of_digit, byte_of_digits, hex_text, bytes_in_hex, bytes_of_string, string_of_bytes, is_marked};

use ng_bencode::{OutOfMemory, Text};
use std::alloc::Global;

/// Whether a string begins with `x:`.
fn is_marked(text: &[u8]) -> bool
    ensures { result ≡ is_marked text.now }
{
    text.len() >= 2 && text[0] == b'x' && text[1] == b':'
}

/// The first byte and what follows it.
fn read_head(text: &[u8]) -> Option<(u8, &[u8])>
    ensures { MatchOption result (text.now ≡ []) (λ parts. text.now ≡ parts.0 ∷ parts.1.now) }
{
    if text.is_empty() {
        return None;
    }
    Some((text[0], &text[1..]))
}

/// The number that a hexadecimal digit in lower case stands for.
fn value_of_digit(digit: u8) -> Option<u8>
    ensures value { result ≡ value_of_digit digit }
    ensures small { IfSome result (λ value. value < 16) }
{
    match digit {
        b'0'..=b'9' => Some(digit - b'0'),
        b'a'..=b'f' => Some(digit - 87),
        _ => None,
    }
}

/// The byte that two digits stand for.
fn byte_of_digits(high: u8, low: u8) -> Option<u8>
    ensures { result ≡ byte_of_digits high low }
{
    let high = value_of_digit(high)?;
    let low = value_of_digit(low)?;
    Some(16 * high + low)
}

/// The bytes that digits stand for. `None`: they are no even number of hexadecimal digits in lower case.
fn bytes_in_hex(alloc: Global, digits: &[u8]) -> Result<Option<Text>, OutOfMemory>
    ensures { IfOk result (λ found. MatchOption found
        (bytes_in_hex digits.now ≡ None)
        (λ bytes. bytes_in_hex digits.now ≡ Some bytes.list)) }
{
    let mut bytes = Text::new(alloc);
    bytes.reserve(digits.len() / 2)?;
    let mut rest = digits;
    'digits: loop {
        let Some((high, more)) = read_head(rest) else {
            return Ok(Some(bytes));
        };
        let Some((low, more)) = read_head(more) else {
            return Ok(None);
        };
        let Some(byte) = byte_of_digits(high, low) else {
            return Ok(None);
        };
        bytes.push(byte);
        rest = more;
    }
}

/// The bytes that a JSON string stands for.
pub(crate) fn bytes_of_string(alloc: Global, text: &[u8]) -> Result<Text, OutOfMemory>
    ensures { IfOk result (λ bytes. bytes.list ≡ bytes_of_string text.now) }
{
    if !is_marked(text) {
        return Text::copy_of(alloc, text);
    }
    match bytes_in_hex(alloc, &text[2..])? {
        Some(bytes) => Ok(bytes),
        None => Text::copy_of(alloc, text),
    }
}

/// A hexadecimal digit in lower case.
fn digit(value: u8) -> u8
    requires { value < 16 }
    ensures { result ≡ digit_char value }
{
    if value < 10 { b'0' + value } else { 87 + value }
}

/// Whether bytes are written as they are.
fn is_plain(bytes: &[u8]) -> bool
    ensures { result ≡ (is_utf8 bytes.now && not (is_marked bytes.now)) }
{
    match str::from_utf8(bytes) {
        Ok(_) => !is_marked(bytes),
        Err(_) => false,
    }
}

/// Puts two digits for each byte at the end.
fn put_hex(out: &mut Text, bytes: &[u8])
    requires { 2 * length bytes.now ≤ out.old.spare }
    ensures list { out.new.list ≡ out.old.list ++ hex_text bytes.now }
    ensures room { out.old.spare ≤ out.new.spare + 2 * length bytes.now }
{
    for byte in bytes {
        out.push(digit(*byte / 16));
        out.push(digit(*byte % 16));
    }
}

/// The string by which bytes are written.
pub(crate) fn string_of_bytes(alloc: Global, bytes: &[u8]) -> Result<Text, OutOfMemory>
    ensures { IfOk result (λ text. text.list ≡ string_of_bytes bytes.now) }
{
    if is_plain(bytes) {
        return Text::copy_of(alloc, bytes);
    }
    let digits = bytes.len().checked_mul(2).ok_or(OutOfMemory)?;
    let len = digits.checked_add(2).ok_or(OutOfMemory)?;
    let mut text = Text::new(alloc);
    text.reserve(len)?;
    text.extend(b"x:");
    put_hex(&mut text, bytes);
    Ok(text)
}

/// The letter of a byte's short escape. `None`: it has none.
fn escape_letter(byte: u8) -> Option<u8>
    ensures { MatchOption result (escape_letter byte ≡ 0) (λ letter. (escape_letter byte ≡ letter) × (0 < letter)) }
{
    match byte {
        b'"' | b'\\' => Some(byte),
        8 => Some(b'b'),
        12 => Some(b'f'),
        10 => Some(b'n'),
        13 => Some(b'r'),
        9 => Some(b't'),
        _ => None,
    }
}

/// Puts at the end what stands in a JSON string for a byte.
fn put_escaped(out: &mut Text, byte: u8)
    requires { 6 ≤ out.old.spare }
    ensures list { out.new.list ≡ out.old.list ++ escape_byte byte }
    ensures room { out.old.spare ≤ out.new.spare + 6 }
{
    if let Some(letter) = escape_letter(byte) {
        out.push(b'\\');
        out.push(letter);
    } else if byte < 32 {
        out.extend(b"\\u00");
        out.push(digit(byte / 16));
        out.push(digit(byte % 16));
    } else {
        out.push(byte);
    }
}

/// Puts a string in quotes at the end. It takes no memory.
pub(crate) fn put_quoted(out: &mut Text, text: &[u8])
    requires { 6 * length text.now + 2 ≤ out.old.spare }
    ensures list { out.new.list ≡ out.old.list ++ quoted text.now }
    ensures room { out.old.spare ≤ out.new.spare + (6 * length text.now + 2) }
{
    out.push(b'"');
    for byte in text {
        put_escaped(out, *byte);
    }
    out.push(b'"');
}

/// Puts at the end the JSON string by which bytes are written, in quotes. It takes no memory.
pub fn put_bytes(out: &mut Text, bytes: &[u8])
    requires { 6 * length bytes.now + 4 ≤ out.old.spare }
    ensures list { out.new.list ≡ out.old.list ++ quoted (string_of_bytes bytes.now) }
    ensures room { out.old.spare ≤ out.new.spare + (6 * length bytes.now + 4) }
{
    if is_plain(bytes) {
        put_quoted(out, bytes);
        return;
    }
    out.extend(b"\"x:");
    put_hex(out, bytes);
    out.push(b'"');
}
