ghost use Rattle.std.specs.Prelude.{◌≡◌, ℕ, ◌+◌, ◌≤◌, ◌<◌, ◌^◌, ◌==◌, if◌then◌else◌, [], ◌∷◌, length, min, Some, None, IfSome, MatchOption};
ghost use Rattle.std.specs.List.{position_or_len};
ghost use Rattle.std.specs.Option.{option_map, option_copied};
ghost use Rattle.sdp_text.specs.Pieces.{pieces, pieces_after, fields, is_digit, are_filled, is_filled, number, at_most, port_number};

// The place of the first byte `stop`, or the length.
fn place_of(text: &[u8], stop: u8) -> usize
    ensures place { result ≡ position_or_len (λ b. b == stop) text.now }
    ensures within { result ≤ length text.now }
{
    for (i, byte) in text.iter().enumerate() {
        if *byte == stop {
            return i;
        }
    }
    text.len()
}

/// The piece before the first byte `stop`, and what follows that byte.
pub(crate) fn cut(text: &[u8], stop: u8) -> (&[u8], Option<&[u8]>)
    ensures pieces { pieces stop text.now ≡ result.0.now ∷ pieces_after stop (option_copied result.1) }
    ensures shorter { IfSome result.1 (λ rest. length rest.now < length text.now) }
    ensures sizes { MatchOption result.1 (result.0.now ≡ text.now) (λ rest. length result.0.now + 1 + length rest.now ≡ length text.now) }
{
    let at = place_of(text, stop);
    if at < text.len() {
        (&text[..at], Some(&text[at + 1..]))
    } else {
        (text, None)
    }
}

pub(crate) fn is_digit(byte: u8) -> bool
    ensures { result ≡ is_digit byte }
{
    byte >= b'0' && byte <= b'9'
}

/// The decimal number that a text is, and `greatest` in place of any greater one; leading zeros are allowed.
pub(crate) fn read_number(text: &[u8], greatest: u128) -> Option<u128>
    requires { greatest ≤ 2 ^ 64 }
    ensures { result ≡ option_map (min greatest) (number text.now) }
{
    if text.is_empty() {
        return None;
    }
    let mut value = 0;
    for byte in text {
        if !is_digit(*byte) {
            return None;
        }
        value = (10 * value + u128::from(*byte - b'0')).min(greatest);
    }
    Some(value)
}

/// The decimal number that a text is, where it is no greater than `most`; leading zeros are allowed.
pub fn read_number_up_to(text: &[u8], most: u64) -> Option<u64>
    ensures value { result ≡ at_most most (number text.now) }
    ensures within { IfSome result (λ value. value ≤ most) }
{
    let most = u128::from(most);
    let value = read_number(text, most + 1)?;
    if value <= most {
        Some(value as u64)
    } else {
        None
    }
}

/// A port: a decimal number of at most 65535.
pub(crate) fn read_port(text: &[u8]) -> Option<u16>
    ensures { result ≡ port_number text.now }
{
    match read_number_up_to(text, 65_535) {
        Some(port) => Some(port as u16),
        None => None,
    }
}

/// How many fields a text has, where none of them is empty.
pub(crate) fn count_filled(text: &[u8]) -> Option<usize>
    ensures { result ≡ (if are_filled (fields text.now) then Some (length (fields text.now)) else None) }
{
    let mut count = 0;
    let mut rest = text;
    loop {
        let (field, more) = cut(rest, b' ');
        if field.is_empty() {
            return None;
        }
        count += 1;
        match more {
            Some(after) => rest = after,
            None => return Some(count),
        }
    }
}
